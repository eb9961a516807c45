//! Engines are caught up with the metalog, one or all of them, and lose what they had.
ghost use Rattle.std.specs.Prelude.{◌≡◌, ◌≤◌, ◌<◌, ◌+◌, ◌^◌, ℕ, [], length, IfOk, OnErr, OnOk, IsTrue, All, slice_index_or};
ghost use Rattle.lru.specs.LruCache.{lru_cache};
ghost use Rattle.boki_model.specs.OrderLaws.{CountsGrow};
ghost use Rattle.meta_order.specs.MetalogState.{AreOrdered};
ghost use Rattle.eng_index.specs.IndexState.{IsIndexOf};
ghost use Rattle.book_api.specs.Books.{HasEngine, log_of, IsCaughtUp, AreCaughtUp, restarted, PositionRises, PositionsRise};
ghost use Rattle.book_api.specs.Inside.{IsView, log_in, position_of, CatchesUp, EachCatchesUp};

use crate::book::Book;
use crate::ordering::record_of;
use aux_cache::Cache;
use eng_index::Index;
use engine_gate::Gate;
use lb_base::{List, Memory, Seqnum};
use meta_order::Metalog;
use shard_store::Shards;
use std::alloc::Global;
use std::thread;
use std::thread::Threads;

impl Book {
    /// Catches the engine up: its position is then the metalog's length, which is answered. After `Memory` the position is
    /// between the old one and that.
    pub fn catch_up(&mut self, engine: u32) -> Result<u64, Memory>
        requires { HasEngine engine self.old }
        ensures ok { IfOk result (IsCaughtUp engine self.old self.new) }
        ensures err { OnErr result (PositionRises engine self.old self.new) }
    {
        let index = &mut self.indexes[(engine - 1) as usize];
        catch_index(&self.shards, &self.metalog, index)?;
        Ok(self.metalog.length())
    }

    /// Catches each engine up, as `catch_up` of each in turn does, and answers the metalog's length. It passes the gate once for each
    /// engine before it catches that engine up: in a thread for each, or in the calling thread where all engines together are
    /// fewer than `gate.thread_threshold()` records behind. After `Memory` each position is between its old one and the metalog's length.
    pub fn catch_all<G: Gate + Sync, R: Threads + Sync>(
        &mut self,
        rt: &R,
        gate: &G,
    ) -> Result<u64, Memory>
        ensures ok { IfOk result (AreCaughtUp self.old self.new) }
        ensures err { OnErr result (PositionsRise self.old self.new) }
    {
        catch_indexes(rt, &self.shards, &self.metalog, &mut self.indexes, gate);
        let end = self.metalog.length();
        if !are_at(&self.indexes, end) {
            return Err(Memory);
        }
        Ok(end)
    }

    /// A new index of all ordered records, whatever the engines see of them. It is the caller's, and takes in nothing that is
    /// ordered later.
    pub fn whole(&self, alloc: Global) -> Result<Index, Memory>
        ensures { IfOk result (IsIndexOf (log_of self.now)) }
    {
        let mut index = Index::new(alloc)?;
        catch_index(&self.shards, &self.metalog, &mut index)?;
        Ok(index)
    }

    /// Takes from the engine what it had in memory: its position is 0, and it has no auxiliary data. It takes no memory, and keeps
    /// the room of the engine's index: that of its table of tags, and of each tag's list. Its time grows with the number of these
    /// tags. No clause says so.
    pub fn restart(&mut self, engine: u32)
        requires { HasEngine engine self.old }
        ensures { self.new ≡ restarted engine self.old }
    {
        let index = (engine - 1) as usize;
        lose(&mut self.indexes[index], &mut self.aux[index]);
    }
}

// Takes out what an engine has in memory.
fn lose(index: &mut Index, aux: &mut Cache<List<u8>>)
    ensures index { IsIndexOf [] index.new }
    ensures aux { aux.new ≡ lru_cache [] aux.old.cap }
{
    index.clear();
    aux.clear();
}

/// Adds the ordered records that the index lacks. After `Memory` it has some of them.
pub fn catch_index(shards: &Shards, metalog: &Metalog, index: &mut Index) -> Result<(), Memory>
    requires ordered { AreOrdered shards.now.shards metalog.now }
    requires grow { CountsGrow metalog.now.vectors }
    requires view { IsView (log_in shards.now metalog.now) index.old }
    ensures view { CatchesUp (log_in shards.now metalog.now) index.old index.new }
    ensures end { OnOk result (position_of index.new ≡ length (log_in shards.now metalog.now)) }
{
    for seq in index.position()..metalog.length() {
        let rec = record_of(shards, metalog, Seqnum(seq + 1)).unwrap();
        index.add(rec)?;
    }
    Ok(())
}

// Catches each index up, in threads where there is enough to do.
fn catch_indexes<G: Gate + Sync, R: Threads + Sync>(
    rt: &R,
    shards: &Shards,
    metalog: &Metalog,
    indexes: &mut Vec<Index>,
    gate: &G,
)
    requires ordered { AreOrdered shards.now.shards metalog.now }
    requires grow { CountsGrow metalog.now.vectors }
    requires views { All (IsView (log_in shards.now metalog.now)) indexes.old.items }
    requires few { length indexes.old.items ≤ 16 }
    ensures caught { EachCatchesUp (log_in shards.now metalog.now) indexes.old.items indexes.new.items }
    ensures count { length indexes.new.items ≡ length indexes.old.items }
{
    if indexes.is_empty() {
        return;
    }
    let behind = records_behind(indexes, metalog.length());
    let threads = if behind < gate.thread_threshold() {
        1
    } else {
        indexes.len()
    };
    thread::for_each_mut(
        rt,
        indexes.as_mut_slice(),
        threads,
        &|i: usize, index: &mut Index|
            requires { (i + 1 < 2 ^ 32) × AreOrdered shards.now.shards metalog.now × CountsGrow metalog.now.vectors × IsView (log_in shards.now metalog.now) index.old }
            ensures { CatchesUp (log_in shards.entry.now metalog.entry.now) index.old index.new }
        {
            gate.enter(i as u32 + 1);
            let _ = catch_index(shards, metalog, index);
        },
    );
}

// How many records the indexes together are behind. Any number would do, as it only tells whether threads are worth while.
fn records_behind(indexes: &Vec<Index>, end: u64) -> u64 {
    let mut behind: u64 = 0;
    for index in indexes {
        behind = behind.saturating_add(end.saturating_sub(index.position()));
    }
    behind
}

// Whether each index is at this position.
fn are_at(indexes: &Vec<Index>, end: u64) -> bool
    ensures { IsTrue result → All (λ i. position_of i ≡ end) indexes.now.items }
{
    indexes.iter().all(|index| index.position() == end)
}
