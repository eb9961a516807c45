ghost use Rattle.std.specs.Prelude.{◌≡◌, true, [], OnErr, IfOk};
ghost use Rattle.book_api.specs.Books.{HasEngine};
ghost use Rattle.step_log.specs.Sound.{Sound, view, live_bodies};
ghost use Rattle.boki_txn.specs.TxnStates.{commits_at, AreTxnFolds, IsValueTold, AreValuesTold, IsCommitTold};

use crate::stored::Names;
use crate::telling::{told_commit, told_value, told_values};
use aux_cache::Cache;
use book_api::Book;
use lb_base::{List, Memory, Seqnum, Value, Words};
use std::alloc::Global;
use std::marker::Model;

/// The states of a cache, at most.
const MOST_STATES: usize = 64;

/// The store names behind commits, each with the commit that wrote it: at most 64 such states, the most recently used
/// first, and none of more than 4,096 names.
///
/// What is asked of a cache is answered from the newest state that it keeps below, and from the commits above that. The
/// states that it keeps are to be those of the book's ordered list, as those of a new cache or a cleared one are, and
/// those that its calls keep. They may lie beyond what the engine sees.
#[derive(Drop)]
pub struct TxnCache {
    alloc: Global,
    entries: Cache<Names>,
}

impl Model for TxnCache {
    ghost use Rattle.std.specs.Prelude.{List};
    ghost use Rattle.fold_cache.specs.Kept.{KeptState};
    ghost use Rattle.boki_txn.specs.Names.{StoredNames};
    ghost use Rattle.boki_txn.specs.Walks.{kept_names, IsBounded};

    ghost Value = { List (KeptState StoredNames) };

    ghost view = { λ c. kept_names c.entries };

    ghost invariant = { λ c. IsBounded c.entries };
}

impl TxnCache {
    /// A cache that keeps no state; or `Memory`.
    pub fn new(alloc: Global) -> Result<TxnCache, Memory>
        ensures { IfOk result (λ cache. cache ≡ []) }
    {
        Ok(TxnCache {
            alloc,
            entries: Cache::new(alloc, MOST_STATES)?,
        })
    }

    /// Drops each state. It takes no memory.
    pub fn clear(&mut self)
        ensures { self.new ≡ [] }
    {
        self.entries.clear();
    }

    /// The value of a store name before the record with a seqnum, of those that the engine sees, or none where it has
    /// none. The book is to be sound. The state behind the newest commit below is then the one that was used most
    /// recently, if it has at most 4,096 names. After `Memory` the cache is as before.
    pub fn snapshot_get(
        &mut self,
        book: &Book,
        engine: u32,
        seq: Seqnum,
        name: &str,
    ) -> Result<Value, Memory>
        requires engine { HasEngine engine book.now }
        requires sound { Sound book.now }
        requires folds { AreTxnFolds self.old (live_bodies book.now) }
        ensures ok { IfOk result (IsValueTold name.now seq.0 (view book.now engine) self.old self.new) }
        ensures err { OnErr result (self.new ≡ self.old) }
        ensures folds { AreTxnFolds self.new (live_bodies book.now) }
    {
        let owned = Words::from_text(self.alloc, name)?;
        told_value(self.alloc, &mut self.entries, book, engine, seq, &owned)
    }

    /// The values of store names before the record with a seqnum, as a begin there reads them: otherwise it is as
    /// `snapshot_get` of each.
    pub fn snapshot_all(
        &mut self,
        book: &Book,
        engine: u32,
        seq: Seqnum,
        names: &[Words],
    ) -> Result<List<Value>, Memory>
        requires engine { HasEngine engine book.now }
        requires sound { Sound book.now }
        requires folds { AreTxnFolds self.old (live_bodies book.now) }
        ensures ok { IfOk result (AreValuesTold names.now seq.0 (view book.now engine) self.old self.new) }
        ensures err { OnErr result (self.new ≡ self.old) }
        ensures folds { AreTxnFolds self.new (live_bodies book.now) }
    {
        told_values(self.alloc, &mut self.entries, book, engine, seq, names)
    }

    /// Whether the commit with a seqnum succeeds: no commit that succeeded behind its begin wrote a name that it read or
    /// writes. The record is to be a live commit that the engine sees, in a sound book. The state behind it is then the
    /// one that was used most recently, if it has at most 4,096 names. After `Memory` the cache is as before.
    pub fn commit_at(&mut self, book: &Book, engine: u32, seq: Seqnum) -> Result<bool, Memory>
        requires engine { HasEngine engine book.now }
        requires sound { Sound book.now }
        requires commit { commits_at seq.0 (view book.now engine) ≡ true }
        requires folds { AreTxnFolds self.old (live_bodies book.now) }
        ensures ok { IfOk result (IsCommitTold seq.0 (view book.now engine) self.old self.new) }
        ensures err { OnErr result (self.new ≡ self.old) }
        ensures folds { AreTxnFolds self.new (live_bodies book.now) }
    {
        told_commit(self.alloc, &mut self.entries, book, engine, seq)
    }
}
