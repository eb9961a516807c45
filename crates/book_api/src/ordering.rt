//! The ordered list: copies to replicas, cuts, and the records by their seqnums.
ghost use Rattle.std.specs.Prelude.{◌≡◌, length, IfOk, OnErr};
ghost use Rattle.std.specs.Option.{option_copied};
ghost use Rattle.boki_model.specs.Order.{at_seq, order, progress};
ghost use Rattle.boki_model.specs.OrderLaws.{CountsGrow};
ghost use Rattle.shard_store.specs.Kept.{HasShard, HasReplica};
ghost use Rattle.meta_order.specs.MetalogState.{AreOrdered};
ghost use Rattle.book_api.specs.Books.{ordered, stored_in, copied_count, after_copy, IsCut};

use crate::book::Book;
use boki_types::Cut;
use lb_base::{Memory, Record, Seqnum};
use meta_order::Metalog;
use shard_store::Shards;

impl Book {
    /// Copies the lesser of `n` and what the replica lacks to a replica from the second on, and answers how many that were. It
    /// takes no memory.
    pub fn copy(&mut self, shard: u32, replica: u32, n: u64) -> u64
        requires shard { HasShard shard (stored_in self.old) }
        requires replica { HasReplica shard replica (stored_in self.old) }
        ensures count { result ≡ copied_count shard replica n self.old }
        ensures after { self.new ≡ after_copy shard replica n self.old }
    {
        self.shards.copy(shard, replica, n)
    }

    /// Orders the records that all replicas of their shard have, in one entry of the metalog, and answers its number, or Same
    /// where there is none that isn't ordered. After `Memory` the book is as before.
    pub fn cut(&mut self) -> Result<Cut, Memory>
        ensures ok { IfOk result (IsCut self.old self.new) }
        ensures err { OnErr result (self.new ≡ self.old) }
    {
        note_progress(&self.shards, &mut self.progress);
        self.metalog.cut(&self.progress)
    }

    /// The record with the seqnum, or None where no record has it.
    pub fn record(&self, seq: Seqnum) -> Option<&Record>
        ensures { option_copied result ≡ at_seq seq.0 (ordered self.now) }
    {
        record_of(&self.shards, &self.metalog, seq)
    }
}

/// The record of the shards with the seqnum.
pub fn record_of<'a>(shards: &'a Shards, metalog: &Metalog, seq: Seqnum) -> Option<&'a Record>
    requires ordered { AreOrdered shards.now.shards metalog.now }
    requires grow { CountsGrow metalog.now.vectors }
    ensures { option_copied result ≡ at_seq seq.0 (order shards.now.shards metalog.now.vectors) }
{
    let (shard, local) = metalog.locate(seq)?;
    shards.record(shard, local)
}

// Writes for each shard how many records all its replicas have.
fn note_progress(shards: &Shards, into: &mut Vec<u64>)
    requires { length into.old.items ≡ length shards.now.shards }
    ensures { into.new.items ≡ progress shards.now.shards shards.now.counts }
{
    shards.progress(into);
}
