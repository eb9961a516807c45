//! One shard and its replicas.

ghost use Rattle.std.specs.Prelude.{◌≡◌, ℕ, suc, ◌+◌, ◌-◌, ◌<◌, min, [], ◌∷◌, ◌++◌, length, replicate, slice_index, slice_set, IfOk, OnErr};
ghost use Rattle.std.specs.Option.{option_copied};
ghost use Rattle.boki_model.specs.Order.{least_count};
ghost use Rattle.boki_model.specs.OrderLaws.{local_record};

use lb_base::{Memory, Record};
use std::alloc::Global;
use std::marker::Model;

/// One shard: its records, and how many of them each replica has from the second on.
#[derive(Drop)]
pub struct Shard {
    records: Vec<Record>,
    counts: Vec<u64>,
}

impl Model for Shard {
    ghost use Rattle.std.specs.Prelude.{◌≤◌, All, length};
    ghost use Rattle.shard_store.specs.Kept.{ShardState};

    ghost Value = { ShardState };

    ghost view = { λ s. record { records = s.records.items; counts = s.counts.items } };

    ghost invariant = { λ s. All (λ c. c ≤ length s.records.items) s.counts.items };
}

impl Shard {
    /// A shard with no record, and so many replicas behind the first.
    pub fn new(alloc: Global, others: usize) -> Result<Shard, Memory>
        ensures { IfOk result (λ s. s ≡ record { records = []; counts = replicate others 0 }) }
    {
        let counts = vec![in alloc; 0; others]?;
        Ok(Shard {
            records: Vec::new(alloc),
            counts,
        })
    }

    /// Adds a record, and answers its number. After `Memory` the shard is as before.
    pub fn append(&mut self, rec: Record) -> Result<u64, Memory>
        ensures ok { IfOk result (λ local. (local ≡ suc (length self.old.records)) × (self.new ≡ record self.old { records = self.old.records ++ rec ∷ [] })) }
        ensures err { OnErr result (self.new ≡ self.old) }
    {
        self.records.push(rec)?;
        Ok(self.records.len() as u64)
    }

    /// Copies the lesser of `n` and what the replica lacks, and answers how many that were.
    pub fn copy(&mut self, other: usize, n: u64) -> u64
        requires { other < length self.old.counts }
        ensures count { result ≡ min n (length self.old.records - slice_index self.old.counts other) }
        ensures after { self.new ≡ record self.old { counts = slice_set self.old.counts other (slice_index self.old.counts other + result) } }
    {
        let missing = self.records.len() as u64 - self.counts[other];
        let copied = n.min(missing);
        self.counts[other] += copied;
        copied
    }

    /// How many records all replicas have.
    pub fn progress(&self) -> u64
        ensures { result ≡ least_count (length self.now.records) self.now.counts }
    {
        let mut least = self.records.len() as u64;
        for count in &self.counts {
            least = least.min(*count);
        }
        least
    }

    /// The record of this number, from 1.
    pub fn record(&self, local: u64) -> Option<&Record>
        ensures { option_copied result ≡ local_record local self.now.records }
    {
        if local == 0 {
            return None;
        }
        self.records.get((local - 1) as usize)
    }
}
