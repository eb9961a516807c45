//! All shards of a log, by their numbers.

ghost use Rattle.std.specs.Prelude.{◌≡◌, ℕ, suc, ◌<◌, length, IfOk, OnErr};
ghost use Rattle.std.specs.Option.{option_copied};
ghost use Rattle.boki_model.specs.Order.{progress};
ghost use Rattle.boki_model.specs.OrderLaws.{record_at};
ghost use Rattle.shard_store.specs.Kept.{empty_shards, records_of, HasShard, HasReplica, appended, copied_count, after_copy};

use crate::shard::Shard;
use lb_base::{Memory, Record};
use std::alloc::Global;
use std::marker::Model;

/// The shards of a log with their replicas. Shards, replicas and the records of a shard are numbered from 1.
///
/// The first replica of a shard has each record at once. The others have those that were copied to them.
#[derive(Drop)]
pub struct Shards {
    shards: Vec<Shard>,
}

impl Model for Shards {
    ghost use Rattle.std.specs.Prelude.{map};
    ghost use Rattle.shard_store.specs.Kept.{ShardsState};

    ghost Value = { ShardsState };

    ghost view = { λ s. record { shards = map (λ h. h.records) s.shards.items; counts = map (λ h. h.counts) s.shards.items } };
}

impl Shards {
    /// So many shards with no record, each of so many replicas, or `Memory`. A shard has a first replica also where `replicas`
    /// is 0.
    pub fn new(alloc: Global, shards: u32, replicas: u32) -> Result<Shards, Memory>
        ensures { IfOk result (λ it. it ≡ empty_shards shards replicas) }
    {
        let others = replicas.saturating_sub(1) as usize;
        let mut all = Vec::new(alloc);
        for _ in 0..shards {
            all.push(Shard::new(alloc, others)?)?;
        }
        Ok(Shards { shards: all })
    }

    /// Adds a record to a shard, and answers its number there. After `Memory` the shards are as before.
    pub fn append(&mut self, shard: u32, rec: Record) -> Result<u64, Memory>
        requires { HasShard shard self.old }
        ensures ok { IfOk result (λ local. (local ≡ suc (length (records_of shard self.old))) × (self.new ≡ appended shard rec self.old)) }
        ensures err { OnErr result (self.new ≡ self.old) }
    {
        let shard = &mut self.shards[(shard - 1) as usize];
        shard.append(rec)
    }

    /// Copies the lesser of `n` and what the replica lacks to a replica from the second on, and answers how many that were.
    pub fn copy(&mut self, shard: u32, replica: u32, n: u64) -> u64
        requires shard { HasShard shard self.old }
        requires replica { HasReplica shard replica self.old }
        ensures count { result ≡ copied_count shard replica n self.old }
        ensures after { self.new ≡ after_copy shard replica n self.old }
    {
        let shard = &mut self.shards[(shard - 1) as usize];
        shard.copy((replica - 2) as usize, n)
    }

    /// Writes for each shard how many records all its replicas have. It needs as many places as there are shards.
    pub fn progress(&self, into: &mut [u64])
        requires { length into.old ≡ length self.now.shards }
        ensures { into.new ≡ progress self.now.shards self.now.counts }
    {
        for (i, shard) in self.shards.iter().enumerate() {
            into[i] = shard.progress();
        }
    }

    /// The record of a shard by its number there, or None where there is no such shard or record.
    pub fn record(&self, shard: u32, local: u64) -> Option<&Record>
        ensures { option_copied result ≡ record_at shard local self.now.shards }
    {
        if shard == 0 {
            return None;
        }
        let shard = self.shards.get((shard - 1) as usize)?;
        shard.record(local)
    }
}
