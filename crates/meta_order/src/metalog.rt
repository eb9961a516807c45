//! The metalog: which records are ordered, and in which order.

ghost use Rattle.std.specs.Prelude.{◌≡◌, ℕ, ◌^◌, ◌≤◌, [], List, length, sum, option_map, IfOk, OnErr};
ghost use Rattle.lb_base.specs.declared.value.Record.{Record};
ghost use Rattle.boki_model.specs.Order.{last_vector, order, locate, seq_of};
ghost use Rattle.boki_model.specs.OrderLaws.{AreAtMost};
ghost use Rattle.meta_order.specs.MetalogState.{AreOrdered, cut_of, after_cut, end_at};

use crate::vectors::{first_at_least, location_in, push_row, row_of, seqnum_in};
use boki_types::Cut;
use lb_base::{Memory, Seqnum};
use std::alloc::Global;
use std::marker::Model;

/// The metalog: for each entry a vector, with the number of records of each shard that are ordered up to it. An entry orders
/// the records between the last vector's counts and its own, shard by shard in ascending number. Shards, the records of a
/// shard, entries and seqnums are numbered from 1.
///
/// Locations and seqnums are found by searches in sorted counts: their cost grows with the logarithm of the number of entries,
/// and with the number of shards.
#[derive(Drop)]
pub struct Metalog {
    shards: u32,
    counts: Vec<u64>,
    ends: Vec<u64>,
}

impl Model for Metalog {
    ghost use Rattle.meta_order.specs.MetalogState.{MetalogState};
    ghost use Rattle.meta_order.specs.Rows.{metalog_of_rows, IsSound};

    ghost Value = { MetalogState };

    ghost view = { λ m. metalog_of_rows m.shards m.counts.items m.ends.items };

    ghost invariant = { λ m. IsSound m.shards m.counts.items m.ends.items };
}

impl Metalog {
    /// A metalog of so many shards with no entry, or `Memory`.
    pub fn new(alloc: Global, shards: u32) -> Result<Metalog, Memory>
        ensures { IfOk result (λ m. m ≡ record { shards = shards; vectors = [] }) }
    {
        let counts = vec![in alloc; 0; shards as usize]?;
        let ends = vec![in alloc; 0; 1]?;
        Ok(Metalog {
            shards,
            counts,
            ends,
        })
    }

    /// Makes an entry of the number of records of each shard that all its replicas have, and answers its number, or Same where
    /// that is what the last entry has, or all are 0 before the first. It needs a number for each shard, none below the last
    /// entry's, and a sum of at most 2^63. After `Memory` the metalog is as before.
    pub fn cut(&mut self, progress: &[u64]) -> Result<Cut, Memory>
        requires as_many { length progress.now ≡ self.old.shards }
        requires grown { AreAtMost (last_vector self.old.vectors) progress.now }
        requires few { sum progress.now ≤ 2 ^ 63 }
        ensures ok { IfOk result (λ cut. (cut ≡ cut_of progress.now self.old) × (self.new ≡ after_cut progress.now self.old)) }
        ensures err { OnErr result (self.new ≡ self.old) }
    {
        let entries = self.ends.as_slice().len() - 1;
        let last = row_of(self.counts.as_slice(), self.shards as usize, entries);
        if last == progress {
            return Ok(Cut::Same);
        }
        let end = progress.iter().sum();
        push_row(&mut self.counts, &mut self.ends, progress, end)?;
        Ok(Cut::Entry(entries as u64 + 1))
    }

    /// How many records are ordered: the greatest seqnum, or 0.
    pub fn length(&self) -> u64
        ensures total { result ≡ sum (last_vector self.now.vectors) }
        ensures ordered { (shards : List (List Record)) → AreOrdered shards self.now → result ≡ length (order shards self.now.vectors) }
    {
        let ends = self.ends.as_slice();
        ends[ends.len() - 1]
    }

    /// How many entries there are.
    pub fn entries(&self) -> u64
        ensures { result ≡ length self.now.vectors }
    {
        let ends = self.ends.as_slice();
        ends.len() as u64 - 1
    }

    /// The number of records that are ordered up to an entry, or None where there is no such entry.
    pub fn end_of(&self, entry: u64) -> Option<u64>
        ensures { result ≡ end_at entry self.now }
    {
        let ends = self.ends.as_slice();
        if entry == 0 || entry >= ends.len() as u64 {
            return None;
        }
        Some(ends[entry as usize])
    }

    /// The shard and the number there of the record with a seqnum, or None where no record has it.
    pub fn locate(&self, seq: Seqnum) -> Option<(u32, u64)>
        ensures { (shards : List (List Record)) → AreOrdered shards self.now → result ≡ locate seq.0 shards self.now.vectors }
    {
        let counts = self.counts.as_slice();
        let ends = self.ends.as_slice();
        let entry = first_at_least(ends, 1, 0, ends.len(), seq.0);
        if entry == 0 || entry == ends.len() {
            return None;
        }
        let width = self.shards as usize;
        let old = row_of(counts, width, entry - 1);
        let new = row_of(counts, width, entry);
        location_in(old, new, seq.0 - ends[entry - 1])
    }

    /// The seqnum of a shard's record, or None where it isn't ordered or there is no such shard.
    pub fn seq_of(&self, shard: u32, local: u64) -> Option<Seqnum>
        ensures { (shards : List (List Record)) → AreOrdered shards self.now → option_map (λ s. s.0) result ≡ seq_of shard local shards self.now.vectors }
    {
        if shard == 0 || shard > self.shards {
            return None;
        }
        let counts = self.counts.as_slice();
        let ends = self.ends.as_slice();
        let width = self.shards as usize;
        let column = (shard - 1) as usize;
        let entry = first_at_least(counts, width, column, ends.len(), local);
        if entry == 0 || entry == ends.len() {
            return None;
        }
        let old = row_of(counts, width, entry - 1);
        let new = row_of(counts, width, entry);
        Some(Seqnum(seqnum_in(old, new, column, local, ends[entry - 1])))
    }
}
