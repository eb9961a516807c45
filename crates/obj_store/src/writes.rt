//! The writes of one object, in the order of their positions.

ghost use Rattle.std.specs.Prelude.{◌≡◌, ◌↔◌, ℕ, suc, ◌<◌, ◌≤◌, ◌==◌, nat_lt, nat_le, length, filter, option_map, option_copied, slice_get, IsTrue};
ghost use Rattle.boki_model.specs.Writes.{Write, is_below, last_write_below};
ghost use Rattle.obj_store.specs.Ascending.{Ascend, before_count, has_at, last_value, not_below};

use lb_base::{Seqnum, Value};
use std::marker::Model;

/// A write that the store keeps: its position, a pair of numbers compared from the left, and what it wrote.
#[derive(Debug, Drop)]
pub struct PositionedWrite {
    first: u64,
    second: u64,
    value: Value,
}

impl Model for PositionedWrite {
    ghost use Rattle.boki_model.specs.Writes.{Write};

    ghost Value = { Write };

    ghost view = { λ p. record { first = p.first; second = p.second; value = p.value } };
}

impl PositionedWrite {
    /// A write at a position.
    pub fn new(first: u64, second: u64, value: Value) -> PositionedWrite
        ensures { result ≡ record { first = first; second = second; value = value } }
    {
        PositionedWrite {
            first,
            second,
            value,
        }
    }

    /// What it wrote.
    pub fn value(&self) -> &Value
        ensures { result.now ≡ self.now.value }
    {
        &self.value
    }

    /// The first number of its position.
    pub fn first(&self) -> u64
        ensures { result ≡ self.now.first }
    {
        self.first
    }

    /// Whether its position is below (`first`, `second`).
    pub fn is_before(&self, first: u64, second: u64) -> bool
        ensures { result ≡ is_below self.now.first self.now.second first second }
    {
        self.first < first || (self.first == first && self.second < second)
    }

    /// Whether its position is below that of another.
    pub fn is_before_write(&self, other: &PositionedWrite) -> bool
        ensures { result ≡ is_below self.now.first self.now.second other.now.first other.now.second }
    {
        self.is_before(other.first, other.second)
    }

    /// How many of the writes are below it, where they stand in order: its index among them.
    pub fn index_in(&self, writes: &[PositionedWrite]) -> usize
        ensures index { Ascend writes.now → result ≡ before_count self.now.first self.now.second writes.now }
        ensures bound { result ≤ length writes.now }
    {
        index_of(writes, self.first, self.second)
    }

    /// Whether it stands at a position.
    pub fn is_at(&self, first: u64, second: u64) -> bool
        ensures { IsTrue result ↔ ((first ≡ self.now.first) × (second ≡ self.now.second)) }
    {
        self.first == first && self.second == second
    }
}

/// How many of the writes are below a position, where they stand in order: the index of a write of that position.
pub fn index_of(writes: &[PositionedWrite], first: u64, second: u64) -> usize
    ensures index { Ascend writes.now → result ≡ before_count first second writes.now }
    ensures bound { result ≤ length writes.now }
{
    writes.partition_point(|write| write.is_before(first, second))
}

// The write at a index, counted from 0.
fn write_at(writes: &[PositionedWrite], index: usize) -> Option<&PositionedWrite>
    ensures { option_copied result ≡ slice_get writes.now index }
{
    writes.get(index)
}

/// Whether a write stands at the position, where the writes stand in order.
pub fn has_write(writes: &[PositionedWrite], first: u64, second: u64) -> bool
    ensures { Ascend writes.now → result ≡ has_at first second writes.now }
{
    match write_at(writes, index_of(writes, first, second)) {
        Some(write) => write.is_at(first, second),
        None => false,
    }
}

/// How many of the writes have a first number at most `last`, where they stand in order.
pub fn count_upto(writes: &[PositionedWrite], last: u64) -> usize
    ensures count { Ascend writes.now → result ≡ before_count (suc last) 0 writes.now }
    ensures bound { result ≤ length writes.now }
{
    writes.partition_point(|write| write.first() <= last)
}

/// The last write whose first number is at most `last`, where they stand in order.
pub fn last_upto(writes: &[PositionedWrite], last: u64) -> Option<&PositionedWrite>
    ensures { Ascend writes.now → option_copied result ≡ last_write_below (suc last) 0 writes.now }
{
    let count = count_upto(writes, last);
    if count == 0 {
        return None;
    }
    write_at(writes, count - 1)
}

/// Takes the last write below the floor out, where they stand in order; the writes at or above the floor stay.
pub fn pop_below(writes: &mut Vec<PositionedWrite>, floor: u64) -> Option<PositionedWrite>
    ensures last { Ascend writes.old.items → result ≡ last_write_below floor 0 writes.old.items }
    ensures rest { Ascend writes.old.items → not_below floor writes.new.items ≡ not_below floor writes.old.items }
{
    let count = index_of(writes.as_slice(), floor, 0);
    if count == 0 {
        return None;
    }
    Some(writes.remove(count - 1))
}

/// Drops the writes below the floor.
pub fn keep_from(writes: &mut Vec<PositionedWrite>, floor: u64)
    ensures { writes.new.items ≡ not_below floor writes.old.items }
{
    writes.retain(|write| floor <= write.first());
}

/// How many of the writes have just this first number, where they stand in order.
pub fn count_at(writes: &[PositionedWrite], first: u64) -> usize
    ensures count { Ascend writes.now → result ≡ length (filter (λ w. first == w.first) writes.now) }
    ensures bound { result ≤ length writes.now }
{
    let upto = count_upto(writes, first);
    let below = index_of(writes, first, 0);
    if below < upto { upto - below } else { 0 }
}

/// The value of the later of a write of the store and a logged one; of the store's where they stand at one position.
pub fn later_value<'a>(write: &'a PositionedWrite, seq: Seqnum, logged: &'a Value) -> &'a Value
    ensures { result.now ≡ last_value write.now seq.0 logged.now }
{
    if write.is_before(seq.0, 0) {
        logged
    } else {
        write.value()
    }
}
