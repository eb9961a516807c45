//! The vectors of the metalog, one behind the other in one list of counts.

ghost use Rattle.std.specs.Prelude.{◌≡◌, ℕ, ◌+◌, ◌-◌, ◌*◌, ◌^◌, ◌<◌, ◌≤◌, ◌++◌, ◌∷◌, [], length, slice_index, OnOk, OnErr};
ghost use Rattle.boki_model.specs.Entries.{location_in_entry, rank_in_entry};
ghost use Rattle.meta_order.specs.Rows.{row};

use lb_base::Memory;

/// The vector of an entry, where vectors of this width lie one behind the other.
pub fn row_of(counts: &[u64], width: usize, entry: usize) -> &[u64]
    requires { entry * width + width ≤ length counts.now }
    ensures { result.now ≡ row width counts.now entry }
{
    let start = entry * width;
    &counts[start..start + width]
}

/// The first of `rows` vectors of this width whose count in a column is at least `least`, or `rows` where none is, found by
/// halving: the counts of a column never fall.
pub fn first_at_least(counts: &[u64], width: usize, column: usize, rows: usize, least: u64) -> usize
    requires column { column < width }
    requires rows { rows * width ≤ length counts.now }
    ensures bound { result ≤ rows }
    ensures before { 0 < result → slice_index counts.now ((result - 1) * width + column) < least }
    ensures at { result < rows → least ≤ slice_index counts.now (result * width + column) }
{
    let mut low = 0;
    let mut high = rows;
    while low < high {
        let middle = low + (high - low) / 2;
        if counts[middle * width + column] < least {
            low = middle + 1;
        } else {
            high = middle;
        }
    }
    low
}

/// The shard and the number there of an entry's record by its number in the entry, from 1: shard after shard.
pub fn location_in(old: &[u64], new: &[u64], number: u64) -> Option<(u32, u64)>
    requires long { length old.now ≡ length new.now }
    requires few { length new.now < 2 ^ 32 }
    requires grown { (k : ℕ) → slice_index old.now k ≤ slice_index new.now k }
    ensures { result ≡ location_in_entry (length new.now) 0 number old.now new.now }
{
    let mut rest = number;
    for shard in 0..new.len() {
        let added = new[shard] - old[shard];
        if rest <= added {
            return Some((shard as u32 + 1, old[shard] + rest));
        }
        rest -= added;
    }
    None
}

/// The seqnum of a shard's record that an entry adds, where `start` records are ordered before the entry.
pub fn seqnum_in(old: &[u64], new: &[u64], shard: usize, local: u64, start: u64) -> u64
    requires long { length old.now ≡ length new.now }
    requires shard { shard < length new.now }
    requires grown { (k : ℕ) → slice_index old.now k ≤ slice_index new.now k }
    requires above { slice_index old.now shard ≤ local }
    requires fits { start + rank_in_entry shard local old.now new.now < 2 ^ 64 }
    ensures { result ≡ start + rank_in_entry shard local old.now new.now }
{
    let mut before = start;
    for other in 0..shard {
        before += new[other] - old[other];
    }
    before + (local - old[shard])
}

/// Adds a vector and its sum. After `Memory` both lists are as before.
pub fn push_row(
    counts: &mut Vec<u64>,
    ends: &mut Vec<u64>,
    progress: &[u64],
    end: u64,
) -> Result<(), Memory>
    ensures counts { OnOk result (counts.new.items ≡ counts.old.items ++ progress.now) }
    ensures ends { OnOk result (ends.new.items ≡ ends.old.items ++ end ∷ []) }
    ensures counts_stay { OnErr result (counts.new.items ≡ counts.old.items) }
    ensures ends_stay { OnErr result (ends.new.items ≡ ends.old.items) }
{
    let room = counts.len();
    counts.extend_from_slice(progress)?;
    if ends.push(end).is_err() {
        counts.truncate(room);
        return Err(Memory);
    }
    Ok(())
}
