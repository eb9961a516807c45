//! The lists of an index: for each tag the seqnums of its live records, ascending.

ghost use Rattle.std.specs.Prelude.{◌≡◌, ℕ, ◌==◌, cond, nat_le, find, [], reverse, length, IsTrue, OnOk, option_map, slice_get};
ghost use Rattle.std.specs.List.Sorted.{IsNonDecreasing};
ghost use Rattle.boki_model.specs.Live.{has_tag};
ghost use Rattle.eng_index.specs.Lists.{seqs, with_last, HasRoom, IsReady, is_met};

use lb_base::{Cond, Seqnum, Tag};
use std::alloc::{AllocError, Global};
use std::collections::HashMap;

/// The seqnums by tag.
pub type Lists = HashMap<u64, Vec<u64>>;

/// The seqnums of a tag.
pub fn of_tag(lists: &Lists, tag: u64) -> &[u64]
    ensures { result.now ≡ seqs tag lists.now }
{
    match lists.get(&tag) {
        Some(list) => list.as_slice(),
        None => &[],
    }
}

/// Whether a record with this condition is live behind the records of the lists.
pub fn is_met(lists: &Lists, condition: Option<Cond>) -> bool
    ensures { result ≡ is_met condition lists.now }
{
    match condition {
        Some(condition) => condition.place == of_tag(lists, condition.tag.0).len() as u64,
        None => true,
    }
}

// Makes room for one more in the tag's list. The seqnums stay.
fn reserve_one(lists: &mut Lists, alloc: Global, tag: u64) -> Result<(), AllocError>
    ensures same { (t : ℕ) → seqs t lists.new ≡ seqs t lists.old }
    ensures room { OnOk result (HasRoom tag lists.new) }
    ensures others { (t : ℕ) → HasRoom t lists.old → HasRoom t lists.new }
{
    if let Some(list) = lists.get_mut(&tag) {
        return list.reserve(1);
    }
    let list = Vec::with_capacity(alloc, 1)?;
    lists.insert(tag, list)?;
    Ok(())
}

/// Makes room for one more in the list of each of the tags. The seqnums stay.
pub fn reserve(lists: &mut Lists, alloc: Global, tags: &[Tag]) -> Result<(), AllocError>
    ensures same { (t : ℕ) → seqs t lists.new ≡ seqs t lists.old }
    ensures room { OnOk result ((t : ℕ) → IsTrue (has_tag t tags.now) → HasRoom t lists.new) }
{
    for tag in tags {
        reserve_one(lists, alloc, tag.0)?;
    }
    Ok(())
}

// Adds the seqnum at the end of the tag's list, where it doesn't stand there already.
fn push_one(lists: &mut Lists, tag: u64, seq: u64)
    requires { IsReady seq tag lists.old }
    ensures seqs { (t : ℕ) → seqs t lists.new ≡ cond (t == tag) (with_last seq (seqs t lists.old)) (seqs t lists.old) }
    ensures ready { (t : ℕ) → IsReady seq t lists.old → IsReady seq t lists.new }
{
    if let Some(list) = lists.get_mut(&tag) {
        if list.last() != Some(&seq) {
            list.push_reserved(seq);
        }
    }
}

/// Adds the seqnum at the end of the list of each of the tags, once where a tag is given twice. It takes no memory.
pub fn push(lists: &mut Lists, tags: &[Tag], seq: u64)
    requires { (t : ℕ) → IsTrue (has_tag t tags.now) → HasRoom t lists.old }
    ensures { (t : ℕ) → seqs t lists.new ≡ cond (has_tag t tags.now) (with_last seq (seqs t lists.old)) (seqs t lists.old) }
{
    for tag in tags {
        push_one(lists, tag.0, seq);
    }
}

/// Takes out each seqnum. Each list keeps its room, and each tag its list. It goes over the tags once, and takes no memory.
pub fn clear(lists: &mut Lists)
    ensures { (t : ℕ) → seqs t lists.new ≡ [] }
{
    lists.retain(|_, list| {
        list.clear();
        true
    });
}

/// The seqnum at a place of a list, counted from 0.
pub fn at_place(seqs: &[u64], place: usize) -> Option<Seqnum>
    ensures { option_map (λ seq. seq.0) result ≡ slice_get seqs.now place }
{
    seqs.get(place).map(|seq| Seqnum(*seq))
}

/// The first of ascending seqnums that is at least `from`.
pub fn first_from(seqs: &[u64], from: u64) -> Option<Seqnum>
    ensures { IsNonDecreasing seqs.now → option_map (λ seq. seq.0) result ≡ find (nat_le from) seqs.now }
{
    let place = seqs.partition_point(|seq| *seq < from);
    at_place(seqs, place)
}

/// The last of ascending seqnums that is at most `upto`.
pub fn last_upto(seqs: &[u64], upto: u64) -> Option<Seqnum>
    ensures { IsNonDecreasing seqs.now → option_map (λ seq. seq.0) result ≡ find (λ seq. nat_le seq upto) (reverse seqs.now) }
{
    let behind = seqs.partition_point(|seq| *seq <= upto);
    if behind == 0 {
        return None;
    }
    at_place(seqs, behind - 1)
}
