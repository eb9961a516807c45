//! The index of an engine: which records of the log are live, and where the live records of each tag are.
#![tactic(auto)]

mod lists;

ghost use Rattle.std.specs.Prelude.{◌≡◌, ℕ, List, [], ◌∷◌, length, reverse, OnOk, OnErr, IsOkAnd, option_map};
ghost use Rattle.boki_model.specs.Live.{LogRecord, entry_of, live, count, is_live};
ghost use Rattle.boki_model.specs.Reads.{tagged_seqnums, next, prev, nth_seq};
ghost use Rattle.eng_index.specs.IndexState.{IsIndexOf, IsUnchanged, mark_at};

use crate::lists::Lists;
use lb_base::{Memory, Record, Seqnum, Tag};
use std::alloc::Global;
use std::collections::HashMap;
use std::marker::Model;

/// The index of the first records of the log, as many as were added.
///
/// Seqnums are counted from 1 and places from 0. Each read answers what the live records of the log say, and takes no memory. The
/// time of `next` and `prev` grows with the logarithm of the number of the tag's live records, and that of the other reads and of
/// `add` doesn't grow with the log.
#[derive(Debug, Drop)]
pub struct Index {
    alloc: Global,
    lists: Lists,
    marks: Vec<bool>,
}

impl Model for Index {
    ghost use Rattle.std.specs.Prelude.{map};
    ghost use Rattle.eng_index.specs.IndexState.{IndexState};

    ghost Value = { IndexState };

    ghost view = { λ i. record { lists = map (λ e. (e.0, e.1.items)) i.lists.entries; marks = i.marks.items } };
}

impl Index {
    /// The index of no record. It takes no memory, so it is always Ok.
    pub fn new(alloc: Global) -> Result<Index, Memory>
        ensures { IsOkAnd result (IsIndexOf []) }
    {
        Ok(Index {
            alloc,
            lists: HashMap::new(alloc),
            marks: Vec::new(alloc),
        })
    }

    /// Adds the next record of the log, live or dead by its condition. A tag that it carries twice counts once.
    ///
    /// Memory is taken first, so the record is added whole or not at all: after `Memory` each read answers as before.
    pub fn add(&mut self, rec: &Record) -> Result<(), Memory>
        ensures ok { OnOk result ((log : List (LogRecord (List ℕ))) → IsIndexOf log self.old → IsIndexOf (entry_of rec.now ∷ log) self.new) }
        ensures err { OnErr result (IsUnchanged self.old self.new) }
    {
        self.marks.reserve(1)?;
        if !lists::is_met(&self.lists, rec.cond) {
            self.marks.push_reserved(false);
            return Ok(());
        }
        let tags = rec.tags.as_slice();
        lists::reserve(&mut self.lists, self.alloc, tags)?;
        self.marks.push_reserved(true);
        lists::push(&mut self.lists, tags, self.marks.len() as u64);
        Ok(())
    }

    /// How many records were added, live and dead.
    pub fn position(&self) -> u64
        ensures log { (log : List (LogRecord (List ℕ))) → IsIndexOf log self.now → result ≡ length log }
        ensures marks { result ≡ length self.now.marks }
    {
        self.marks.len() as u64
    }

    /// Whether there is a record with the seqnum, and it is live. Seqnums are counted from 1.
    pub fn live(&self, seq: Seqnum) -> bool
        ensures { (log : List (LogRecord (List ℕ))) → IsIndexOf log self.now → result ≡ is_live seq.0 (live log) }
    {
        is_marked(self.marks.as_slice(), seq.0)
    }

    /// The first live record of the tag at or behind a seqnum, or None where there is none.
    pub fn next(&self, tag: Tag, from: Seqnum) -> Option<Seqnum>
        ensures { (log : List (LogRecord (List ℕ))) → IsIndexOf log self.now → option_map (λ seq. seq.0) result ≡ next tag.0 from.0 (live log) }
    {
        lists::first_from(lists::of_tag(&self.lists, tag.0), from.0)
    }

    /// The last live record of the tag at or before a seqnum, or None where there is none.
    pub fn prev(&self, tag: Tag, upto: Seqnum) -> Option<Seqnum>
        ensures { (log : List (LogRecord (List ℕ))) → IsIndexOf log self.now → option_map (λ seq. seq.0) result ≡ prev tag.0 upto.0 (live log) }
    {
        lists::last_upto(lists::of_tag(&self.lists, tag.0), upto.0)
    }

    /// The live record of the tag at a place, or None where there is none. Places are counted from 0, over the tag's live records.
    pub fn nth(&self, tag: Tag, place: u64) -> Option<Seqnum>
        ensures { (log : List (LogRecord (List ℕ))) → IsIndexOf log self.now → option_map (λ seq. seq.0) result ≡ nth_seq tag.0 place (live log) }
    {
        lists::at_place(lists::of_tag(&self.lists, tag.0), place as usize)
    }

    /// How many live records the tag has.
    pub fn count(&self, tag: Tag) -> u64
        ensures { (log : List (LogRecord (List ℕ))) → IsIndexOf log self.now → result ≡ count tag.0 (live log) }
    {
        lists::of_tag(&self.lists, tag.0).len() as u64
    }

    /// The seqnums of the tag's live records, ascending.
    pub fn seqnums(&self, tag: Tag) -> &[u64]
        ensures { (log : List (LogRecord (List ℕ))) → IsIndexOf log self.now → result.now ≡ reverse (tagged_seqnums tag.0 (live log)) }
    {
        lists::of_tag(&self.lists, tag.0)
    }

    /// Takes each record out, so that the position is 0. It takes no memory, and the index keeps the room that it has: that of the
    /// table of tags, of each tag's list and of the marks. Its time grows with the number of the tags that it has met.
    pub fn clear(&mut self)
        ensures { IsIndexOf [] self.new }
    {
        lists::clear(&mut self.lists);
        self.marks.clear();
    }
}

// The mark of a seqnum, and false where it has none.
fn is_marked(marks: &[bool], seq: u64) -> bool
    ensures { result ≡ mark_at seq marks.now }
{
    if seq == 0 {
        return false;
    }
    marks.get(seq as usize - 1).copied().unwrap_or(false)
}
