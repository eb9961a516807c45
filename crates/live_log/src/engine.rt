//! One engine of a live log.
ghost use Rattle.std.specs.Prelude.{◌≡◌, ◌+◌, ◌<◌, ◌≤◌, ◌++◌, ◌∷◌, [], ℕ, length, take, option_map, IfOk, IfErr, OnErr};
ghost use Rattle.std.specs.Option.{option_copied};
ghost use mathlib.Core.List.{IsPrefix};
ghost use Rattle.boki_model.specs.Live.{live, count};
ghost use Rattle.boki_model.specs.Reads.{next, prev, nth_seq};
ghost use Rattle.live_log.specs.Appended.{log_of, record_at};
ghost use Rattle.lb_base.specs.Devices.{CountRose};
ghost use Rattle.live_log.specs.Engines.{IsIndexed};

use crate::append_counts::{AppendCounts, AppendRight};
use crate::appended::Appended;
use crate::door::Door;
use crate::fault::LiveFault;
use crate::hall::{Entered, Place};
use crate::naming::Naming;
use crate::sequencer::{OwnAppends, Sequencer};
use eng_index::Index;
use lb_base::{List, Memory, Record, Seqnum, Tag};
use std::alloc::Global;
use std::marker::Model;
use std::sync::Wait;

/// An engine of a live log. Its reads see the first records of a copy of the published list, as many as its position says, and wait
/// for nobody.
///
/// Contracts see it as its number, the list that it has seen, the longest list that it has seen or learned of, its position, and
/// its own appends with their indexes in the list, from 0.
#[derive(Drop)]
pub struct LiveEngine<J: Naming> {
    number: u32,
    place: Place,
    copy: List<Appended>,
    index: Index,
    own: OwnAppends<J>,
}

impl<J: Naming> Model for LiveEngine<J> {
    ghost use Rattle.std.specs.Prelude.{◌≡◌, ◌≤◌, length};
    ghost use Rattle.live_log.specs.Engines.{Engine, IsSoundByIndex, IsIndexed, appends_at};
    ghost use Rattle.live_log.specs.AppendCounts.{number_of, count_of, parts_of};

    ghost Value = { Engine };

    ghost view = { λ e. record { number = e.number; seen = e.place.seen; known = e.place.known; position = length e.index.marks; appends = appends_at e.place.known e.own.indexes.items } };

    ghost invariant = { λ e. (e.place.book ≡ J.book) × IsSoundByIndex e.number e.place.seen e.place.known e.copy e.own.indexes.items (parts_of e.own.right) (count_of e.own.right) × (number_of e.own.right ≡ e.number) × (e.number ≤ J.engines) × IsIndexed e.copy e.index };
}

// Adds the records of the copy that the index lacks, or as many as there is room for, and answers how many the copy has.
fn index_rest(index: &mut Index, copy: &[Appended]) -> Result<u64, LiveFault>
    requires { IsIndexed copy.now index.old }
    ensures indexed { IsIndexed copy.now index.new }
    ensures grows { length index.old.marks ≤ length index.new.marks }
    ensures whole { IfOk result (λ n. (n ≡ length copy.now) × (length index.new.marks ≡ length copy.now)) }
    ensures memory { IfErr result (λ e. e ≡ LiveFault.Memory) }
{
    let from = index.position() as usize;
    for at in from..copy.len() {
        if index.add(&copy[at].1).is_err() {
            return Err(LiveFault::Memory);
        }
    }
    Ok(copy.len() as u64)
}

impl<J: Naming> LiveEngine<J> {
    ghost use Rattle.live_log.specs.Engines.{Engine, AscendingBy, EachAtIndex};
    ghost use Rattle.live_log.specs.AppendCounts.{number_of, count_of, parts_of, total_at};

    // An engine that has seen nothing.
    pub(crate) fn new(
        alloc: Global,
        number: u32,
        place: Place,
        right: AppendRight<J>,
    ) -> Result<LiveEngine<J>, Memory>
        requires place { place ≡ record { book = J.book; seen = []; known = [] } }
        requires number { number ≤ J.engines }
        requires right { (number_of right ≡ number) × (parts_of right ≡ 1) × (count_of right ≡ 0) }
        ensures { IfOk result (λ it. it ≡ record { number = number; seen = []; known = []; position = 0; appends = [] }) }
    {
        Ok(LiveEngine {
            number,
            place,
            copy: List::new(alloc),
            index: Index::new(alloc)?,
            own: OwnAppends {
                indexes: Vec::new(alloc),
                right,
            },
        })
    }

    /// Its number, from 1.
    pub fn number(&self) -> u32
        ensures { result ≡ self.now.number }
    {
        self.number
    }

    /// How many records of the list its reads see.
    pub fn position(&self) -> u64
        ensures { result ≡ self.now.position }
    {
        self.index.position()
    }

    /// The record with the seqnum, live or dead, or None where the position doesn't cover it. Seqnums are counted from 1.
    pub fn record(&self, seq: Seqnum) -> Option<&Record>
        ensures { option_copied result ≡ record_at seq.0 (take self.now.position self.now.seen) }
    {
        if seq.0 == 0 || seq.0 > self.index.position() {
            return None;
        }
        let item = self.copy.get(seq.0 as usize - 1)?;
        Some(&item.1)
    }

    /// The first live record of the tag at or behind a seqnum, or None where there is none.
    pub fn next(&self, tag: Tag, from: Seqnum) -> Option<Seqnum>
        ensures { option_map (λ seq. seq.0) result ≡ next tag.0 from.0 (live (log_of (take self.now.position self.now.seen))) }
    {
        self.index.next(tag, from)
    }

    /// The last live record of the tag at or before a seqnum, or None where there is none.
    pub fn prev(&self, tag: Tag, upto: Seqnum) -> Option<Seqnum>
        ensures { option_map (λ seq. seq.0) result ≡ prev tag.0 upto.0 (live (log_of (take self.now.position self.now.seen))) }
    {
        self.index.prev(tag, upto)
    }

    /// The live record of the tag at a place, or None where there is none. Places are counted from 0, over the tag's live records.
    pub fn nth(&self, tag: Tag, place: u64) -> Option<Seqnum>
        ensures { option_map (λ seq. seq.0) result ≡ nth_seq tag.0 place (live (log_of (take self.now.position self.now.seen))) }
    {
        self.index.nth(tag, place)
    }

    /// How many live records the tag has.
    pub fn count(&self, tag: Tag) -> u64
        ensures { result ≡ count tag.0 (live (log_of (take self.now.position self.now.seen))) }
    {
        self.index.count(tag)
    }

    /// Looks once at what is published, and answers the position, which then covers all of it. It waits for nobody.
    ///
    /// The list that is seen begins with what the engine had seen, what it had learned and its own appends, so the position is no less
    /// than any number that an earlier call of the engine answered. `Refused` comes only where the door's refusals rose in this call,
    /// and leaves the engine as it was. After `Memory` the list was seen, and the position is between the old one and its length.
    pub fn catch_up<D: Door>(&mut self, door: &mut D) -> Result<u64, LiveFault>
        ensures counted { D.refusals door.old ≤ D.refusals door.new }
        ensures ok { IfOk result (λ n. (n ≡ self.new.position) × (self.new.position ≡ length self.new.seen) × IsPrefix self.old.known self.new.seen × (self.new.known ≡ self.new.seen)) }
        ensures covers { IfOk result (λ n. length self.old.known ≤ n) }
        ensures own { IfOk result (λ _. EachAtIndex self.new.seen self.new.appends) }
        ensures refused { IfErr result (λ e. e ≡ LiveFault.Refused → CountRose (D.refusals door.old) (D.refusals door.new) × (self.new ≡ self.old)) }
        ensures memory { IfErr result (λ e. e ≡ LiveFault.Memory → IsPrefix self.old.known self.new.seen × (self.new.known ≡ self.new.seen)) }
        ensures known { IsPrefix self.old.known self.new.known }
        ensures grows { IsPrefix self.old.seen self.new.seen × (self.old.position ≤ self.new.position) × (self.new.position ≤ length self.new.seen) }
        ensures same { (self.new.number ≡ self.old.number) × (self.new.appends ≡ self.old.appends) }
    {
        match door.enter(&mut self.place, &mut self.copy) {
            Entered::Done => index_rest(&mut self.index, self.copy.as_slice()),
            Entered::Refused => Err(LiveFault::Refused),
            Entered::Memory => Err(LiveFault::Memory),
        }
    }

    /// Appends a record, and answers the seqnum at which it stands.
    pub(crate) fn append<R: Wait>(
        &mut self,
        rt: &R,
        sequencer: &mut Sequencer<J>,
        rec: Record,
    ) -> Result<u64, Memory>
        ensures ok { IfOk result (λ n. (n ≡ length sequencer.new) × (sequencer.new ≡ sequencer.old ++ (self.old.number, rec) ∷ []) × IsPrefix self.old.known sequencer.old × (self.new ≡ record self.old { known = sequencer.new; appends = self.old.appends ++ (length sequencer.old, (self.old.number, rec)) ∷ [] })) }
        ensures err { OnErr result ((sequencer.new ≡ sequencer.old) × (self.new ≡ self.old)) }
    {
        self.own.indexes.reserve(1)?;
        sequencer.append(rt, self.number, &mut self.place, &mut self.own, rec)
    }

    /// Learns what is published, and answers how much it then knows.
    pub(crate) fn learn(&mut self, sequencer: &mut Sequencer<J>) -> u64
        ensures list { sequencer.new ≡ sequencer.old }
        ensures answer { result ≡ length self.new.known }
        ensures same { self.new ≡ record self.old { known = self.new.known } }
        ensures learned { IsPrefix self.old.known self.new.known × IsPrefix sequencer.old self.new.known }
    {
        sequencer.inform(&mut self.place)
    }

    /// Compares its appends with the ledger of its number.
    pub(crate) fn audit(&mut self, counts: &mut AppendCounts<J>)
        ensures same { self.new ≡ self.old }
        ensures counts { (n : ℕ) → total_at counts.new n ≡ total_at counts.old n }
        ensures exact { length self.old.appends ≡ total_at counts.old self.old.number }
        ensures number { (1 ≤ self.old.number) × (self.old.number ≤ 16) }
        ensures rises { AscendingBy self.old.number 0 self.old.appends }
        ensures stands { EachAtIndex self.old.known self.old.appends }
    {
        counts.audit(&mut self.own.right);
    }
}
