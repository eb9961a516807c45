//! The writer and the readers of the two copies of a published list.
ghost use Rattle.std.specs.Prelude.{◌≡◌, ◌≢◌, ◌<◌, ◌≤◌, ◌⊎◌, IsErr, ◌++◌, ◌∷◌, [], Some, None, IsSome, ℕ, length, vec_len, IfOk, OnOk, OnErr, All, false, true};
ghost use mathlib.Core.List.{IsPrefix};
ghost use Rattle.left_right.specs.Sides.{view};
ghost use Rattle.live_log.specs.ListRule.{state_of};
ghost use Rattle.live_log.specs.WriterAndReader.{published_of, pending_of};

use crate::appended::{Appended, copy_of};
use crate::fault::LiveFault;
use crate::history::{History, SeenPrefix};
use crate::list_rule::{LastSeen, ListAccess, ListRule, NewReader};
use crate::published_list::{PublishedList, Step};
use lb_base::{List, Memory};
use left_right::reader::Reader;
use left_right::writer::Writer;
use std::alloc::Global;
use std::marker::Model;
use std::mem;
use std::mem::ManuallyDrop;
use std::sync::Wait;

/// The writer of a published list. Contracts see it as that list, with the history of which the list is a beginning, and with how
/// many records of the history were not published for want of memory, which is 0 or 1. While it is 1 nothing more is published.
pub struct Hall {
    // A call of the writer has it while it runs.
    writer: Option<Writer<PublishedList, Step, LastSeen, ListRule>>,
    history: History,
}

impl Model for Hall {
    ghost use Rattle.std.specs.Prelude.{◌≡◌, ◌≤◌, ◌-◌, length, IsSome};
    ghost use mathlib.Core.List.{IsPrefix};
    ghost use Rattle.live_log.specs.ListRule.{state_of};
    ghost use Rattle.live_log.specs.WriterAndReader.{HallView, published_of, pending_of};

    ghost Value = { HallView };

    ghost view = { λ h. record { book = (published_of h.writer).prefix.book; log = (published_of h.writer).prefix.log; pending = length h.history.log - length (published_of h.writer).prefix.log } };

    ghost invariant = { λ h. IsSome h.writer × (published_of h.writer ≡ state_of (published_of h.writer).prefix) × ((published_of h.writer).prefix.book ≡ h.history.book) × IsPrefix (published_of h.writer).prefix.log h.history.log × (length (pending_of h.writer) ≤ length h.history.log - length (published_of h.writer).prefix.log) };
}

/// A reader of a published list. Contracts see it as the list that it has seen, the longest that it has seen or learned of, and the
/// history of which both are beginnings.
#[derive(Drop)]
pub struct Place {
    alloc: Global,
    // A look has it while it lasts.
    reader: Option<Reader<PublishedList, LastSeen, ListRule>>,
    seen: SeenPrefix,
    known: SeenPrefix,
}

impl Model for Place {
    ghost use Rattle.std.specs.Prelude.{◌≡◌, IsSome};
    ghost use mathlib.Core.List.{IsPrefix};
    ghost use Rattle.live_log.specs.WriterAndReader.{PlaceView, reader_view, book_seen};

    ghost Value = { PlaceView };

    ghost view = { λ p. record { book = p.known.book; seen = p.seen.log; known = p.known.log } };

    ghost invariant = { λ p. IsSome p.reader × IsSome (reader_view p.reader) × (book_seen (reader_view p.reader) ≡ p.known.book) × (p.seen.book ≡ p.known.book) × IsPrefix p.seen.log p.known.log };
}

/// How a look at the published list ended.
#[derive(Clone, Copy, Debug, PartialEq, Eq)]
pub enum Entered {
    /// The copy is the list that was seen.
    Done,
    /// Nothing was seen: place and copy are as they were.
    Refused,
    /// The list was seen, but there was no room for the whole of it in the copy.
    Memory,
}

fn put_back<T>(slot: &mut Option<T>, value: T)
    requires { slot.old ≡ None }
    ensures { slot.new ≡ Some value }
{
    match mem::replace(slot, Some(value)) {
        None => {}
        Some(_) => unreachable!(),
    }
}

/// A writer that is let go is left as it is: its readers go on with the list that they have.
impl Drop for Hall {
    fn drop(self) {
        let Hall {
            writer,
            history: _history,
        } = self;
        let _left = unsafe { ManuallyDrop::new_unchecked(writer) };
    }
}

// Publishes one step. After `Memory` readers see what they saw.
fn publish_one<R: Wait>(
    rt: &R,
    slot: &mut Option<Writer<PublishedList, Step, LastSeen, ListRule>>,
    step: Step,
) -> Result<(), Memory>
    requires here { IsSome slot.old × (pending_of slot.old ≡ []) }
    requires next { (published_of slot.old ≡ state_of (published_of slot.old).prefix) × (step.prefix ≡ record { book = (published_of slot.old).prefix.book; log = (published_of slot.old).prefix.log ++ step.item ∷ [] }) }
    ensures here { IsSome slot.new }
    ensures published { OnOk result ((published_of slot.new ≡ state_of step.prefix) × (pending_of slot.new ≡ [])) }
    ensures kept { OnErr result ((published_of slot.new ≡ published_of slot.old) × (length (pending_of slot.new) ≤ 1)) }
{
    let mut writer = slot.take().unwrap();
    if writer.append(step).is_err() {
        put_back(slot, writer);
        return Err(Memory);
    }
    let (writer, done) = writer.publish_as::<ListAccess, R>(rt);
    put_back(slot, writer);
    done?;
    Ok(())
}

impl Hall {
    /// How much is published.
    pub(crate) fn len(&self) -> u64
        ensures { result ≡ length self.now.log }
    {
        self.prefix().len()
    }

    /// What is published.
    pub(crate) fn prefix(&self) -> &SeenPrefix
        ensures { result.now ≡ record { book = self.now.book; log = self.now.log } }
    {
        self.writer.as_ref().unwrap().published().prefix()
    }

    /// Publishes one record, and lets the reader learn of it. After `Memory` readers see what they saw. Where publishing found no memory,
    /// the record waits for ever, and each later call answers `Memory` and changes nothing.
    #[tactic(auto, using(crate::proofs::Lists::prefix_whole, crate::proofs::Lists::prefix_more, crate::proofs::Lists::prefix_self, crate::proofs::Lists::prefix_trans, crate::proofs::Lists::none_left, crate::proofs::Lists::prefix_length))]
    pub(crate) fn publish<R: Wait>(
        &mut self,
        rt: &R,
        item: Appended,
        place: &mut Place,
    ) -> Result<(), Memory>
        requires { place.old.book ≡ self.old.book }
        ensures book { self.new.book ≡ self.old.book }
        ensures published { OnOk result ((self.new.log ≡ self.old.log ++ item ∷ []) × (self.new.pending ≡ 0) × IsPrefix place.old.known self.old.log × (place.new ≡ record place.old { known = self.new.log })) }
        ensures kept { OnErr result ((self.new.log ≡ self.old.log) × (place.new ≡ place.old)) }
        ensures pending { OnErr result ((self.new ≡ self.old) ⊎ ((self.old.pending ≡ 0) × (self.new.pending ≡ 1))) }
        ensures blocked { 0 < self.old.pending → IsErr result × (self.new ≡ self.old) }
    {
        if has_pending(&self.writer, &self.history) || !self.history.add(&item, &place.known) {
            return Err(Memory);
        }
        let prefix = self.history.prefix().copy();
        publish_one(rt, &mut self.writer, Step { item, prefix })?;
        place.known = self.history.prefix().copy();
        Ok(())
    }

    /// Waits for the readers, and gives the list that was published last.
    pub(crate) fn take<R: Wait>(self, rt: &R) -> List<Appended>
        ensures { result ≡ self.log }
    {
        let Hall {
            writer,
            history: _history,
        } = self;
        List::from_vec(Box::into_inner(writer.unwrap().take(rt)).into_list())
    }
}

// Whether a record of the history was not published. Then none is from now on.
fn has_pending(
    writer: &Option<Writer<PublishedList, Step, LastSeen, ListRule>>,
    history: &History,
) -> bool
    requires { IsSome writer.now }
    ensures { result ≡ false → length history.now.log ≡ length (published_of writer.now).prefix.log }
{
    history.prefix().len() != writer.as_ref().unwrap().published().prefix().len()
}

// Adds what the list has behind the copy to the copy, or as much of it as there is room for.
#[tactic(auto, using(crate::proofs::Lists::take_begins, crate::proofs::Lists::prefix_take, crate::proofs::Lists::prefix_self, crate::proofs::Lists::prefix_more, crate::proofs::Lists::prefix_length))]
fn copy_rest(alloc: Global, list: &[Appended], copy: &mut List<Appended>) -> Result<(), Memory>
    requires { IsPrefix copy.old list.now }
    ensures grows { IsPrefix copy.old copy.new }
    ensures within { IsPrefix copy.new list.now }
    ensures done { OnOk result (copy.new ≡ list.now) }
{
    let from = copy.len();
    for at in from..list.len() {
        copy.push(copy_of(alloc, &list[at])?)?;
    }
    Ok(())
}

impl Place {
    /// How much it has seen or learned of.
    pub(crate) fn known_len(&self) -> u64
        ensures { result ≡ length self.now.known }
    {
        self.known.len()
    }

    /// Learns what is published.
    #[tactic(auto, using(crate::proofs::Lists::prefix_trans))]
    pub(crate) fn learn(&mut self, prefix: &SeenPrefix)
        requires { self.old.book ≡ prefix.now.book }
        ensures same { self.new ≡ record self.old { known = self.new.known } }
        ensures known { IsPrefix self.old.known self.new.known × IsPrefix prefix.now.log self.new.known }
    {
        self.known.learn(prefix);
    }

    /// Looks at the list that is published once, and adds what the copy lacks of it. A list that is shorter than what was
    /// learned is refused.
    #[tactic(auto, using(crate::proofs::ListRule::fits_book, crate::proofs::Lists::prefix_trans, crate::proofs::Lists::prefix_self))]
    pub(crate) fn enter(&mut self, copy: &mut List<Appended>) -> Entered
        requires { IsPrefix copy.old self.old.seen }
        ensures book { self.new.book ≡ self.old.book }
        ensures refused { result ≡ Entered.Refused → (self.new ≡ self.old) × (copy.new ≡ copy.old) }
        ensures seen { result ≢ Entered.Refused → IsPrefix self.old.known self.new.seen × (self.new.known ≡ self.new.seen) }
        ensures grows { IsPrefix copy.old copy.new }
        ensures within { IsPrefix copy.new self.new.seen }
        ensures done { result ≡ Entered.Done → copy.new ≡ self.new.seen }
    {
        let reader = self.reader.take().unwrap();
        match reader.enter_as::<ListAccess>() {
            Ok(reading) => {
                if !self.known.is_prefix_of(reading.get().prefix()) {
                    self.reader = Some(reading.leave());
                    return Entered::Refused;
                }
                let followed = copy_rest(self.alloc, reading.get().list(), copy);
                self.seen = reading.get().prefix().copy();
                self.known = reading.get().prefix().copy();
                self.reader = Some(reading.leave());
                match followed {
                    Ok(()) => Entered::Done,
                    Err(Memory) => Entered::Memory,
                }
            }
            Err(reader) => {
                self.reader = Some(reader);
                Entered::Refused
            }
        }
    }
}

/// Makes the writer of an empty list, and its readers. `Refused` is whatever the two copies answer but success, and `Memory` is want
/// of memory outside them.
pub(crate) fn open_hall<R: Wait>(
    rt: &R,
    alloc: Global,
    places: u32,
) -> Result<(Hall, Vec<Place>), LiveFault>
    requires { 0 < places }
    ensures hall { IfOk result (λ o. o.0.log ≡ []) }
    ensures places { IfOk result (λ o. (vec_len o.1 ≡ places) × All (λ p. p ≡ record { book = o.0.book; seen = []; known = [] }) o.1.items) }
{
    let history = History::new();
    let first = PublishedList::new(alloc, history.prefix().copy());
    let second = PublishedList::new(alloc, history.prefix().copy());
    let made = Writer::<PublishedList, Step, LastSeen, ListRule>::new(
        alloc,
        first,
        second,
        places as usize,
    );
    let Ok(writer) = made else {
        return Err(LiveFault::Refused);
    };
    let (mut writer, shown) = writer.publish_as::<ListAccess, R>(rt);
    if shown.is_err() {
        drop(writer.take(rt));
        return Err(LiveFault::Refused);
    }
    match readers(alloc, &mut writer, history.prefix(), places) {
        Ok(readers) => Ok((
            Hall {
                writer: Some(writer),
                history,
            },
            readers,
        )),
        Err(fault) => {
            drop(writer.take(rt));
            Err(fault)
        }
    }
}

// Makes readers that have seen nothing of the history that the writer knows.
fn readers(
    alloc: Global,
    writer: &mut Writer<PublishedList, Step, LastSeen, ListRule>,
    prefix: &SeenPrefix,
    places: u32,
) -> Result<Vec<Place>, LiveFault>
    requires { (view writer.old.desk.place ≡ Some prefix.now) × (prefix.now.log ≡ []) }
    ensures kept { (writer.new.desk.shown ≡ writer.old.desk.shown) × (writer.new.log ≡ writer.old.log) × (writer.new.behind ≡ writer.old.behind) }
    ensures places { IfOk result (λ r. (vec_len r ≡ places) × All (λ p. p ≡ record { book = prefix.now.book; seen = []; known = [] }) r.items) }
{
    let mut readers = Vec::new(alloc);
    for _place in 0..places {
        let Ok(mut reader) = writer.factory().reader() else {
            return Err(LiveFault::Refused);
        };
        reader.learn::<NewReader>(writer.tell::<NewReader>());
        let place = Place {
            alloc,
            reader: Some(reader),
            seen: prefix.copy(),
            known: prefix.copy(),
        };
        if readers.push(place).is_err() {
            return Err(LiveFault::Memory);
        }
    }
    Ok(readers)
}
