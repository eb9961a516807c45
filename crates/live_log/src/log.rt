//! The log that engines share.
ghost use Rattle.std.specs.Prelude.{◌≡◌, ◌+◌, ◌<◌, ◌≤◌, ◌++◌, ◌∷◌, [], ℕ, ◌-◌, slice_index, List as Items, length, vec_len, IfOk, IfErr, OnErr, IsOkAnd, All};
ghost use mathlib.Core.List.{IsPrefix};
ghost use Rattle.live_log.specs.Appended.{Appended};
ghost use Rattle.lb_base.specs.Devices.{CountRose};
ghost use Rattle.live_log.specs.AppendCounts.{part_at, amount_at};
ghost use Rattle.live_log.specs.Closing.{NewEngines, NumberedFrom};

use crate::append_counts::AppendRights;
use crate::closing::{audit_all, catch_up_all, least_ahead};
use crate::door::Door;
use crate::engine::LiveEngine;
use crate::fault::LiveFault;
use crate::hall::{Hall, Place};
use crate::naming::Naming;
use crate::sequencer::Sequencer;
use crate::unnamed_ledgers::UnnamedLedgers;
use lb_base::{List, Memory, Record, Seqnum};
use std::alloc::Global;
use std::marker::{Brand, Model};
use std::sync::{Mutex, Wait};

/// A log that was opened and has no name yet. Contracts see it by the names that it is to have: the history of its list, those of
/// the engines' ledgers, and how many engines there are.
pub struct Opened {
    hall: Hall,
    places: Vec<Place>,
    ledgers: UnnamedLedgers,
}

impl Model for Opened {
    ghost use Rattle.std.specs.Prelude.{◌≡◌, ◌≤◌, [], All, vec_len};
    ghost use Rattle.live_log.specs.Closing.{LogNames};
    ghost use Rattle.live_log.specs.UnnamedLedgers.{names_of};

    ghost Value = { LogNames };

    ghost view = { λ o. record { book = o.hall.book; names = names_of o.ledgers; engines = vec_len o.places } };

    ghost invariant = { λ o. (o.hall.log ≡ []) × (vec_len o.places ≤ 16) × All (λ p. p ≡ record { book = o.hall.book; seen = []; known = [] }) o.places.items };
}

/// A log. Threads share it, and it is ended by [`LiveLog::close`] or [`LiveLog::give_up`].
pub struct LiveLog<J: Naming> {
    sequencer: Mutex<Sequencer<J>>,
}

/// Why a log was not closed, with what comes back.
pub enum CloseFault<J: Naming> {
    /// There was no room in memory.
    Memory(LiveLog<J>, Vec<LiveEngine<J>>),
    /// The door refused.
    Refused(LiveLog<J>, Vec<LiveEngine<J>>),
    /// An engine has a position above the length of the list. That isn't known to come.
    Ahead {
        /// The least number of such an engine.
        engine: u32,
        /// Its position.
        seen: u64,
        /// The list, each record with the number of the engine that appended it.
        list: List<(u32, Record)>,
        /// All engines.
        engines: Vec<LiveEngine<J>>,
    },
}

impl LiveLog<Brand> {
    /// Opens a log of 1 to 16 engines with an empty list, through a door. `Refused` comes only where the door's refusals rose in
    /// this call. After a fault nothing was made. It may wait.
    pub fn open<D: Door, R: Wait>(
        rt: &R,
        alloc: Global,
        engines: u32,
        door: &mut D,
    ) -> Result<Opened, LiveFault>
        requires { (0 < engines) × (engines ≤ 16) }
        ensures counted { D.refusals door.old ≤ D.refusals door.new }
        ensures ok { IfOk result (λ o. o.engines ≡ engines) }
        ensures refused { IfErr result (λ e. e ≡ LiveFault.Refused → CountRose (D.refusals door.old) (D.refusals door.new)) }
    {
        let (hall, places) = door.open(rt, alloc, engines)?;
        Ok(Opened {
            hall,
            places,
            ledgers: UnnamedLedgers::new(),
        })
    }
}

impl Opened {
    /// The log under its name, with its engines in the order of their numbers, from 1. It may wait.
    ///
    /// The type says which log it is: each engine and each answer of a call is of the log that has the same type, so the caller
    /// picks for J what this value shows, once for each log. After `Memory` nothing was made.
    #[tactic(auto, using(crate::proofs::ClosedList::new_engines_numbered))]
    pub fn named<J: Naming, R: Wait>(
        self,
        rt: &R,
        alloc: Global,
    ) -> Result<(LiveLog<J>, Vec<LiveEngine<J>>), Memory>
        requires book { self.book ≡ J.book }
        requires engines { self.engines ≡ J.engines }
        requires names { (n : ℕ) → 1 ≤ n → n ≤ 16 → slice_index self.names (n - 1) ≡ J.names n }
        ensures { IfOk result (λ r. (length r.1.items ≡ self.engines) × NewEngines 1 r.1.items × NumberedFrom 1 r.1.items) }
    {
        let Opened {
            hall,
            places,
            ledgers,
        } = self;
        let (counts, mut rights) = ledgers.open::<J>();
        let Ok(engines) = engines_of(alloc, places, &mut rights) else {
            drop(hall.take(rt));
            return Err(Memory);
        };
        let sequencer = Sequencer::new(hall, counts);
        let log = LiveLog {
            sequencer: Mutex::new(sequencer),
        };
        Ok((log, engines))
    }
}

#[tactic(auto, using(crate::proofs::ClosedList::new_engines_more))]
fn engines_of<J: Naming>(
    alloc: Global,
    places: Vec<Place>,
    rights: &mut AppendRights<J>,
) -> Result<Vec<LiveEngine<J>>, Memory>
    requires places { All (λ p. p ≡ record { book = J.book; seen = []; known = [] }) places.items }
    requires few { (vec_len places ≤ 16) × (vec_len places ≤ J.engines) }
    requires rights { (n : ℕ) → 1 ≤ n → n ≤ 16 → (part_at rights.old n ≡ 1) × (amount_at rights.old n ≡ 0) }
    ensures engines { IfOk result (λ r. (length r.items ≡ vec_len places) × NewEngines 1 r.items) }
{
    let mut engines = Vec::with_capacity(alloc, places.len())?;
    let mut number = 0;
    for place in places {
        number += 1;
        let right = rights.take(number);
        engines.push(LiveEngine::new(alloc, number, place, right)?)?;
    }
    Ok(engines)
}

impl<J: Naming> LiveLog<J> {
    ghost use Rattle.live_log.specs.Closing.{HasAllAppends, EachByEngine};
    ghost use Rattle.live_log.specs.Faults.{ComesBack, IsRefused};

    /// Appends a record as the engine, and answers the seqnum at which it stands in the list. It takes the lock, for which it may
    /// wait.
    ///
    /// The list begins with what the engine has seen and learned, and from now on the engine knows this record too. After
    /// `Memory` the engine is as it was. No clause says so, but where it was publishing that wanted memory, each later append of this
    /// log answers `Memory` too.
    pub fn append<R: Wait>(
        &self,
        rt: &R,
        who: &mut LiveEngine<J>,
        rec: Record,
    ) -> Result<Seqnum, Memory>
        ensures ok { IfOk result (λ seq. (list : Items Appended) × (seq.0 ≡ length list + 1) × IsPrefix who.old.known list × (who.new ≡ record who.old { known = list ++ (who.old.number, rec) ∷ []; appends = who.old.appends ++ (length list, (who.old.number, rec)) ∷ [] })) }
        ensures err { OnErr result (who.new ≡ who.old) }
    {
        let seq = who.append(rt, &mut *self.sequencer.lock(rt), rec)?;
        Ok(Seqnum(seq))
    }

    /// Lets the engine learn what is published, and answers how many records that are. It takes the lock, for which it may wait, and no
    /// memory, so it is always Ok. Each later `catch_up` of the engine that is Ok covers them.
    pub fn learn<R: Wait>(&self, rt: &R, who: &mut LiveEngine<J>) -> Result<u64, Memory>
        ensures { IsOkAnd result (λ n. (n ≡ length who.new.known) × IsPrefix who.old.known who.new.known × (who.new ≡ record who.old { known = who.new.known })) }
    {
        Ok(who.learn(&mut *self.sequencer.lock(rt)))
    }

    /// Ends a log, with all of its engines: lets each engine see the whole list, and gives the list, each record with the number of
    /// the engine that appended it. It may wait.
    ///
    /// The list has each engine's appends once, in their order and at the seqnums that were answered, and no other record of an
    /// engine that was handed in. `Refused` comes only where the door's refusals rose in this call. `Ahead` comes exactly where an
    /// engine's position is then above the length of the list, and names the one with the least number. After `Memory` and `Refused`
    /// the log comes back, with the engines as they were or caught up with more of the list.
    pub fn close<D: Door, R: Wait>(
        self,
        rt: &R,
        engines: Vec<LiveEngine<J>>,
        door: &mut D,
    ) -> Result<List<(u32, Record)>, CloseFault<J>>
        ensures counted { D.refusals door.old ≤ D.refusals door.new }
        ensures list { IfOk result (λ list. HasAllAppends list engines.items) }
        ensures by { IfOk result (λ list. EachByEngine J.engines list) }
        ensures back { IfErr result (ComesBack engines.items) }
        ensures refused { IfErr result (λ f. IsRefused f → CountRose (D.refusals door.old) (D.refusals door.new)) }
    {
        let LiveLog { sequencer } = self;
        let mut sequencer = sequencer.into_inner();
        let mut engines = engines;
        match catch_up_all(&mut sequencer, &mut engines, door) {
            Err(LiveFault::Refused) => {
                let sequencer = Mutex::new(sequencer);
                Err(CloseFault::Refused(LiveLog { sequencer }, engines))
            }
            Err(LiveFault::Memory) => {
                let sequencer = Mutex::new(sequencer);
                Err(CloseFault::Memory(LiveLog { sequencer }, engines))
            }
            Ok(()) => {
                let (list, counts) = sequencer.take(rt);
                audit_all(list.as_slice(), counts, &mut engines);
                match least_ahead(&engines, list.len() as u64) {
                    Some((engine, seen)) => Err(CloseFault::Ahead {
                        engine,
                        seen,
                        list,
                        engines,
                    }),
                    None => Ok(list),
                }
            }
        }
    }

    /// Ends a log that couldn't be closed, and lets go of its list and its engines. It may wait.
    pub fn give_up<R: Wait>(self, rt: &R, engines: Vec<LiveEngine<J>>) {
        let LiveLog { sequencer } = self;
        drop(engines);
        let (list, counts) = sequencer.into_inner().take(rt);
        drop(list);
        drop(counts);
    }
}
