//! What makes and uses the two copies of a published list, whose success is not promised.
ghost use Rattle.std.specs.Prelude.{◌≡◌, ◌≢◌, ◌<◌, ◌≤◌, [], vec_len, IfOk, IfErr, ℕ, All};
ghost use mathlib.Core.List.{IsPrefix};
ghost use Rattle.lb_base.specs.Devices.{CountRose};

use crate::fault::LiveFault;
use crate::hall::{Entered, Hall, Place, open_hall};
use lb_base::{List, Record};
use std::alloc::Global;
use std::sync::Wait;

/// What opens a log and lets engines look at it, and may refuse either. Contracts see it as a count of refusals, which never falls.
pub trait Door {
    ghost refusals: { Self → ℕ };

    /// The writer of an empty list, and so many readers of it that have seen nothing. `Refused` comes only where the count of
    /// refusals rose. After a fault nothing was made.
    fn open<R: Wait>(
        &mut self,
        rt: &R,
        alloc: Global,
        places: u32,
    ) -> Result<(Hall, Vec<Place>), LiveFault>
        requires { 0 < places }
        ensures counted { refusals self.old ≤ refusals self.new }
        ensures refused { IfErr result (λ e. e ≡ LiveFault.Refused → CountRose (refusals self.old) (refusals self.new)) }
        ensures hall { IfOk result (λ o. o.0.log ≡ []) }
        ensures places { IfOk result (λ o. (vec_len o.1 ≡ places) × All (λ p. p ≡ record { book = o.0.book; seen = []; known = [] }) o.1.items) };

    /// Looks once at the list that is published, and adds what the copy lacks of it to the copy, which needs to be a beginning of
    /// what the place has seen. The list begins with what the place had seen and with what it had learned.
    ///
    /// `Refused` comes only where the count of refusals rose, and then place and copy are as they were. After `Memory` the copy is
    /// between what it was and the list that was seen.
    fn enter(&mut self, place: &mut Place, copy: &mut List<(u32, Record)>) -> Entered
        requires { IsPrefix copy.old place.old.seen }
        ensures counted { refusals self.old ≤ refusals self.new }
        ensures book { place.new.book ≡ place.old.book }
        ensures refused { result ≡ Entered.Refused → CountRose (refusals self.old) (refusals self.new) × (place.new ≡ place.old) × (copy.new ≡ copy.old) }
        ensures seen { result ≢ Entered.Refused → IsPrefix place.old.known place.new.seen × (place.new.known ≡ place.new.seen) }
        ensures grows { IsPrefix copy.old copy.new }
        ensures within { IsPrefix copy.new place.new.seen }
        ensures done { result ≡ Entered.Done → copy.new ≡ place.new.seen };
}

/// Passes the calls on to the two copies, and counts those that were refused. The count stays at 2^64 - 1 once it is there.
///
/// Whatever the two copies answer but success is a refusal, and so may be want of memory inside them. Want of memory outside them
/// is none.
#[derive(Debug, Drop)]
pub struct RealDoor {
    refused: u64,
}

impl RealDoor {
    /// A door that has refused nothing.
    pub fn new() -> RealDoor
        ensures { result.refused ≡ 0 }
    {
        RealDoor { refused: 0 }
    }
}

impl Door for RealDoor {
    ghost refusals = { λ d. d.refused };

    fn open<R: Wait>(
        &mut self,
        rt: &R,
        alloc: Global,
        places: u32,
    ) -> Result<(Hall, Vec<Place>), LiveFault> {
        let opened = open_hall(rt, alloc, places);
        if matches!(opened, Err(LiveFault::Refused)) {
            self.refused = self.refused.saturating_add(1);
        }
        opened
    }

    fn enter(&mut self, place: &mut Place, copy: &mut List<(u32, Record)>) -> Entered {
        let entered = place.enter(copy);
        if matches!(entered, Entered::Refused) {
            self.refused = self.refused.saturating_add(1);
        }
        entered
    }
}
