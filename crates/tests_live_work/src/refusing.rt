//! A door that refuses one call.
ghost use Rattle.std.specs.Prelude.{◌≡◌};

use lb_base::{List, Record};
use live_log::{Door, Entered, Hall, LiveFault, Place, RealDoor};
use std::alloc::Global;
use std::sync::Wait;

/// Refuses the call of this number, from 1, and passes the others on.
#[derive(Drop)]
pub(crate) struct Refusing {
    inner: RealDoor,
    calls: u64,
    refuse: u64,
    refused: u64,
}

impl Refusing {
    pub(crate) fn at(refuse: u64) -> Refusing {
        Refusing {
            inner: RealDoor::new(),
            calls: 0,
            refuse,
            refused: 0,
        }
    }

    fn is_due(&mut self) -> bool
        ensures { self.new.refused ≡ self.old.refused }
    {
        self.calls = self.calls.saturating_add(1);
        self.calls == self.refuse
    }
}

impl Door for Refusing {
    ghost refusals = { λ d. d.refused };

    fn open<R: Wait>(
        &mut self,
        rt: &R,
        alloc: Global,
        places: u32,
    ) -> Result<(Hall, Vec<Place>), LiveFault> {
        let opened = if self.is_due() {
            Err(LiveFault::Refused)
        } else {
            self.inner.open(rt, alloc, places)
        };
        if matches!(opened, Err(LiveFault::Refused)) {
            self.refused = self.refused.saturating_add(1);
        }
        opened
    }

    fn enter(&mut self, place: &mut Place, copy: &mut List<(u32, Record)>) -> Entered {
        let entered = if self.is_due() {
            Entered::Refused
        } else {
            self.inner.enter(place, copy)
        };
        if matches!(entered, Entered::Refused) {
            self.refused = self.refused.saturating_add(1);
        }
        entered
    }
}
