//! The killer.

ghost use Rattle.nemesis_types.specs.StandardNemeses.{killer_with, killer};
ghost use Rattle.std.specs.Prelude.{◌≡◌};

use crate::counter::Counter;
use crate::law::Nemesis;
use boki_types::Event;
use nemesis_types::Seen;

/// Counts the steps of attempts, and kills the attempt that took every so many-th.
#[derive(Debug, Drop)]
pub struct Killer {
    counter: Counter,
}

impl Killer {
    /// It kills at every fifth step, three times. It takes no memory.
    pub fn new() -> Killer
        ensures { killer_with result.counter.every result.counter.count result.counter.left ≡ killer }
    {
        Killer {
            counter: Counter::new(5, 3),
        }
    }
}

impl Nemesis for Killer {
    ghost automaton = { λ s. killer_with s.counter.every s.counter.count s.counter.left };

    fn next(&mut self, seen: &Seen) -> Option<Event> {
        if self.counter.is_done() {
            return None;
        }
        let Some(attempt) = seen.stepped else {
            return None;
        };
        if self.counter.counts() {
            Some(Event::Kill { attempt })
        } else {
            None
        }
    }

    fn reseed(&mut self, n: u64) {
        self.counter.recount(n);
    }

    fn spent(&self) -> bool {
        self.counter.is_done()
    }
}
