//! The loser.

ghost use Rattle.nemesis_types.specs.StandardNemeses.{loser_with, loser};
ghost use Rattle.std.specs.Prelude.{◌≡◌};

use crate::counter::Counter;
use crate::law::Nemesis;
use boki_types::Event;
use nemesis_types::Seen;

/// Counts the steps that sent a record, and loses every so many-th.
#[derive(Debug, Drop)]
pub struct Loser {
    counter: Counter,
}

impl Loser {
    /// It loses every third record, eight times. It takes no memory.
    pub fn new() -> Loser
        ensures { loser_with result.counter.every result.counter.count result.counter.left ≡ loser }
    {
        Loser {
            counter: Counter::new(3, 8),
        }
    }
}

impl Nemesis for Loser {
    ghost automaton = { λ s. loser_with s.counter.every s.counter.count s.counter.left };

    fn next(&mut self, seen: &Seen) -> Option<Event> {
        if self.counter.is_done() || !seen.sent {
            return None;
        }
        let Some(attempt) = seen.stepped else {
            return None;
        };
        if self.counter.counts() {
            Some(Event::Lose { attempt })
        } else {
            None
        }
    }

    fn reseed(&mut self, n: u64) {
        self.counter.recount(n);
    }

    fn spent(&self) -> bool {
        self.counter.is_done()
    }
}
