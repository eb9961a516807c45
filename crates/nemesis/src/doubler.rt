//! The doubler.

ghost use Rattle.nemesis_types.specs.StandardNemeses.{doubler_with, doubler, second_event};
ghost use Rattle.std.specs.Prelude.{◌≡◌};

use crate::law::Nemesis;
use boki_types::Event;
use nemesis_types::Seen;

/// Starts and steps a second attempt beside each attempt with a number up to 2,048, under that number and
/// 2,048.
#[derive(Debug, Drop)]
pub struct Doubler {
    on: u64,
}

impl Doubler {
    /// It does so until it is reseeded by an odd number. It takes no memory.
    pub fn new() -> Doubler
        ensures { doubler_with result.on ≡ doubler }
    {
        Doubler { on: 1 }
    }
}

/// What stands beside the event.
fn double(seen: &Seen) -> Option<Event>
    ensures { result ≡ second_event seen.now.started seen.now.stepped }
{
    if let Some(started) = seen.started {
        if started.attempt <= 2048 {
            return Some(Event::Start {
                attempt: started.attempt + 2048,
                path: started.path,
                engine: started.engine,
            });
        }
        return None;
    }
    let Some(attempt) = seen.stepped else {
        return None;
    };
    if attempt <= 2048 {
        return Some(Event::Step {
            attempt: attempt + 2048,
        });
    }
    None
}

impl Nemesis for Doubler {
    ghost automaton = { λ s. doubler_with s.on };

    fn next(&mut self, seen: &Seen) -> Option<Event> {
        if self.on == 1 { double(seen) } else { None }
    }

    fn reseed(&mut self, n: u64) {
        self.on = if n % 2 == 0 { 1 } else { 0 };
    }

    fn spent(&self) -> bool {
        false
    }
}
