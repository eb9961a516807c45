//! What a nemesis is: its calls, and the law that they follow.

ghost use Rattle.std.specs.Prelude.{◌≡◌};
ghost use Rattle.nemesis_types.specs.Automaton.{Automaton, answer_of, after_ask, reseeded, is_spent};

use boki_types::Event;
use nemesis_types::Seen;

/// Disturbs a run by events of its own.
pub trait Nemesis: Drop {
    /// Its list of numbers, with its law. The law never changes, and it is all that is known of it.
    ghost automaton: { Self → Automaton };

    /// What it gives behind an event of the plan.
    fn next(&mut self, seen: &Seen) -> Option<Event>
        ensures answer { result ≡ answer_of (automaton self.old) seen.now }
        ensures after { automaton self.new ≡ after_ask (automaton self.old) seen.now };

    /// Sets its list anew by a number.
    fn reseed(&mut self, n: u64)
        ensures { automaton self.new ≡ reseeded (automaton self.old) n };

    /// Whether it is asked no more.
    fn spent(&self) -> bool
        ensures { result ≡ is_spent (automaton self.now) };
}
