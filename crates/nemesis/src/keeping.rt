//! Nemeses that are kept.

ghost use Rattle.std.specs.Prelude.{◌≡◌, ◌<◌, map, vec_len, slice_get, slice_set, Some};
ghost use Rattle.nemesis_types.specs.Automaton.{answer_of, after_ask, reseeded, is_spent};
ghost use Rattle.nemesis_types.specs.Kept.{NumberedNemesis, numbered_nemesis, after_asking, after_reseeding, next_asked_index, without_spent};

use crate::law::Nemesis;
use boki_types::Event;
use nemesis_types::Seen;

/// A nemesis with its number, from 1, in the list that was handed in.
pub type Kept = (u32, Box<dyn Nemesis + Send>);

fn ask(nemesis: &mut Box<dyn Nemesis + Send>, seen: &Seen) -> Option<Event>
    ensures answer { result ≡ answer_of (automaton nemesis.old) seen.now }
    ensures after { automaton nemesis.new ≡ after_ask (automaton nemesis.old) seen.now }
{
    nemesis.next(seen)
}

fn reseed(nemesis: &mut Box<dyn Nemesis + Send>, n: u64)
    ensures { automaton nemesis.new ≡ reseeded (automaton nemesis.old) n }
{
    nemesis.reseed(n);
}

fn has_ended(nemesis: &Box<dyn Nemesis + Send>) -> bool
    ensures { result ≡ is_spent (automaton nemesis.now) }
{
    nemesis.spent()
}

/// Asks the nemesis at an index, from 0: its number, and what it gives.
pub fn ask_at(kept: &mut Vec<Kept>, at: usize, seen: &Seen) -> (u32, Option<Event>)
    requires { at < vec_len kept.old }
    ensures many { vec_len kept.new ≡ vec_len kept.old }
    ensures asks { (k : NumberedNemesis) × (slice_get (map (λ b. numbered_nemesis b.0 (automaton b.1)) kept.old.items) at ≡ Some k)
        × (result ≡ (k.number, answer_of k.automaton seen.now))
        × (map (λ b. numbered_nemesis b.0 (automaton b.1)) kept.new.items ≡ slice_set (map (λ b. numbered_nemesis b.0 (automaton b.1)) kept.old.items) at (after_asking seen.now k)) }
{
    let one = &mut kept[at];
    (one.0, ask(&mut one.1, seen))
}

/// Reseeds each nemesis.
pub fn reseed_all(kept: &mut Vec<Kept>, n: u64)
    ensures many { vec_len kept.new ≡ vec_len kept.old }
    ensures seeds { map (λ b. numbered_nemesis b.0 (automaton b.1)) kept.new.items ≡ map (after_reseeding n) (map (λ b. numbered_nemesis b.0 (automaton b.1)) kept.old.items) }
{
    for one in kept.iter_mut() {
        reseed(&mut one.1, n);
    }
}

/// Drops the nemesis at an index where it is spent, and answers the index of the next one.
pub fn drop_spent(kept: &mut Vec<Kept>, at: usize) -> usize
    requires { at < vec_len kept.old }
    ensures next { result ≡ next_asked_index (map (λ b. numbered_nemesis b.0 (automaton b.1)) kept.old.items) at }
    ensures kept { map (λ b. numbered_nemesis b.0 (automaton b.1)) kept.new.items ≡ without_spent (map (λ b. numbered_nemesis b.0 (automaton b.1)) kept.old.items) at }
{
    if has_ended(&kept[at].1) {
        kept.remove(at);
        at
    } else {
        at + 1
    }
}
