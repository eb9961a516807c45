//! What the three nemeses of the program give.

use boki_types::Event;
use lb_base::{Memory, Path};
use nemesis::{Doubler, Killer, Loser, Nemesis, Seen, Started};
use std::alloc::Global;
use std::test::Fail;

/// What is told of a step of an attempt.
pub(crate) fn stepped(attempt: u32, sent: bool) -> Seen {
    Seen {
        event: 1,
        started: None,
        stepped: Some(attempt),
        sent,
    }
}

/// What is told of the start of an attempt.
fn started(attempt: u32, path: Path) -> Seen {
    Seen {
        event: 1,
        started: Some(Started {
            attempt,
            path,
            engine: 1,
        }),
        stepped: None,
        sent: false,
    }
}

/// Whether the nemesis gives an event.
fn gives<N: Nemesis>(nemesis: &mut N, seen: &Seen) -> bool {
    let given = nemesis.next(seen);
    let is_given = given.is_some();
    drop(given);
    is_given
}

/// The attempt that an event steps.
pub(crate) fn stepped_by(event: &Option<Event>) -> Option<u32> {
    match event {
        Some(Event::Step { attempt }) => Some(*attempt),
        _ => None,
    }
}

/// The attempt that an event starts, and its path.
fn started_by(event: &Option<Event>) -> Option<(u32, Path)> {
    match event {
        Some(Event::Start { attempt, path, .. }) => Some((*attempt, *path)),
        _ => None,
    }
}

/// The attempt that the nemesis steps.
fn step_given<N: Nemesis>(nemesis: &mut N, seen: &Seen) -> Option<u32> {
    let given = nemesis.next(seen);
    let attempt = stepped_by(&given);
    drop(given);
    attempt
}

/// Of steps of the attempts 1 to 40, in this order, the attempts at whose step the nemesis gives an event.
fn answered<N: Nemesis>(alloc: Global, nemesis: &mut N, sent: bool) -> Result<Vec<u32>, Memory> {
    let mut found = Vec::new(alloc);
    for attempt in 1..41u32 {
        if gives(nemesis, &stepped(attempt, sent)) {
            found.push(attempt)?;
        }
    }
    Ok(found)
}

#[test]
fn the_killer_kills_at_every_fifth_step(rt: HostRuntime) -> Result<(), Fail> {
    let mut killer = Killer::new();
    let found = answered(rt.alloc(), &mut killer, false)?;
    assert_eq!(rt; found.as_slice(), [5, 10, 15].as_slice());
    assert!(rt; killer.spent());
    Ok(())
}

#[test]
fn the_killer_counts_anew_by_a_seed(rt: HostRuntime) -> Result<(), Fail> {
    let mut killer = Killer::new();
    assert!(rt; !gives(&mut killer, &stepped(1, false)));
    killer.reseed(17);
    let found = answered(rt.alloc(), &mut killer, false)?;
    assert_eq!(rt; found.as_slice(), [2, 4, 6].as_slice());
    Ok(())
}

#[test]
fn the_loser_counts_what_was_sent(rt: HostRuntime) -> Result<(), Fail> {
    let mut loser = Loser::new();
    let none = answered(rt.alloc(), &mut loser, false)?;
    assert!(rt; none.is_empty());
    let found = answered(rt.alloc(), &mut loser, true)?;
    assert_eq!(rt; found.as_slice(), [3, 6, 9, 12, 15, 18, 21, 24].as_slice());
    assert!(rt; loser.spent());
    Ok(())
}

#[test]
fn the_doubler_steps_a_second_attempt(rt: HostRuntime) {
    let mut doubler = Doubler::new();
    assert_eq!(rt; step_given(&mut doubler, &stepped(2048, false)), Some(4096));
    assert!(rt; !gives(&mut doubler, &stepped(2049, false)));
    doubler.reseed(1);
    assert!(rt; !gives(&mut doubler, &stepped(1, false)));
    doubler.reseed(2);
    assert_eq!(rt; step_given(&mut doubler, &stepped(1, false)), Some(2049));
    assert!(rt; !doubler.spent());
}

#[test]
fn the_doubler_starts_a_second_attempt(rt: HostRuntime) -> Result<(), Fail> {
    let path = Path::from_parts(&[7]).ok_or(Memory)?;
    let mut doubler = Doubler::new();
    let given = doubler.next(&started(3, path));
    let second = started_by(&given);
    drop(given);
    assert_eq!(rt; second, Some((2051, path)));
    assert!(rt; !gives(&mut doubler, &started(2049, path)));
    Ok(())
}
