//! Engines that append, learn and look in turn, many times, through doors that refuse.
ghost use Rattle.std.specs.Prelude.{◌≡◌, ◌<◌, ◌≤◌, ◌-◌, ℕ, length, slice_index};

use crate::common::{closed, record};
use crate::refusing::Refusing;
use lb_base::{Seqnum, Tag};
use live_log::{Door, LiveEngine, LiveFault, LiveLog, Naming, Opened, RealDoor};
use std::alloc::Global;
use std::marker::Brand;
use std::process::Abort;
use std::sync::Wait;
use std::test::Fail;

// What an engine answers to reads of tag 256.
#[derive(Clone, Copy, Debug, PartialEq, Eq)]
struct Reads {
    position: u64,
    count: u64,
    first: Option<Seqnum>,
    second: Option<Seqnum>,
    last: Option<Seqnum>,
    has_last: bool,
    has_more: bool,
}

fn reads_of<J: Naming>(engine: &LiveEngine<J>) -> Reads {
    let tag = Tag(256);
    let position = engine.position();
    Reads {
        position,
        count: engine.count(tag),
        first: engine.next(tag, Seqnum(1)),
        second: engine.nth(tag, 1),
        last: engine.prev(tag, Seqnum(u64::MAX)),
        has_last: engine.record(Seqnum(position)).is_some(),
        has_more: engine.record(Seqnum(position.saturating_add(1))).is_some(),
    }
}

// Whether a look at so many records was right: the engine reads just those, or what it read before the look was refused.
fn is_right(before: Reads, after: Reads, caught: Result<u64, LiveFault>, records: u64) -> bool {
    match caught {
        Ok(position) => {
            let seen = Reads {
                position: records,
                count: records,
                first: Some(Seqnum(1)),
                second: (records > 1).then_some(Seqnum(2)),
                last: Some(Seqnum(records)),
                has_last: true,
                has_more: false,
            };
            position == records && after == seen
        }
        Err(LiveFault::Refused) => after == before,
        Err(LiveFault::Memory) => false,
    }
}

// The engines append, learn and look in turn, so many times. Answers how many looks were refused and how many were not right.
fn rounds_of<J: Naming, D: Door, R: Wait>(
    rt: &R,
    alloc: Global,
    log: &LiveLog<J>,
    engines: &mut [LiveEngine<J>],
    door: &mut D,
    rounds: u64,
) -> Option<(u64, u64)>
    requires { 0 < length engines.old }
{
    let mut refused: u64 = 0;
    let mut wrong: u64 = 0;
    for round in 0..rounds {
        let engine = &mut engines[round as usize % engines.len()];
        log.append(rt, engine, record(alloc, 256, "t", None).ok()?)
            .ok()?;
        let before = reads_of(engine);
        let learned = log.learn(rt, engine).ok()?;
        let caught = engine.catch_up(door);
        match caught {
            Ok(_) => {}
            Err(LiveFault::Refused) => refused = refused.saturating_add(1),
            Err(LiveFault::Memory) => return None,
        }
        if learned != round + 1 || !is_right(before, reads_of(engine), caught, learned) {
            wrong = wrong.saturating_add(1);
        }
    }
    Some((refused, wrong))
}

// The calls of the door are the opening, the looks, and those of `close`.
fn in_rounds<J: Naming, D: Door + Drop, R: Wait + Abort>(
    rt: &R,
    alloc: Global,
    opened: Opened,
    door: D,
    refuse: u64,
) -> Result<(), Fail>
    requires book { opened.book ≡ J.book }
    requires engines { (opened.engines ≡ J.engines) × (0 < J.engines) }
    requires names { (n : ℕ) → 1 ≤ n → n ≤ 16 → slice_index opened.names (n - 1) ≡ J.names n }
{
    let mut door = door;
    let (log, mut engines) = opened.named::<J, R>(rt, alloc)?;
    let count = engines.len();
    let looked = rounds_of(rt, alloc, &log, engines.as_mut_slice(), &mut door, 9);
    let list = closed(rt, log, engines, &mut door).ok_or("not closed")?;
    let due = if refuse >= 1 && refuse <= 10 { 1 } else { 0 };
    assert_eq!(rt;
        (looked.ok_or("memory")?, list.len()),
        ((due, 0), 9),
        "at {refuse}"
    );
    for (at, item) in list.iter().enumerate() {
        assert_eq!(rt; item.0 as usize, at % count + 1, "at {refuse}");
    }
    Ok(())
}

#[test]
fn each_call_refused(rt: HostRuntime) -> Result<(), Fail> {
    let alloc = rt.alloc();
    for refuse in 1..14 {
        let mut door = Refusing::at(refuse);
        match LiveLog::open(&rt, alloc, 2, &mut door) {
            Ok(opened) => in_rounds::<Brand, _, _>(&rt, alloc, opened, door, refuse)?,
            Err(LiveFault::Refused) if refuse == 1 => {}
            Err(_) => return Err(Fail::from("refused")),
        }
    }
    Ok(())
}

#[test]
fn three_in_rounds(rt: HostRuntime) -> Result<(), Fail> {
    let alloc = rt.alloc();
    let mut door = RealDoor::new();
    let opened = LiveLog::open(&rt, alloc, 3, &mut door).map_err(|_| "refused")?;
    in_rounds::<Brand, _, _>(&rt, alloc, opened, door, 0)
}
