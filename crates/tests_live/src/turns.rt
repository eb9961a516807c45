//! Two engines in turn.
ghost use Rattle.std.specs.Prelude.{◌≡◌, ◌≤◌, ◌-◌, ℕ, length, slice_index};

use crate::common::{closed, record};
use crate::refusing::Refusing;
use lb_base::Seqnum;
use live_log::{Door, LiveEngine, LiveFault, LiveLog, Naming, Opened, RealDoor};
use std::alloc::Global;
use std::marker::Brand;
use std::process::Abort;
use std::sync::Wait;
use std::test::Fail;

// What the steps of two engines in turn answered.
#[derive(Clone, Copy, Debug, PartialEq, Eq)]
struct Answers {
    first: Seqnum,
    seen: u64,
    second: Seqnum,
    learned: u64,
    covered: u64,
}

// Engine 1 appends `a` and engine 2 `b`.
fn turns<J: Naming, D: Door, R: Wait>(
    rt: &R,
    alloc: Global,
    log: &LiveLog<J>,
    engines: &mut Vec<LiveEngine<J>>,
    door: &mut D,
) -> Option<Answers>
    requires { length engines.old.items ≡ 2 }
    ensures { length engines.new.items ≡ 2 }
{
    let first = log
        .append(rt, &mut engines[0], record(alloc, 256, "a", None).ok()?)
        .ok()?;
    let seen = engines[1].catch_up(door).ok()?;
    let second = log
        .append(rt, &mut engines[1], record(alloc, 256, "b", None).ok()?)
        .ok()?;
    let learned = log.learn(rt, &mut engines[0]).ok()?;
    let covered = engines[0].catch_up(door).ok()?;
    Some(Answers {
        first,
        seen,
        second,
        learned,
        covered,
    })
}

fn two_in_turn<J: Naming, R: Wait + Abort>(
    rt: &R,
    alloc: Global,
    opened: Opened,
    door: RealDoor,
) -> Result<(), Fail>
    requires book { opened.book ≡ J.book }
    requires engines { (opened.engines ≡ J.engines) × (J.engines ≡ 2) }
    requires names { (n : ℕ) → 1 ≤ n → n ≤ 16 → slice_index opened.names (n - 1) ≡ J.names n }
{
    let mut door = door;
    let (log, mut engines) = opened.named::<J, R>(rt, alloc)?;
    let answers = turns(rt, alloc, &log, &mut engines, &mut door);
    let list = closed(rt, log, engines, &mut door).ok_or("not closed")?;
    let right = Answers {
        first: Seqnum(1),
        seen: 1,
        second: Seqnum(2),
        learned: 2,
        covered: 2,
    };
    assert_eq!(rt; answers.ok_or("memory")?, right);
    let expected = [
        (1, record(alloc, 256, "a", None)?),
        (2, record(alloc, 256, "b", None)?),
    ];
    assert!(rt; list.as_slice() == expected.as_slice());
    Ok(())
}

#[test]
fn two_engines(rt: HostRuntime) -> Result<(), Fail> {
    let alloc = rt.alloc();
    let mut door = RealDoor::new();
    let opened = LiveLog::open(&rt, alloc, 2, &mut door).map_err(|_| "refused")?;
    two_in_turn::<Brand, _>(&rt, alloc, opened, door)
}

fn look_refused<J: Naming, R: Wait + Abort>(
    rt: &R,
    alloc: Global,
    opened: Opened,
    door: Refusing,
) -> Result<(), Fail>
    requires book { opened.book ≡ J.book }
    requires engines { (opened.engines ≡ J.engines) × (J.engines ≡ 2) }
    requires names { (n : ℕ) → 1 ≤ n → n ≤ 16 → slice_index opened.names (n - 1) ≡ J.names n }
{
    let mut door = door;
    let (log, mut engines) = opened.named::<J, R>(rt, alloc)?;
    let refused = engines[0].catch_up(&mut door).err();
    let position = engines[0].position();
    let list = closed(rt, log, engines, &mut door).ok_or("not closed")?;
    assert_eq!(rt;
        (refused, position, list.len()),
        (Some(LiveFault::Refused), 0, 0)
    );
    Ok(())
}

#[test]
fn first_look_refused(rt: HostRuntime) -> Result<(), Fail> {
    let alloc = rt.alloc();
    let mut door = Refusing::at(2);
    let opened = LiveLog::open(&rt, alloc, 2, &mut door).map_err(|_| "refused")?;
    look_refused::<Brand, _>(&rt, alloc, opened, door)
}
