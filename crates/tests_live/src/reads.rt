//! Reads of three records, and the faults in words.
ghost use Rattle.std.specs.Prelude.{◌≡◌, ◌≤◌, ◌-◌, ℕ, length, slice_index};

use crate::common::record;
use lb_base::{Seqnum, Tag};
use live_log::{LiveEngine, LiveFault, LiveLog, Naming, Opened, RealDoor, learn_then_catch_up};
use std::alloc::Global;
use std::marker::Brand;
use std::process::Abort;
use std::sync::Wait;
use std::test::Fail;

// Three records of tag 300, of which the third is dead: the tag has two live records before it, and not one.
fn three_records<J: Naming, R: Wait>(
    rt: &R,
    alloc: Global,
    log: &LiveLog<J>,
    engines: &mut Vec<LiveEngine<J>>,
) -> Option<()>
    requires { length engines.old.items ≡ 3 }
    ensures { length engines.new.items ≡ 3 }
{
    log.append(rt, &mut engines[0], record(alloc, 300, "x", None).ok()?)
        .ok()?;
    log.append(rt, &mut engines[1], record(alloc, 300, "y", Some(1)).ok()?)
        .ok()?;
    log.append(rt, &mut engines[2], record(alloc, 300, "z", Some(1)).ok()?)
        .ok()?;
    Some(())
}

fn check_reads<J: Naming, R: Abort>(
    rt: &R,
    alloc: Global,
    engine: &LiveEngine<J>,
    caught: (u64, u64),
) -> Result<(), Fail> {
    let tag = Tag(300);
    assert_eq!(rt; (caught, engine.position()), ((3, 3), 3));
    assert_eq!(rt; engine.count(tag), 2);
    assert_eq!(rt; engine.next(tag, Seqnum(1)), Some(Seqnum(1)));
    assert_eq!(rt; engine.next(tag, Seqnum(2)), Some(Seqnum(2)));
    assert_eq!(rt; engine.next(tag, Seqnum(3)), None);
    assert_eq!(rt; engine.prev(tag, Seqnum(3)), Some(Seqnum(2)));
    assert_eq!(rt; engine.prev(tag, Seqnum(0)), None);
    assert_eq!(rt; engine.nth(tag, 1), Some(Seqnum(2)));
    assert_eq!(rt; engine.nth(tag, 2), None);
    assert_eq!(rt; engine.count(Tag(301)), 0);
    assert!(rt; engine.record(Seqnum(0)).is_none());
    assert!(rt; engine.record(Seqnum(3)) == Some(&record(alloc, 300, "z", Some(1))?));
    assert!(rt; engine.record(Seqnum(4)).is_none());
    Ok(())
}

fn three_in_turn<J: Naming, R: Wait + Abort>(
    rt: &R,
    alloc: Global,
    opened: Opened,
    door: RealDoor,
) -> Result<(), Fail>
    requires book { opened.book ≡ J.book }
    requires engines { (opened.engines ≡ J.engines) × (J.engines ≡ 3) }
    requires names { (n : ℕ) → 1 ≤ n → n ≤ 16 → slice_index opened.names (n - 1) ≡ J.names n }
{
    let mut door = door;
    let (log, mut engines) = opened.named::<J, R>(rt, alloc)?;
    let appended = three_records(rt, alloc, &log, &mut engines);
    let before = engines[0].position();
    let number = engines[2].number();
    let caught = learn_then_catch_up(rt, &log, &mut engines[0], &mut door).ok();
    let reads = match (appended, caught) {
        (Some(()), Some(caught)) => check_reads(rt, alloc, &engines[0], caught),
        _ => Err(Fail::from("memory")),
    };
    log.give_up(rt, engines);
    reads?;
    assert_eq!(rt; (before, number), (0, 3));
    Ok(())
}

#[test]
fn three_engines(rt: HostRuntime) -> Result<(), Fail> {
    let alloc = rt.alloc();
    let mut door = RealDoor::new();
    let opened = LiveLog::open(&rt, alloc, 3, &mut door).map_err(|_| "refused")?;
    three_in_turn::<Brand, _>(&rt, alloc, opened, door)
}

#[test]
fn faults_in_words(rt: HostRuntime) -> Result<(), Fail> {
    assert_eq!(rt;
        format!(in rt.alloc(); "{}, {}", LiveFault::Refused, LiveFault::Memory)?.as_str(),
        "the door refused, out of memory"
    );
    Ok(())
}
