//! Two engines in threads.
ghost use Rattle.std.specs.Prelude.{◌≡◌, ◌<◌, ◌≤◌, ◌-◌, ℕ, length, slice_index};

use crate::common::{closed, record};
use lb_base::{Seqnum, Tag};
use live_log::{LiveEngine, LiveLog, Naming, Opened, RealDoor};
use std::alloc::Global;
use std::marker::Brand;
use std::process::Abort;
use std::sync::Wait;
use std::sync::atomic::{AtomicU64, Ordering};
use std::test::Fail;
use std::thread;
use std::thread::Threads;

// So many appends, and after each a look and a read of it. Answers how many reads were not right.
fn append_and_read<J: Naming, R: Wait>(
    rt: &R,
    alloc: Global,
    log: &LiveLog<J>,
    engine: &mut LiveEngine<J>,
    times: u32,
) -> Option<u64> {
    let mut door = RealDoor::new();
    let mut wrong: u64 = 0;
    let tag = Tag(300 + engine.number() as u64);
    for _ in 0..times {
        let seq = log
            .append(rt, engine, record(alloc, tag.0, "t", None).ok()?)
            .ok()?;
        let position = engine.catch_up(&mut door).ok()?;
        if position < seq.0 || engine.prev(tag, Seqnum(position)) != Some(seq) {
            wrong = wrong.saturating_add(1);
        }
    }
    Some(wrong)
}

fn in_threads<J: Naming + Send + Sync, R: Threads + Wait + Sync + Abort>(
    rt: &R,
    alloc: Global,
    opened: Opened,
    door: RealDoor,
) -> Result<(), Fail>
    requires book { opened.book ≡ J.book }
    requires engines { (opened.engines ≡ J.engines) × (J.engines ≡ 2) }
    requires names { (n : ℕ) → 1 ≤ n → n ≤ 16 → slice_index opened.names (n - 1) ≡ J.names n }
{
    let mut door = door;
    let (log, mut engines) = opened.named::<J, R>(rt, alloc)?;
    let ran = AtomicU64::new(0);
    let wrong = AtomicU64::new(0);
    side_by_side(rt, alloc, &log, engines.as_mut_slice(), (&ran, &wrong));
    let list = closed(rt, log, engines, &mut door).ok_or("not closed")?;
    if ran.load(Ordering::SeqCst) != 2 {
        return Err(Fail::from("memory"));
    }
    let by_first = list.iter().filter(|item| item.0 == 1).count();
    assert_eq!(rt;
        (wrong.load(Ordering::SeqCst), list.len(), by_first),
        (0, 2000, 1000)
    );
    Ok(())
}

// Counts the engines that appended all of theirs, and their reads that were not right.
fn side_by_side<J: Naming + Send + Sync, R: Threads + Wait + Sync>(
    rt: &R,
    alloc: Global,
    log: &LiveLog<J>,
    engines: &mut [LiveEngine<J>],
    counts: (&AtomicU64, &AtomicU64),
)
    requires { 0 < length engines.old }
{
    let threads = engines.len();
    thread::for_each_mut(
        rt,
        engines,
        threads,
        &|_at: usize, engine: &mut LiveEngine<J>| {
            if let Some(wrong) = append_and_read(rt, alloc, log, engine, 1000) {
                counts.0.fetch_add(1, Ordering::SeqCst);
                counts.1.fetch_add(wrong, Ordering::SeqCst);
            }
        },
    );
}

#[test]
fn two_threads(rt: HostRuntime) -> Result<(), Fail> {
    let alloc = rt.alloc();
    let mut door = RealDoor::new();
    let opened = LiveLog::open(&rt, alloc, 2, &mut door).map_err(|_| "refused")?;
    in_threads::<Brand, _>(&rt, alloc, opened, door)
}
