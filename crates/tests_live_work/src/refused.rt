//! Doors that refuse a call of a run: the run then answers what it would on one thread.

use crate::common::{printed, text_of};
use crate::refusing::Refusing;
use engine_gate::Gate;
use lb_base::{Memory, Words};
use live_text::LiveText;
use live_work::run_through;
use std::alloc::Global;
use std::sync::Wait;
use std::sync::atomic::AtomicU64;
use std::sync::atomic::Ordering::SeqCst;
use std::test::Fail;
use std::thread;
use std::thread::Threads;

/// Worker 1 appends once worker 2 has done so, so that the list of a run isn't that of one thread.
const TWO_WORKERS: &str =
    "live 2\n1 append 7 \"a\"\n1 count 7\n2 append 7 \"b\"\n2 append 7 \"c\"\n2 count 7\n";

/// What it comes to on one thread.
const ONE_THREAD: &str =
    "list\n1 1 7 \"a\"\n2 2 7 \"b\"\n3 2 7 \"c\"\nworker 1\nappend 1\ncount 1 at 1\nworker 2\nappend 2\nappend 3\ncount 3 at 3\nend\n";

/// What it comes to where worker 1 waits.
const IN_TURN: &str =
    "list\n1 2 7 \"b\"\n2 2 7 \"c\"\n3 1 7 \"a\"\nworker 1\nappend 3\ncount 3 at 3\nworker 2\nappend 1\nappend 2\ncount 3 at 3\nend\n";

/// Holds worker 1 before its first line until worker 2 is at its third, and worker 2 there until worker 1 is at its second, each for so
/// many looks at most.
#[derive(Drop)]
struct InTurn {
    first: AtomicU64,
    second: AtomicU64,
}

impl Gate for InTurn {
    fn enter(&self, engine: u32) {
        if engine == 1 {
            if self.first.fetch_add(1, SeqCst) == 0 {
                wait_for(&self.second, 3);
            }
        } else if self.second.fetch_add(1, SeqCst) == 2 {
            wait_for(&self.first, 2);
        }
    }
}

fn wait_for(count: &AtomicU64, least: u64) {
    for _ in 0..100_000_000u64 {
        if count.load(SeqCst) >= least {
            return;
        }
        thread::yield_now();
    }
}

/// What a run comes to where the door of the log, of worker 1 and of worker 2 refuse these calls, from 1; 0 refuses none.
fn refused_at<R: Threads + Wait + Sync>(
    rt: &R,
    alloc: Global,
    calls: (u64, u64, u64),
) -> Result<Words, Memory> {
    let text = text_of(alloc, TWO_WORKERS)?;
    let mut doors = Vec::new(alloc);
    doors.push(Refusing::at(calls.2))?;
    doors.push(Refusing::at(calls.1))?;
    let gate = InTurn {
        first: AtomicU64::new(0),
        second: AtomicU64::new(0),
    };
    run_two(rt, alloc, &text, &gate, calls.0, doors)
}

fn run_two<G: Gate + Sync, R: Threads + Wait + Sync>(
    rt: &R,
    alloc: Global,
    text: &LiveText,
    gate: &G,
    call: u64,
    doors: Vec<Refusing>,
) -> Result<Words, Memory> {
    let mut door = Refusing::at(call);
    if text.workers != 2 || doors.len() != 2 {
        return Err(Memory);
    }
    let ran = run_through(rt, alloc, text, gate, &mut door, doors);
    printed(alloc, ran)
}

#[test]
fn each_call_refused(rt: HostRuntime) -> Result<(), Fail> {
    let alloc = rt.alloc();
    for (calls, want) in [
        ((0, 0, 0), IN_TURN),
        ((1, 0, 0), ONE_THREAD),
        ((2, 0, 0), ONE_THREAD),
        ((3, 0, 0), ONE_THREAD),
        ((4, 0, 0), IN_TURN),
        ((0, 1, 0), ONE_THREAD),
        ((0, 2, 0), IN_TURN),
        ((0, 0, 1), ONE_THREAD),
    ] {
        assert_eq!(rt;
            refused_at(&rt, alloc, calls)?.as_str(),
            want,
            "at {calls:?}"
        );
    }
    Ok(())
}
