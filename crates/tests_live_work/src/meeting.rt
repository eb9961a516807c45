//! Workers that wait for each other at the gate.

use crate::common::text_of;
use engine_gate::Gate;
use live_work::run_live;
use std::sync::atomic::AtomicU64;
use std::sync::atomic::Ordering::SeqCst;
use std::test::Fail;
use std::thread;

/// So often a worker looks whether the other has come.
const LOOKS: u64 = 100_000_000;

/// Holds worker 2 before its first line until worker 1 has come, and worker 1 until worker 2 has come twice, each for so many looks at
/// most.
#[derive(Drop)]
struct Meeting {
    first: AtomicU64,
    second: AtomicU64,
}

impl Gate for Meeting {
    fn enter(&self, engine: u32) {
        if engine == 1 {
            self.first.fetch_add(1, SeqCst);
            wait_for(&self.second, 2);
        } else {
            self.second.fetch_add(1, SeqCst);
            wait_for(&self.first, 1);
        }
    }
}

fn wait_for(count: &AtomicU64, least: u64) {
    for _ in 0..LOOKS {
        if count.load(SeqCst) >= least {
            return;
        }
        thread::yield_now();
    }
}

#[test]
fn live_meets(rt: HostRuntime) -> Result<(), Fail> {
    let alloc = rt.alloc();
    let text = text_of(
        alloc,
        "live 2\n1 append 7 \"a\"\n2 append 7 \"b\"\n2 append 7 \"c\"\n",
    )?;
    let gate = Meeting {
        first: AtomicU64::new(0),
        second: AtomicU64::new(0),
    };
    let ran = run_live(&rt, alloc, &text, &gate)?;
    let first = ran.list.get(0).map(|item| item.0);
    assert_eq!(rt; (ran.list.len(), first), (3, Some(2)));
    Ok(())
}
