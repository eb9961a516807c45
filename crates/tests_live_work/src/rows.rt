//! Whole texts, on one thread and in threads.

use crate::common::{ONE_WORKER, ONE_WORKER_OUTPUT, printed, text_of};
use engine_gate::NoGate;
use live_work::{live_plain, run_live};
use std::test::Fail;

/// Three workers, two of which append a record each.
const THREE_WORKERS: &str = "live 3\n1 append 7 \"a\"\n1 prev 7 99\n2 append 7 \"b\"\n3 count 7\n";

#[test]
fn one_after_another(rt: HostRuntime) -> Result<(), Fail> {
    let alloc = rt.alloc();
    let one = text_of(alloc, ONE_WORKER)?;
    assert_eq!(rt;
        printed(alloc, live_plain(alloc, &one))?.as_str(),
        ONE_WORKER_OUTPUT
    );
    let three = text_of(alloc, THREE_WORKERS)?;
    assert_eq!(rt;
        printed(alloc, live_plain(alloc, &three))?.as_str(),
        "list\n1 1 7 \"a\"\n2 2 7 \"b\"\nworker 1\nappend 1\nprev 1 at 1\nworker 2\nappend 2\nworker 3\ncount 2 at 2\nend\n"
    );
    Ok(())
}

#[test]
fn in_threads(rt: HostRuntime) -> Result<(), Fail> {
    let alloc = rt.alloc();
    let one = text_of(alloc, ONE_WORKER)?;
    let ran = run_live(&rt, alloc, &one, &NoGate);
    assert_eq!(rt; printed(alloc, ran)?.as_str(), ONE_WORKER_OUTPUT);
    let three = text_of(alloc, THREE_WORKERS)?;
    let ran = run_live(&rt, alloc, &three, &NoGate)?;
    assert_eq!(rt; (ran.list.len(), ran.answers.len()), (2, 3));
    Ok(())
}

#[test]
fn without_lines(rt: HostRuntime) -> Result<(), Fail> {
    let alloc = rt.alloc();
    let two = text_of(alloc, "live 2\n")?;
    let ran = run_live(&rt, alloc, &two, &NoGate);
    assert_eq!(rt;
        printed(alloc, ran)?.as_str(),
        "list\nworker 1\nworker 2\nend\n"
    );
    Ok(())
}
