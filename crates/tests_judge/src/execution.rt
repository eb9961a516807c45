//! The execution itself, turn by turn: a turn that can't be done changes nothing.

use crate::heads::CHILDREN;
use boki_types::{Plan, Report, Turn};
use ideal_run::{Ideal, TurnFault};
use lb_base::{List, Memory, Path};
use plan_lang::{parse_turns, print_report};
use std::alloc::Global;
use std::process::Abort;
use std::test::Fail;

fn path(rt: &impl Abort, numbers: &[u32]) -> Path {
    Path::from_parts(numbers).expect(rt, "no path")
}

/// Hands a turn of a path to an execution.
fn go(
    rt: &impl Abort,
    ideal: &mut Ideal,
    plan: &Plan,
    path: Path,
    n: u64,
) -> Result<(), TurnFault> {
    assert!(rt; plan.program.functions.len() < 4096);
    ideal.turn(&plan.program, &Turn::Go { path, n })
}

/// Ends a path.
fn end(rt: &impl Abort, ideal: &mut Ideal, plan: &Plan, path: Path) -> Result<(), TurnFault> {
    assert!(rt; plan.program.functions.len() < 4096);
    ideal.take_turn(&plan.program, Turn::End { path })
}

/// Submits the first function as the request 1.
fn submit(rt: &impl Abort, alloc: Global, ideal: &mut Ideal, plan: &Plan) -> Result<(), TurnFault> {
    assert!(rt; plan.program.functions.len() < 4096);
    let turn = Turn::Submit {
        request: 1,
        function: 0,
        args: List::new(alloc),
    };
    ideal.take_turn(&plan.program, turn)
}

/// Whether this is the text of a report.
fn is_text(alloc: Global, report: &Report, plan: &Plan, want: &str) -> Result<bool, Memory> {
    Ok(print_report(alloc, report, &plan.program)?.is(want))
}

/// Whether this is the text of the report so far.
fn tells(alloc: Global, ideal: &Ideal, plan: &Plan, want: &str) -> Result<bool, Memory> {
    let report = ideal.report()?;
    let is = is_text(alloc, &report, plan, want);
    drop(report);
    is
}

/// Whether this is the text of the last report.
fn comes_to(alloc: Global, ideal: Ideal, plan: &Plan, want: &str) -> Result<bool, Memory> {
    let report = ideal.into_report()?;
    let is = is_text(alloc, &report, plan, want);
    drop(report);
    is
}

/// A go of a path that isn't known is illegal, and so is one of more operations than can be done; neither leaves anything.
fn illegal_turns(
    rt: &impl Abort,
    alloc: Global,
    ideal: &mut Ideal,
    plan: &Plan,
) -> Result<(), Memory> {
    let parent = path(rt, &[1]);
    assert!(rt; go(rt, ideal, plan, parent, 0) == Err(TurnFault::Illegal));
    assert!(rt; tells(alloc, ideal, plan, "report\nend\n")?);
    assert!(rt; submit(rt, alloc, ideal, plan).is_ok());
    assert!(rt; go(rt, ideal, plan, parent, 3) == Err(TurnFault::Illegal));
    assert!(rt; tells(alloc, ideal, plan, "report\nturn submit 1 parent()\nend\n")?);
    assert!(rt; ideal.asked(path(rt, &[1, 1])).is_none());
    Ok(())
}

/// Behind a push and a spawn the child is known, until it has ended.
fn asked_behind_a_spawn(rt: &impl Abort, ideal: &mut Ideal, plan: &Plan) {
    let parent = path(rt, &[1]);
    let child = path(rt, &[1, 1]);
    assert!(rt; go(rt, ideal, plan, parent, 2).is_ok());
    assert!(rt; ideal.asked(parent).is_some());
    assert!(rt; ideal.asked(child).is_some());
    assert!(rt; end(rt, ideal, plan, child).is_ok());
    assert!(rt; ideal.asked(child).is_none());
}

const LAST_REPORT: &str = "\
report
turn submit 1 parent()
turn go 1 2
turn end 1.1
result 1.1 value 8
queue \"q\" [1]
end
";

/// Does turns on the execution of a plan.
fn run_turns(rt: &impl Abort, alloc: Global, plan: &Plan) -> Result<(), Memory> {
    let mut ideal = Ideal::new(alloc, plan)?;
    let tried = illegal_turns(rt, alloc, &mut ideal, plan);
    asked_behind_a_spawn(rt, &mut ideal, plan);
    assert!(rt; comes_to(alloc, ideal, plan, LAST_REPORT)?);
    tried
}

#[test]
fn a_turn_is_done_whole_or_not_at_all(rt: HostRuntime) -> Result<(), Fail> {
    let alloc = rt.alloc();
    let Ok(text) = parse_turns(alloc, CHILDREN.as_bytes()) else {
        panic!(rt; "no turns")
    };
    let ran = run_turns(&rt, alloc, &text.plan);
    drop(text);
    ran?;
    Ok(())
}
