//! The turns of a text, done one after another.

ghost use Rattle.std.specs.Prelude.{◌≡◌, ◌<◌, ◌^◌, length, IfOk, IfErr, OnOk, OnErr};
ghost use Rattle.line_text.specs.Faults.{Gives};
ghost use Rattle.ideal_run.specs.Judged.{IsDone};
ghost use Rattle.ideal_run.specs.Turned.{HasRequest};
ghost use Rattle.judge_agrees.specs.Judged.{judged_text as judged_of, judge_turns};
ghost use Rattle.judge_call.specs.Turns.{AreDone, HaveRequests, StopsAt, TurnStops, CanBeDone, Reports};

use boki_types::{Kind, Plan, Program, Report, Turn, TurnText};
use ideal_run::{Ideal, TurnFault};
use lb_base::{List, Words};
use plan_lang::{PlanFault, parse_turns, print_report};
use std::alloc::Global;

/// Does a turn. It is refused with the number of its line, and `Illegal`, exactly where it can't be done.
fn do_turn(ideal: &mut Ideal, program: &Program, line: u64, turn: Turn) -> Result<(), PlanFault>
    requires few { length program.now.functions < 2 ^ 32 }
    requires request { HasRequest turn }
    ensures ok { OnOk result (IsDone program.now.functions turn ideal.old ideal.new) }
    ensures err { IfErr result (TurnStops program.now.functions line turn ideal.old) }
{
    match ideal.take_turn(program, turn) {
        Ok(()) => Ok(()),
        Err(TurnFault::Illegal) => Err(PlanFault::Refused {
            line,
            kind: Kind::Illegal,
        }),
        Err(TurnFault::Memory) => Err(PlanFault::Memory),
    }
}

/// Does turns in order, which the execution takes over one by one. Refused comes exactly at the first that can't be done.
fn do_turns(ideal: &mut Ideal, program: &Program, turns: List<(u64, Turn)>) -> Result<(), PlanFault>
    requires few { length program.now.functions < 2 ^ 32 }
    requires requests { HaveRequests turns }
    ensures ok { OnOk result (AreDone program.now.functions turns ideal.old ideal.new) }
    ensures err { IfErr result (StopsAt program.now.functions turns ideal.old) }
{
    let mut left = turns.into_vec();
    left.reverse();
    'turns: while let Some((line, turn)) = left.pop() {
        if let Err(fault) = do_turn(ideal, program, line, turn) {
            drop(left);
            return Err(fault);
        }
    }
    Ok(())
}

/// The report behind turns of a plan, or the line of the first that can't be done.
fn report_of(alloc: Global, plan: &Plan, turns: List<(u64, Turn)>) -> Result<Report, PlanFault>
    requires { CanBeDone (record { plan = plan.now; turns = turns }) }
    ensures { Reports (record { plan = plan.now; turns = turns }) result }
{
    let Ok(mut ideal) = Ideal::new(alloc, plan) else {
        drop(turns);
        return Err(PlanFault::Memory);
    };
    do_turns(&mut ideal, &plan.program, turns)?;
    Ok(ideal.into_report()?)
}

/// The text of the report behind the turns of a text, or the line of the first that can't be done. The turns are kept once.
fn report_text_of(alloc: Global, text: TurnText) -> Result<Words, PlanFault>
    requires { CanBeDone text }
    ensures { Gives result (judge_turns text) }
{
    let TurnText { plan, turns } = text;
    let report = report_of(alloc, &plan, turns)?;
    Ok(print_report(alloc, &report, &plan.program)?)
}

/// The text of the report behind the turns that a text spells. It is refused where it spells none, and at the first turn that
/// can't be done. The text is dropped once its turns are read.
pub fn judged_text(alloc: Global, text: Vec<u8>) -> Result<Words, PlanFault>
    ensures { Gives result (judged_of text.items) }
{
    let turns = parse_turns(alloc, text.as_slice());
    drop(text);
    report_text_of(alloc, turns?)
}
