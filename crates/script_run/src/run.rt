//! Runs: from a line on, up to the next operation or to the end.

ghost use Rattle.std.specs.Prelude.{◌≡◌, ◌<◌, ◌+◌, ◌-◌, ◌*◌, ◌^◌, length, drop, IfOk, OnOk, MatchBool};
ghost use Rattle.boki_model.specs.Script as script;
ghost use Rattle.script_run.specs.Standing.{state_of, stop_point_at};
ghost use Rattle.script_run.specs.Flows.{AsksSmallOrdinal};
ghost use Rattle.script_run.specs.Running.{stop_point_from, work_left};

use crate::execute::{Flow, step};
use crate::skip::skip;
use crate::state::{State, replace};
use boki_types::{Ask, Program, Stmt};
use lb_base::{Memory, Outcome, TrapKind, Value};
use std::alloc::Global;

/// How often loop bodies may be entered with no operation between, all loops counted together.
const ENTRIES: usize = 10_000;

/// Where a script is: at a line, and with so many entries left.
#[derive(Clone, Copy, Debug)]
pub(crate) struct ProgramCounter {
    pub(crate) at: usize,
    pub(crate) left: usize,
}

/// Does the line at the counter, and moves the counter to where the script goes from there. Gives whether it goes on.
fn advance(
    alloc: Global,
    program: &Program,
    depth: u8,
    lines: &[Stmt],
    counter: &mut ProgramCounter,
    state: &mut State,
    ask: &mut Ask,
) -> Result<bool, Memory>
    requires functions { length program.now.functions < 2 ^ 32 }
    requires within { counter.old.at < length lines.now }
    requires small { AsksSmallOrdinal ask.old }
    ensures goes { IfOk result (λ on. MatchBool on
        (stop_point_from program.now.functions depth lines.now counter.old (state_of lines.now state.old) ≡ stop_point_from program.now.functions depth lines.now counter.new (state_of lines.now state.new))
        (stop_point_from program.now.functions depth lines.now counter.old (state_of lines.now state.old) ≡ stop_point_at lines.now ask.new counter.new.at (state_of lines.now state.new))) }
    ensures ends { IfOk result (λ on. MatchBool on (work_left lines.now counter.new < work_left lines.now counter.old) (counter.new.at < length lines.now)) }
    ensures small { OnOk result (AsksSmallOrdinal ask.new) }
{
    match step(alloc, program, depth, lines, counter.at, state, ask)? {
        Flow::Next => {
            counter.at += 1;
            Ok(true)
        }
        Flow::Skip => {
            counter.at = skip(lines, counter.at + 1, state)?;
            Ok(true)
        }
        Flow::Enter(at) => {
            if counter.left == 0 {
                replace(ask, Ask::Done(Outcome::Trap(TrapKind::Loop)));
                return Ok(false);
            }
            counter.left -= 1;
            counter.at = at + 1;
            Ok(true)
        }
        Flow::Stop => Ok(false),
    }
}

/// Runs from a line on. Gives the number of the line that asks, where one does.
pub(crate) fn run(
    alloc: Global,
    program: &Program,
    depth: u8,
    lines: &[Stmt],
    start: usize,
    state: &mut State,
    ask: &mut Ask,
) -> Result<usize, Memory>
    requires functions { length program.now.functions < 2 ^ 32 }
    requires small { AsksSmallOrdinal ask.old }
    ensures stands { IfOk result (λ at. script.run_script program.now.functions depth (drop start lines.now) (state_of lines.now state.old) ≡ stop_point_at lines.now ask.new at (state_of lines.now state.new)) }
    ensures small { OnOk result (AsksSmallOrdinal ask.new) }
    ensures fits { IfOk result (λ at. at + 1 < 2 ^ 64) }
{
    let mut counter = ProgramCounter {
        at: start,
        left: ENTRIES,
    };
    'turns: while counter.at < lines.len() {
        if !advance(alloc, program, depth, lines, &mut counter, state, ask)? {
            return Ok(counter.at);
        }
    }
    replace(ask, Ask::Done(Outcome::Good(Value::Nothing)));
    Ok(0)
}
