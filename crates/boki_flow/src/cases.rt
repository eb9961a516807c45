//! The cases of a step, in the order of the step table.
ghost use Rattle.std.specs.Prelude.{◌≡◌, ◌+◌, ◌<◌, ◌^◌, List, is_some, OnErr, IfOk};
ghost use Rattle.boki_types.specs.declared.plan.Setup.{Setup};
ghost use Rattle.boki_types.specs.declared.program.Function.{Function};
ghost use Rattle.boki_model.specs.Writes.{Store};
ghost use Rattle.boki_model.specs.Reads.{nth};
ghost use Rattle.boki_model.specs.Bodies.{step_tag};
ghost use Rattle.boki_machine.specs.Attempt.{Attempt};
ghost use Rattle.boki_machine.specs.Step.{attempt_ask, answers_to};
ghost use Rattle.book_api.specs.Books.{HasEngine};
ghost use Rattle.step_log.specs.Sound.{Sound, view};
ghost use Rattle.attempt_state.specs.Attempts.{HasScript};
ghost use Rattle.boki_flow.specs.Arms.{Always, Runs, HasBegun, CanFlowIf, MovesBy, CutShortBy, step_move, running_move, unended_move, next_move};
ghost use Rattle.boki_flow.specs.Flow.{FlowStandsFor};

use crate::adopting::adopt;
use crate::asking::step_script;
use crate::init::step_init;
use attempt_state::AttemptState;
use boki_types::{Life, Program, StepLine};
use flow_parts::Parts;
use lb_base::Memory;
use std::alloc::Global;
use step_log::{last_finish, resolve, step_at};

/// One step.
pub(crate) fn step_attempt(
    alloc: Global,
    program: &Program,
    parts: &mut Parts,
    state: &mut AttemptState,
) -> Result<StepLine, Memory>
    requires { CanFlowIf Always program.now.functions parts.old state.old }
    ensures ok { IfOk result (MovesBy Always (step_move program.now.functions parts.old)
        program.now.functions parts.old parts.new state.old state.new) }
    ensures err { OnErr result (state.new ≡ state.old) }
    ensures cut { OnErr result (CutShortBy Always (step_move program.now.functions parts.old)
        program.now.functions parts.old parts.new state.old) }
{
    if state.progress.is_running() {
        step_running(alloc, program, parts, state)
    } else {
        Ok(StepLine::Idle)
    }
}

/// The step of an attempt that runs.
fn step_running(
    alloc: Global,
    program: &Program,
    parts: &mut Parts,
    state: &mut AttemptState,
) -> Result<StepLine, Memory>
    requires { CanFlowIf Runs program.now.functions parts.old state.old }
    ensures ok { IfOk result (MovesBy Runs (running_move program.now.functions parts.old)
        program.now.functions parts.old parts.new state.old state.new) }
    ensures err { OnErr result (state.new ≡ state.old) }
    ensures cut { OnErr result (CutShortBy Runs (running_move program.now.functions parts.old)
        program.now.functions parts.old parts.new state.old) }
{
    let at = state.progress;
    match last_finish(alloc, &parts.book, at.engine, at.path)? {
        Some(outcome) => {
            state.end(Life::Over);
            Ok(StepLine::Over(outcome))
        }
        None => step_unended(alloc, program, parts, state),
    }
}

/// The step of an attempt that runs, whose invocation's end its engine doesn't see.
fn step_unended(
    alloc: Global,
    program: &Program,
    parts: &mut Parts,
    state: &mut AttemptState,
) -> Result<StepLine, Memory>
    requires { CanFlowIf Runs program.now.functions parts.old state.old }
    ensures ok { IfOk result (MovesBy Runs (unended_move program.now.functions parts.old)
        program.now.functions parts.old parts.new state.old state.new) }
    ensures err { OnErr result (state.new ≡ state.old) }
    ensures cut { OnErr result (CutShortBy Runs (unended_move program.now.functions parts.old)
        program.now.functions parts.old parts.new state.old) }
{
    let at = state.progress;
    // An attempt that has adopted its Init sees its call.
    if at.place > 0 {
        return step_on(alloc, program, parts, state);
    }
    let Some(call) = resolve(alloc, &parts.book, at.engine, at.path)? else {
        return Ok(StepLine::WaitsCall);
    };
    let line = step_init(alloc, program, parts, state, &call);
    drop(call);
    line
}

/// The step of an attempt that has adopted its Init: it adopts the record at its place where that
/// is of its next operation.
fn step_on(
    alloc: Global,
    program: &Program,
    parts: &mut Parts,
    state: &mut AttemptState,
) -> Result<StepLine, Memory>
    requires { CanFlowIf HasBegun program.now.functions parts.old state.old }
    ensures ok { IfOk result (MovesBy HasBegun (next_move program.now.functions parts.old)
        program.now.functions parts.old parts.new state.old state.new) }
    ensures err { OnErr result (state.new ≡ state.old) }
    ensures cut { OnErr result (CutShortBy HasBegun (next_move program.now.functions parts.old)
        program.now.functions parts.old parts.new state.old) }
{
    if is_answered(parts, state) {
        adopt(alloc, program, parts, state)
    } else if state.progress.waiting {
        Ok(StepLine::WaitsRecord)
    } else {
        step_script(alloc, program, parts, state)
    }
}

/// Whether an operation is asked, and the record at the attempt's place has its index.
pub(crate) fn is_answered(parts: &Parts, state: &AttemptState) -> bool
    requires engine { HasEngine state.now.progress.engine parts.now.book }
    requires sound { Sound parts.now.book }
    requires room { state.now.progress.answered + 1 < 2 ^ 64 }
    ensures { (fs : List Function) (setup : Setup) (store : Store) (a : Attempt)
        → FlowStandsFor setup fs store a parts.now state.now → HasScript a
        → result ≡ is_some (answers_to a (attempt_ask fs a)
        (nth (step_tag a.path) a.place (view parts.now.book a.engine))) }
{
    let at = &state.progress;
    if !state.asks_operation() {
        return false;
    }
    match step_at(&parts.book, at.engine, at.path, at.place) {
        Some((_, index)) => at.index() == index,
        None => false,
    }
}
