//! An attempt adopts a join, a pop, a begin or a commit: what it takes is by what its engine sees
//! or keeps.
ghost use Rattle.std.specs.Prelude.{◌≡◌, OnErr, IfOk};
ghost use Rattle.boki_types.specs.declared.operation.Ask.TheVariants as k;
ghost use Rattle.boki_types.specs.declared.operation.Op.TheVariants as o;
ghost use Rattle.boki_flow.specs.Arms.{TakesAnswer, TakesPop, TakesCommit};
ghost use Rattle.boki_flow.specs.Arms.{CanFlowIf, MovesBy, CutShortBy};
ghost use Rattle.boki_flow.specs.Arms.{joined_move, popped_move, begun_move, committed_move};

use crate::caches::{begun_values, is_committed, pop_value};
use attempt_state::{AttemptState, Progress, child, copy_outcome};
use attempt_store::{pairs_of, take_answer};
use boki_types::{Answer, Program, StepLine};
use flow_parts::Parts;
use lb_base::{List, Memory, Words};
use std::alloc::Global;
use step_log::last_finish;

/// A join takes the result of the child.
pub(crate) fn adopt_join(
    alloc: Global,
    program: &Program,
    parts: &mut Parts,
    state: &mut AttemptState,
    changed: Progress,
    ordinal: u32,
) -> Result<StepLine, Memory>
    requires { CanFlowIf (TakesAnswer program.now.functions (k.Op (o.Join ordinal)) changed)
        program.now.functions parts.old state.old }
    ensures ok { IfOk result (MovesBy
        (TakesAnswer program.now.functions (k.Op (o.Join ordinal)) changed)
        (joined_move parts.old changed ordinal)
        program.now.functions parts.old parts.new state.old state.new) }
    ensures err { OnErr result (state.new ≡ state.old) }
    ensures cut { OnErr result (CutShortBy
        (TakesAnswer program.now.functions (k.Op (o.Join ordinal)) changed)
        (joined_move parts.old changed ordinal)
        program.now.functions parts.old parts.new state.old) }
{
    let path = child(changed.path, ordinal);
    match last_finish(alloc, &parts.book, changed.engine, path)? {
        Some(outcome) => {
            let answer = Answer::Joined(copy_outcome(&outcome)?);
            let line = StepLine::AdoptJoin(changed.cursor, path, outcome);
            take_answer(alloc, program, state, changed, answer, line)
        }
        None => Ok(StepLine::WaitsJoin(path)),
    }
}

/// A pop takes the front of its queue.
pub(crate) fn adopt_pop(
    alloc: Global,
    program: &Program,
    parts: &mut Parts,
    state: &mut AttemptState,
    changed: Progress,
    queue: &Words,
) -> Result<StepLine, Memory>
    requires { CanFlowIf (TakesPop program.now.functions parts.old queue.now changed)
        program.now.functions parts.old state.old }
    ensures ok { IfOk result (MovesBy
        (TakesPop program.now.functions parts.old queue.now changed)
        (popped_move parts.old changed queue.now)
        program.now.functions parts.old parts.new state.old state.new) }
    ensures err { OnErr result (state.new ≡ state.old) }
    ensures cut { OnErr result (CutShortBy
        (TakesPop program.now.functions parts.old queue.now changed)
        (popped_move parts.old changed queue.now)
        program.now.functions parts.old parts.new state.old) }
{
    let seq = changed.cursor;
    let name = queue.clone()?;
    let value = pop_value(parts, changed.engine, queue.as_str(), seq)?;
    let answer = Answer::Value(value.clone()?);
    let line = StepLine::AdoptPop(seq, name, value);
    take_answer(alloc, program, state, changed, answer, line)
}

/// A begin takes the values of its names; its transaction is then open.
pub(crate) fn adopt_begin(
    alloc: Global,
    program: &Program,
    parts: &mut Parts,
    state: &mut AttemptState,
    changed: Progress,
    names: &List<Words>,
) -> Result<StepLine, Memory>
    requires { CanFlowIf (TakesAnswer program.now.functions (k.Op (o.Begin names.now)) changed)
        program.now.functions parts.old state.old }
    ensures ok { IfOk result (MovesBy
        (TakesAnswer program.now.functions (k.Op (o.Begin names.now)) changed)
        (begun_move parts.old changed names.now)
        program.now.functions parts.old parts.new state.old state.new) }
    ensures err { OnErr result (state.new ≡ state.old) }
    ensures cut { OnErr result (CutShortBy
        (TakesAnswer program.now.functions (k.Op (o.Begin names.now)) changed)
        (begun_move parts.old changed names.now)
        program.now.functions parts.old parts.new state.old) }
{
    let seq = changed.cursor;
    let values = begun_values(parts, changed.engine, seq, names.as_slice())?;
    let pairs = pairs_of(alloc, names.as_slice(), values.as_slice())?;
    let line = StepLine::AdoptBegin(seq, pairs);
    let changed = Progress {
        transaction: Some(seq),
        ..changed
    };
    take_answer(alloc, program, state, changed, Answer::Values(values), line)
}

/// A commit takes whether it succeeded; no transaction is open then.
pub(crate) fn adopt_commit(
    alloc: Global,
    program: &Program,
    parts: &mut Parts,
    state: &mut AttemptState,
    changed: Progress,
) -> Result<StepLine, Memory>
    requires { CanFlowIf (TakesCommit program.now.functions parts.old changed)
        program.now.functions parts.old state.old }
    ensures ok { IfOk result (MovesBy
        (TakesCommit program.now.functions parts.old changed)
        (committed_move parts.old changed)
        program.now.functions parts.old parts.new state.old state.new) }
    ensures err { OnErr result (state.new ≡ state.old) }
    ensures cut { OnErr result (CutShortBy
        (TakesCommit program.now.functions parts.old changed)
        (committed_move parts.old changed)
        program.now.functions parts.old parts.new state.old) }
{
    let seq = changed.cursor;
    let good = is_committed(parts, changed.engine, seq)?;
    let line = StepLine::AdoptCommit(seq, good);
    let changed = Progress {
        transaction: None,
        ..changed
    };
    take_answer(
        alloc,
        program,
        state,
        changed,
        Answer::Committed(good),
        line,
    )
}
