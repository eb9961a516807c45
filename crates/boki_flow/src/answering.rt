//! An attempt adopts a write, a spawn or a push: the record alone is the answer.
ghost use Rattle.std.specs.Prelude.{◌≡◌, ◌+◌, ◌<◌, ◌^◌, Some, length, IfOk, OnErr};
ghost use Rattle.lb_base.specs.Path.{child_path};
ghost use Rattle.boki_types.specs.declared.line.StepLine.TheVariants as line;
ghost use Rattle.boki_types.specs.declared.operation.Answer.TheVariants as ans;
ghost use Rattle.boki_model.specs.Bodies as bodies;
ghost use Rattle.attempt_state.specs.Attempts.{FrameTakes};
ghost use Rattle.boki_flow.specs.Arms.{IsAnswerTaken};

use attempt_state::{AttemptState, Progress, child};
use attempt_store::take_answer;
use boki_types::{Answer, Program, StepLine};
use lb_base::{Memory, Path, Words};
use std::alloc::Global;

/// A write of an object is done.
pub(crate) fn answer_write(
    alloc: Global,
    program: &Program,
    state: &mut AttemptState,
    changed: Progress,
    key: &Words,
) -> Result<StepLine, Memory>
    requires few { length program.now.functions < 2 ^ 32 }
    requires takes { FrameTakes state.old.frame ans.Done }
    requires room { changed.answered + 1 < 2 ^ 64 }
    ensures line { IfOk result (λ told. told ≡ line.AdoptWrite changed.cursor key.now) }
    ensures after { IfOk result (λ told. IsAnswerTaken program.now.functions changed ans.Done state.old state.new) }
    ensures err { OnErr result (state.new ≡ state.old) }
{
    let line = StepLine::AdoptWrite(changed.cursor, key.clone()?);
    take_answer(alloc, program, state, changed, Answer::Done, line)
}

/// A child is spawned.
pub(crate) fn answer_spawn(
    alloc: Global,
    program: &Program,
    state: &mut AttemptState,
    changed: Progress,
    path: Path,
    ordinal: u32,
) -> Result<StepLine, Memory>
    requires few { length program.now.functions < 2 ^ 32 }
    requires takes { FrameTakes state.old.frame (ans.Spawned ordinal) }
    requires room { changed.answered + 1 < 2 ^ 64 }
    requires child { child_path path ordinal ≡ Some (bodies.child path ordinal) }
    ensures line { IfOk result (λ told. told ≡ line.AdoptSpawn changed.cursor (bodies.child path ordinal)) }
    ensures after { IfOk result (λ told. IsAnswerTaken program.now.functions changed (ans.Spawned ordinal) state.old state.new) }
    ensures err { OnErr result (state.new ≡ state.old) }
{
    let line = StepLine::AdoptSpawn(changed.cursor, child(path, ordinal));
    take_answer(
        alloc,
        program,
        state,
        changed,
        Answer::Spawned(ordinal),
        line,
    )
}

/// A value is put at the end of a queue.
pub(crate) fn answer_push(
    alloc: Global,
    program: &Program,
    state: &mut AttemptState,
    changed: Progress,
    queue: &Words,
) -> Result<StepLine, Memory>
    requires few { length program.now.functions < 2 ^ 32 }
    requires takes { FrameTakes state.old.frame ans.Done }
    requires room { changed.answered + 1 < 2 ^ 64 }
    ensures line { IfOk result (λ told. told ≡ line.AdoptPush changed.cursor queue.now) }
    ensures after { IfOk result (λ told. IsAnswerTaken program.now.functions changed ans.Done state.old state.new) }
    ensures err { OnErr result (state.new ≡ state.old) }
{
    let line = StepLine::AdoptPush(changed.cursor, queue.clone()?);
    take_answer(alloc, program, state, changed, Answer::Done, line)
}
