//! An attempt takes an answer.
ghost use Rattle.std.specs.Prelude.{◌≡◌, ◌+◌, ◌<◌, ◌^◌, length, IfOk, OnErr};
ghost use Rattle.boki_machine.specs.Attempt.{Attempt, answered_with};
ghost use Rattle.attempt_state.specs.Progresses.{progress_of};
ghost use Rattle.attempt_state.specs.Attempts.{AttemptStandsFor, FrameTakes, HasScript, SameScript};

use attempt_state::{AttemptState, Progress};
use boki_types::{Answer, Program, StepLine};
use lb_base::Memory;
use std::alloc::Global;

/// The script has an answer, and the attempt stands where `changed` says with one answer more; the line is handed on. After `Memory`
/// the attempt is as before.
pub fn take_answer(
    alloc: Global,
    program: &Program,
    state: &mut AttemptState,
    changed: Progress,
    answer: Answer,
    line: StepLine,
) -> Result<StepLine, Memory>
    requires few { length program.now.functions < 2 ^ 32 }
    requires takes { FrameTakes state.old.frame answer }
    requires room { changed.answered + 1 < 2 ^ 64 }
    ensures line { IfOk result (λ told. told ≡ line) }
    ensures after { IfOk result (λ told. (a b : Attempt) → AttemptStandsFor program.now.functions a state.old → HasScript a → SameScript a b → HasScript b
        → changed ≡ progress_of b → AttemptStandsFor program.now.functions (answered_with b answer) state.new) }
    ensures err { OnErr result (state.new ≡ state.old) }
{
    match state.give(alloc, program, changed, answer) {
        Ok(()) => Ok(line),
        Err(Memory) => {
            drop(line);
            Err(Memory)
        }
    }
}
