//! An attempt beside the log.

ghost use Rattle.std.specs.Prelude.{◌≡◌, ◌≢◌, ◌+◌, ◌<◌, ◌^◌, length, List, unwrap_or, IfOk, OnOk, OnErr};
ghost use Rattle.boki_types.specs.declared.program.Function.{Function};
ghost use Rattle.boki_types.specs.Finding.{find, arity};
ghost use Rattle.boki_machine.specs.Attempt.{Attempt, new_attempt, adopts, answered_with};
ghost use Rattle.boki_machine.specs.Step.{after_kill, after_lose, is_running};
ghost use Rattle.script_ranges.specs.Sends.{CallFits};
ghost use Rattle.attempt_state.specs.Progresses.{progress_of, awaits_record};
ghost use Rattle.attempt_state.specs.Attempts.{AttemptStandsFor, FrameTakes, HasScript, SameScript, IsBegun};

use crate::progress::Progress;
use boki_types::{Answer, Call, Life, Program};
use lb_base::{Memory, Mode, Path, Seqnum};
use script_run::Frame;
use std::alloc::Global;

/// An attempt beside the log: where it stands, and its script, which it has once it has adopted its Init and as long as it runs.
#[derive(Drop)]
pub struct AttemptState {
    pub progress: Progress,
    pub frame: Option<Frame>,
}

impl AttemptState {
    /// A new attempt of an invocation on an engine.
    pub fn new(path: Path, engine: u32) -> AttemptState
        ensures stands { (functions : List Function) → AttemptStandsFor functions (new_attempt path engine) result }
        ensures progress { result.progress ≡ progress_of (new_attempt path engine) }
    {
        AttemptState {
            progress: Progress::new(path, engine),
            frame: None,
        }
    }

    /// Where it runs it is killed, and whether it ran is the answer. It takes no memory.
    pub fn kill(&mut self) -> bool
        ensures answer { result ≡ is_running self.old.progress.life }
        ensures after { (functions : List Function) (a : Attempt) → AttemptStandsFor functions a self.old → AttemptStandsFor functions (after_kill a) self.new }
    {
        let ran = self.progress.is_running();
        if ran {
            self.end(Life::Killed);
        }
        ran
    }

    /// Where it runs and waits for a record it forgets that, and whether it did is the answer. It takes no memory.
    pub fn lose(&mut self) -> bool
        ensures answer { result ≡ awaits_record self.old.progress }
        ensures after { (functions : List Function) (a : Attempt) → AttemptStandsFor functions a self.old → AttemptStandsFor functions (after_lose a) self.new }
    {
        self.progress.lose()
    }

    /// It doesn't run any more, and lets go of its script.
    pub fn end(&mut self, life: Life)
        requires { life ≢ Life.Running }
        ensures { (functions : List Function) (a : Attempt) → AttemptStandsFor functions a self.old → AttemptStandsFor functions (record a { life = life }) self.new }
    {
        self.progress.life = life;
        self.frame = None;
    }

    /// Its script has an answer, and it stands where `changed` says, with one answer more. The script has to take the answer, the
    /// program has fewer than 2^32 functions, and the index of the next operation of `changed` is to have 64 bits. After `Memory` it is
    /// as before.
    pub fn give(
        &mut self,
        alloc: Global,
        program: &Program,
        changed: Progress,
        answer: Answer,
    ) -> Result<(), Memory>
        requires few { length program.now.functions < 2 ^ 32 }
        requires takes { FrameTakes self.old.frame answer }
        requires room { changed.answered + 1 < 2 ^ 64 }
        ensures ok { OnOk result ((a b : Attempt) → AttemptStandsFor program.now.functions a self.old → HasScript a → SameScript a b → HasScript b
            → changed ≡ progress_of b → AttemptStandsFor program.now.functions (answered_with b answer) self.new) }
        ensures err { OnErr result (self.new ≡ self.old) }
    {
        let Ok(next) = changed.with_answer() else {
            drop(answer);
            return Err(Memory);
        };
        let Some(frame) = &mut self.frame else {
            unreachable!()
        };
        frame.give(alloc, program, answer)?;
        self.progress = next;
        Ok(())
    }

    /// It adopts its Init: its script begins, and its mode is fixed. The call has to be of a function of the program, which has fewer
    /// than 2^32, with as many arguments as the function takes. After `Memory` it is as before.
    pub fn begin(
        &mut self,
        alloc: Global,
        program: &Program,
        seq: Seqnum,
        mode: Mode,
        call: &Call,
    ) -> Result<(), Memory>
        requires few { length program.now.functions < 2 ^ 32 }
        requires fits { CallFits program.now.functions call.now.function call.now.args }
        ensures ok { OnOk result ((a : Attempt) → AttemptStandsFor program.now.functions a self.old → IsBegun a
            → AttemptStandsFor program.now.functions (record (adopts a seq.0) { mode = mode; function = unwrap_or (find call.now.function program.now.functions) 0; args = call.now.args }) self.new) }
        ensures err { OnErr result (self.new ≡ self.old) }
    {
        let mut progress = self.progress.adopted(seq)?;
        progress.mode = mode;
        let depth = progress.path.depth() as u8;
        let function = function_of(program, call);
        let frame = Frame::new(alloc, program, function, call.args.as_slice(), depth)?;
        self.progress = progress;
        self.frame = Some(frame);
        Ok(())
    }
}

/// The number of the function that is called.
fn function_of(program: &Program, call: &Call) -> u32
    requires few { length program.now.functions < 2 ^ 32 }
    requires fits { CallFits program.now.functions call.now.function call.now.args }
    ensures number { result ≡ unwrap_or (find call.now.function program.now.functions) 0 }
    ensures known { result < length program.now.functions }
    ensures arity { arity result program.now.functions ≡ length call.now.args }
{
    match program.find(call.function.as_str()) {
        Some(number) => number,
        None => 0,
    }
}
