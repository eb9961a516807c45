//! Operations: what each does to a state, and what it answers.

ghost use Rattle.std.specs.Prelude.{◌≡◌, ◌<◌, ◌^◌, ℕ, suc, length, Some, None, IfOk, IfErr, OnOk};
ghost use Rattle.lb_base.specs.Path.{IsPath, child_path};
ghost use Rattle.ideal_run.specs.declared.fault.TurnFault.TheVariants as fault;
ghost use Rattle.ideal_run.specs.Kept.{maps_of};
ghost use Rattle.ideal_run.specs.Changes.{maps_before};
ghost use Rattle.boki_types.specs.Finding.{function_at};
ghost use Rattle.ideal_run.specs.Acts.{takes_args, IsNewInvocation, AddsChild, Performs, CannotPerform, joined_in};
ghost use Rattle.ideal_run.specs.Faults.{OnIllegal};

use crate::fault::TurnFault;
use crate::kept::KnownInvocation;
use crate::kept_frame::KeptFrame;
use crate::state::State;
use boki_types::{Answer, Op, Program};
use lb_base::{Memory, Outcome, Path, Value};
use script_run::Frame;
use std::alloc::Global;

/// What an operation is answered, and how many commits had succeeded at the begin of the transaction that is open then.
#[derive(Drop)]
pub(crate) struct OperationResult {
    pub(crate) answer: Answer,
    pub(crate) begun: Option<u64>,
}

/// Whether the program has a function of that number, with so many parameters as there are arguments.
fn takes(program: &Program, function: u32, args: &[Value]) -> bool
    ensures { result ≡ takes_args args.now (function_at function program.now.functions) }
{
    match program.functions.get(function as usize) {
        Some(called) => called.params.len() == args.len(),
        None => false,
    }
}

/// An invocation that becomes known. Where the program has no such function of so many arguments, it has no frame.
pub(crate) fn start(
    alloc: Global,
    program: &Program,
    function: u32,
    args: &[Value],
    path: Path,
) -> Result<KnownInvocation, Memory>
    requires { length program.now.functions < 2 ^ 32 }
    ensures { IfOk result (IsNewInvocation program.now.functions function args.now (length path)) }
{
    if !takes(program, function, args) {
        return Ok(KnownInvocation {
            frame: None,
            result: None,
            begun: None,
        });
    }
    let depth = path.depth() as u8;
    let frame = KeptFrame::new(alloc, Frame::new(alloc, program, function, args, depth)?)?;
    Ok(KnownInvocation {
        frame: Some(frame),
        result: None,
        begun: None,
    })
}

fn with_answer(answer: Answer, begun: Option<u64>) -> OperationResult
    ensures { result ≡ record { answer = answer; begun = begun } }
{
    OperationResult { answer, begun }
}

/// The path of a child. The deepest invocations have none.
fn child_of(path: Path, ordinal: u32) -> Option<Path>
    ensures value { result ≡ child_path path ordinal }
    ensures path { IsPath path }
{
    if path.depth() == 4 {
        return None;
    }
    path.child(ordinal)
}

impl State {
    /// Makes a child known. Illegal comes where no path has that ordinal behind this one.
    fn spawn(
        &mut self,
        program: &Program,
        path: Path,
        ordinal: u32,
        function: u32,
        args: &[Value],
    ) -> Result<(), TurnFault>
        requires { length program.now.functions < 2 ^ 32 }
        ensures ok { OnOk result (AddsChild program.now.functions path ordinal function args.now
            (maps_of self.old) (maps_of self.new)) }
        ensures illegal { OnIllegal result (IsPath path × (child_path path ordinal ≡ None)) }
        ensures undo { maps_before self.new ≡ maps_before self.old }
    {
        let Some(child) = child_of(path, ordinal) else {
            return Err(TurnFault::Illegal);
        };
        let known = start(self.alloc, program, function, args, child)?;
        self.add(child, known)?;
        Ok(())
    }

    /// A copy of the result of a child. Illegal comes where it has none.
    fn join(&self, path: Path, ordinal: u32) -> Result<Outcome, TurnFault>
        ensures ok { IfOk result (λ outcome.
            joined_in path ordinal self.now.invocations.entries ≡ Some outcome) }
        ensures illegal { OnIllegal result (IsPath path
            × (joined_in path ordinal self.now.invocations.entries ≡ None)) }
    {
        let Some(child) = child_of(path, ordinal) else {
            return Err(TurnFault::Illegal);
        };
        let Some(known) = self.known(child) else {
            return Err(TurnFault::Illegal);
        };
        let Some(outcome) = &known.result else {
            return Err(TurnFault::Illegal);
        };
        Ok(outcome.clone()?)
    }

    /// Does an operation of an invocation, with how many commits had succeeded at the begin of its open transaction. Illegal
    /// comes where it can't be done.
    pub(crate) fn perform(
        &mut self,
        program: &Program,
        path: Path,
        operation: &Op,
        begun: Option<u64>,
    ) -> Result<OperationResult, TurnFault>
        requires { length program.now.functions < 2 ^ 32 }
        ensures ok { IfOk result (λ r. Performs program.now.functions path operation.now
            begun (maps_of self.old) r.answer r.begun (maps_of self.new)) }
        ensures illegal { OnIllegal result (CannotPerform path operation.now (maps_of self.old)) }
        ensures undo { maps_before self.new ≡ maps_before self.old }
    {
        match operation {
            Op::Read { key } => Ok(with_answer(Answer::Value(self.object(key)?), begun)),
            Op::ReadGroup { keys } => {
                let values = self.values(keys.as_slice())?;
                Ok(with_answer(Answer::Values(values), begun))
            }
            Op::Write { key, value } => {
                self.put_object(key, value)?;
                Ok(with_answer(Answer::Done, begun))
            }
            Op::Push { queue, value } => {
                self.push(queue, value)?;
                Ok(with_answer(Answer::Done, begun))
            }
            Op::Pop { queue } => Ok(with_answer(Answer::Value(self.pop(queue)?), begun)),
            Op::Begin { names } => {
                let values = self.stored_values(names.as_slice())?;
                Ok(with_answer(Answer::Values(values), Some(self.commits)))
            }
            Op::Commit { names, writes } => {
                let good = self.commit(begun, names.as_slice(), writes.as_slice())?;
                Ok(with_answer(Answer::Committed(good), None))
            }
            Op::Spawn {
                ordinal,
                function,
                args,
            } => {
                self.spawn(program, path, *ordinal, *function, args.as_slice())?;
                Ok(with_answer(Answer::Spawned(*ordinal), begun))
            }
            Op::Join { ordinal } => {
                let outcome = self.join(path, *ordinal)?;
                Ok(with_answer(Answer::Joined(outcome), begun))
            }
        }
    }
}
