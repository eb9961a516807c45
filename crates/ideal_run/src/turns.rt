//! Turns, each done whole or not at all.

ghost use Rattle.std.specs.Prelude.{◌≡◌, ◌<◌, ◌≤◌, ◌^◌, ◌∷◌, [], ℕ, List, true, is_some, length, option_copied, Option, Some, None, IfOk, IfErr, OnOk, OnErr};
ghost use Rattle.std.specs.BTreeMap.{is_at};
ghost use Rattle.boki_types.specs.declared.program.Function.{Function};
ghost use Rattle.boki_types.specs.declared.turn.Turn.TheVariants as move;
ghost use Rattle.boki_model.specs.Maps.{key_order, get};
ghost use Rattle.boki_machine.specs.Ideal as ideal;
ghost use Rattle.ideal_run.specs.declared.fault.TurnFault.TheVariants as fault;
ghost use Rattle.ideal_run.specs.Kept.{maps_of};
ghost use Rattle.ideal_run.specs.Changes.{maps_before, changed_at};
ghost use Rattle.ideal_run.specs.Standing.{MapsStandFor, with_running, known_of};
ghost use Rattle.ideal_run.specs.Turned.{FollowsStep, IsUndefinedFor, StaysKnown, HasRequest, RunsAs, running_in, ask_in, ending_in, with_result};
ghost use Rattle.ideal_run.specs.Faults.{OnIllegal};

use crate::changes::restore;
use crate::fault::TurnFault;
use crate::kept::KnownInvocation;
use crate::operations::start;
use crate::running::Running;
use crate::state::State;
use boki_types::{Ask, Program, Turn};
use lb_base::{Outcome, Path, Value};
use std::collections::BTreeMap;

/// Ends an invocation: it keeps its result, and no longer where its script stands.
fn finish(known: &mut KnownInvocation, outcome: Outcome)
    ensures { known.new ≡ with_result outcome known.old }
{
    drop(known.frame.take());
    known.result = Some(outcome);
}

/// Gives a known invocation its result.
fn set_result(invocations: &mut BTreeMap<Path, KnownInvocation>, path: Path, outcome: Outcome)
    ensures { invocations.new.entries
        ≡ changed_at (is_at (key_order path)) (with_result outcome) invocations.old.entries }
{
    if let Some(known) = invocations.get_mut(&path) {
        finish(known, outcome);
    }
}

impl State {
    /// What a running invocation asks, or how its script ended.
    pub(crate) fn asked(&self, path: Path) -> Option<&Ask>
        ensures { option_copied result ≡ ask_in (get path self.now.invocations.entries) }
    {
        let known = self.known(path)?;
        if known.result.is_some() {
            return None;
        }
        match &known.frame {
            Some(frame) => Some(frame.ask()),
            None => None,
        }
    }

    /// A copy of the outcome of a running invocation whose script is done. Illegal comes exactly where there is none.
    fn outcome(&self, path: Path) -> Result<Outcome, TurnFault>
        ensures ok { IfOk result (λ outcome.
            ending_in (get path self.now.invocations.entries) ≡ Some outcome) }
        ensures illegal { OnIllegal result (ending_in (get path self.now.invocations.entries) ≡ None) }
    {
        match self.asked(path) {
            Some(Ask::Done(outcome)) => Ok(outcome.clone()?),
            _ => Err(TurnFault::Illegal),
        }
    }

    /// An invocation as a turn runs it, on a copy of its frame; nothing where it has no frame. Illegal comes exactly where no
    /// invocation of that path runs.
    fn runner(&self, path: Path) -> Result<Option<Running>, TurnFault>
        ensures ok { IfOk result (RunsAs (get path self.now.invocations.entries)) }
        ensures illegal { OnIllegal result (running_in (get path self.now.invocations.entries) ≡ None) }
    {
        let Some(known) = self.known(path) else {
            return Err(TurnFault::Illegal);
        };
        if known.result.is_some() {
            return Err(TurnFault::Illegal);
        }
        let Some(frame) = &known.frame else {
            return Ok(None);
        };
        let frame = frame.copy(self.alloc)?;
        let begun = known.begun;
        Ok(Some(Running { frame, begun }))
    }

    /// Does the next `n` operations of an invocation. Illegal comes exactly where it has fewer, or one can't be done.
    fn steps(
        &mut self,
        program: &Program,
        path: Path,
        n: u64,
        running: &mut Running,
    ) -> Result<(), TurnFault>
        requires { length program.now.functions < 2 ^ 32 }
        ensures ok { let fs = program.now.functions in OnOk result (FollowsStep fs (ideal.perform_many fs n path)
            (with_running path running.old (maps_of self.old)) (with_running path running.new (maps_of self.new))) }
        ensures known { OnOk result (StaysKnown path (maps_of self.old) (maps_of self.new)) }
        ensures illegal { let fs = program.now.functions in OnIllegal result
            (IsUndefinedFor fs (ideal.perform_many fs n path) (with_running path running.old (maps_of self.old))) }
        ensures undo { maps_before self.new ≡ maps_before self.old }
    {
        'steps: for _done in 0..n {
            self.step(program, path, running)?;
        }
        Ok(())
    }

    /// Makes the invocation of a request known. Illegal comes exactly where it is known. After an error nothing is changed.
    fn submit(
        &mut self,
        program: &Program,
        path: Path,
        function: u32,
        args: &[Value],
    ) -> Result<(), TurnFault>
        requires { length program.now.functions < 2 ^ 32 }
        ensures ok { let fs = program.now.functions in OnOk result ((request : ℕ) → path ≡ request ∷ []
            → FollowsStep fs (ideal.apply_turn fs (move.Submit request function args.now)) (maps_of self.old) (maps_of self.new)) }
        ensures illegal { let fs = program.now.functions in OnIllegal result ((request : ℕ) → path ≡ request ∷ []
            → IsUndefinedFor fs (ideal.apply_turn fs (move.Submit request function args.now)) (maps_of self.old)) }
        ensures err { OnErr result (maps_of self.new ≡ maps_of self.old) }
    {
        if self.known(path).is_some() {
            return Err(TurnFault::Illegal);
        }
        let known = start(self.alloc, program, function, args, path)?;
        drop(self.invocations.insert(path, known)?);
        Ok(())
    }

    /// Runs the next `n` operations of an invocation, all or none. Illegal comes exactly where none of that path runs, it has
    /// fewer, or one can't be done. After an error nothing is changed.
    fn go(&mut self, program: &Program, path: Path, n: u64) -> Result<(), TurnFault>
        requires { length program.now.functions < 2 ^ 32 }
        ensures ok { let fs = program.now.functions in
            OnOk result (FollowsStep fs (ideal.perform_many fs n path) (maps_of self.old) (maps_of self.new)) }
        ensures illegal { let fs = program.now.functions in
            OnIllegal result (IsUndefinedFor fs (ideal.perform_many fs n path) (maps_of self.old)) }
        ensures err { OnErr result (maps_of self.new ≡ maps_of self.old) }
    {
        let Some(mut running) = self.runner(path)? else {
            return if n == 0 {
                Ok(())
            } else {
                Err(TurnFault::Illegal)
            };
        };
        self.keep();
        match self.steps(program, path, n, &mut running) {
            Ok(()) => {
                let Running { frame, begun } = running;
                let known = KnownInvocation {
                    frame: Some(frame),
                    result: None,
                    begun,
                };
                restore(&mut self.invocations, &path, Some(known));
                self.keep();
                Ok(())
            }
            Err(fault) => {
                drop(running);
                self.undo();
                Err(fault)
            }
        }
    }

    /// Ends an invocation. Illegal comes exactly where none of that path runs, or its script isn't done. After an error nothing
    /// is changed.
    fn end(&mut self, path: Path) -> Result<(), TurnFault>
        ensures ok { OnOk result ((fs : List Function)
            → FollowsStep fs (ideal.apply_turn fs (move.End path)) (maps_of self.old) (maps_of self.new)) }
        ensures illegal { OnIllegal result ((fs : List Function)
            → IsUndefinedFor fs (ideal.apply_turn fs (move.End path)) (maps_of self.old)) }
        ensures err { OnErr result (maps_of self.new ≡ maps_of self.old) }
    {
        let outcome = self.outcome(path)?;
        set_result(&mut self.invocations, path, outcome);
        Ok(())
    }

    /// Does a turn, or nothing. Illegal comes exactly where the turn isn't defined.
    pub(crate) fn turn(&mut self, program: &Program, turn: &Turn) -> Result<(), TurnFault>
        requires few { length program.now.functions < 2 ^ 32 }
        requires request { HasRequest turn.now }
        ensures ok { let fs = program.now.functions in
            OnOk result (FollowsStep fs (ideal.apply_turn fs turn.now) (maps_of self.old) (maps_of self.new)) }
        ensures illegal { let fs = program.now.functions in
            OnIllegal result (IsUndefinedFor fs (ideal.apply_turn fs turn.now) (maps_of self.old)) }
        ensures err { OnErr result (maps_of self.new ≡ maps_of self.old) }
    {
        match turn {
            Turn::Submit {
                request,
                function,
                args,
            } => {
                let Some(path) = Path::request(*request) else {
                    unreachable!()
                };
                self.submit(program, path, *function, args.as_slice())
            }
            Turn::Go { path, n } => self.go(program, *path, *n),
            Turn::End { path } => self.end(*path),
        }
    }
}
