//! The turn of an invocation, operation by operation.

ghost use Rattle.std.specs.Prelude.{◌≡◌, ◌<◌, ◌^◌, ℕ, true, is_some, length, Some, None, IfOk, IfErr, OnOk};
ghost use Rattle.boki_model.specs.Maps.{get};
ghost use Rattle.boki_machine.specs.Ideal as ideal;
ghost use Rattle.ideal_run.specs.declared.fault.TurnFault.TheVariants as fault;
ghost use Rattle.ideal_run.specs.Kept.{maps_of};
ghost use Rattle.ideal_run.specs.Changes.{maps_before};
ghost use Rattle.ideal_run.specs.Standing.{with_running};
ghost use Rattle.ideal_run.specs.Turned.{FollowsStep, IsUndefinedFor, StaysKnown};
ghost use Rattle.ideal_run.specs.Faults.{OnIllegal};

use crate::fault::TurnFault;
use crate::kept_frame::KeptFrame;
use crate::state::State;
use boki_types::{Ask, Program};
use lb_base::Path;

/// An invocation that a turn runs: where its script stands, and how many commits had succeeded at the begin of its open
/// transaction.
#[derive(Drop)]
pub(crate) struct Running {
    pub(crate) frame: KeptFrame,
    pub(crate) begun: Option<u64>,
}

impl State {
    /// Does the next operation of an invocation. Illegal comes exactly where it has none, or it can't be done.
    pub(crate) fn step(
        &mut self,
        program: &Program,
        path: Path,
        running: &mut Running,
    ) -> Result<(), TurnFault>
        requires { length program.now.functions < 2 ^ 32 }
        ensures ok { let fs = program.now.functions in OnOk result (FollowsStep fs (ideal.perform_next fs path)
            (with_running path running.old (maps_of self.old)) (with_running path running.new (maps_of self.new))) }
        ensures known { OnOk result (StaysKnown path (maps_of self.old) (maps_of self.new)) }
        ensures illegal { let fs = program.now.functions in OnIllegal result
            (IsUndefinedFor fs (ideal.perform_next fs path) (with_running path running.old (maps_of self.old))) }
        ensures undo { maps_before self.new ≡ maps_before self.old }
    {
        let Ask::Op(operation) = running.frame.ask() else {
            return Err(TurnFault::Illegal);
        };
        let acted = self.perform(program, path, operation, running.begun)?;
        running.frame.give(self.alloc, program, acted.answer)?;
        running.begun = acted.begun;
        Ok(())
    }
}
