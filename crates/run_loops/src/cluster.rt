//! What a run is done on: anything that stands for a machine.

ghost use Rattle.std.specs.Prelude.{◌≡◌, List, ℕ, IfOk, IsTrue};
ghost use Rattle.std.specs.Thread.{IsSync};
ghost use Rattle.boki_types.specs.declared.plan.Plan.{Plan};
ghost use Rattle.boki_types.specs.declared.plan.Setup.{Setup};
ghost use Rattle.boki_types.specs.declared.program.Function.{Function};
ghost use Rattle.boki_model.specs.Plans.{is_event};
ghost use Rattle.boki_machine.specs.Machine.{Machine, apply_event};
ghost use Rattle.run_with.specs.Runs.{Output, Planned, Added, Ignored};

use boki_types::{Event, Line, Plan};
use lb_base::{Memory, Words};
use std::thread::Threads;

/// Does events: it stands for a machine.
pub trait Cluster {
    /// It stands for this machine, with this setup and these functions.
    ghost stands: { Self → Setup → List Function → Machine → Type 0 };

    /// It was made of this plan, or of one with the same setup and functions.
    ghost is_of_plan: { Self → Plan → Type 0 };

    /// The text of a line.
    ghost line_text: { List Function → Output → List ℕ };

    /// Does an event that the plan can have, and tells its line.
    fn event<R: Threads + Sync>(
        &mut self,
        rt: &R,
        plan: &Plan,
        event: &Event,
    ) -> Result<Line, Memory>
        requires shared { IsSync R.row }
        requires valid { IsTrue (is_event plan.now.setup plan.now.program.functions event.now) }
        requires plan { is_of_plan self.old plan.now }
        ensures done { IfOk result (λ line. (m : Machine) → stands self.old plan.now.setup plan.now.program.functions m
            → (line ≡ (apply_event plan.now.setup plan.now.program.functions m event.now).line)
            × stands self.new plan.now.setup plan.now.program.functions (apply_event plan.now.setup plan.now.program.functions m event.now).machine) }
        ensures plan { is_of_plan self.new plan.now };

    /// Whether the plan can have an event.
    fn is_valid(&self, plan: &Plan, event: &Event) -> bool
        ensures { result ≡ is_event plan.now.setup plan.now.program.functions event.now };

    /// The text of the line of the plan's event with a number.
    fn planned(&self, plan: &Plan, n: u64, line: &Line) -> Result<Words, Memory>
        ensures { IfOk result (λ w. w ≡ line_text plan.now.program.functions (Planned n line.now)) };

    /// The text of the line of an event that a nemesis gave.
    fn added(
        &self,
        plan: &Plan,
        n: u64,
        number: u32,
        event: &Event,
        line: &Line,
    ) -> Result<Words, Memory>
        ensures { IfOk result (λ w. w ≡ line_text plan.now.program.functions (Added n number event.now line.now)) };

    /// The text of the line of an event that does nothing.
    fn ignored(&self, plan: &Plan, n: u64, number: u32) -> Result<Words, Memory>
        ensures { IfOk result (λ w. w ≡ line_text plan.now.program.functions (Ignored n number)) };
}
