//! What a plan is run on.

ghost use Rattle.std.specs.Prelude.{◌≡◌, List, IfOk, IsTrue, length};
ghost use Rattle.boki_types.specs.declared.plan.Setup.{Setup};
ghost use Rattle.boki_types.specs.declared.program.Function.{Function};
ghost use Rattle.boki_model.specs.Plans.{is_plan};
ghost use Rattle.boki_machine.specs.Machine.{Machine, initial_machine, log};
ghost use Rattle.boki_machine.specs.Reports.{report};
ghost use Rattle.output_lines.specs.Outputs.{output_text};
ghost use Rattle.run_with.specs.Runs.{Output};

use boki_types::{Plan, Report};
use lb_base::Memory;
use run_loops::Cluster;
use std::alloc::Global;

/// A cluster that is made of a plan and tells what has come of it, and whose lines are those of the program's output.
pub trait PlanCluster: Cluster {
    /// A cluster of a plan, to which nothing has happened.
    fn open(alloc: Global, plan: &Plan) -> Result<Self, Memory>
    where
        Self: Sized,
        requires { IsTrue (is_plan plan.now) }
        ensures plan { IfOk result (λ c. Self.is_of_plan c plan.now) }
        ensures initial { IfOk result (λ c. Self.stands c plan.now.setup plan.now.program.functions
            (initial_machine plan.now.setup plan.now.objects)) };

    /// The report of the machine that it stands for.
    fn report(&self, plan: &Plan) -> Result<Report, Memory>
        requires { Self.is_of_plan self.now plan.now }
        ensures { IfOk result (λ r. (m : Machine) → Self.stands self.now plan.now.setup plan.now.program.functions m
            → r ≡ report plan.now.program.functions m) };

    /// How many records are ordered.
    fn log_length(&self) -> u64
        ensures { (setup : Setup) (fs : List Function) (m : Machine) → Self.stands self.now setup fs m
            → result ≡ length (log m) };

    /// The text of a line is that of the program's output.
    ghost has_output_text: { (fs : List Function) (out : Output) → Self.line_text fs out ≡ output_text fs out };
}
