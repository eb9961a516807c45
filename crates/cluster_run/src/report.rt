//! What a run has come to: over the whole list, whatever the engines have seen.
ghost use Rattle.std.specs.Prelude.{◌≡◌, List, ℕ, IfOk};
ghost use Rattle.boki_types.specs.declared.plan.Setup.{Setup};
ghost use Rattle.boki_types.specs.declared.program.Function.{Function};
ghost use Rattle.boki_machine.specs.Machine.{Machine};
ghost use Rattle.boki_machine.specs.Reports.{report};
ghost use Rattle.cluster_run.specs.Clusters.{IsOfPlan, StandsForOne};

use crate::cluster::Cluster;
use boki_types::{Plan, Report, Turn};
use cluster_report::laws::holding_is_reported;
use cluster_report::{objects, queues, report_of, results, stores, turns};
use lb_base::{List, Memory, Outcome, Path, Value, Words};

impl Cluster {
    /// The whole report, by the plan's program.
    pub fn report(&self, plan: &Plan) -> Result<Report, Memory>
        requires { IsOfPlan plan.now self.now }
        ensures { IfOk result (λ r. (m : Machine) →
            StandsForOne plan.now.setup plan.now.program.functions m self.now
            → r ≡ report plan.now.program.functions m) }
    {
        if self.marked {
            return Err(Memory);
        }
        holding_is_reported();
        report_of(
            self.alloc,
            &plan.program,
            &self.parts.book,
            &self.parts.store,
        )
    }

    /// The turns, the oldest first, by the plan's program.
    pub fn turns(&self, plan: &Plan) -> Result<List<Turn>, Memory>
        requires { IsOfPlan plan.now self.now }
        ensures { IfOk result (λ turns. (m : Machine) →
            StandsForOne plan.now.setup plan.now.program.functions m self.now
            → turns ≡ (report plan.now.program.functions m).turns) }
    {
        if self.marked {
            return Err(Memory);
        }
        holding_is_reported();
        turns(
            self.alloc,
            &plan.program,
            &self.parts.book,
            &self.parts.store,
        )
    }

    /// The results of the invocations that have ended, in the order of paths.
    pub fn results(&self) -> Result<List<(Path, Outcome)>, Memory>
        ensures { IfOk result (λ results. (setup : Setup) (fs : List Function) (m : Machine) →
            StandsForOne setup fs m self.now → results ≡ (report fs m).results) }
    {
        if self.marked {
            return Err(Memory);
        }
        results(self.alloc, &self.parts.book)
    }

    /// The objects, in the order of keys.
    pub fn objects(&self) -> Result<List<(Words, Value)>, Memory>
        ensures { IfOk result (λ objects. (setup : Setup) (fs : List Function) (m : Machine) →
            StandsForOne setup fs m self.now → objects ≡ (report fs m).objects) }
    {
        if self.marked {
            return Err(Memory);
        }
        holding_is_reported();
        objects(self.alloc, &self.parts.book, &self.parts.store)
    }

    /// The queues with a push or a pop, in the order of their names, each with its front first.
    pub fn queues(&self) -> Result<List<(Words, List<Value>)>, Memory>
        ensures { IfOk result (λ queues. (setup : Setup) (fs : List Function) (m : Machine) →
            StandsForOne setup fs m self.now → queues ≡ (report fs m).queues) }
    {
        if self.marked {
            return Err(Memory);
        }
        queues(self.alloc, &self.parts.book)
    }

    /// The store names that a commit which succeeded wrote, in their order.
    pub fn stores(&self) -> Result<List<(Words, Value)>, Memory>
        ensures { IfOk result (λ stores. (setup : Setup) (fs : List Function) (m : Machine) →
            StandsForOne setup fs m self.now → stores ≡ (report fs m).stores) }
    {
        if self.marked {
            return Err(Memory);
        }
        stores(self.alloc, &self.parts.book)
    }
}
