//! A cluster is what a plan is run on.
ghost use Rattle.std.specs.Prelude.{refl};
ghost use Rattle.cluster_run.specs.Clusters.{IsOfPlan, StandsForOne};
ghost use Rattle.output_lines.specs.Outputs.{output_text};

use crate::cluster::Cluster;
use boki_types::{Event, Line, Plan, Report};
use book_api::NoGate;
use lb_base::{Memory, Words};
use output_lines::{print_added, print_ignored, print_planned};
use plan_lang::valid;
use std::alloc::Global;
use std::thread::Threads;

impl run_loops::Cluster for Cluster {
    ghost stands = { λ c setup fs m. StandsForOne setup fs m c };

    ghost is_of_plan = { λ c plan. IsOfPlan plan c };

    ghost line_text = { output_text };

    fn event<R: Threads + Sync>(
        &mut self,
        rt: &R,
        plan: &Plan,
        event: &Event,
    ) -> Result<Line, Memory> {
        self.event(rt, plan, event, &NoGate)
    }

    fn is_valid(&self, plan: &Plan, event: &Event) -> bool {
        valid(event, plan)
    }

    fn planned(&self, plan: &Plan, n: u64, line: &Line) -> Result<Words, Memory> {
        print_planned(self.alloc, n, line, &plan.program)
    }

    fn added(
        &self,
        plan: &Plan,
        n: u64,
        number: u32,
        event: &Event,
        line: &Line,
    ) -> Result<Words, Memory> {
        print_added(self.alloc, n, number, event, line, &plan.program)
    }

    fn ignored(&self, plan: &Plan, n: u64, number: u32) -> Result<Words, Memory> {
        print_ignored(self.alloc, n, number)
    }
}

impl run_call::PlanCluster for Cluster {
    fn open(alloc: Global, plan: &Plan) -> Result<Cluster, Memory> {
        Cluster::new(alloc, plan)
    }

    fn report(&self, plan: &Plan) -> Result<Report, Memory> {
        self.report(plan)
    }

    fn log_length(&self) -> u64 {
        self.book().length()
    }

    ghost has_output_text = { λ fs out. refl };
}
