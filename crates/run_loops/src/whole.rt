//! The run of a plan.

ghost use Rattle.std.specs.Prelude.{◌≡◌, ◌≤◌, map, OnOk, OnErr, IsErrOf, IsTrue};
ghost use Rattle.lb_base.specs.Devices.{CountRose, Appends};
ghost use Rattle.boki_model.specs.Plans.{is_plan};
ghost use Rattle.boki_machine.specs.Machine.{initial_machine};
ghost use Rattle.nemesis_types.specs.Kept.{numbered_nemesis};
ghost use Rattle.run_with.specs.Laws.{RunGuarantees};
ghost use Rattle.run_with.specs.Runs.{run_with as run_of};
ghost use Rattle.run_with.specs.Written.{SinkTookPrefix, text_of_lines};

use crate::cluster::Cluster;
use crate::running::run_items;
use boki_types::Plan;
use lb_base::{PutFault, Sink};
use nemesis::Kept;
use std::thread::Threads;

/// Runs a plan with these nemeses, and writes its lines.
pub fn run_events<C: Cluster, R: Threads + Sync, K: Sink>(
    rt: &R,
    cluster: &mut C,
    plan: &Plan,
    mut kept: Vec<Kept>,
    sink: &mut K,
) -> Result<(), PutFault>
    requires is_plan { IsTrue (is_plan plan.now) }
    requires plan { C.is_of_plan cluster.old plan.now }
    ensures plan { C.is_of_plan cluster.new plan.now }
    ensures ok { OnOk result (C.stands cluster.old plan.now.setup plan.now.program.functions (initial_machine plan.now.setup plan.now.objects)
        → Appends (K.held sink.old) (K.held sink.new) (text_of_lines (C.line_text plan.now.program.functions) (run_of plan.now (map (λ b. numbered_nemesis b.0 (automaton b.1)) kept.items)).lines)) }
    ensures behind { OnOk result (C.stands cluster.old plan.now.setup plan.now.program.functions (initial_machine plan.now.setup plan.now.objects)
        → C.stands cluster.new plan.now.setup plan.now.program.functions (run_of plan.now (map (λ b. numbered_nemesis b.0 (automaton b.1)) kept.items)).after.machine) }
    // Exactly once, whatever the nemeses do.
    ensures exact { RunGuarantees plan.now (run_of plan.now (map (λ b. numbered_nemesis b.0 (automaton b.1)) kept.items)).after.machine }
    ensures err { OnErr result (C.stands cluster.old plan.now.setup plan.now.program.functions (initial_machine plan.now.setup plan.now.objects)
        → SinkTookPrefix (C.line_text plan.now.program.functions) (run_of plan.now (map (λ b. numbered_nemesis b.0 (automaton b.1)) kept.items)) (K.held sink.old) (K.held sink.new)) }
    ensures fault { IsErrOf result PutFault.Fault → CountRose (K.faults sink.old) (K.faults sink.new) }
    ensures later { K.faults sink.old ≤ K.faults sink.new }
{
    let mut n = 1;
    run_items(
        rt,
        cluster,
        plan,
        &mut n,
        plan.items.as_slice(),
        &mut kept,
        sink,
    )
}
