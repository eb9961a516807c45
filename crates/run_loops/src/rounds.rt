//! An event of the plan, and the nemeses behind it.

ghost use Rattle.std.specs.Prelude.{◌≡◌, ◌<◌, ◌≤◌, map, vec_len, OnOk, OnErr, IsErrOf, IsTrue};
ghost use Rattle.lb_base.specs.Devices.{CountRose};
ghost use Rattle.boki_model.specs.Plans.{is_event};
ghost use Rattle.boki_machine.specs.Machine.{Machine};
ghost use Rattle.nemesis_types.specs.Kept.{numbered_nemesis};
ghost use Rattle.run_with.specs.Runs.{state, ask_one, ask_from, round};
ghost use Rattle.run_with.specs.Written.{SinkTook, SinkTookPrefix};

use crate::cluster::Cluster;
use crate::one::{do_added, do_planned};
use boki_types::{Event, Plan};
use lb_base::{PutFault, Sink};
use nemesis::{Kept, ask_at, drop_spent};
use nemesis_types::Seen;
use std::thread::Threads;

/// Asks the nemesis at an index, and does what it gives.
fn ask_nemesis<C: Cluster, R: Threads + Sync, K: Sink>(
    rt: &R,
    cluster: &mut C,
    plan: &Plan,
    seen: &Seen,
    at: usize,
    kept: &mut Vec<Kept>,
    sink: &mut K,
) -> Result<(), PutFault>
    requires some { at < vec_len kept.old }
    requires plan { C.is_of_plan cluster.old plan.now }
    ensures plan { C.is_of_plan cluster.new plan.now }
    ensures many { OnOk result (vec_len kept.new ≡ vec_len kept.old) }
    ensures ok { OnOk result ((m : Machine) → C.stands cluster.old plan.now.setup plan.now.program.functions m
        → SinkTook (C.line_text plan.now.program.functions) (C.stands cluster.new plan.now.setup plan.now.program.functions)
        (ask_one plan.now.setup plan.now.program.functions seen.now at (state m (map (λ b. numbered_nemesis b.0 (automaton b.1)) kept.old.items)))
        (K.held sink.old) (K.held sink.new) (map (λ b. numbered_nemesis b.0 (automaton b.1)) kept.new.items)) }
    ensures err { OnErr result ((m : Machine) → C.stands cluster.old plan.now.setup plan.now.program.functions m
        → SinkTookPrefix (C.line_text plan.now.program.functions)
        (ask_one plan.now.setup plan.now.program.functions seen.now at (state m (map (λ b. numbered_nemesis b.0 (automaton b.1)) kept.old.items)))
        (K.held sink.old) (K.held sink.new)) }
    ensures fault { IsErrOf result PutFault.Fault → CountRose (K.faults sink.old) (K.faults sink.new) }
    ensures later { K.faults sink.old ≤ K.faults sink.new }
{
    let (number, answer) = ask_at(kept, at, seen);
    do_added(rt, cluster, plan, seen.event, number, &answer, kept, sink)
}

/// Asks each nemesis once, in order, and drops those that are spent then.
fn ask_all<C: Cluster, R: Threads + Sync, K: Sink>(
    rt: &R,
    cluster: &mut C,
    plan: &Plan,
    seen: &Seen,
    kept: &mut Vec<Kept>,
    sink: &mut K,
) -> Result<(), PutFault>
    requires plan { C.is_of_plan cluster.old plan.now }
    ensures plan { C.is_of_plan cluster.new plan.now }
    ensures ok { OnOk result ((m : Machine) → C.stands cluster.old plan.now.setup plan.now.program.functions m
        → SinkTook (C.line_text plan.now.program.functions) (C.stands cluster.new plan.now.setup plan.now.program.functions)
        (ask_from plan.now.setup plan.now.program.functions seen.now (vec_len kept.old) 0 (state m (map (λ b. numbered_nemesis b.0 (automaton b.1)) kept.old.items)))
        (K.held sink.old) (K.held sink.new) (map (λ b. numbered_nemesis b.0 (automaton b.1)) kept.new.items)) }
    ensures err { OnErr result ((m : Machine) → C.stands cluster.old plan.now.setup plan.now.program.functions m
        → SinkTookPrefix (C.line_text plan.now.program.functions)
        (ask_from plan.now.setup plan.now.program.functions seen.now (vec_len kept.old) 0 (state m (map (λ b. numbered_nemesis b.0 (automaton b.1)) kept.old.items)))
        (K.held sink.old) (K.held sink.new)) }
    ensures fault { IsErrOf result PutFault.Fault → CountRose (K.faults sink.old) (K.faults sink.new) }
    ensures later { K.faults sink.old ≤ K.faults sink.new }
{
    let mut at = 0;
    'turns: for _ in 0..kept.len() {
        ask_nemesis(rt, cluster, plan, seen, at, kept, sink)?;
        at = drop_spent(kept, at);
    }
    Ok(())
}

/// Does an event of the plan, and asks each nemesis behind it.
pub(crate) fn do_round<C: Cluster, R: Threads + Sync, K: Sink>(
    rt: &R,
    cluster: &mut C,
    plan: &Plan,
    n: u64,
    event: &Event,
    kept: &mut Vec<Kept>,
    sink: &mut K,
) -> Result<(), PutFault>
    requires valid { IsTrue (is_event plan.now.setup plan.now.program.functions event.now) }
    requires plan { C.is_of_plan cluster.old plan.now }
    ensures plan { C.is_of_plan cluster.new plan.now }
    ensures ok { OnOk result ((m : Machine) → C.stands cluster.old plan.now.setup plan.now.program.functions m
        → SinkTook (C.line_text plan.now.program.functions) (C.stands cluster.new plan.now.setup plan.now.program.functions)
        (round plan.now.setup plan.now.program.functions n event.now (state m (map (λ b. numbered_nemesis b.0 (automaton b.1)) kept.old.items)))
        (K.held sink.old) (K.held sink.new) (map (λ b. numbered_nemesis b.0 (automaton b.1)) kept.new.items)) }
    ensures err { OnErr result ((m : Machine) → C.stands cluster.old plan.now.setup plan.now.program.functions m
        → SinkTookPrefix (C.line_text plan.now.program.functions)
        (round plan.now.setup plan.now.program.functions n event.now (state m (map (λ b. numbered_nemesis b.0 (automaton b.1)) kept.old.items)))
        (K.held sink.old) (K.held sink.new)) }
    ensures fault { IsErrOf result PutFault.Fault → CountRose (K.faults sink.old) (K.faults sink.new) }
    ensures later { K.faults sink.old ≤ K.faults sink.new }
{
    let seen = do_planned(rt, cluster, plan, n, event, kept, sink)?;
    ask_all(rt, cluster, plan, &seen, kept, sink)
}
