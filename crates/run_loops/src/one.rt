//! One event.

ghost use Rattle.std.specs.Prelude.{◌≡◌, ◌≤◌, map, vec_len, IfOk, OnOk, OnErr, IsErrOf, IsTrue};
ghost use Rattle.lb_base.specs.Devices.{CountRose};
ghost use Rattle.boki_model.specs.Plans.{is_event};
ghost use Rattle.boki_machine.specs.Machine.{Machine, apply_event};
ghost use Rattle.nemesis_types.specs.Kept.{numbered_nemesis};
ghost use Rattle.run_with.specs.Runs.{Planned, Added, state, seen_of, reseeded_by, run_event, run_answer};
ghost use Rattle.run_with.specs.Written.{SinkTook, SinkTookPrefix};

use crate::cluster::Cluster;
use crate::lines::{write_added, write_ignored, write_planned};
use crate::observation::seen;
use boki_types::{Event, Line, Plan};
use lb_base::{Memory, PutFault, Sink};
use nemesis::{Kept, reseed_all};
use nemesis_types::Seen;
use std::thread::Threads;

/// Does an event; a seed reseeds each nemesis.
pub(crate) fn do_event<C: Cluster, R: Threads + Sync>(
    rt: &R,
    cluster: &mut C,
    plan: &Plan,
    event: &Event,
    kept: &mut Vec<Kept>,
) -> Result<Line, Memory>
    requires valid { IsTrue (is_event plan.now.setup plan.now.program.functions event.now) }
    requires plan { C.is_of_plan cluster.old plan.now }
    ensures plan { C.is_of_plan cluster.new plan.now }
    ensures line { IfOk result (λ line. (m : Machine) → C.stands cluster.old plan.now.setup plan.now.program.functions m
        → (line ≡ (apply_event plan.now.setup plan.now.program.functions m event.now).line)
        × C.stands cluster.new plan.now.setup plan.now.program.functions (apply_event plan.now.setup plan.now.program.functions m event.now).machine) }
    ensures many { OnOk result (vec_len kept.new ≡ vec_len kept.old) }
    ensures kept { OnOk result (map (λ b. numbered_nemesis b.0 (automaton b.1)) kept.new.items ≡ reseeded_by event.now (map (λ b. numbered_nemesis b.0 (automaton b.1)) kept.old.items)) }
{
    let line = cluster.event(rt, plan, event)?;
    if let Event::Seed { n } = event {
        reseed_all(kept, *n);
    }
    Ok(line)
}

/// Does an event of the plan and writes its line, and gives what nemeses are told of it.
pub(crate) fn do_planned<C: Cluster, R: Threads + Sync, K: Sink>(
    rt: &R,
    cluster: &mut C,
    plan: &Plan,
    n: u64,
    event: &Event,
    kept: &mut Vec<Kept>,
    sink: &mut K,
) -> Result<Seen, PutFault>
    requires valid { IsTrue (is_event plan.now.setup plan.now.program.functions event.now) }
    requires plan { C.is_of_plan cluster.old plan.now }
    ensures plan { C.is_of_plan cluster.new plan.now }
    ensures seen { IfOk result (λ seen. (m : Machine) → C.stands cluster.old plan.now.setup plan.now.program.functions m
        → seen ≡ seen_of n event.now (apply_event plan.now.setup plan.now.program.functions m event.now).line) }
    ensures ok { OnOk result ((m : Machine) → C.stands cluster.old plan.now.setup plan.now.program.functions m
        → SinkTook (C.line_text plan.now.program.functions) (C.stands cluster.new plan.now.setup plan.now.program.functions)
        (run_event plan.now.setup plan.now.program.functions (Planned n) event.now (state m (map (λ b. numbered_nemesis b.0 (automaton b.1)) kept.old.items)))
        (K.held sink.old) (K.held sink.new) (map (λ b. numbered_nemesis b.0 (automaton b.1)) kept.new.items)) }
    ensures err { OnErr result ((m : Machine) → C.stands cluster.old plan.now.setup plan.now.program.functions m
        → SinkTookPrefix (C.line_text plan.now.program.functions)
        (run_event plan.now.setup plan.now.program.functions (Planned n) event.now (state m (map (λ b. numbered_nemesis b.0 (automaton b.1)) kept.old.items)))
        (K.held sink.old) (K.held sink.new)) }
    ensures fault { IsErrOf result PutFault.Fault → CountRose (K.faults sink.old) (K.faults sink.new) }
    ensures later { K.faults sink.old ≤ K.faults sink.new }
{
    let line = do_event(rt, cluster, plan, event, kept)?;
    let told = write_planned(cluster, plan, n, &line, sink);
    let seen = seen(n, event, &line);
    drop(line);
    told?;
    Ok(seen)
}

/// Does an event that a nemesis gave and that the plan can have, and writes its line.
fn do_valid<C: Cluster, R: Threads + Sync, K: Sink>(
    rt: &R,
    cluster: &mut C,
    plan: &Plan,
    n: u64,
    number: u32,
    event: &Event,
    kept: &mut Vec<Kept>,
    sink: &mut K,
) -> Result<(), PutFault>
    requires valid { IsTrue (is_event plan.now.setup plan.now.program.functions event.now) }
    requires plan { C.is_of_plan cluster.old plan.now }
    ensures plan { C.is_of_plan cluster.new plan.now }
    ensures many { OnOk result (vec_len kept.new ≡ vec_len kept.old) }
    ensures ok { OnOk result ((m : Machine) → C.stands cluster.old plan.now.setup plan.now.program.functions m
        → SinkTook (C.line_text plan.now.program.functions) (C.stands cluster.new plan.now.setup plan.now.program.functions)
        (run_event plan.now.setup plan.now.program.functions (Added n number event.now) event.now (state m (map (λ b. numbered_nemesis b.0 (automaton b.1)) kept.old.items)))
        (K.held sink.old) (K.held sink.new) (map (λ b. numbered_nemesis b.0 (automaton b.1)) kept.new.items)) }
    ensures err { OnErr result ((m : Machine) → C.stands cluster.old plan.now.setup plan.now.program.functions m
        → SinkTookPrefix (C.line_text plan.now.program.functions)
        (run_event plan.now.setup plan.now.program.functions (Added n number event.now) event.now (state m (map (λ b. numbered_nemesis b.0 (automaton b.1)) kept.old.items)))
        (K.held sink.old) (K.held sink.new)) }
    ensures fault { IsErrOf result PutFault.Fault → CountRose (K.faults sink.old) (K.faults sink.new) }
    ensures later { K.faults sink.old ≤ K.faults sink.new }
{
    let line = do_event(rt, cluster, plan, event, kept)?;
    let told = write_added(cluster, plan, n, number, event, &line, sink);
    drop(line);
    told
}

/// Does what a nemesis gave, where the plan can have it, and writes its line.
pub(crate) fn do_added<C: Cluster, R: Threads + Sync, K: Sink>(
    rt: &R,
    cluster: &mut C,
    plan: &Plan,
    n: u64,
    number: u32,
    answer: &Option<Event>,
    kept: &mut Vec<Kept>,
    sink: &mut K,
) -> Result<(), PutFault>
    requires plan { C.is_of_plan cluster.old plan.now }
    ensures plan { C.is_of_plan cluster.new plan.now }
    ensures many { OnOk result (vec_len kept.new ≡ vec_len kept.old) }
    ensures ok { OnOk result ((m : Machine) → C.stands cluster.old plan.now.setup plan.now.program.functions m
        → SinkTook (C.line_text plan.now.program.functions) (C.stands cluster.new plan.now.setup plan.now.program.functions)
        (run_answer plan.now.setup plan.now.program.functions n number answer.now (state m (map (λ b. numbered_nemesis b.0 (automaton b.1)) kept.old.items)))
        (K.held sink.old) (K.held sink.new) (map (λ b. numbered_nemesis b.0 (automaton b.1)) kept.new.items)) }
    ensures err { OnErr result ((m : Machine) → C.stands cluster.old plan.now.setup plan.now.program.functions m
        → SinkTookPrefix (C.line_text plan.now.program.functions)
        (run_answer plan.now.setup plan.now.program.functions n number answer.now (state m (map (λ b. numbered_nemesis b.0 (automaton b.1)) kept.old.items)))
        (K.held sink.old) (K.held sink.new)) }
    ensures fault { IsErrOf result PutFault.Fault → CountRose (K.faults sink.old) (K.faults sink.new) }
    ensures later { K.faults sink.old ≤ K.faults sink.new }
{
    let Some(event) = answer else {
        return Ok(());
    };
    if cluster.is_valid(plan, event) {
        do_valid(rt, cluster, plan, n, number, event, kept, sink)
    } else {
        write_ignored(cluster, plan, n, number, sink)
    }
}
