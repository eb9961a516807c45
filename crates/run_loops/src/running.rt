//! The events of a plan.

ghost use Rattle.std.specs.Prelude.{◌≡◌, ◌+◌, ◌^◌, ◌<◌, ◌≤◌, length, map, vec_len, OnOk, OnErr, IsErrOf, IsTrue};
ghost use Rattle.std.specs.List.{AllByRecursion};
ghost use Rattle.lb_base.specs.Devices.{CountRose};
ghost use Rattle.boki_model.specs.Plans.{is_event, repeat_events, events_of, events as events_in, is_plan};
ghost use Rattle.boki_machine.specs.Machine.{Machine};
ghost use Rattle.nemesis_types.specs.Kept.{numbered_nemesis};
ghost use Rattle.run_with.specs.Runs.{state, run_from};
ghost use Rattle.run_with.specs.Written.{SinkTook, SinkTookPrefix};

use crate::cluster::Cluster;
use crate::rounds::do_round;
use boki_types::{Event, Item, Plan};
use lb_base::{PutFault, Sink};
use nemesis::Kept;
use std::thread::Threads;

/// Does events one after another, of which the first has the number `n`.
fn run_list<C: Cluster, R: Threads + Sync, K: Sink>(
    rt: &R,
    cluster: &mut C,
    plan: &Plan,
    n: &mut u64,
    events: &[Event],
    kept: &mut Vec<Kept>,
    sink: &mut K,
) -> Result<(), PutFault>
    requires valid { AllByRecursion (λ e. IsTrue (is_event plan.now.setup plan.now.program.functions e)) (events.now) }
    requires room { n.old + length (events.now) < 2 ^ 64 }
    requires plan { C.is_of_plan cluster.old plan.now }
    ensures plan { C.is_of_plan cluster.new plan.now }
    ensures number { OnOk result (n.new ≡ n.old + length (events.now)) }
    ensures ok { OnOk result ((m : Machine) → C.stands cluster.old plan.now.setup plan.now.program.functions m
        → SinkTook (C.line_text plan.now.program.functions) (C.stands cluster.new plan.now.setup plan.now.program.functions)
        (run_from plan.now.setup plan.now.program.functions n.old (events.now) (state m (map (λ b. numbered_nemesis b.0 (automaton b.1)) kept.old.items)))
        (K.held sink.old) (K.held sink.new) (map (λ b. numbered_nemesis b.0 (automaton b.1)) kept.new.items)) }
    ensures err { OnErr result ((m : Machine) → C.stands cluster.old plan.now.setup plan.now.program.functions m
        → SinkTookPrefix (C.line_text plan.now.program.functions)
        (run_from plan.now.setup plan.now.program.functions n.old (events.now) (state m (map (λ b. numbered_nemesis b.0 (automaton b.1)) kept.old.items)))
        (K.held sink.old) (K.held sink.new)) }
    ensures fault { IsErrOf result PutFault.Fault → CountRose (K.faults sink.old) (K.faults sink.new) }
    ensures later { K.faults sink.old ≤ K.faults sink.new }
{
    'events: for event in events {
        do_round(rt, cluster, plan, *n, event, kept, sink)?;
        *n += 1;
    }
    Ok(())
}

/// Does events so often.
fn run_repeat<C: Cluster, R: Threads + Sync, K: Sink>(
    rt: &R,
    cluster: &mut C,
    plan: &Plan,
    n: &mut u64,
    times: u32,
    events: &[Event],
    kept: &mut Vec<Kept>,
    sink: &mut K,
) -> Result<(), PutFault>
    requires valid { AllByRecursion (λ e. IsTrue (is_event plan.now.setup plan.now.program.functions e)) (repeat_events times events.now) }
    requires room { n.old + length (repeat_events times events.now) < 2 ^ 64 }
    requires plan { C.is_of_plan cluster.old plan.now }
    ensures plan { C.is_of_plan cluster.new plan.now }
    ensures number { OnOk result (n.new ≡ n.old + length (repeat_events times events.now)) }
    ensures ok { OnOk result ((m : Machine) → C.stands cluster.old plan.now.setup plan.now.program.functions m
        → SinkTook (C.line_text plan.now.program.functions) (C.stands cluster.new plan.now.setup plan.now.program.functions)
        (run_from plan.now.setup plan.now.program.functions n.old (repeat_events times events.now) (state m (map (λ b. numbered_nemesis b.0 (automaton b.1)) kept.old.items)))
        (K.held sink.old) (K.held sink.new) (map (λ b. numbered_nemesis b.0 (automaton b.1)) kept.new.items)) }
    ensures err { OnErr result ((m : Machine) → C.stands cluster.old plan.now.setup plan.now.program.functions m
        → SinkTookPrefix (C.line_text plan.now.program.functions)
        (run_from plan.now.setup plan.now.program.functions n.old (repeat_events times events.now) (state m (map (λ b. numbered_nemesis b.0 (automaton b.1)) kept.old.items)))
        (K.held sink.old) (K.held sink.new)) }
    ensures fault { IsErrOf result PutFault.Fault → CountRose (K.faults sink.old) (K.faults sink.new) }
    ensures later { K.faults sink.old ≤ K.faults sink.new }
{
    'times: for _ in 0..times {
        run_list(rt, cluster, plan, n, events, kept, sink)?;
    }
    Ok(())
}

/// Does an item of a plan.
fn run_item<C: Cluster, R: Threads + Sync, K: Sink>(
    rt: &R,
    cluster: &mut C,
    plan: &Plan,
    n: &mut u64,
    item: &Item,
    kept: &mut Vec<Kept>,
    sink: &mut K,
) -> Result<(), PutFault>
    requires valid { AllByRecursion (λ e. IsTrue (is_event plan.now.setup plan.now.program.functions e)) (events_of item.now) }
    requires room { n.old + length (events_of item.now) < 2 ^ 64 }
    requires plan { C.is_of_plan cluster.old plan.now }
    ensures plan { C.is_of_plan cluster.new plan.now }
    ensures number { OnOk result (n.new ≡ n.old + length (events_of item.now)) }
    ensures ok { OnOk result ((m : Machine) → C.stands cluster.old plan.now.setup plan.now.program.functions m
        → SinkTook (C.line_text plan.now.program.functions) (C.stands cluster.new plan.now.setup plan.now.program.functions)
        (run_from plan.now.setup plan.now.program.functions n.old (events_of item.now) (state m (map (λ b. numbered_nemesis b.0 (automaton b.1)) kept.old.items)))
        (K.held sink.old) (K.held sink.new) (map (λ b. numbered_nemesis b.0 (automaton b.1)) kept.new.items)) }
    ensures err { OnErr result ((m : Machine) → C.stands cluster.old plan.now.setup plan.now.program.functions m
        → SinkTookPrefix (C.line_text plan.now.program.functions)
        (run_from plan.now.setup plan.now.program.functions n.old (events_of item.now) (state m (map (λ b. numbered_nemesis b.0 (automaton b.1)) kept.old.items)))
        (K.held sink.old) (K.held sink.new)) }
    ensures fault { IsErrOf result PutFault.Fault → CountRose (K.faults sink.old) (K.faults sink.new) }
    ensures later { K.faults sink.old ≤ K.faults sink.new }
{
    match item {
        Item::One(event) => run_list(
            rt,
            cluster,
            plan,
            n,
            std::slice::from_ref(event),
            kept,
            sink,
        ),
        Item::Repeat(times, events) => run_repeat(
            rt,
            cluster,
            plan,
            n,
            *times,
            events.as_slice(),
            kept,
            sink,
        ),
    }
}

/// Does the items of a plan.
pub(crate) fn run_items<C: Cluster, R: Threads + Sync, K: Sink>(
    rt: &R,
    cluster: &mut C,
    plan: &Plan,
    n: &mut u64,
    items: &[Item],
    kept: &mut Vec<Kept>,
    sink: &mut K,
) -> Result<(), PutFault>
    requires valid { AllByRecursion (λ e. IsTrue (is_event plan.now.setup plan.now.program.functions e)) (events_in items.now) }
    requires room { n.old + length (events_in items.now) < 2 ^ 64 }
    requires plan { C.is_of_plan cluster.old plan.now }
    ensures plan { C.is_of_plan cluster.new plan.now }
    ensures number { OnOk result (n.new ≡ n.old + length (events_in items.now)) }
    ensures ok { OnOk result ((m : Machine) → C.stands cluster.old plan.now.setup plan.now.program.functions m
        → SinkTook (C.line_text plan.now.program.functions) (C.stands cluster.new plan.now.setup plan.now.program.functions)
        (run_from plan.now.setup plan.now.program.functions n.old (events_in items.now) (state m (map (λ b. numbered_nemesis b.0 (automaton b.1)) kept.old.items)))
        (K.held sink.old) (K.held sink.new) (map (λ b. numbered_nemesis b.0 (automaton b.1)) kept.new.items)) }
    ensures err { OnErr result ((m : Machine) → C.stands cluster.old plan.now.setup plan.now.program.functions m
        → SinkTookPrefix (C.line_text plan.now.program.functions)
        (run_from plan.now.setup plan.now.program.functions n.old (events_in items.now) (state m (map (λ b. numbered_nemesis b.0 (automaton b.1)) kept.old.items)))
        (K.held sink.old) (K.held sink.new)) }
    ensures fault { IsErrOf result PutFault.Fault → CountRose (K.faults sink.old) (K.faults sink.new) }
    ensures later { K.faults sink.old ≤ K.faults sink.new }
{
    'items: for item in items {
        run_item(rt, cluster, plan, n, item, kept, sink)?;
    }
    Ok(())
}
