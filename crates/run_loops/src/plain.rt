//! The events of a plan, with no nemeses and no lines.

ghost use Rattle.std.specs.Prelude.{◌≡◌, ◌+◌, ◌^◌, ◌<◌, length, IfOk, OnOk, IsTrue};
ghost use Rattle.std.specs.List.{AllByRecursion};
ghost use Rattle.boki_model.specs.Plans.{is_event, repeat_events, events_of, events as events_in, is_plan};
ghost use Rattle.boki_machine.specs.Machine.{Machine, apply_events, initial_machine, run_plan as run_alone};

use crate::cluster::Cluster;
use boki_types::{Event, Item, Plan};
use lb_base::Memory;
use std::thread::Threads;

/// Does events one after another, and counts them.
fn apply_list<C: Cluster, R: Threads + Sync>(
    rt: &R,
    cluster: &mut C,
    plan: &Plan,
    n: &mut u64,
    events: &[Event],
) -> Result<(), Memory>
    requires valid { AllByRecursion (λ e. IsTrue (is_event plan.now.setup plan.now.program.functions e)) (events.now) }
    requires room { n.old + length (events.now) < 2 ^ 64 }
    requires plan { C.is_of_plan cluster.old plan.now }
    ensures plan { C.is_of_plan cluster.new plan.now }
    ensures number { OnOk result (n.new ≡ n.old + length (events.now)) }
    ensures ok { OnOk result ((m : Machine) → C.stands cluster.old plan.now.setup plan.now.program.functions m
        → C.stands cluster.new plan.now.setup plan.now.program.functions (apply_events plan.now.setup plan.now.program.functions (events.now) m).machine) }
{
    'events: for event in events {
        let line = cluster.event(rt, plan, event)?;
        drop(line);
        *n += 1;
    }
    Ok(())
}

/// Does events so often.
fn apply_repeat<C: Cluster, R: Threads + Sync>(
    rt: &R,
    cluster: &mut C,
    plan: &Plan,
    n: &mut u64,
    times: u32,
    events: &[Event],
) -> Result<(), Memory>
    requires valid { AllByRecursion (λ e. IsTrue (is_event plan.now.setup plan.now.program.functions e)) (repeat_events times events.now) }
    requires room { n.old + length (repeat_events times events.now) < 2 ^ 64 }
    requires plan { C.is_of_plan cluster.old plan.now }
    ensures plan { C.is_of_plan cluster.new plan.now }
    ensures number { OnOk result (n.new ≡ n.old + length (repeat_events times events.now)) }
    ensures ok { OnOk result ((m : Machine) → C.stands cluster.old plan.now.setup plan.now.program.functions m
        → C.stands cluster.new plan.now.setup plan.now.program.functions (apply_events plan.now.setup plan.now.program.functions (repeat_events times events.now) m).machine) }
{
    'times: for _ in 0..times {
        apply_list(rt, cluster, plan, n, events)?;
    }
    Ok(())
}

/// Does an item of a plan.
fn apply_item<C: Cluster, R: Threads + Sync>(
    rt: &R,
    cluster: &mut C,
    plan: &Plan,
    n: &mut u64,
    item: &Item,
) -> Result<(), Memory>
    requires valid { AllByRecursion (λ e. IsTrue (is_event plan.now.setup plan.now.program.functions e)) (events_of item.now) }
    requires room { n.old + length (events_of item.now) < 2 ^ 64 }
    requires plan { C.is_of_plan cluster.old plan.now }
    ensures plan { C.is_of_plan cluster.new plan.now }
    ensures number { OnOk result (n.new ≡ n.old + length (events_of item.now)) }
    ensures ok { OnOk result ((m : Machine) → C.stands cluster.old plan.now.setup plan.now.program.functions m
        → C.stands cluster.new plan.now.setup plan.now.program.functions (apply_events plan.now.setup plan.now.program.functions (events_of item.now) m).machine) }
{
    match item {
        Item::One(event) => apply_list(rt, cluster, plan, n, std::slice::from_ref(event)),
        Item::Repeat(times, events) => {
            apply_repeat(rt, cluster, plan, n, *times, events.as_slice())
        }
    }
}

/// Does the items of a plan.
fn apply_items<C: Cluster, R: Threads + Sync>(
    rt: &R,
    cluster: &mut C,
    plan: &Plan,
    n: &mut u64,
    items: &[Item],
) -> Result<(), Memory>
    requires valid { AllByRecursion (λ e. IsTrue (is_event plan.now.setup plan.now.program.functions e)) (events_in items.now) }
    requires room { n.old + length (events_in items.now) < 2 ^ 64 }
    requires plan { C.is_of_plan cluster.old plan.now }
    ensures plan { C.is_of_plan cluster.new plan.now }
    ensures number { OnOk result (n.new ≡ n.old + length (events_in items.now)) }
    ensures ok { OnOk result ((m : Machine) → C.stands cluster.old plan.now.setup plan.now.program.functions m
        → C.stands cluster.new plan.now.setup plan.now.program.functions (apply_events plan.now.setup plan.now.program.functions (events_in items.now) m).machine) }
{
    'items: for item in items {
        apply_item(rt, cluster, plan, n, item)?;
    }
    Ok(())
}

/// Does the events of a plan, with no nemeses and without making a line, and tells how many there are.
pub fn apply_plan<C: Cluster, R: Threads + Sync>(
    rt: &R,
    cluster: &mut C,
    plan: &Plan,
) -> Result<u64, Memory>
    requires is_plan { IsTrue (is_plan plan.now) }
    requires plan { C.is_of_plan cluster.old plan.now }
    ensures plan { C.is_of_plan cluster.new plan.now }
    ensures number { IfOk result (λ n. n ≡ length (events_in plan.now.items)) }
    ensures behind { OnOk result (C.stands cluster.old plan.now.setup plan.now.program.functions (initial_machine plan.now.setup plan.now.objects)
        → C.stands cluster.new plan.now.setup plan.now.program.functions (run_alone plan.now).machine) }
{
    let mut n = 0;
    apply_items(rt, cluster, plan, &mut n, plan.items.as_slice())?;
    Ok(n)
}
