//! The run of a plan, and its report.

ghost use Rattle.std.specs.Prelude.{◌≡◌, ◌≢◌, ◌≤◌, map, IfOk, IsErrOf, IsTrue, OnErr, OnOk};
ghost use Rattle.lb_base.specs.Devices.{CountRose, Appends, AppendsPrefix};
ghost use Rattle.boki_model.specs.Plans.{is_plan};
ghost use Rattle.boki_machine.specs.Machine.{Machine};
ghost use Rattle.boki_machine.specs.Reports.{report};
ghost use Rattle.nemesis_types.specs.Kept.{numbered_nemesis};
ghost use Rattle.call_base.specs.Due.{Meets, Wrote, due};
ghost use Rattle.run_call.specs.Runs.{run_text, text_of_report};

use crate::cluster::PlanCluster;
use boki_types::{Plan, Program, Report};
use call_base::{Status, write_text};
use lb_base::{Memory, PutFault, Sink, Words};
use nemesis::Kept;
use plan_lang::print_report;
use report_json::print_json;
use run_loops::run_events;
use std::alloc::Global;
use std::thread::Threads;

/// A report as text: its lines, or one line of JSON.
fn print_as(alloc: Global, json: bool, report: &Report, program: &Program) -> Result<Words, Memory>
    ensures { IfOk result (λ w. w ≡ text_of_report json program.now.functions report.now) }
{
    if json {
        print_json(alloc, report, program)
    } else {
        print_report(alloc, report, program)
    }
}

/// The text of a cluster's report.
fn report_of<C: PlanCluster>(
    alloc: Global,
    cluster: &C,
    plan: &Plan,
    json: bool,
) -> Result<Words, Memory>
    requires { C.is_of_plan cluster.now plan.now }
    ensures { IfOk result (λ w. (m : Machine) → C.stands cluster.now plan.now.setup plan.now.program.functions m
        → w ≡ text_of_report json plan.now.program.functions (report plan.now.program.functions m)) }
{
    let report = cluster.report(plan)?;
    print_as(alloc, json, &report, &plan.program)
}

/// Runs a plan on a new cluster, with these nemeses, and writes its lines and its report.
fn write_run<C: PlanCluster + Drop, R: Threads + Sync, K: Sink>(
    rt: &R,
    alloc: Global,
    plan: &Plan,
    kept: Vec<Kept>,
    json: bool,
    sink: &mut K,
) -> Result<(), PutFault>
    requires { IsTrue (is_plan plan.now) }
    ensures ok { OnOk result (Appends (K.held sink.old) (K.held sink.new) (run_text json plan.now (map (λ b. numbered_nemesis b.0 (automaton b.1)) kept.items))) }
    ensures err { OnErr result (AppendsPrefix (K.held sink.old) (K.held sink.new) (run_text json plan.now (map (λ b. numbered_nemesis b.0 (automaton b.1)) kept.items))) }
    ensures fault { IsErrOf result PutFault.Fault → CountRose (K.faults sink.old) (K.faults sink.new) }
    ensures later { K.faults sink.old ≤ K.faults sink.new }
{
    let mut cluster = C::open(alloc, plan)?;
    run_events(rt, &mut cluster, plan, kept, sink)?;
    let text = report_of(alloc, &cluster, plan, json)?;
    drop(cluster);
    write_text(sink, text.as_bytes())
}

/// Runs a plan with these nemeses, which is all that is due.
pub(crate) fn run_plan<C: PlanCluster + Drop, R: Threads + Sync, K: Sink>(
    rt: &R,
    alloc: Global,
    plan: &Plan,
    kept: Vec<Kept>,
    json: bool,
    sink: &mut K,
) -> Status
    requires { IsTrue (is_plan plan.now) }
    ensures meets { Meets result (due Status.Done (run_text json plan.now (map (λ b. numbered_nemesis b.0 (automaton b.1)) kept.items))) (K.held sink.old) (K.held sink.new) }
    ensures wrote { Wrote result (K.held sink.old) (K.held sink.new) }
    ensures other { (result ≢ Status.ReadFault) × (result ≢ Status.Usage) }
    ensures write { result ≡ Status.WriteFault → CountRose (K.faults sink.old) (K.faults sink.new) }
{
    match write_run::<C, R, K>(rt, alloc, plan, kept, json, sink) {
        Ok(()) => Status::Done,
        Err(PutFault::Fault) => Status::WriteFault,
        Err(PutFault::Memory) => Status::Memory,
    }
}
