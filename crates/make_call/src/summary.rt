//! The summary of a run.

ghost use Rattle.std.specs.Prelude.{◌≡◌, string_bytes, IfOk, IsTrue};
ghost use Rattle.boki_model.specs.Plans.{is_plan};
ghost use Rattle.make_call.specs.Summary.{integer_of, line_of, log_part, result_part, sum_of, summary_line, summary_of};

use boki_types::{Plan, Report};
use lb_base::{Memory, Value, Words};
use run_call::PlanCluster;
use run_loops::apply_plan;
use std::alloc::Global;
use std::thread::Threads;

/// An object's integer; other values count nothing.
fn integer(value: &Value) -> i64
    ensures { result ≡ integer_of value.now }
{
    match value {
        Value::Int(n) => *n,
        Value::Text(_) | Value::Nothing => 0,
    }
}

/// The sum of the integer objects.
fn sum(objects: &[(Words, Value)]) -> i128
    ensures { result ≡ sum_of objects.now }
{
    let mut sum: i128 = 0;
    'objects: for object in objects {
        sum += i128::from(integer(&object.1));
    }
    sum
}

/// The line as far as it tells of the log.
fn log_string(alloc: Global, count: u64, records: u64, turns: usize) -> Result<String, Memory>
    ensures { IfOk result (λ s. string_bytes s ≡ log_part count records turns) }
{
    Ok(format!(in alloc; "events {count} records {records} turns {turns}")?)
}

/// The rest of the line: what has come of it.
fn result_string(alloc: Global, ended: usize, objects: usize, sum: i128) -> Result<String, Memory>
    ensures { IfOk result (λ s. string_bytes s ≡ result_part ended objects sum) }
{
    Ok(format!(in alloc; " ended {ended} objects {objects} sum {sum}\n")?)
}

/// The line of these numbers.
fn line_string(
    alloc: Global,
    count: u64,
    records: u64,
    turns: usize,
    ended: usize,
    objects: usize,
    sum: i128,
) -> Result<String, Memory>
    ensures { IfOk result (λ s. string_bytes s ≡ line_of count records turns ended objects sum) }
{
    let mut line = log_string(alloc, count, records, turns)?;
    let rest = result_string(alloc, ended, objects, sum)?;
    line.push_str(rest.as_str())?;
    Ok(line)
}

/// The line of so many events and ordered records and a report.
fn summarize(alloc: Global, count: u64, records: u64, report: &Report) -> Result<String, Memory>
    ensures { IfOk result (λ s. string_bytes s ≡ summary_line count records report.now) }
{
    let turns = report.turns.len();
    let ended = report.results.len();
    let objects = report.objects.len();
    let sum = sum(report.objects.as_slice());
    line_string(alloc, count, records, turns, ended, objects, sum)
}

/// Runs a plan on a new cluster with no nemeses, without making a line of its events, and tells what has come of it in one.
pub(crate) fn run_summary<C: PlanCluster + Drop, R: Threads + Sync>(
    rt: &R,
    alloc: Global,
    plan: &Plan,
) -> Result<String, Memory>
    requires { IsTrue (is_plan plan.now) }
    ensures { IfOk result (λ s. string_bytes s ≡ summary_of plan.now) }
{
    let mut cluster = C::open(alloc, plan)?;
    let count = apply_plan(rt, &mut cluster, plan)?;
    let records = cluster.log_length();
    let report = cluster.report(plan)?;
    drop(cluster);
    summarize(alloc, count, records, &report)
}
