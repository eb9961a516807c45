//! The top call of the command `make`.

ghost use Rattle.std.specs.Prelude.{◌≡◌, ◌≢◌, ◌≤◌, None, map, string_bytes, IfSome};
ghost use Rattle.lb_base.specs.Devices.{CountRose};
ghost use Rattle.call_base.specs.Due.{Meets, Wrote, usage};
ghost use Rattle.make_call.specs.Summary.{asked_due, summary_due};
ghost use Rattle.make_call.specs.Words.{asked};

use crate::summary::run_summary;
use crate::words::read_words;
use call_base::{Status, write_usage, write_whole};
use check_call::write_transfers;
use lb_base::{Sink, Source};
use plan_lang::make_plan;
use run_call::PlanCluster;
use std::alloc::Global;
use std::thread::Threads;
use transfer_laws::transfers_are_plans;

/// What [`make_top`] does where its words ask for the summary: it runs the plan of so many transfers.
pub fn summarize_transfers<C: PlanCluster + Drop, R: Threads + Sync, K: Sink>(
    rt: &R,
    alloc: Global,
    n: u32,
    sink: &mut K,
) -> Status
    requires some { 1 ≤ n }
    requires few { n ≤ 4000 }
    ensures meets { Meets result (summary_due n) (K.held sink.old) (K.held sink.new) }
    ensures wrote { Wrote result (K.held sink.old) (K.held sink.new) }
    ensures other { (result ≢ Status.ReadFault) × (result ≢ Status.Usage) }
    ensures write { result ≡ Status.WriteFault → CountRose (K.faults sink.old) (K.faults sink.new) }
{
    transfers_are_plans();
    let Ok(plan) = make_plan(alloc, n) else {
        return Status::Memory;
    };
    match run_summary::<C, R>(rt, alloc, &plan) {
        Ok(line) => write_whole(line.as_str().as_bytes(), sink),
        Err(_) => Status::Memory,
    }
}

/// Runs the generator's plan of so many transfers and writes its summary to a sink, or writes that plan.
///
/// The words stand without the program's name, and are accepted where they are `make N`, with `--plan` at most once before or
/// behind N, a numeral from 1 to 4,000; otherwise the usage line is written. The status is then `Done`: with `--plan` with exactly
/// the canonical text of the plan of N transfers, and else with the one line
/// `events X records L turns Y ended Z objects O sum S` of its run without nemeses, where L is the number of ordered records and S
/// the sum of the integer objects. `WriteFault` comes only where the sink failed in this call; after it, and after `Memory`, a
/// prefix of what was due was written. What the sink held before stays. The source is never touched.
pub fn make_top<C: PlanCluster + Drop, R: Threads + Sync, S: Source, K: Sink>(
    rt: &R,
    alloc: Global,
    words: &[String],
    _source: &mut S,
    sink: &mut K,
) -> Status
    // Other words: the usage line, but for a fault of the sink or want of memory.
    ensures usage { asked (map string_bytes words.now) ≡ None →
        Meets result usage (K.held sink.old) (K.held sink.new) }
    // So many transfers: the summary of their run, or their plan, likewise.
    ensures make { IfSome (asked (map string_bytes words.now)) (λ a.
        (result ≢ Status.Usage) × Meets result (asked_due a) (K.held sink.old) (K.held sink.new)) }
    ensures wrote { Wrote result (K.held sink.old) (K.held sink.new) }
    ensures source { _source.new ≡ _source.old }
    ensures read { result ≢ Status.ReadFault }
    ensures write { result ≡ Status.WriteFault → CountRose (K.faults sink.old) (K.faults sink.new) }
{
    let Ok(asked) = read_words(alloc, words) else {
        return Status::Memory;
    };
    match asked {
        Some((n, true)) => write_transfers(alloc, n, sink),
        Some((n, false)) => summarize_transfers::<C, R, K>(rt, alloc, n, sink),
        None => write_usage(sink),
    }
}
