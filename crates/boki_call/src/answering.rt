//! The call of the program, by the request that its words make.

ghost use Rattle.std.specs.Prelude.{◌≡◌, ◌≤◌, [], Some, true, false, map, string_bytes, vec_len, IfSome};
ghost use Rattle.lb_base.specs.Devices.{CountRose};
ghost use Rattle.call_base.specs.Due.{Wrote};
ghost use Rattle.command_line.specs.Words.{IsInRange, request};
ghost use Rattle.run_call.specs.Runs.{IsExactRun, RunsByLaws};
ghost use Rattle.run_call.specs.Words.{asked, if_handed, kept_of, run_asked};
ghost use Rattle.boki_call.specs.Answers.{Answers, is_read};

use call_base::{Status, write_usage};
use check_call::{check_source, write_transfers};
use command_line::{Request, request_of};
use judge_call::judge_source;
use lb_base::{Sink, Source};
use live_call::live_source;
use make_call::summarize_transfers;
use nemesis::Nemesis;
use run_call::{PlanCluster, run_source};
use std::alloc::Global;
use std::sync::Wait;
use std::thread::Threads;

/// What a request asks for.
fn answer<C: PlanCluster + Drop, R: Threads + Wait + Sync, S: Source, K: Sink>(
    rt: &R,
    alloc: Global,
    request: Request,
    source: &mut S,
    sink: &mut K,
    nemeses: Vec<Box<dyn Nemesis + Send>>,
) -> Status
    requires in_range { IsInRange (Some request) }
    requires few { vec_len nemeses ≤ 16 }
    ensures answers { Answers (vec_len nemeses) (map (λ b. automaton b) nemeses.items) (Some request)
        result (S.left source.old) (K.held sink.old) (K.held sink.new) }
    ensures exactly_once { result ≡ Status.Done →
        IfSome (if_handed (vec_len nemeses) (run_asked (Some request))) (λ a. IfSome (S.left source.old) (λ text.
        IsExactRun a.1 (kept_of a.0 (map (λ b. automaton b) nemeses.items)) text (K.held sink.old) (K.held sink.new))) }
    ensures untouched { is_read (vec_len nemeses) (Some request) ≡ false → source.new ≡ source.old }
    ensures wrote { Wrote result (K.held sink.old) (K.held sink.new) }
    ensures done { is_read (vec_len nemeses) (Some request) ≡ true → result ≡ Status.Done →
        IfSome (S.left source.old) (λ _. S.left source.new ≡ Some []) }
    ensures read { result ≡ Status.ReadFault → CountRose (S.faults source.old) (S.faults source.new) }
    ensures write { result ≡ Status.WriteFault → CountRose (K.faults sink.old) (K.faults sink.new) }
{
    if let Request::Run { with, json } = request {
        return run_source::<C, R, S, K>(rt, alloc, with, json, source, sink, nemeses);
    }
    drop(nemeses);
    match request {
        Request::Judge => judge_source(alloc, source, sink),
        Request::Check => check_source(alloc, source, sink),
        Request::Live => live_source(rt, alloc, source, sink),
        Request::Make {
            transfers,
            plan: true,
        } => write_transfers(alloc, transfers, sink),
        Request::Make {
            transfers,
            plan: false,
        } => summarize_transfers::<C, R, K>(rt, alloc, transfers, sink),
        // The others aren't built yet.
        _ => write_usage(sink),
    }
}

/// Answers the words of the program, which stand without its name. A run is on a cluster of the type `C`.
///
/// They are read once, and the status and the text are those of their command's own call: of [`run_top`](run_call::run_top),
/// [`judge_top`](judge_call::judge_top), [`check_top`](check_call::check_top), [`make_top`](make_call::make_top) or
/// [`live_top`](live_call::live_top), for which it may wait. For every other word, and for a command that isn't built yet, the usage
/// line is written and the source is left alone. A run keeps the nemeses that its words name; all others are dropped unused.
pub fn call<C: PlanCluster + Drop, R: Threads + Wait + Sync, S: Source, K: Sink>(
    rt: &R,
    alloc: Global,
    words: &[String],
    source: &mut S,
    sink: &mut K,
    nemeses: Vec<Box<dyn Nemesis + Send>>,
) -> Status
    requires few { vec_len nemeses ≤ 16 }
    // What the request of the words asks for.
    ensures answers { Answers (vec_len nemeses) (map (λ b. automaton b) nemeses.items) (request (map string_bytes words.now))
        result (S.left source.old) (K.held sink.old) (K.held sink.new) }
    // **Exactly once.** Where the words ask for a run, Done says that what was written is the run of the plan that was read, with its
    // report; and that the report is the one of the failure-free execution of its own turns.
    ensures exactly_once { result ≡ Status.Done →
        IfSome (asked (vec_len nemeses) (map string_bytes words.now)) (λ a. IfSome (S.left source.old) (λ text.
        IsExactRun a.1 (kept_of a.0 (map (λ b. automaton b) nemeses.items)) text (K.held sink.old) (K.held sink.new))) }
    // And what else holds of the machine behind that run, whatever the nemeses did.
    ensures laws { IfSome (asked (vec_len nemeses) (map string_bytes words.now)) (λ a. IfSome (S.left source.old) (λ text.
        RunsByLaws (kept_of a.0 (map (λ b. automaton b) nemeses.items)) text)) }
    ensures untouched { is_read (vec_len nemeses) (request (map string_bytes words.now)) ≡ false →
        source.new ≡ source.old }
    // What is written under each status, also where the source doesn't tell what it gives.
    ensures wrote { Wrote result (K.held sink.old) (K.held sink.new) }
    // Done comes only once the source of a command that reads was read to its end.
    ensures done { is_read (vec_len nemeses) (request (map string_bytes words.now)) ≡ true → result ≡ Status.Done →
        IfSome (S.left source.old) (λ _. S.left source.new ≡ Some []) }
    // Faults have a cause.
    ensures read { result ≡ Status.ReadFault → CountRose (S.faults source.old) (S.faults source.new) }
    ensures write { result ≡ Status.WriteFault → CountRose (K.faults sink.old) (K.faults sink.new) }
{
    let Ok(request) = request_of(alloc, words) else {
        drop(nemeses);
        return Status::Memory;
    };
    match request {
        Some(request) => answer::<C, R, S, K>(rt, alloc, request, source, sink, nemeses),
        None => {
            drop(nemeses);
            write_usage(sink)
        }
    }
}
