//! The top call of the command `run`.

ghost use Rattle.std.specs.Prelude.{◌≡◌, ◌≢◌, ◌≤◌, [], Some, None, true, false, map, string_bytes, vec_len, IfSome};
ghost use Rattle.lb_base.specs.Devices.{CountRose};
ghost use Rattle.nemesis_types.specs.Kept.{numbered_nemesis};
ghost use Rattle.call_base.specs.Due.{Meets, Wrote, usage};
ghost use Rattle.run_call.specs.Runs.{IsExactRun, RunsByLaws, run_due};
ghost use Rattle.run_call.specs.Words.{asked, is_handed as is_among, kept_of};

use crate::choosing::{is_handed, keep, read_words};
use crate::cluster::PlanCluster;
use crate::reading::read_plan;
use crate::running::run_plan;
use call_base::{Status, write_usage};
use command_line::With;
use lb_base::{Sink, Source};
use nemesis::{Kept, Nemesis};
use std::alloc::Global;
use std::thread::Threads;

/// Reads a plan and runs it with these nemeses.
fn run_kept<C: PlanCluster + Drop, R: Threads + Sync, S: Source, K: Sink>(
    rt: &R,
    alloc: Global,
    kept: Vec<Kept>,
    json: bool,
    source: &mut S,
    sink: &mut K,
) -> Status
    ensures run { IfSome (S.left source.old) (λ text.
        Meets result (run_due json (map (λ b. numbered_nemesis b.0 (automaton b.1)) kept.items) text) (K.held sink.old) (K.held sink.new)) }
    ensures other { result ≢ Status.Usage }
    ensures wrote { Wrote result (K.held sink.old) (K.held sink.new) }
    ensures done { result ≡ Status.Done →
        IfSome (S.left source.old) (λ _. S.left source.new ≡ Some []) }
    ensures read { result ≡ Status.ReadFault → CountRose (S.faults source.old) (S.faults source.new) }
    ensures write { result ≡ Status.WriteFault → CountRose (K.faults sink.old) (K.faults sink.new) }
{
    match read_plan(alloc, source, sink) {
        Ok(plan) => run_plan::<C, R, K>(rt, alloc, &plan, kept, json, sink),
        Err(status) => status,
    }
}

/// What [`run_top`] does once its words are read, and ask for a run with these nemeses.
pub fn run_source<C: PlanCluster + Drop, R: Threads + Sync, S: Source, K: Sink>(
    rt: &R,
    alloc: Global,
    with: Option<With>,
    json: bool,
    source: &mut S,
    sink: &mut K,
    nemeses: Vec<Box<dyn Nemesis + Send>>,
) -> Status
    requires few { vec_len nemeses ≤ 16 }
    // One that isn't handed in: the usage line, but for a fault of the sink or want of memory. The source is left alone.
    ensures usage { is_among (vec_len nemeses) with ≡ false →
        Meets result usage (K.held sink.old) (K.held sink.new)
        × (result ≢ Status.ReadFault) × (source.new ≡ source.old) }
    // Else what is due on the text that the source gives, likewise.
    ensures run { is_among (vec_len nemeses) with ≡ true → (result ≢ Status.Usage) × IfSome (S.left source.old) (λ text.
        Meets result (run_due json (kept_of with (map (λ b. automaton b) nemeses.items)) text) (K.held sink.old) (K.held sink.new)) }
    // **Exactly once.** Done says that what was written is the run of the plan that was read, with its report; and that the
    // report is the one of the failure-free execution of its own turns.
    ensures exactly_once { result ≡ Status.Done → IfSome (S.left source.old) (λ text.
        IsExactRun json (kept_of with (map (λ b. automaton b) nemeses.items)) text (K.held sink.old) (K.held sink.new)) }
    // And what else holds of the machine behind that run, whatever the nemeses did.
    ensures laws { IfSome (S.left source.old) (λ text.
        RunsByLaws (kept_of with (map (λ b. automaton b) nemeses.items)) text) }
    // What is written under each status, also where the source doesn't tell what it gives.
    ensures wrote { Wrote result (K.held sink.old) (K.held sink.new) }
    // Done comes only once the source was read to its end.
    ensures done { result ≡ Status.Done →
        IfSome (S.left source.old) (λ _. S.left source.new ≡ Some []) }
    // Faults have a cause.
    ensures read { result ≡ Status.ReadFault → CountRose (S.faults source.old) (S.faults source.new) }
    ensures write { result ≡ Status.WriteFault → CountRose (K.faults sink.old) (K.faults sink.new) }
{
    if !is_handed(with, nemeses.len()) {
        drop(nemeses);
        return write_usage(sink);
    }
    match keep(alloc, with, nemeses) {
        Ok(kept) => run_kept::<C, R, S, K>(rt, alloc, kept, json, source, sink),
        Err(_) => Status::Memory,
    }
}

/// Reads the text of a plan from a source, runs the plan, and writes the line of each event and the report to a sink.
///
/// The words stand without the program's name, and are accepted where they are `run` with `--with I` and `--json` in any order,
/// each at most once, and I is `all` or the number of a nemesis that is handed in; otherwise the usage line is written, and the
/// source is left alone. Without `--with` all nemeses are dropped unused; with `all` each is asked behind each event, and with a
/// number that one alone. The source is read whole, up to 1,048,576 bytes. The status is then `Done`, with exactly the lines of
/// the run and its report, as lines or with `--json` as one line of JSON, where the text spells a plan; else `Refused`, with the
/// line and the kind for which [`parse_plan`](plan_lang::parse_plan) refuses it, and the line that says so. `ReadFault` and
/// `WriteFault` come only where that device failed in this call. What the sink held before stays, and behind it stands what was
/// written, line by line as the run goes: under `WriteFault` and `Memory` a prefix of what was due, under `ReadFault` nothing.
pub fn run_top<C: PlanCluster + Drop, R: Threads + Sync, S: Source, K: Sink>(
    rt: &R,
    alloc: Global,
    words: &[String],
    source: &mut S,
    sink: &mut K,
    nemeses: Vec<Box<dyn Nemesis + Send>>,
) -> Status
    requires few { vec_len nemeses ≤ 16 }
    // Other words: the usage line, but for a fault of the sink or want of memory. The source is left alone.
    ensures usage { asked (vec_len nemeses) (map string_bytes words.now) ≡ None →
        Meets result usage (K.held sink.old) (K.held sink.new)
        × (result ≢ Status.ReadFault) × (source.new ≡ source.old) }
    // Words that ask for a run: what is due on the text that the source gives, likewise.
    ensures run { IfSome (asked (vec_len nemeses) (map string_bytes words.now)) (λ a.
        (result ≢ Status.Usage) × IfSome (S.left source.old) (λ text.
        Meets result (run_due a.1 (kept_of a.0 (map (λ b. automaton b) nemeses.items)) text) (K.held sink.old) (K.held sink.new))) }
    // **Exactly once.** Done says that what was written is the run of the plan that was read, with its report; and that the
    // report is the one of the failure-free execution of its own turns.
    ensures exactly_once { result ≡ Status.Done →
        IfSome (asked (vec_len nemeses) (map string_bytes words.now)) (λ a. IfSome (S.left source.old) (λ text.
        IsExactRun a.1 (kept_of a.0 (map (λ b. automaton b) nemeses.items)) text (K.held sink.old) (K.held sink.new))) }
    // And what else holds of the machine behind that run, whatever the nemeses did.
    ensures laws { IfSome (asked (vec_len nemeses) (map string_bytes words.now)) (λ a. IfSome (S.left source.old) (λ text.
        RunsByLaws (kept_of a.0 (map (λ b. automaton b) nemeses.items)) text)) }
    // What is written under each status, also where the source doesn't tell what it gives.
    ensures wrote { Wrote result (K.held sink.old) (K.held sink.new) }
    // Done comes only once the source was read to its end.
    ensures done { result ≡ Status.Done →
        IfSome (S.left source.old) (λ _. S.left source.new ≡ Some []) }
    // Faults have a cause.
    ensures read { result ≡ Status.ReadFault → CountRose (S.faults source.old) (S.faults source.new) }
    ensures write { result ≡ Status.WriteFault → CountRose (K.faults sink.old) (K.faults sink.new) }
{
    let Ok(asked) = read_words(alloc, words) else {
        drop(nemeses);
        return Status::Memory;
    };
    match asked {
        Some((with, json)) => {
            run_source::<C, R, S, K>(rt, alloc, with, json, source, sink, nemeses)
        }
        None => {
            drop(nemeses);
            write_usage(sink)
        }
    }
}
