//! The top call of the command `judge`.

ghost use Rattle.std.specs.Prelude.{◌≡◌, ◌≢◌, [], Some, true, false, map, string_bytes, IfSome};
ghost use Rattle.lb_base.specs.Devices.{CountRose};
ghost use Rattle.call_base.specs.Due.{Meets, Wrote, usage};
ghost use Rattle.judge_agrees.specs.Judged.{judge_due};
ghost use Rattle.judge_call.specs.Words.{is_judge};

use crate::turns::judged_text;
use crate::words::accepts_judge;
use call_base::{Status, read_text, refuse, write_usage, write_whole};
use lb_base::{Sink, Source};
use plan_lang::PlanFault;
use std::alloc::Global;

/// Writes the report of the turns that a text spells, or why there is none.
fn judge_text<K: Sink>(alloc: Global, text: Vec<u8>, sink: &mut K) -> Status
    ensures meets { Meets result (judge_due text.items) (K.held sink.old) (K.held sink.new) }
    ensures wrote { Wrote result (K.held sink.old) (K.held sink.new) }
    ensures other { (result ≢ Status.ReadFault) × (result ≢ Status.Usage) }
    ensures write { result ≡ Status.WriteFault → CountRose (K.faults sink.old) (K.faults sink.new) }
{
    match judged_text(alloc, text) {
        Ok(report) => write_whole(report.as_bytes(), sink),
        Err(PlanFault::Refused { line, kind }) => refuse(alloc, line, kind, sink),
        Err(PlanFault::Memory) => Status::Memory,
    }
}

/// What [`judge_top`] does once its words are accepted.
pub fn judge_source<S: Source, K: Sink>(alloc: Global, source: &mut S, sink: &mut K) -> Status
    // What is due on the text that the source gives.
    ensures judge { IfSome (S.left source.old) (λ text.
        Meets result (judge_due text) (K.held sink.old) (K.held sink.new)) }
    ensures other { result ≢ Status.Usage }
    // What is written under each status, also where the source doesn't tell what it gives.
    ensures wrote { Wrote result (K.held sink.old) (K.held sink.new) }
    // Done comes only once the source was read to its end.
    ensures done { result ≡ Status.Done →
        IfSome (S.left source.old) (λ _. S.left source.new ≡ Some []) }
    // Faults have a cause.
    ensures read { result ≡ Status.ReadFault → CountRose (S.faults source.old) (S.faults source.new) }
    ensures write { result ≡ Status.WriteFault → CountRose (K.faults sink.old) (K.faults sink.new) }
{
    match read_text(alloc, 16_777_216, source, sink) {
        Ok(text) => judge_text(alloc, text, sink),
        Err(status) => status,
    }
}

/// Reads a text of turns from a source, does the turns one after another, and writes the report of what they come to to a sink.
///
/// The words stand without the program's name, and are accepted where they are exactly `judge`; otherwise the usage line is
/// written, and the source is left alone. The source is read whole, up to 16,777,216 bytes. The turns are done by the
/// failure-free execution, which has no log, attempt or store. The status is `Done`, with exactly the report behind the last
/// turn, where the text spells turns and each of them can be done; else `Refused`, with the line that says so: with the line
/// and the kind for which [`parse_turns`](plan_lang::parse_turns) refuses the text, a text of more bytes with line 0 and
/// `Length`, or with the line of the first turn that can't be done and `Illegal`. `ReadFault` and `WriteFault` come only where
/// that device failed in this call. What the sink held before stays, and behind it stands what was written: under
/// `WriteFault` and `Memory` a prefix of what was due, under `ReadFault` nothing.
pub fn judge_top<S: Source, K: Sink>(
    alloc: Global,
    words: &[String],
    source: &mut S,
    sink: &mut K,
) -> Status
    // Other words: the usage line, but for a fault of the sink or want of memory. The source is left alone.
    ensures usage { is_judge (map string_bytes words.now) ≡ false →
        Meets result usage (K.held sink.old) (K.held sink.new)
        × (result ≢ Status.ReadFault) × (source.new ≡ source.old) }
    // The word `judge`: what is due on the text that the source gives, likewise.
    ensures judge { is_judge (map string_bytes words.now) ≡ true →
        (result ≢ Status.Usage) × IfSome (S.left source.old) (λ text.
        Meets result (judge_due text) (K.held sink.old) (K.held sink.new)) }
    // What is written under each status, also where the source doesn't tell what it gives.
    ensures wrote { is_judge (map string_bytes words.now) ≡ true →
        Wrote result (K.held sink.old) (K.held sink.new) }
    // Done comes only once the source was read to its end.
    ensures done { result ≡ Status.Done →
        IfSome (S.left source.old) (λ _. S.left source.new ≡ Some []) }
    // Faults have a cause.
    ensures read { result ≡ Status.ReadFault → CountRose (S.faults source.old) (S.faults source.new) }
    ensures write { result ≡ Status.WriteFault → CountRose (K.faults sink.old) (K.faults sink.new) }
{
    let Ok(accepted) = accepts_judge(alloc, words) else {
        return Status::Memory;
    };
    if accepted {
        judge_source(alloc, source, sink)
    } else {
        write_usage(sink)
    }
}
