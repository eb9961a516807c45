//! The top call of the command `check`.

ghost use Rattle.std.specs.Prelude.{◌≡◌, ◌≢◌, [], Some, true, false, map, string_bytes, IfSome};
ghost use Rattle.lb_base.specs.Devices.{CountRose};
ghost use Rattle.call_base.specs.Due.{Meets, Wrote, usage};
ghost use Rattle.check_call.specs.Plans.{check_due};
ghost use Rattle.check_call.specs.Words.{is_check};

use crate::plans::write_plan;
use crate::words::accepts_check;
use call_base::{Status, read_text, refuse, write_usage};
use lb_base::{Sink, Source};
use plan_lang::{PlanFault, parse_plan};
use std::alloc::Global;

/// Writes the plan that a text spells, or why it spells none.
fn check_text<K: Sink>(alloc: Global, text: &[u8], sink: &mut K) -> Status
    ensures meets { Meets result (check_due text.now) (K.held sink.old) (K.held sink.new) }
    ensures wrote { Wrote result (K.held sink.old) (K.held sink.new) }
    ensures other { (result ≢ Status.ReadFault) × (result ≢ Status.Usage) }
    ensures write { result ≡ Status.WriteFault → CountRose (K.faults sink.old) (K.faults sink.new) }
{
    match parse_plan(alloc, text) {
        Ok(plan) => write_plan(alloc, &plan, sink),
        Err(PlanFault::Refused { line, kind }) => refuse(alloc, line, kind, sink),
        Err(PlanFault::Memory) => Status::Memory,
    }
}

/// What [`check_top`] does once its words are accepted.
pub fn check_source<S: Source, K: Sink>(alloc: Global, source: &mut S, sink: &mut K) -> Status
    // What is due on the text that the source gives.
    ensures check { IfSome (S.left source.old) (λ text.
        Meets result (check_due text) (K.held sink.old) (K.held sink.new)) }
    ensures other { result ≢ Status.Usage }
    // What is written under each status, also where the source doesn't tell what it gives.
    ensures wrote { Wrote result (K.held sink.old) (K.held sink.new) }
    // Done comes only once the source was read to its end.
    ensures done { result ≡ Status.Done →
        IfSome (S.left source.old) (λ _. S.left source.new ≡ Some []) }
    // Faults have a cause.
    ensures read { result ≡ Status.ReadFault → CountRose (S.faults source.old) (S.faults source.new) }
    ensures write { result ≡ Status.WriteFault → CountRose (K.faults sink.old) (K.faults sink.new) }
{
    match read_text(alloc, 1_048_576, source, sink) {
        Ok(text) => check_text(alloc, &text, sink),
        Err(status) => status,
    }
}

/// Reads the text of a plan from a source, and writes the plan in its canonical text to a sink.
///
/// The words stand without the program's name, and are accepted where they are exactly `check`; otherwise the usage line is
/// written, and the source is left alone. The source is read whole, up to 1,048,576 bytes. The status is then `Done`, with
/// exactly the canonical text of the plan that the text spells, where it spells one; else `Refused`, with the line and the kind
/// for which [`parse_plan`](plan_lang::parse_plan) refuses it, and the line that says so; a text of more bytes is refused with
/// line 0 and `Length`. `ReadFault` and `WriteFault` come only where that device failed in this call. What the sink held before
/// stays, and behind it stands what was written: under `WriteFault` and `Memory` a prefix of what was due, under `ReadFault`
/// nothing.
pub fn check_top<S: Source, K: Sink>(
    alloc: Global,
    words: &[String],
    source: &mut S,
    sink: &mut K,
) -> Status
    // Other words: the usage line, but for a fault of the sink or want of memory. The source is left alone.
    ensures usage { is_check (map string_bytes words.now) ≡ false →
        Meets result usage (K.held sink.old) (K.held sink.new)
        × (result ≢ Status.ReadFault) × (source.new ≡ source.old) }
    // The word `check`: what is due on the text that the source gives, likewise.
    ensures check { is_check (map string_bytes words.now) ≡ true →
        (result ≢ Status.Usage) × IfSome (S.left source.old) (λ text.
        Meets result (check_due text) (K.held sink.old) (K.held sink.new)) }
    // What is written under each status, also where the source doesn't tell what it gives.
    ensures wrote { is_check (map string_bytes words.now) ≡ true →
        Wrote result (K.held sink.old) (K.held sink.new) }
    // Done comes only once the source was read to its end.
    ensures done { result ≡ Status.Done →
        IfSome (S.left source.old) (λ _. S.left source.new ≡ Some []) }
    // Faults have a cause.
    ensures read { result ≡ Status.ReadFault → CountRose (S.faults source.old) (S.faults source.new) }
    ensures write { result ≡ Status.WriteFault → CountRose (K.faults sink.old) (K.faults sink.new) }
{
    let Ok(accepted) = accepts_check(alloc, words) else {
        return Status::Memory;
    };
    if accepted {
        check_source(alloc, source, sink)
    } else {
        write_usage(sink)
    }
}
