//! The top call of the command `live`.

ghost use Rattle.std.specs.Prelude.{◌≡◌, ◌≢◌, ◌≤◌, [], Some, true, false, map, string_bytes, IfOk, IfSome};
ghost use Rattle.lb_base.specs.Devices.{CountRose};
ghost use Rattle.call_base.specs.Due.{Meets, Wrote, usage};
ghost use Rattle.live_text.specs.Printed.{IsOutputOf};
ghost use Rattle.live_call.specs.Live.{MeetsLive, MeetsOutput};
ghost use Rattle.live_call.specs.Words.{is_live};

use crate::words::accepts_live;
use call_base::{Status, read_text, refuse, write_usage, write_whole};
use engine_gate::NoGate;
use lb_base::{Memory, Sink, Source, Words};
use line_text::TextFault;
use live_text::{LiveText, parse_live, print_ran};
use live_work::run_live;
use std::alloc::Global;
use std::sync::Wait;
use std::thread::Threads;

/// The output of a run of a live text of 1 to 16 workers.
fn output_of<R: Threads + Wait + Sync>(
    rt: &R,
    alloc: Global,
    text: &LiveText,
) -> Result<Words, Memory>
    requires { (1 ≤ text.now.workers) × (text.now.workers ≤ 16) }
    ensures { IfOk result (IsOutputOf text.now) }
{
    let ran = run_live(rt, alloc, text, &NoGate)?;
    print_ran(alloc, &ran)
}

/// Runs a live text, and writes what it comes to.
fn write_live<K: Sink, R: Threads + Wait + Sync>(
    rt: &R,
    alloc: Global,
    text: &LiveText,
    sink: &mut K,
) -> Status
    requires { (1 ≤ text.now.workers) × (text.now.workers ≤ 16) }
    ensures meets { MeetsOutput result text.now (K.held sink.old) (K.held sink.new) }
    ensures wrote { Wrote result (K.held sink.old) (K.held sink.new) }
    ensures other { (result ≢ Status.ReadFault) × (result ≢ Status.Usage) }
    ensures write { result ≡ Status.WriteFault → CountRose (K.faults sink.old) (K.faults sink.new) }
{
    match output_of(rt, alloc, text) {
        Ok(output) => write_whole(output.as_bytes(), sink),
        Err(_) => Status::Memory,
    }
}

/// Writes what the live text that a text spells comes to, or why it spells none.
fn run_text<K: Sink, R: Threads + Wait + Sync>(
    rt: &R,
    alloc: Global,
    text: &[u8],
    sink: &mut K,
) -> Status
    ensures meets { MeetsLive result text.now (K.held sink.old) (K.held sink.new) }
    ensures wrote { Wrote result (K.held sink.old) (K.held sink.new) }
    ensures other { (result ≢ Status.ReadFault) × (result ≢ Status.Usage) }
    ensures write { result ≡ Status.WriteFault → CountRose (K.faults sink.old) (K.faults sink.new) }
{
    match parse_live(alloc, text) {
        Ok(text) => write_live(rt, alloc, &text, sink),
        Err(TextFault::Refused { line, kind }) => refuse(alloc, line, kind, sink),
        Err(TextFault::Memory) => Status::Memory,
    }
}

/// What [`live_top`] does once its words are accepted.
pub fn live_source<S: Source, K: Sink, R: Threads + Wait + Sync>(
    rt: &R,
    alloc: Global,
    source: &mut S,
    sink: &mut K,
) -> Status
    // What is due on the text that the source gives.
    ensures live { IfSome (S.left source.old) (λ text.
        MeetsLive result text (K.held sink.old) (K.held sink.new)) }
    ensures other { result ≢ Status.Usage }
    // What is written under each status, also where the source doesn't tell what it gives.
    ensures wrote { Wrote result (K.held sink.old) (K.held sink.new) }
    // Done comes only once the source was read to its end.
    ensures done { result ≡ Status.Done →
        IfSome (S.left source.old) (λ _. S.left source.new ≡ Some []) }
    // Faults have a cause.
    ensures read { result ≡ Status.ReadFault → CountRose (S.faults source.old) (S.faults source.new) }
    ensures write { result ≡ Status.WriteFault → CountRose (K.faults sink.old) (K.faults sink.new) }
{
    match read_text(alloc, 1_048_576, source, sink) {
        Ok(text) => run_text(rt, alloc, &text, sink),
        Err(status) => status,
    }
}

/// Reads a live text from a source, lets its workers do their lines on a log that they share, each in a thread where one can be had, and
/// writes the list and their answers to a sink. It may wait.
///
/// The words stand without the program's name, and are accepted where they are exactly `live`; otherwise the usage line is
/// written, and the source is left alone. The source is read whole, up to 1,048,576 bytes. The status is `Done`, with an output that is
/// right for the text, where the text spells a live text; else `Refused`, with the line and the kind for which
/// [`parse_live`](live_text::parse_live) refuses it, and the line that says so; a text of more bytes is refused with line 0 and
/// `Length`. `ReadFault` and `WriteFault` come only where that device failed in this call. What the sink held before stays, and behind
/// it stands what was written: under `WriteFault` and `Memory` a prefix of an output that is right, under `ReadFault` nothing.
pub fn live_top<S: Source, K: Sink, R: Threads + Wait + Sync>(
    rt: &R,
    alloc: Global,
    words: &[String],
    source: &mut S,
    sink: &mut K,
) -> Status
    // Other words: the usage line, but for a fault of the sink or want of memory. The source is left alone.
    ensures usage { is_live (map string_bytes words.now) ≡ false →
        Meets result usage (K.held sink.old) (K.held sink.new)
        × (result ≢ Status.ReadFault) × (source.new ≡ source.old) }
    // The word `live`: what is due on the text that the source gives, likewise.
    ensures live { is_live (map string_bytes words.now) ≡ true →
        (result ≢ Status.Usage) × IfSome (S.left source.old) (λ text.
        MeetsLive result text (K.held sink.old) (K.held sink.new)) }
    // What is written under each status, also where the source doesn't tell what it gives.
    ensures wrote { is_live (map string_bytes words.now) ≡ true →
        Wrote result (K.held sink.old) (K.held sink.new) }
    // Done comes only once the source was read to its end.
    ensures done { result ≡ Status.Done →
        IfSome (S.left source.old) (λ _. S.left source.new ≡ Some []) }
    // Faults have a cause.
    ensures read { result ≡ Status.ReadFault → CountRose (S.faults source.old) (S.faults source.new) }
    ensures write { result ≡ Status.WriteFault → CountRose (K.faults sink.old) (K.faults sink.new) }
{
    let Ok(accepted) = accepts_live(alloc, words) else {
        return Status::Memory;
    };
    if accepted {
        live_source(rt, alloc, source, sink)
    } else {
        write_usage(sink)
    }
}
