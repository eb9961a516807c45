//! What the calls of the program write: the usage line, the line of a refusal, and whole texts.

ghost use Rattle.std.specs.Prelude.{◌≡◌, ◌≢◌, ◌<◌, ◌≤◌, ◌++◌, length, OnOk, OnErr, IsErrOf};
ghost use Rattle.lb_base.specs.Devices.{CountRose, Appends, AppendsPrefix};
ghost use Rattle.call_base.specs.Due.{Meets, Wrote, due, refusal, usage};

use crate::status::Status;
use boki_types::Kind;
use lb_base::{PutFault, Sink, write_line};
use std::alloc::Global;

/// Writes the usage line.
pub fn write_usage<K: Sink>(sink: &mut K) -> Status
    ensures meets { Meets result usage (K.held sink.old) (K.held sink.new) }
    ensures read { result ≢ Status.ReadFault }
    ensures write { result ≡ Status.WriteFault → CountRose (K.faults sink.old) (K.faults sink.new) }
{
    match write_line(
        sink,
        b"usage: boki run [--with I] [--json] | judge | check | make N [--plan] | live | flow | log | audit | mux\n",
    ) {
        Ok(()) => Status::Usage,
        Err(PutFault::Fault) => Status::WriteFault,
        Err(PutFault::Memory) => Status::Memory,
    }
}

/// Writes the line of a refusal.
pub fn refuse<K: Sink>(alloc: Global, line: u64, kind: Kind, sink: &mut K) -> Status
    ensures meets { Meets result (refusal line kind) (K.held sink.old) (K.held sink.new) }
    ensures wrote { Wrote result (K.held sink.old) (K.held sink.new) }
    ensures other { (result ≢ Status.ReadFault) × (result ≢ Status.Usage) }
    ensures write { result ≡ Status.WriteFault → CountRose (K.faults sink.old) (K.faults sink.new) }
{
    let Ok(text) = format!(in alloc; "refused {line} {kind}\n") else {
        return Status::Memory;
    };
    match write_line(sink, text.as_str().as_bytes()) {
        Ok(()) => Status::Refused { line, kind },
        Err(PutFault::Fault) => Status::WriteFault,
        Err(PutFault::Memory) => Status::Memory,
    }
}

/// The first line of a text, with its line feed where it has one, and what follows it.
fn cut_line(text: &[u8]) -> (&[u8], &[u8])
    ensures whole { text.now ≡ result.0.now ++ result.1.now }
    ensures shorter { 0 < length text.now → length result.1.now < length text.now }
{
    for (i, c) in text.iter().enumerate() {
        if *c == b'\n' {
            return text.split_at(i + 1);
        }
    }
    text.split_at(text.len())
}

/// Writes a text line by line, each line with its line feed. After an error the sink took a prefix of the text.
pub fn write_text<K: Sink>(sink: &mut K, text: &[u8]) -> Result<(), PutFault>
    ensures ok { OnOk result (Appends (K.held sink.old) (K.held sink.new) text.now) }
    ensures err { OnErr result (AppendsPrefix (K.held sink.old) (K.held sink.new) text.now) }
    ensures fault { IsErrOf result PutFault.Fault → CountRose (K.faults sink.old) (K.faults sink.new) }
    ensures later { K.faults sink.old ≤ K.faults sink.new }
{
    let mut rest = text;
    'lines: while !rest.is_empty() {
        let (line, after) = cut_line(rest);
        write_line(sink, line)?;
        rest = after;
    }
    Ok(())
}

/// Writes a text that is all that is due.
pub fn write_whole<K: Sink>(text: &[u8], sink: &mut K) -> Status
    ensures meets { Meets result (due Status.Done text.now) (K.held sink.old) (K.held sink.new) }
    ensures wrote { Wrote result (K.held sink.old) (K.held sink.new) }
    ensures other { (result ≢ Status.ReadFault) × (result ≢ Status.Usage) }
    ensures write { result ≡ Status.WriteFault → CountRose (K.faults sink.old) (K.faults sink.new) }
{
    match write_text(sink, text) {
        Ok(()) => Status::Done,
        Err(PutFault::Fault) => Status::WriteFault,
        Err(PutFault::Memory) => Status::Memory,
    }
}
