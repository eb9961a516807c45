//! The text that a call reads from its source.

ghost use Rattle.std.specs.Prelude.{◌≡◌, ◌≢◌, List, ℕ, [], Some, IfSome, IfOk, IfErr, OnOk, IsErrOf};
ghost use Rattle.lb_base.specs.Devices.{Appends, CountRose};
ghost use Rattle.call_base.specs.Due.{Due, Meets, Wrote, within};

use crate::status::Status;
use crate::writing::refuse;
use boki_types::Kind;
use lb_base::{ReadAll, Sink, Source, read_all};
use std::alloc::Global;

/// The whole text of a source, of at most `limit` bytes; or the status with which the call ends, since there is none.
///
/// A longer text is refused with line 0 and `Length`, and the line that says so is written. `ReadFault` and `WriteFault` come only
/// where that device failed in this call. The status is right whatever was due on a text within the limit.
pub fn read_text<S: Source, K: Sink>(
    alloc: Global,
    limit: usize,
    source: &mut S,
    sink: &mut K,
) -> Result<Vec<u8>, Status>
    // The text, read to its end, with nothing written.
    ensures whole { IfOk result (λ v. IfSome (S.left source.old) (λ text.
        (v.items ≡ text) × (S.left source.new ≡ Some []))) }
    ensures unwritten { OnOk result (sink.new ≡ sink.old) }
    // No text, so that a call ends with this status.
    ensures ended { IfErr result (λ s. IfSome (S.left source.old) (λ text.
        (d : List ℕ → Due) → Meets s (within limit d text) (K.held sink.old) (K.held sink.new))) }
    ensures wrote { IfErr result (λ s. Wrote s (K.held sink.old) (K.held sink.new)) }
    ensures other { IfErr result (λ s. (s ≢ Status.Done) × (s ≢ Status.Usage)) }
    ensures read { IsErrOf result Status.ReadFault →
        CountRose (S.faults source.old) (S.faults source.new) }
    ensures write { IsErrOf result Status.WriteFault →
        CountRose (K.faults sink.old) (K.faults sink.new) }
{
    match read_all(alloc, source, limit) {
        Ok(text) => Ok(text),
        Err(ReadAll::TooLong) => Err(refuse(alloc, 0, Kind::Length, sink)),
        Err(ReadAll::Fault) => Err(Status::ReadFault),
        Err(ReadAll::Memory) => Err(Status::Memory),
    }
}
