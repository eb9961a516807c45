//! The plan of the generator, as a text.

ghost use Rattle.std.specs.Prelude.{◌≡◌, ◌≢◌, ◌≤◌};
ghost use Rattle.lb_base.specs.Devices.{CountRose};
ghost use Rattle.call_base.specs.Due.{Meets, Wrote};
ghost use Rattle.check_call.specs.Plans.{make_due};

use crate::plans::write_plan;
use call_base::Status;
use lb_base::Sink;
use plan_lang::make_plan;
use std::alloc::Global;

/// Writes the canonical text of the generator's plan of so many transfers, from 1 to 4,000, to a sink.
///
/// `WriteFault` comes only where the sink failed in this call; after it, and after `Memory`, a prefix of the text was written. What
/// the sink held before stays.
pub fn write_transfers<K: Sink>(alloc: Global, n: u32, sink: &mut K) -> Status
    requires some { 1 ≤ n }
    requires few { n ≤ 4000 }
    ensures meets { Meets result (make_due n) (K.held sink.old) (K.held sink.new) }
    ensures wrote { Wrote result (K.held sink.old) (K.held sink.new) }
    ensures other { (result ≢ Status.ReadFault) × (result ≢ Status.Usage) }
    ensures write { result ≡ Status.WriteFault → CountRose (K.faults sink.old) (K.faults sink.new) }
{
    match make_plan(alloc, n) {
        Ok(plan) => write_plan(alloc, &plan, sink),
        Err(_) => Status::Memory,
    }
}
