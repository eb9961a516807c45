//! Plans, written in their canonical text.

ghost use Rattle.std.specs.Prelude.{◌≡◌, ◌≢◌};
ghost use Rattle.lb_base.specs.Devices.{CountRose};
ghost use Rattle.call_base.specs.Due.{Meets, Wrote};
ghost use Rattle.check_call.specs.Plans.{printed};

use boki_types::Plan;
use call_base::{Status, write_whole};
use lb_base::Sink;
use plan_lang::print_plan;
use std::alloc::Global;

/// Writes the canonical text of a plan.
pub fn write_plan<K: Sink>(alloc: Global, plan: &Plan, sink: &mut K) -> Status
    ensures meets { Meets result (printed plan.now) (K.held sink.old) (K.held sink.new) }
    ensures wrote { Wrote result (K.held sink.old) (K.held sink.new) }
    ensures other { (result ≢ Status.ReadFault) × (result ≢ Status.Usage) }
    ensures write { result ≡ Status.WriteFault → CountRose (K.faults sink.old) (K.faults sink.new) }
{
    match print_plan(alloc, plan) {
        Ok(text) => write_whole(text.as_bytes(), sink),
        Err(_) => Status::Memory,
    }
}
