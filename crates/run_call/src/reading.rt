//! The plan that a run reads.

ghost use Rattle.std.specs.Prelude.{◌≡◌, ◌≢◌, [], Some, true, IfErr, IfOk, IfSome, IsErrOf, OnOk};
ghost use Rattle.lb_base.specs.Devices.{CountRose};
ghost use Rattle.boki_types.specs.declared.plan.Plan.{Plan};
ghost use Rattle.boki_model.specs.Plans.{is_plan};
ghost use Rattle.plan_lang.specs.Texts.{plan_of};
ghost use Rattle.call_base.specs.Due.{Due, Meets, Wrote, due_by};

use boki_types::Plan;
use call_base::{Status, read_text, refuse};
use lb_base::{Sink, Source};
use plan_lang::laws::parsed_plan_is_valid;
use plan_lang::{PlanFault, parse_plan};
use std::alloc::Global;

/// The plan that a text spells; or the status with which the call ends, since there is none.
fn plan_in<K: Sink>(alloc: Global, text: &[u8], sink: &mut K) -> Result<Plan, Status>
    ensures plan { IfOk result (λ p. plan_of text.now ≡ Ok p) }
    ensures valid { IfOk result (λ p. is_plan p ≡ true) }
    ensures unwritten { OnOk result (sink.new ≡ sink.old) }
    ensures ended { IfErr result (λ s. (f : Plan → Due) →
        Meets s (due_by f (plan_of text.now)) (K.held sink.old) (K.held sink.new)) }
    ensures wrote { IfErr result (λ s. Wrote s (K.held sink.old) (K.held sink.new)) }
    ensures other { IfErr result (λ s. (s ≢ Status.Done) × (s ≢ Status.Usage) × (s ≢ Status.ReadFault)) }
    ensures write { IsErrOf result Status.WriteFault →
        CountRose (K.faults sink.old) (K.faults sink.new) }
{
    parsed_plan_is_valid();
    match parse_plan(alloc, text) {
        Ok(plan) => Ok(plan),
        Err(PlanFault::Refused { line, kind }) => Err(refuse(alloc, line, kind, sink)),
        Err(PlanFault::Memory) => Err(Status::Memory),
    }
}

/// The plan that a source gives; or the status with which the call ends, since there is none.
///
/// The source is read whole, up to 1,048,576 bytes. A refused text was answered with the line that says so. The status is right
/// whatever was due on a plan.
pub(crate) fn read_plan<S: Source, K: Sink>(
    alloc: Global,
    source: &mut S,
    sink: &mut K,
) -> Result<Plan, Status>
    // The plan, with the text read to its end and nothing written.
    ensures plan { IfOk result (λ p. IfSome (S.left source.old) (λ text.
        (plan_of text ≡ Ok p) × (S.left source.new ≡ Some []))) }
    ensures valid { IfOk result (λ p. is_plan p ≡ true) }
    ensures unwritten { OnOk result (sink.new ≡ sink.old) }
    // No plan, so that a call ends with this status.
    ensures ended { IfErr result (λ s. IfSome (S.left source.old) (λ text. (f : Plan → Due) →
        Meets s (due_by f (plan_of text)) (K.held sink.old) (K.held sink.new))) }
    ensures wrote { IfErr result (λ s. Wrote s (K.held sink.old) (K.held sink.new)) }
    ensures other { IfErr result (λ s. (s ≢ Status.Done) × (s ≢ Status.Usage)) }
    ensures read { IsErrOf result Status.ReadFault →
        CountRose (S.faults source.old) (S.faults source.new) }
    ensures write { IsErrOf result Status.WriteFault →
        CountRose (K.faults sink.old) (K.faults sink.new) }
{
    match read_text(alloc, 1_048_576, source, sink) {
        Ok(text) => plan_in(alloc, &text, sink),
        Err(status) => Err(status),
    }
}
