//! An attempt that has adopted nothing yet.
ghost use Rattle.std.specs.Prelude.{◌≡◌, option_map, OnErr, IfOk};
ghost use Rattle.boki_model.specs.Reads.{nth};
ghost use Rattle.boki_model.specs.Bodies.{step_tag};
ghost use Rattle.book_api.specs.Books.{HasEngine};
ghost use Rattle.step_log.specs.Sound.{view};
ghost use Rattle.boki_flow.specs.Arms.{CanFlowIf, MovesBy, CutShortBy};
ghost use Rattle.boki_flow.specs.Arms.{IsCalledBy, init_move, adopts_init};

use crate::caches::mode_at;
use attempt_log::send_init;
use attempt_state::AttemptState;
use boki_types::{Call, Program, StepLine};
use flow_parts::Parts;
use lb_base::{Memory, Seqnum};
use std::alloc::Global;
use step_log::at as record_at;

/// It adopts the Init of its invocation, waits for the one that it has sent, or sends one.
pub(crate) fn step_init(
    alloc: Global,
    program: &Program,
    parts: &mut Parts,
    state: &mut AttemptState,
    call: &Call,
) -> Result<StepLine, Memory>
    requires { CanFlowIf (IsCalledBy parts.old call.now) program.now.functions parts.old state.old }
    ensures ok { IfOk result (MovesBy (IsCalledBy parts.old call.now)
        (init_move program.now.functions parts.old call.now)
        program.now.functions parts.old parts.new state.old state.new) }
    ensures err { OnErr result (state.new ≡ state.old) }
    ensures cut { OnErr result (CutShortBy (IsCalledBy parts.old call.now)
        (init_move program.now.functions parts.old call.now)
        program.now.functions parts.old parts.new state.old) }
{
    match init_at(alloc, parts, state)? {
        Some(seq) => adopt_init(alloc, program, parts, state, call, seq),
        None => {
            if state.progress.waiting {
                Ok(StepLine::WaitsRecord)
            } else {
                send_init(alloc, &mut parts.book, &mut state.progress)
            }
        }
    }
}

/// The seqnum of the first record of the attempt's step log, where its engine sees one.
fn init_at(alloc: Global, parts: &Parts, state: &AttemptState) -> Result<Option<Seqnum>, Memory>
    requires { HasEngine state.now.progress.engine parts.now.book }
    ensures { IfOk result (λ found. option_map (λ s. s.0) found
        ≡ option_map (λ x. x.seq) (nth (step_tag state.now.progress.path) 0
        (view parts.now.book state.now.progress.engine))) }
{
    let at = &state.progress;
    match record_at(alloc, &parts.book, at.engine, at.path, 0)? {
        Some((seq, body)) => {
            drop(body);
            Ok(Some(seq))
        }
        None => Ok(None),
    }
}

/// It adopts the Init at a seqnum.
fn adopt_init(
    alloc: Global,
    program: &Program,
    parts: &mut Parts,
    state: &mut AttemptState,
    call: &Call,
    seq: Seqnum,
) -> Result<StepLine, Memory>
    requires { CanFlowIf (IsCalledBy parts.old call.now) program.now.functions parts.old state.old }
    ensures ok { IfOk result (MovesBy (IsCalledBy parts.old call.now)
        (adopts_init program.now.functions parts.old call.now seq.0)
        program.now.functions parts.old parts.new state.old state.new) }
    ensures err { OnErr result (state.new ≡ state.old) }
    ensures cut { OnErr result (CutShortBy (IsCalledBy parts.old call.now)
        (adopts_init program.now.functions parts.old call.now seq.0)
        program.now.functions parts.old parts.new state.old) }
{
    let mode = mode_at(parts, state.progress.engine, seq)?;
    state.begin(alloc, program, seq, mode, call)?;
    Ok(StepLine::AdoptInit(seq, mode))
}
