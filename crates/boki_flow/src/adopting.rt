//! An attempt adopts the record at its place.
ghost use Rattle.std.specs.Prelude.{◌≡◌, OnErr, IfOk};
ghost use Rattle.boki_types.specs.declared.operation.Op.TheVariants as o;
ghost use Rattle.boki_flow.specs.Arms.{FindsAnswer, AdoptsBody, AsksMarked, CanFlowIf, MovesBy, CutShortBy};
ghost use Rattle.boki_flow.specs.Arms.{next_move, adopting_move, marked_move, group_move};

use crate::answering::{answer_push, answer_spawn, answer_write};
use crate::taking::{adopt_begin, adopt_commit, adopt_join, adopt_pop};
use attempt_state::AttemptState;
use attempt_store::{adopt_group, adopt_read};
use boki_types::{Body, Program, StepLine};
use flow_parts::Parts;
use lb_base::{List, Memory, Seqnum, Words};
use std::alloc::Global;
use step_log::at as record_at;

/// It adopts the record at its place, which is of the operation that its script asks.
pub(crate) fn adopt(
    alloc: Global,
    program: &Program,
    parts: &mut Parts,
    state: &mut AttemptState,
) -> Result<StepLine, Memory>
    requires { CanFlowIf (FindsAnswer program.now.functions parts.old) program.now.functions parts.old state.old }
    ensures ok { IfOk result (MovesBy (FindsAnswer program.now.functions parts.old)
        (next_move program.now.functions parts.old) program.now.functions parts.old parts.new state.old state.new) }
    ensures err { OnErr result (state.new ≡ state.old) }
    ensures cut { OnErr result (CutShortBy (FindsAnswer program.now.functions parts.old)
        (next_move program.now.functions parts.old) program.now.functions parts.old parts.new state.old) }
{
    let at = state.progress;
    match record_at(alloc, &parts.book, at.engine, at.path, at.place)? {
        Some((seq, body)) => {
            let line = adopt_body(alloc, program, parts, state, seq, &body);
            drop(body);
            line
        }
        None => Ok(StepLine::WaitsRecord),
    }
}

/// It adopts a record that says this at a seqnum.
fn adopt_body(
    alloc: Global,
    program: &Program,
    parts: &mut Parts,
    state: &mut AttemptState,
    seq: Seqnum,
    body: &Body,
) -> Result<StepLine, Memory>
    requires { CanFlowIf (AdoptsBody program.now.functions parts.old seq.0 body.now) program.now.functions parts.old state.old }
    ensures ok { IfOk result (MovesBy (AdoptsBody program.now.functions parts.old seq.0 body.now)
        (adopting_move parts.old seq.0 body.now) program.now.functions parts.old parts.new state.old state.new) }
    ensures err { OnErr result (state.new ≡ state.old) }
    ensures cut { OnErr result (CutShortBy (AdoptsBody program.now.functions parts.old seq.0 body.now)
        (adopting_move parts.old seq.0 body.now) program.now.functions parts.old parts.new state.old) }
{
    let changed = state.progress.adopted(seq)?;
    match body {
        Body::Read { key, .. } => adopt_marker(alloc, program, parts, state, seq, key),
        Body::ReadGroup { keys, .. } => adopt_markers(alloc, program, parts, state, seq, keys),
        Body::Write { key, .. } => answer_write(alloc, program, state, changed, key),
        Body::Spawn { path, ordinal, .. } => {
            answer_spawn(alloc, program, state, changed, *path, *ordinal as u32)
        }
        Body::Join { ordinal, .. } => {
            adopt_join(alloc, program, parts, state, changed, *ordinal as u32)
        }
        Body::Push { queue, .. } => answer_push(alloc, program, state, changed, queue),
        Body::Pop { queue, .. } => adopt_pop(alloc, program, parts, state, changed, queue),
        Body::TxnBegin { names, .. } => adopt_begin(alloc, program, parts, state, changed, names),
        Body::TxnCommit { .. } => adopt_commit(alloc, program, parts, state, changed),
        _ => Ok(StepLine::WaitsRecord),
    }
}

/// A marker of an object makes its fenced read.
fn adopt_marker(
    alloc: Global,
    program: &Program,
    parts: &mut Parts,
    state: &mut AttemptState,
    seq: Seqnum,
    key: &Words,
) -> Result<StepLine, Memory>
    requires { CanFlowIf (AsksMarked program.now.functions parts.old (o.Read key.now) seq.0) program.now.functions parts.old state.old }
    ensures ok { IfOk result (MovesBy (AsksMarked program.now.functions parts.old (o.Read key.now) seq.0)
        (marked_move parts.old seq.0 key.now) program.now.functions parts.old parts.new state.old state.new) }
    ensures err { OnErr result (state.new ≡ state.old) }
    ensures cut { OnErr result (CutShortBy (AsksMarked program.now.functions parts.old (o.Read key.now) seq.0)
        (marked_move parts.old seq.0 key.now) program.now.functions parts.old parts.new state.old) }
{
    adopt_read(
        alloc,
        program,
        &parts.book,
        &mut parts.store,
        state,
        seq,
        key,
    )
}

/// The same of a marker of several objects.
fn adopt_markers(
    alloc: Global,
    program: &Program,
    parts: &mut Parts,
    state: &mut AttemptState,
    seq: Seqnum,
    keys: &List<Words>,
) -> Result<StepLine, Memory>
    requires { CanFlowIf (AsksMarked program.now.functions parts.old (o.ReadGroup keys.now) seq.0) program.now.functions parts.old state.old }
    ensures ok { IfOk result (MovesBy (AsksMarked program.now.functions parts.old (o.ReadGroup keys.now) seq.0)
        (group_move parts.old seq.0 keys.now) program.now.functions parts.old parts.new state.old state.new) }
    ensures err { OnErr result (state.new ≡ state.old) }
    ensures cut { OnErr result (CutShortBy (AsksMarked program.now.functions parts.old (o.ReadGroup keys.now) seq.0)
        (group_move parts.old seq.0 keys.now) program.now.functions parts.old parts.new state.old) }
{
    adopt_group(
        alloc,
        program,
        &parts.book,
        &mut parts.store,
        state,
        seq,
        keys,
    )
}
