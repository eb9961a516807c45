//! The store call of an attempt's next step, whose answer is lost.
ghost use Rattle.std.specs.Prelude.{◌≡◌, ◌&&◌, ◌||◌, suc, [], ◌∷◌, OnErr, IfOk};
ghost use Rattle.boki_types.specs.declared.operation.Ask.TheVariants as k;
ghost use Rattle.boki_types.specs.declared.operation.Op.TheVariants as o;
ghost use Rattle.boki_model.specs.Writes.{put_at};
ghost use Rattle.boki_machine.specs.Step.{misses_record, misses_marker, misses_write, misses_put, is_new_engine, is_short_value};
ghost use Rattle.boki_flow.specs.Arms.{Always, Runs, HasBegun, FindsAnswer, ScriptAsks, SeesSeqnum, CanMissIf, MissesBy, MissCutShortBy, step_missed, running_missed, unended_missed, next_missed, asked_missed};

use crate::cases::is_answered;
use attempt_state::{AttemptState, is_inline};
use boki_types::{Answered, Ask, Body, GroupAnswer, Miss, Named, Op, Put};
use flow_parts::Parts;
use hm_write::{put_w, read_group_marked, read_marked, store_write};
use lb_base::{List, Memory, Seqnum, Value, Words};
use std::alloc::Global;
use step_log::{at as record_at, last_finish};

/// The store call is made, and what it did is told.
pub(crate) fn miss_attempt(
    alloc: Global,
    parts: &mut Parts,
    state: &AttemptState,
) -> Result<Miss, Memory>
    requires { CanMissIf (λ fs. Always) parts.old state.now }
    ensures ok { IfOk result (MissesBy (λ fs. Always) (λ fs. step_missed fs parts.old)
        parts.old parts.new state.now) }
    ensures cut { OnErr result (MissCutShortBy (λ fs. Always) (λ fs. step_missed fs parts.old)
        parts.old parts.new state.now) }
{
    if state.progress.is_running() {
        miss_running(alloc, parts, state)
    } else {
        Ok(Miss::Idle)
    }
}

/// The call of an attempt that runs.
fn miss_running(alloc: Global, parts: &mut Parts, state: &AttemptState) -> Result<Miss, Memory>
    requires { CanMissIf (λ fs. Runs) parts.old state.now }
    ensures ok { IfOk result (MissesBy (λ fs. Runs) (λ fs. running_missed fs parts.old)
        parts.old parts.new state.now) }
    ensures cut { OnErr result (MissCutShortBy (λ fs. Runs) (λ fs. running_missed fs parts.old)
        parts.old parts.new state.now) }
{
    let at = &state.progress;
    match last_finish(alloc, &parts.book, at.engine, at.path)? {
        Some(outcome) => {
            drop(outcome);
            Ok(Miss::Nothing)
        }
        None => miss_unended(alloc, parts, state),
    }
}

/// The call of an attempt that runs, whose invocation's end its engine doesn't see.
fn miss_unended(alloc: Global, parts: &mut Parts, state: &AttemptState) -> Result<Miss, Memory>
    requires { CanMissIf (λ fs. Runs) parts.old state.now }
    ensures ok { IfOk result (MissesBy (λ fs. Runs) (λ fs. unended_missed fs parts.old)
        parts.old parts.new state.now) }
    ensures cut { OnErr result (MissCutShortBy (λ fs. Runs) (λ fs. unended_missed fs parts.old)
        parts.old parts.new state.now) }
{
    let at = &state.progress;
    // Before its Init is adopted no store call is made; behind it the attempt sees its call.
    if at.place > 0 {
        miss_on(alloc, parts, state)
    } else {
        Ok(Miss::Nothing)
    }
}

/// The call of an attempt that has adopted its Init.
fn miss_on(alloc: Global, parts: &mut Parts, state: &AttemptState) -> Result<Miss, Memory>
    requires { CanMissIf (λ fs. HasBegun) parts.old state.now }
    ensures ok { IfOk result (MissesBy (λ fs. HasBegun) (λ fs. next_missed fs parts.old)
        parts.old parts.new state.now) }
    ensures cut { OnErr result (MissCutShortBy (λ fs. HasBegun) (λ fs. next_missed fs parts.old)
        parts.old parts.new state.now) }
{
    if is_answered(parts, state) {
        miss_record(alloc, parts, state)
    } else if state.progress.waiting {
        Ok(Miss::Nothing)
    } else {
        miss_asked(parts, state)
    }
}

/// The call of the record at the attempt's place, which is adopted.
fn miss_record(alloc: Global, parts: &mut Parts, state: &AttemptState) -> Result<Miss, Memory>
    requires { CanMissIf (λ fs. FindsAnswer fs parts.old) parts.old state.now }
    ensures ok { IfOk result (MissesBy (λ fs. FindsAnswer fs parts.old)
        (λ fs. next_missed fs parts.old) parts.old parts.new state.now) }
    ensures cut { OnErr result (MissCutShortBy (λ fs. FindsAnswer fs parts.old)
        (λ fs. next_missed fs parts.old) parts.old parts.new state.now) }
{
    let at = &state.progress;
    match record_at(alloc, &parts.book, at.engine, at.path, at.place)? {
        Some((seq, body)) => {
            let missed = miss_body(alloc, parts, state, seq, &body);
            drop(body);
            missed
        }
        None => Ok(Miss::Nothing),
    }
}

/// The call of a marker, where the record at a seqnum says it is one.
fn miss_body(
    alloc: Global,
    parts: &mut Parts,
    state: &AttemptState,
    seq: Seqnum,
    body: &Body,
) -> Result<Miss, Memory>
    requires { CanMissIf (λ fs. SeesSeqnum parts.old seq.0) parts.old state.now }
    ensures ok { IfOk result (MissesBy (λ fs. SeesSeqnum parts.old seq.0)
        (λ fs setup store a. misses_record store seq.0 body.now) parts.old parts.new state.now) }
    ensures cut { OnErr result (MissCutShortBy (λ fs. SeesSeqnum parts.old seq.0)
        (λ fs setup store a. misses_record store seq.0 body.now) parts.old parts.new state.now) }
{
    match body {
        Body::Read { key, .. } => miss_marker(alloc, parts, state, seq, key),
        Body::ReadGroup { keys, .. } => miss_group(alloc, parts, state, seq, keys),
        _ => Ok(Miss::Nothing),
    }
}

/// The call of a marker of an object.
fn miss_marker(
    alloc: Global,
    parts: &mut Parts,
    state: &AttemptState,
    seq: Seqnum,
    key: &Words,
) -> Result<Miss, Memory>
    requires { CanMissIf (λ fs. SeesSeqnum parts.old seq.0) parts.old state.now }
    ensures ok { IfOk result (MissesBy (λ fs. SeesSeqnum parts.old seq.0)
        (λ fs setup store a. misses_marker store seq.0 (key.now ∷ []))
        parts.old parts.new state.now) }
    ensures cut { OnErr result (MissCutShortBy (λ fs. SeesSeqnum parts.old seq.0)
        (λ fs setup store a. misses_marker store seq.0 (key.now ∷ []))
        parts.old parts.new state.now) }
{
    let engine = state.progress.engine;
    match read_marked(
        alloc,
        &parts.book,
        &mut parts.store,
        engine,
        key.as_str(),
        seq,
    )? {
        Answered::Gone => Ok(Miss::Nothing),
        Answered::Value(value) => {
            drop(value);
            Ok(Miss::Fence)
        }
    }
}

/// The call of a marker of several objects.
fn miss_group(
    alloc: Global,
    parts: &mut Parts,
    state: &AttemptState,
    seq: Seqnum,
    keys: &List<Words>,
) -> Result<Miss, Memory>
    requires { CanMissIf (λ fs. SeesSeqnum parts.old seq.0) parts.old state.now }
    ensures ok { IfOk result (MissesBy (λ fs. SeesSeqnum parts.old seq.0)
        (λ fs setup store a. misses_marker store seq.0 keys.now) parts.old parts.new state.now) }
    ensures cut { OnErr result (MissCutShortBy (λ fs. SeesSeqnum parts.old seq.0)
        (λ fs setup store a. misses_marker store seq.0 keys.now) parts.old parts.new state.now) }
{
    let engine = state.progress.engine;
    match read_group_marked(
        alloc,
        &parts.book,
        &mut parts.store,
        engine,
        keys.as_slice(),
        seq,
    )? {
        GroupAnswer::Gone => Ok(Miss::Nothing),
        GroupAnswer::Values(values) => {
            drop(values);
            Ok(Miss::Fence)
        }
    }
}

/// The call of a write that is asked.
fn miss_asked(parts: &mut Parts, state: &AttemptState) -> Result<Miss, Memory>
    requires { CanMissIf (λ fs. HasBegun) parts.old state.now }
    ensures ok { IfOk result (MissesBy (λ fs. HasBegun) asked_missed
        parts.old parts.new state.now) }
    ensures cut { OnErr result (MissCutShortBy (λ fs. HasBegun) asked_missed
        parts.old parts.new state.now) }
{
    match &state.frame {
        Some(frame) => miss_ask(parts, state, frame.ask()),
        None => Ok(Miss::Nothing),
    }
}

/// The call of what is asked, where that is a write.
fn miss_ask(parts: &mut Parts, state: &AttemptState, ask: &Ask) -> Result<Miss, Memory>
    requires { CanMissIf (λ fs. ScriptAsks fs ask.now) parts.old state.now }
    ensures ok { IfOk result (MissesBy (λ fs. ScriptAsks fs ask.now) asked_missed
        parts.old parts.new state.now) }
    ensures cut { OnErr result (MissCutShortBy (λ fs. ScriptAsks fs ask.now) asked_missed
        parts.old parts.new state.now) }
{
    match ask {
        Ask::Op(op) => miss_op(parts, state, op),
        Ask::Done(_) => Ok(Miss::Nothing),
    }
}

/// The call of an operation that is asked, where that is a write.
fn miss_op(parts: &mut Parts, state: &AttemptState, op: &Op) -> Result<Miss, Memory>
    requires { CanMissIf (λ fs. ScriptAsks fs (k.Op op.now)) parts.old state.now }
    ensures ok { IfOk result (MissesBy (λ fs. ScriptAsks fs (k.Op op.now)) asked_missed
        parts.old parts.new state.now) }
    ensures cut { OnErr result (MissCutShortBy (λ fs. ScriptAsks fs (k.Op op.now)) asked_missed
        parts.old parts.new state.now) }
{
    match op {
        Op::Write { key, value } => miss_write(parts, state, key, value),
        _ => Ok(Miss::Nothing),
    }
}

/// The call of a write: a version is put in, or its value is stored under its name.
fn miss_write(
    parts: &mut Parts,
    state: &AttemptState,
    key: &Words,
    value: &Value,
) -> Result<Miss, Memory>
    requires { CanMissIf (λ fs. ScriptAsks fs (k.Op (o.Write key.now value.now)))
        parts.old state.now }
    ensures ok { IfOk result (MissesBy (λ fs. ScriptAsks fs (k.Op (o.Write key.now value.now)))
        (λ fs setup store a. misses_write setup a store key.now value.now a.mode a.late)
        parts.old parts.new state.now) }
    ensures cut { OnErr result (MissCutShortBy
        (λ fs. ScriptAsks fs (k.Op (o.Write key.now value.now)))
        (λ fs setup store a. misses_write setup a store key.now value.now a.mode a.late)
        parts.old parts.new state.now) }
{
    let at = &state.progress;
    if at.writes_freely() {
        miss_put(parts, state, key, value)
    } else if has_value(parts, state, value) {
        Ok(Miss::Nothing)
    } else {
        match store_write(&mut parts.store, at.write_name(), at.cursor, value)? {
            Named::Done => Ok(Miss::Store),
            Named::Gone => Ok(Miss::Nothing),
        }
    }
}

/// Whether the value of a write is to stand in its record, or is stored under its name already.
fn has_value(parts: &Parts, state: &AttemptState, value: &Value) -> bool
    ensures { result ≡ ((is_new_engine parts.now.newer state.now.progress.engine
        && is_short_value value.now) || state.now.progress.stored) }
{
    let at = &state.progress;
    is_inline(parts.newer, at.engine, value) || at.stored
}

/// The call of a free write.
fn miss_put(
    parts: &mut Parts,
    state: &AttemptState,
    key: &Words,
    value: &Value,
) -> Result<Miss, Memory>
    requires { CanMissIf (λ fs. ScriptAsks fs (k.Op (o.Write key.now value.now)))
        parts.old state.now }
    ensures ok { IfOk result (MissesBy (λ fs. ScriptAsks fs (k.Op (o.Write key.now value.now)))
        (λ fs setup store a. misses_put (put_at key.now a.cursor (suc a.free_writes) store)
        a store key.now value.now)
        parts.old parts.new state.now) }
    ensures cut { OnErr result (MissCutShortBy
        (λ fs. ScriptAsks fs (k.Op (o.Write key.now value.now)))
        (λ fs setup store a. misses_put (put_at key.now a.cursor (suc a.free_writes) store)
        a store key.now value.now)
        parts.old parts.new state.now) }
{
    let at = &state.progress;
    let Some(number) = at.free_writes.checked_add(1) else {
        return Err(Memory);
    };
    match put_w(&mut parts.store, key.as_str(), at.cursor, number, value)? {
        Put::Done => Ok(Miss::Put),
        _ => Ok(Miss::Nothing),
    }
}
