//! What a script asks, where no record answers it.
ghost use Rattle.std.specs.Prelude.{◌≡◌, OnErr, IfOk};
ghost use Rattle.std.specs.Option.{option_copied};
ghost use Rattle.boki_types.specs.declared.operation.Ask.TheVariants as k;
ghost use Rattle.boki_types.specs.declared.operation.Op.TheVariants as o;
ghost use Rattle.boki_flow.specs.Arms.{CanFlowIf, MovesBy, CutShortBy, HasBegun, ScriptAsks, here_in, script_move, read_move, read_group_move, write_move, logged_move, join_move, send_move};

use attempt_log::send_asked;
use attempt_state::{AttemptState, child, copy_names, is_inline};
use attempt_store::{free_read, free_read_group, free_write, store_value};
use boki_types::{Ask, Op, Program, StepLine};
use flow_parts::Parts;
use lb_base::{List, Memory, Value, Words};
use std::alloc::Global;
use step_log::last_finish;

/// The script's next operation, or its end: it is done where it is free, and sent else.
pub(crate) fn step_script(
    alloc: Global,
    program: &Program,
    parts: &mut Parts,
    state: &mut AttemptState,
) -> Result<StepLine, Memory>
    requires { CanFlowIf HasBegun program.now.functions parts.old state.old }
    ensures ok { IfOk result (MovesBy HasBegun (script_move program.now.functions parts.old)
        program.now.functions parts.old parts.new state.old state.new) }
    ensures err { OnErr result (state.new ≡ state.old) }
    ensures cut { OnErr result (CutShortBy HasBegun (script_move program.now.functions parts.old)
        program.now.functions parts.old parts.new state.old) }
{
    let Some(frame) = &state.frame else {
        return Ok(StepLine::Idle);
    };
    match frame.ask() {
        Ask::Op(Op::Read { key }) => {
            let key = key.clone()?;
            read_next(alloc, program, parts, state, key)
        }
        Ask::Op(Op::ReadGroup { keys }) => {
            let keys = copy_names(keys)?;
            read_group_next(alloc, program, parts, state, keys)
        }
        Ask::Op(Op::Write { key, value }) => {
            let key = key.clone()?;
            let value = value.clone()?;
            write_next(alloc, program, parts, state, key, value)
        }
        Ask::Op(Op::Join { ordinal }) => {
            let ordinal = *ordinal;
            step_join(alloc, program, parts, state, ordinal)
        }
        _ => send_next(alloc, program, parts, state, false),
    }
}

/// A read that is asked: in mode R the store answers it, else its marker is sent.
fn read_next(
    alloc: Global,
    program: &Program,
    parts: &mut Parts,
    state: &mut AttemptState,
    key: Words,
) -> Result<StepLine, Memory>
    requires { CanFlowIf (ScriptAsks program.now.functions (k.Op (o.Read key)))
        program.now.functions parts.old state.old }
    ensures ok { IfOk result (MovesBy (ScriptAsks program.now.functions (k.Op (o.Read key)))
        (read_move parts.old key)
        program.now.functions parts.old parts.new state.old state.new) }
    ensures err { OnErr result (state.new ≡ state.old) }
    ensures cut { OnErr result (CutShortBy (ScriptAsks program.now.functions (k.Op (o.Read key)))
        (read_move parts.old key)
        program.now.functions parts.old parts.new state.old) }
{
    if state.progress.reads_freely() {
        free_read(alloc, program, &parts.book, &parts.store, state, key)
    } else {
        drop(key);
        send_next(alloc, program, parts, state, false)
    }
}

/// A read of several objects that is asked.
fn read_group_next(
    alloc: Global,
    program: &Program,
    parts: &mut Parts,
    state: &mut AttemptState,
    keys: List<Words>,
) -> Result<StepLine, Memory>
    requires { CanFlowIf (ScriptAsks program.now.functions (k.Op (o.ReadGroup keys)))
        program.now.functions parts.old state.old }
    ensures ok { IfOk result (MovesBy (ScriptAsks program.now.functions (k.Op (o.ReadGroup keys)))
        (read_group_move parts.old keys)
        program.now.functions parts.old parts.new state.old state.new) }
    ensures err { OnErr result (state.new ≡ state.old) }
    ensures cut { OnErr result (CutShortBy (ScriptAsks program.now.functions (k.Op (o.ReadGroup keys)))
        (read_group_move parts.old keys)
        program.now.functions parts.old parts.new state.old) }
{
    if state.progress.reads_freely() {
        free_read_group(alloc, program, &parts.book, &parts.store, state, keys)
    } else {
        drop(keys);
        send_next(alloc, program, parts, state, false)
    }
}

/// A write that is asked: in mode W the store takes it, unless it is late; else it is logged.
fn write_next(
    alloc: Global,
    program: &Program,
    parts: &mut Parts,
    state: &mut AttemptState,
    key: Words,
    value: Value,
) -> Result<StepLine, Memory>
    requires { CanFlowIf (ScriptAsks program.now.functions (k.Op (o.Write key value)))
        program.now.functions parts.old state.old }
    ensures ok { IfOk result (MovesBy (ScriptAsks program.now.functions (k.Op (o.Write key value)))
        (write_move parts.old key value)
        program.now.functions parts.old parts.new state.old state.new) }
    ensures err { OnErr result (state.new ≡ state.old) }
    ensures cut { OnErr result (CutShortBy (ScriptAsks program.now.functions (k.Op (o.Write key value)))
        (write_move parts.old key value)
        program.now.functions parts.old parts.new state.old) }
{
    if state.progress.writes_freely() {
        free_write(alloc, program, &mut parts.store, state, key, value)
    } else {
        log_write(alloc, program, parts, state, key, value)
    }
}

/// A logged write: its value is stored under the write's name before it is sent, unless its record
/// holds the value.
fn log_write(
    alloc: Global,
    program: &Program,
    parts: &mut Parts,
    state: &mut AttemptState,
    key: Words,
    value: Value,
) -> Result<StepLine, Memory>
    requires { CanFlowIf (ScriptAsks program.now.functions (k.Op (o.Write key value)))
        program.now.functions parts.old state.old }
    ensures ok { IfOk result (MovesBy (ScriptAsks program.now.functions (k.Op (o.Write key value)))
        (logged_move parts.old key value)
        program.now.functions parts.old parts.new state.old state.new) }
    ensures err { OnErr result (state.new ≡ state.old) }
    ensures cut { OnErr result (CutShortBy (ScriptAsks program.now.functions (k.Op (o.Write key value)))
        (logged_move parts.old key value)
        program.now.functions parts.old parts.new state.old) }
{
    let inline = is_inline(parts.newer, state.progress.engine, &value);
    if inline || state.progress.stored {
        drop(key);
        drop(value);
        send_next(alloc, program, parts, state, inline)
    } else {
        store_value(&mut parts.store, state, key, value)
    }
}

/// A join is sent once the child has a result.
fn step_join(
    alloc: Global,
    program: &Program,
    parts: &mut Parts,
    state: &mut AttemptState,
    ordinal: u32,
) -> Result<StepLine, Memory>
    requires { CanFlowIf (ScriptAsks program.now.functions (k.Op (o.Join ordinal)))
        program.now.functions parts.old state.old }
    ensures ok { IfOk result (MovesBy (ScriptAsks program.now.functions (k.Op (o.Join ordinal)))
        (join_move parts.old ordinal)
        program.now.functions parts.old parts.new state.old state.new) }
    ensures err { OnErr result (state.new ≡ state.old) }
    ensures cut { OnErr result (CutShortBy (ScriptAsks program.now.functions (k.Op (o.Join ordinal)))
        (join_move parts.old ordinal)
        program.now.functions parts.old parts.new state.old) }
{
    let at = state.progress;
    let path = child(at.path, ordinal);
    match last_finish(alloc, &parts.book, at.engine, path)? {
        Some(outcome) => {
            drop(outcome);
            send_next(alloc, program, parts, state, false)
        }
        None => Ok(StepLine::WaitsJoin(path)),
    }
}

/// Sends the record of what is asked, of a write with its value where it is inline.
fn send_next(
    alloc: Global,
    program: &Program,
    parts: &mut Parts,
    state: &mut AttemptState,
    inline: bool,
) -> Result<StepLine, Memory>
    requires { CanFlowIf HasBegun program.now.functions parts.old state.old }
    ensures ok { IfOk result (MovesBy HasBegun
        (send_move program.now.functions parts.old inline state.old.frame)
        program.now.functions parts.old parts.new state.old state.new) }
    ensures err { OnErr result (state.new ≡ state.old) }
    ensures cut { OnErr result (CutShortBy HasBegun
        (send_move program.now.functions parts.old inline state.old.frame)
        program.now.functions parts.old parts.new state.old) }
{
    let Some(frame) = &state.frame else {
        return Ok(StepLine::Idle);
    };
    let ask = frame.ask();
    let here = value_here(ask, inline);
    send_asked(
        alloc,
        program,
        &mut parts.book,
        &mut state.progress,
        ask,
        here,
    )
}

/// What is written, where a write is asked that is inline.
fn value_here(ask: &Ask, inline: bool) -> Option<&Value>
    ensures { option_copied result ≡ here_in inline ask.now }
{
    if !inline {
        return None;
    }
    match ask {
        Ask::Op(Op::Write { value, .. }) => Some(value),
        _ => None,
    }
}
