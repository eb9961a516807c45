//! What an event does, each by its own function.
ghost use Rattle.std.specs.Prelude.{IsTrue, IfOk};
ghost use Rattle.cluster_events.specs.Machines.{CanDo, CanDoAny, DoesEvent, DoesEventAny};
ghost use Rattle.cluster_run.specs.Attempts.{CanDoAll, DoesAll};
ghost use Rattle.cluster_run.specs.Groups.{is_ordering, is_sending, is_reading, is_of_attempts};

use crate::attempts::{kill_attempt, lose_record, miss_attempt, restart, start, step_attempt};
use boki_flow::{Attempt, Parts};
use boki_types::{Event, Line, Program};
use book_api::Gate;
use cluster_events::{
    append, aux, catch, cond, copy, cut, end_switch, next, prev, set_aux, settled, submit, sweep,
    switch, sync, tail, trim, trim_tag,
};
use indexmap::IndexMap;
use lb_base::Memory;
use std::alloc::Global;
use std::thread::Threads;

/// Any event.
pub(crate) fn apply<R: Threads + Sync, G: Gate + Sync>(
    alloc: Global,
    rt: &R,
    program: &Program,
    parts: &mut Parts,
    attempts: &mut IndexMap<u32, Attempt>,
    event: &Event,
    gate: &G,
) -> Result<Line, Memory>
    requires { CanDoAll program.now.functions event.now parts.old attempts.old.entries }
    ensures { IfOk result (DoesAll program.now.functions event.now parts.old parts.new
        attempts.old.entries attempts.new.entries) }
{
    match event {
        Event::Copy { .. } | Event::Cut | Event::Catch { .. } | Event::Sync => {
            order(rt, parts, event, gate)
        }
        Event::Submit { .. }
        | Event::Switch { .. }
        | Event::EndSwitch { .. }
        | Event::Trim { .. }
        | Event::Append { .. }
        | Event::Cond { .. }
        | Event::TrimTag { .. } => send(alloc, program, parts, event),
        Event::Next { .. }
        | Event::Prev { .. }
        | Event::Tail { .. }
        | Event::Settled { .. }
        | Event::SetAux { .. }
        | Event::GetAux { .. } => read(alloc, parts, event),
        Event::Start { .. }
        | Event::Step { .. }
        | Event::Kill { .. }
        | Event::Lose { .. }
        | Event::Miss { .. }
        | Event::Restart { .. } => attempt(alloc, program, parts, attempts, event),
        Event::Sweep { engine } => sweep(alloc, parts, *engine),
        Event::Seed { .. } => Ok(Line::Seeded),
    }
}

/// An event of replicas, the metalog or the engines' positions.
fn order<R: Threads + Sync, G: Gate + Sync>(
    rt: &R,
    parts: &mut Parts,
    event: &Event,
    gate: &G,
) -> Result<Line, Memory>
    requires group { IsTrue (is_ordering event.now) }
    requires can { CanDoAny event.now parts.old }
    ensures { IfOk result (DoesEventAny event.now parts.old parts.new) }
{
    match event {
        Event::Copy { shard, replica, n } => Ok(copy(parts, *shard, *replica, *n)),
        Event::Cut => cut(parts),
        Event::Catch { engine } => catch(parts, *engine),
        Event::Sync => sync(rt, parts, gate),
        _ => unreachable!(),
    }
}

/// An event that sends a record of no attempt.
fn send(alloc: Global, program: &Program, parts: &mut Parts, event: &Event) -> Result<Line, Memory>
    requires group { IsTrue (is_sending event.now) }
    requires can { CanDo program.now.functions event.now parts.old }
    ensures { IfOk result (DoesEvent program.now.functions event.now parts.old parts.new) }
{
    match event {
        Event::Submit {
            engine,
            request,
            function,
            args,
        } => submit(alloc, program, parts, *engine, *request, *function, args),
        Event::Switch { engine, target } => switch(alloc, parts, *engine, *target),
        Event::EndSwitch { engine } => end_switch(parts, *engine),
        Event::Trim { engine } => trim(parts, *engine),
        Event::Append { engine, tags, text } => append(alloc, parts, *engine, tags, text),
        Event::Cond {
            engine,
            place,
            tags,
            text,
        } => cond(alloc, parts, *engine, *place, tags, text),
        Event::TrimTag { engine, tag, upto } => trim_tag(alloc, parts, *engine, *tag, *upto),
        _ => unreachable!(),
    }
}

/// An event that reads the log, or one of auxiliary data.
fn read(alloc: Global, parts: &mut Parts, event: &Event) -> Result<Line, Memory>
    requires group { IsTrue (is_reading event.now) }
    requires can { CanDoAny event.now parts.old }
    ensures { IfOk result (DoesEventAny event.now parts.old parts.new) }
{
    match event {
        Event::Next { engine, tag, from } => next(alloc, parts, *engine, *tag, *from),
        Event::Prev { engine, tag, upto } => prev(alloc, parts, *engine, *tag, *upto),
        Event::Tail { engine, tag } => tail(alloc, parts, *engine, *tag),
        Event::Settled {
            engine,
            shard,
            local,
        } => Ok(settled(parts, *engine, *shard, *local)),
        Event::SetAux { engine, seq, text } => set_aux(parts, *engine, *seq, text),
        Event::GetAux { engine, seq } => aux(alloc, parts, *engine, *seq),
        _ => unreachable!(),
    }
}

/// An event of attempts.
fn attempt(
    alloc: Global,
    program: &Program,
    parts: &mut Parts,
    attempts: &mut IndexMap<u32, Attempt>,
    event: &Event,
) -> Result<Line, Memory>
    requires group { IsTrue (is_of_attempts event.now) }
    requires can { CanDoAll program.now.functions event.now parts.old attempts.old.entries }
    ensures { IfOk result (DoesAll program.now.functions event.now parts.old parts.new
        attempts.old.entries attempts.new.entries) }
{
    match event {
        Event::Start {
            attempt,
            path,
            engine,
        } => start(attempts, *attempt, *path, *engine),
        Event::Step { attempt } => step_attempt(alloc, program, parts, attempts, *attempt),
        Event::Kill { attempt } => Ok(kill_attempt(attempts, *attempt)),
        Event::Lose { attempt } => Ok(lose_record(attempts, *attempt)),
        Event::Miss { attempt } => miss_attempt(alloc, program, parts, attempts, *attempt),
        Event::Restart { engine } => restart(program, parts, attempts, *engine),
        _ => unreachable!(),
    }
}
