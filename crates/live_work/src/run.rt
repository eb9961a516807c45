//! A log of its own for a text.

ghost use Rattle.std.specs.Prelude.{◌≡◌, ◌≤◌, ◌<◌, ◌-◌, [], true, ℕ, Some, slice_index, All, IfOk, length, vec_len};
ghost use Rattle.live_text.specs.Outputs.{IsRunOf};
ghost use Rattle.live_work.specs.Teams.{EachWorked};

use crate::closing::list_of;
use crate::plain::live_plain;
use crate::team::{all_ran, disband, enlist};
use crate::work::work_live;
use crate::worker::LiveWorker;
use engine_gate::Gate;
use lb_base::{List, Memory, Record};
use live_log::{Door, LiveFault, LiveLog, Naming, Opened, RealDoor};
use live_text::{LiveAnswer, LiveRan, LiveText};
use std::alloc::Global;
use std::marker::Brand;
use std::sync::Wait;
use std::thread::Threads;

/// What a run comes to: nothing where a worker was refused or behind, or the log wasn't closed but for want of memory.
fn ran_of(
    ran: Result<bool, Memory>,
    closed: Result<List<(u32, Record)>, LiveFault>,
    answers: List<List<LiveAnswer>>,
) -> Result<Option<LiveRan>, Memory>
    ensures { IfOk result (λ r. (x : LiveRan) → r ≡ Some x → (ran ≡ Ok true) × (closed ≡ Ok x.list) × (x.answers ≡ answers)) }
{
    match closed {
        Ok(list) => match ran {
            Ok(true) => Ok(Some(LiveRan { list, answers })),
            Ok(false) => Ok(None),
            Err(_) => Err(Memory),
        },
        Err(LiveFault::Refused) => Ok(None),
        Err(LiveFault::Memory) => match ran {
            Ok(false) => Ok(None),
            _ => Err(Memory),
        },
    }
}

#[tactic(auto, using(crate::proofs::Teams::same_length))]
/// Lets the workers of a team do their lines.
fn work_team<J: Naming + Send + Sync, D: Door + Send, G: Gate + Sync, R: Threads + Wait + Sync>(
    rt: &R,
    alloc: Global,
    text: &LiveText,
    log: &LiveLog<J>,
    team: &mut Vec<LiveWorker<J, D>>,
    gate: &G,
)
    requires { 0 < length team.old.items }
    ensures count { length team.new.items ≡ length team.old.items }
    ensures worked { EachWorked D.refusals text.now.lines team.old.items team.new.items }
{
    work_live(rt, alloc, text, log, team.as_mut_slice(), gate);
}

#[tactic(auto, using(crate::proofs::Teams::length_engines))]
/// Runs a text on a log that was opened. It answers nothing where a door refused, an append was behind or an engine ahead.
fn run_on<J: Naming + Send + Sync, D: Door + Send + Drop, G: Gate + Sync, R: Threads + Wait + Sync>(
    rt: &R,
    alloc: Global,
    opened: Opened,
    text: &LiveText,
    gate: &G,
    door: &mut D,
    doors: Vec<D>,
) -> Result<Option<LiveRan>, Memory>
    requires book { opened.book ≡ J.book }
    requires engines { (opened.engines ≡ J.engines) × (opened.engines ≡ text.now.workers) }
    requires names { (n : ℕ) → 1 ≤ n → n ≤ 16 → slice_index opened.names (n - 1) ≡ J.names n }
    requires doors { (0 < text.now.workers) × (length doors.items ≡ text.now.workers) }
    ensures { IfOk result (λ r. (x : LiveRan) → r ≡ Some x → IsRunOf text.now x) }
{
    let Ok((log, engines)) = opened.named::<J, R>(rt, alloc) else {
        return Err(Memory);
    };
    let Ok(room) = Vec::with_capacity(alloc, engines.len()) else {
        log.give_up(rt, engines);
        return Err(Memory);
    };
    let Ok(sheets) = Vec::with_capacity(alloc, engines.len()) else {
        log.give_up(rt, engines);
        return Err(Memory);
    };
    let Ok(mut team) = enlist(alloc, engines, doors) else {
        log.give_up(rt, room);
        return Err(Memory);
    };
    work_team(rt, alloc, text, &log, &mut team, gate);
    let ran = all_ran(team.as_slice());
    let (engines, answers) = disband(team, room, sheets);
    ran_of(ran, list_of(rt, log, engines, door), answers)
}

/// Runs a text on a log of its own, as [`run_live`] does, with these doors: one for the log, and one for each worker.
pub fn run_through<D: Door + Send + Drop, G: Gate + Sync, R: Threads + Wait + Sync>(
    rt: &R,
    alloc: Global,
    text: &LiveText,
    gate: &G,
    door: &mut D,
    doors: Vec<D>,
) -> Result<LiveRan, Memory>
    requires workers { (1 ≤ text.now.workers) × (text.now.workers ≤ 16) }
    requires doors { length doors.items ≡ text.now.workers }
    ensures { IfOk result (λ ran. IsRunOf text.now ran) }
{
    let ran = match LiveLog::open(rt, alloc, text.workers, door) {
        Ok(opened) => run_on::<Brand, D, G, R>(rt, alloc, opened, text, gate, door, doors)?,
        Err(LiveFault::Refused) => None,
        Err(LiveFault::Memory) => return Err(Memory),
    };
    match ran {
        Some(ran) => Ok(ran),
        None => live_plain(alloc, text),
    }
}

/// So many doors.
fn real_doors(alloc: Global, n: u32) -> Result<Vec<RealDoor>, Memory>
    ensures { IfOk result (λ doors. length doors.items ≡ n) }
{
    let mut doors = Vec::with_capacity(alloc, n as usize)?;
    'doors: while doors.len() < n as usize {
        doors.push(RealDoor::new())?;
    }
    Ok(doors)
}

/// Runs a text of 1 to 16 workers on a log of its own: each worker in a thread where one can be had, through a door of its own, with
/// the gate entered before each line. It may wait.
///
/// The list and the answers are right for the text. Where a call on the log is refused, an append's seqnum isn't above the position
/// that its worker had before it, or an engine is ahead of the list, they are those of [`live_plain`].
pub fn run_live<G: Gate + Sync, R: Threads + Wait + Sync>(
    rt: &R,
    alloc: Global,
    text: &LiveText,
    gate: &G,
) -> Result<LiveRan, Memory>
    requires { (1 ≤ text.now.workers) × (text.now.workers ≤ 16) }
    ensures { IfOk result (λ ran. IsRunOf text.now ran) }
{
    let mut door = RealDoor::new();
    let doors = real_doors(alloc, text.workers)?;
    run_through(rt, alloc, text, gate, &mut door, doors)
}
