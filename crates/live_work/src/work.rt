//! Workers in threads.

ghost use Rattle.std.specs.Prelude.{◌≡◌, ◌<◌, length};
ghost use Rattle.live_work.specs.Teams.{HasWorked, EachWorked};

use crate::worker::{LiveWorker, work};
use engine_gate::Gate;
use live_log::{Door, LiveLog, Naming};
use live_text::LiveText;
use std::alloc::Global;
use std::sync::Wait;
use std::thread;
use std::thread::Threads;

/// Lets each worker do its lines of a text, in a thread where one can be had: a worker's lines are those with the number of its
/// engine. It needs a worker, and may wait.
///
/// A worker does its lines in order, on its engine and through its door. Before each of them it enters the gate, and makes the room
/// for an answer. It stops at the first line that it can't answer, and its stop says why. Its answers are those of the lines before
/// that one, of all its lines where it ran. Each read is of what the engine has seen, up to the position that it names. Positions
/// never fall, cover the worker's earlier appends, and are at most the engine's. An append that was answered stands above the position
/// before it, and the engine's appends are those that it had and those that were answered. It stops as `Refused` only where its
/// door's refusals rose, and as `Behind` exactly where an append got a seqnum that isn't above the position before it: that append has
/// no answer, and the engine has it behind the others.
pub fn work_live<J: Naming + Send + Sync, D: Door + Send, G: Gate + Sync, R: Threads + Wait + Sync>(
    rt: &R,
    alloc: Global,
    text: &LiveText,
    log: &LiveLog<J>,
    team: &mut [LiveWorker<J, D>],
    gate: &G,
)
    requires { 0 < length team.old }
    ensures { EachWorked D.refusals text.now.lines team.old team.new }
{
    let threads = team.len();
    let lines = text.lines.as_slice();
    thread::for_each_mut(
        rt,
        team,
        threads,
        &|_at: usize, worker: &mut LiveWorker<J, D>|
            ensures { HasWorked D.refusals lines.entry.now worker.old worker.new }
        { work(rt, alloc, lines, log, worker, gate) },
    );
}
