//! The workers of a log.

ghost use Rattle.std.specs.Prelude.{◌≡◌, ◌≤◌, [], true, All, IfOk, length, vec_len, vec_capacity};
ghost use Rattle.live_work.specs.Teams.{engines_of, answers_of};

use crate::worker::LiveWorker;
use lb_base::{List, Memory};
use live_log::{Door, LiveEngine, Naming, Stop};
use live_text::LiveAnswer;
use std::alloc::Global;

/// A worker for each engine, with a door of its own. The doors are taken from the last on.
pub(crate) fn enlist<J: Naming, D: Drop>(
    alloc: Global,
    engines: Vec<LiveEngine<J>>,
    doors: Vec<D>,
) -> Result<Vec<LiveWorker<J, D>>, Memory>
    requires { length engines.items ≡ length doors.items }
    ensures { IfOk result (λ team. engines_of team.items ≡ engines.items) }
{
    let mut doors = doors;
    let mut team = Vec::with_capacity(alloc, engines.len())?;
    for engine in engines {
        let Some(door) = doors.pop() else {
            return Err(Memory);
        };
        team.push(LiveWorker::new(alloc, engine, door))?;
    }
    Ok(team)
}

/// The engines of a team and its answers, put where there is room.
pub(crate) fn disband<J: Naming, D: Drop>(
    team: Vec<LiveWorker<J, D>>,
    room: Vec<LiveEngine<J>>,
    sheets: Vec<List<LiveAnswer>>,
) -> (Vec<LiveEngine<J>>, List<List<LiveAnswer>>)
    requires room { (room.items ≡ []) × (vec_len team ≤ vec_capacity room) }
    requires sheets { (sheets.items ≡ []) × (vec_len team ≤ vec_capacity sheets) }
    ensures engines { result.0.items ≡ engines_of team.items }
    ensures answers { result.1 ≡ answers_of team.items }
{
    let mut engines = room;
    let mut sheets = sheets;
    for worker in team {
        let LiveWorker {
            engine,
            door,
            answers,
            stop: _,
        } = worker;
        drop(door);
        engines.push_reserved(engine);
        sheets.push_reserved(answers);
    }
    (engines, List::from_vec(sheets))
}

/// Whether all workers of a team ran. `Memory` comes where none was refused or behind, and one wanted memory.
pub(crate) fn all_ran<J: Naming, D>(team: &[LiveWorker<J, D>]) -> Result<bool, Memory>
    ensures { IfOk result (λ b. b ≡ true → All (λ w. w.stop ≡ Stop.Ran) team.now) }
{
    let mut short = false;
    for worker in team {
        match worker.stop {
            Stop::Ran => {}
            Stop::Memory => short = true,
            Stop::Refused => return Ok(false),
            Stop::Behind(_) => return Ok(false),
        }
    }
    if short { Err(Memory) } else { Ok(true) }
}
