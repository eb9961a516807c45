//! One worker on a log that the test opens.
ghost use Rattle.std.specs.Prelude.{◌≡◌, ◌≤◌, ◌-◌, ℕ, slice_index};

use crate::common::{ONE_WORKER, text_of};
use crate::refusing::Refusing;
use engine_gate::NoGate;
use lb_base::{List, Memory, Seqnum};
use live_log::{Door, LiveEngine, LiveLog, Naming, Opened, RealDoor, Stop};
use live_text::{LiveAnswer, LiveText};
use live_work::{LiveWorker, work_live};
use std::alloc::Global;
use std::marker::Brand;
use std::process::Abort;
use std::sync::Wait;
use std::test::Fail;
use std::thread::Threads;

/// The workers of a log, each through the door that is made for it.
fn team_of<J: Naming, D: Drop>(
    alloc: Global,
    engines: Vec<LiveEngine<J>>,
    door: D,
) -> Result<Vec<LiveWorker<J, D>>, Memory> {
    let mut engines = engines;
    let mut team = Vec::new(alloc);
    if let Some(engine) = engines.pop() {
        team.push(LiveWorker::new(alloc, engine, door))?;
    }
    Ok(team)
}

/// What the first worker of a team was answered, and why it stopped.
fn first_of<J: Naming, D>(
    alloc: Global,
    team: &[LiveWorker<J, D>],
) -> Result<(List<LiveAnswer>, Stop), Memory> {
    match team {
        [] => Err(Memory),
        [worker, ..] => Ok((
            List::from_slice(alloc, worker.answers.as_slice())?,
            worker.stop,
        )),
    }
}

fn on_a_log<J: Naming + Send + Sync, D: Door + Send + Drop, R: Threads + Wait + Sync + Abort>(
    rt: &R,
    alloc: Global,
    opened: Opened,
    door: D,
    text: &LiveText,
) -> Result<(List<LiveAnswer>, Stop), Fail>
    requires book { opened.book ≡ J.book }
    requires engines { (opened.engines ≡ J.engines) × (J.engines ≡ 1) }
    requires names { (n : ℕ) → 1 ≤ n → n ≤ 16 → slice_index opened.names (n - 1) ≡ J.names n }
{
    let (log, engines) = opened.named::<J, R>(rt, alloc)?;
    let team = team_of(alloc, engines, door);
    let worked = match team {
        Ok(mut team) => {
            if !team.is_empty() {
                work_live(rt, alloc, text, &log, team.as_mut_slice(), &NoGate);
            }
            first_of(alloc, team.as_slice())
        }
        Err(_) => Err(Memory),
    };
    log.give_up(rt, Vec::new(alloc));
    Ok(worked?)
}

#[test]
fn one_worker(rt: HostRuntime) -> Result<(), Fail> {
    let alloc = rt.alloc();
    let text = text_of(alloc, ONE_WORKER)?;
    let mut door = RealDoor::new();
    let opened = LiveLog::open(&rt, alloc, 1, &mut door).map_err(|_| "refused")?;
    let (answers, stop) = on_a_log::<Brand, _, _>(&rt, alloc, opened, door, &text)?;
    assert_eq!(rt; stop, Stop::Ran);
    assert_eq!(rt;
        answers.as_slice(),
        [
            LiveAnswer::Append(Seqnum(1)),
            LiveAnswer::Prev(Some(Seqnum(1)), 1),
            LiveAnswer::Append(Seqnum(2)),
            LiveAnswer::Count(2, 2),
            LiveAnswer::Next(None, 2),
        ]
        .as_slice()
    );
    Ok(())
}

#[test]
fn each_look_refused(rt: HostRuntime) -> Result<(), Fail> {
    let alloc = rt.alloc();
    let text = text_of(alloc, ONE_WORKER)?;
    for (refuse, answered, want) in [
        (1, 1, Stop::Refused),
        (2, 3, Stop::Refused),
        (3, 4, Stop::Refused),
        (4, 5, Stop::Ran),
    ] {
        let mut real = RealDoor::new();
        let opened = LiveLog::open(&rt, alloc, 1, &mut real).map_err(|_| "refused")?;
        let (answers, stop) = on_a_log::<Brand, _, _>(
            &rt,
            alloc,
            opened,
            Refusing::at(refuse),
            &text,
        )?;
        assert_eq!(rt; (answers.len(), stop), (answered, want), "at {refuse}");
    }
    Ok(())
}
