//! One worker.

ghost use Rattle.std.specs.Prelude.{◌≡◌, ◌≤◌, [], ◌++◌, IfErr, OnOk};
ghost use Rattle.lb_base.specs.Devices.{CountRose};
ghost use Rattle.live_text.specs.Outputs.{ops_of};
ghost use Rattle.live_work.specs.Worked.{AnswersLine, GoesOn, StopsAt, Worked};
ghost use Rattle.live_work.specs.Teams.{HasWorked};

use crate::line::do_line;
use engine_gate::Gate;
use lb_base::List;
use live_log::{Door, LiveEngine, LiveLog, Naming, Stop};
use live_text::{LiveAnswer, LiveOp};
use std::alloc::Global;
use std::sync::Wait;

/// A worker: its engine, the door through which that looks, what it was answered so far, and why it did no further line.
#[derive(Drop)]
pub struct LiveWorker<J: Naming, D> {
    pub engine: LiveEngine<J>,
    pub door: D,
    pub answers: List<LiveAnswer>,
    pub stop: Stop,
}

impl<J: Naming, D> LiveWorker<J, D> {
    /// A worker that has done nothing. It takes no memory.
    pub fn new(alloc: Global, engine: LiveEngine<J>, door: D) -> LiveWorker<J, D>
        ensures { result ≡ record { engine = engine; door = door; answers = []; stop = Stop.Ran } }
    {
        LiveWorker {
            engine,
            door,
            answers: List::new(alloc),
            stop: Stop::Ran,
        }
    }
}

/// Does one line, with room made first for its answer.
fn do_next<J: Naming, D: Door, R: Wait>(
    rt: &R,
    alloc: Global,
    op: &LiveOp,
    log: &LiveLog<J>,
    engine: &mut LiveEngine<J>,
    door: &mut D,
    answers: &mut Vec<LiveAnswer>,
) -> Result<(), Stop>
    ensures ok { OnOk result (AnswersLine engine.old engine.new op.now answers.old.items answers.new.items) }
    ensures err { IfErr result (λ s. StopsAt engine.old engine.new s × (answers.new.items ≡ answers.old.items)) }
    ensures counted { D.refusals door.old ≤ D.refusals door.new }
    ensures refused { IfErr result (λ s. s ≡ Stop.Refused → CountRose (D.refusals door.old) (D.refusals door.new)) }
{
    if answers.reserve(1).is_err() {
        return Err(Stop::Memory);
    }
    let answer = do_line(rt, alloc, op, log, engine, door)?;
    answers.push_reserved(answer);
    Ok(())
}

/// Does a line where it is one of the worker with this number, behind the gate.
fn do_own<J: Naming, D: Door, G: Gate, R: Wait>(
    rt: &R,
    alloc: Global,
    number: u32,
    line: &(u32, LiveOp),
    log: &LiveLog<J>,
    engine: &mut LiveEngine<J>,
    door: &mut D,
    answers: &mut Vec<LiveAnswer>,
    gate: &G,
) -> Result<(), Stop>
    ensures ok { OnOk result (GoesOn number line.now engine.old engine.new answers.old.items answers.new.items) }
    ensures err { IfErr result (λ s. StopsAt engine.old engine.new s × (answers.new.items ≡ answers.old.items)) }
    ensures counted { D.refusals door.old ≤ D.refusals door.new }
    ensures refused { IfErr result (λ s. s ≡ Stop.Refused → CountRose (D.refusals door.old) (D.refusals door.new)) }
{
    if line.0 != number {
        return Ok(());
    }
    gate.enter(number);
    do_next(rt, alloc, &line.1, log, engine, door, answers)
}

/// Does the lines of an engine's number, up to the first that has no answer.
fn do_lines<J: Naming, D: Door, G: Gate, R: Wait>(
    rt: &R,
    alloc: Global,
    lines: &[(u32, LiveOp)],
    log: &LiveLog<J>,
    engine: &mut LiveEngine<J>,
    door: &mut D,
    gate: &G,
) -> (Vec<LiveAnswer>, Stop)
    ensures worked { Worked (ops_of engine.old.number lines.now) result.0.items engine.old engine.new result.1 }
    ensures counted { D.refusals door.old ≤ D.refusals door.new }
    ensures refused { result.1 ≡ Stop.Refused → CountRose (D.refusals door.old) (D.refusals door.new) }
{
    let number = engine.number();
    let mut answers = Vec::new(alloc);
    'lines: for line in lines {
        match do_own(
            rt,
            alloc,
            number,
            line,
            log,
            engine,
            door,
            &mut answers,
            gate,
        ) {
            Ok(()) => {}
            Err(stop) => return (answers, stop),
        }
    }
    (answers, Stop::Ran)
}

/// Does the lines of a worker.
pub(crate) fn work<J: Naming, D: Door, G: Gate, R: Wait>(
    rt: &R,
    alloc: Global,
    lines: &[(u32, LiveOp)],
    log: &LiveLog<J>,
    worker: &mut LiveWorker<J, D>,
    gate: &G,
)
    ensures { HasWorked D.refusals lines.now worker.old worker.new }
{
    let (answers, stop) = do_lines(
        rt,
        alloc,
        lines,
        log,
        &mut worker.engine,
        &mut worker.door,
        gate,
    );
    worker.answers = List::from_vec(answers);
    worker.stop = stop;
}
