//! One line of a worker, on its engine.

ghost use Rattle.std.specs.Prelude.{◌≡◌, ◌≢◌, ◌≤◌, IfOk, IfErr, MatchResult};
ghost use Rattle.lb_base.specs.Devices.{CountRose};
ghost use Rattle.live_work.specs.Worked.{DoesLine, StopsAt, HasLooked};

use lb_base::{Tag, Words};
use live_log::{Door, LiveEngine, LiveFault, LiveLog, Naming, Stop};
use live_text::{LiveAnswer, LiveOp, record_of};
use std::alloc::Global;
use std::sync::Wait;

/// Appends a record. Where its seqnum isn't above the position of the engine, the worker stops.
fn append<J: Naming, R: Wait>(
    rt: &R,
    alloc: Global,
    tags: &[Tag],
    text: &Words,
    log: &LiveLog<J>,
    engine: &mut LiveEngine<J>,
) -> Result<LiveAnswer, Stop>
    ensures line { MatchResult result (DoesLine engine.old engine.new (LiveOp.Append tags.now text.now)) (StopsAt engine.old engine.new) }
    ensures refused { IfErr result (λ s. s ≢ Stop.Refused) }
{
    let Ok(record) = record_of(alloc, tags, text) else {
        return Err(Stop::Memory);
    };
    let before = engine.position();
    match log.append(rt, engine, record) {
        Ok(seq) => {
            if seq.0 <= before {
                return Err(Stop::Behind(seq));
            }
            Ok(LiveAnswer::Append(seq))
        }
        Err(_) => Err(Stop::Memory),
    }
}

/// Looks at what is published, and answers the position.
fn look<J: Naming, D: Door>(engine: &mut LiveEngine<J>, door: &mut D) -> Result<u64, Stop>
    ensures ok { IfOk result (λ p. (p ≡ engine.new.position) × HasLooked engine.old engine.new) }
    ensures err { IfErr result (StopsAt engine.old engine.new) }
    ensures counted { D.refusals door.old ≤ D.refusals door.new }
    ensures refused { IfErr result (λ s. s ≡ Stop.Refused → CountRose (D.refusals door.old) (D.refusals door.new)) }
{
    match engine.catch_up(door) {
        Ok(position) => Ok(position),
        Err(LiveFault::Refused) => Err(Stop::Refused),
        Err(LiveFault::Memory) => Err(Stop::Memory),
    }
}

/// Does one line, or says why there is no answer.
pub(crate) fn do_line<J: Naming, D: Door, R: Wait>(
    rt: &R,
    alloc: Global,
    op: &LiveOp,
    log: &LiveLog<J>,
    engine: &mut LiveEngine<J>,
    door: &mut D,
) -> Result<LiveAnswer, Stop>
    ensures line { MatchResult result (DoesLine engine.old engine.new op.now) (StopsAt engine.old engine.new) }
    ensures counted { D.refusals door.old ≤ D.refusals door.new }
    ensures refused { IfErr result (λ s. s ≡ Stop.Refused → CountRose (D.refusals door.old) (D.refusals door.new)) }
{
    match op {
        LiveOp::Append(tags, text) => append(rt, alloc, tags.as_slice(), text, log, engine),
        LiveOp::Next(tag, from) => {
            let position = look(engine, door)?;
            Ok(LiveAnswer::Next(engine.next(*tag, *from), position))
        }
        LiveOp::Prev(tag, upto) => {
            let position = look(engine, door)?;
            Ok(LiveAnswer::Prev(engine.prev(*tag, *upto), position))
        }
        LiveOp::Count(tag) => {
            let position = look(engine, door)?;
            Ok(LiveAnswer::Count(engine.count(*tag), position))
        }
    }
}
