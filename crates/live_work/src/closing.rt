//! The end of a log.

ghost use Rattle.std.specs.Prelude.{IfOk};
ghost use Rattle.live_log.specs.Closing.{HasAllAppends, EachByEngine};

use lb_base::{List, Record};
use live_log::{CloseFault, Door, LiveEngine, LiveFault, LiveLog, Naming};
use std::sync::Wait;

/// Gives up a log that wasn't closed, and says why it wasn't: a position above the length of the list counts as a refusal.
fn let_go<J: Naming, R: Wait>(rt: &R, fault: CloseFault<J>) -> LiveFault {
    match fault {
        CloseFault::Memory(log, engines) => {
            log.give_up(rt, engines);
            LiveFault::Memory
        }
        CloseFault::Refused(log, engines) => {
            log.give_up(rt, engines);
            LiveFault::Refused
        }
        CloseFault::Ahead {
            engine: _,
            seen: _,
            list,
            engines,
        } => {
            drop(list);
            drop(engines);
            LiveFault::Refused
        }
    }
}

/// The list of a log with all of its engines, which ends it.
pub(crate) fn list_of<J: Naming, D: Door, R: Wait>(
    rt: &R,
    log: LiveLog<J>,
    engines: Vec<LiveEngine<J>>,
    door: &mut D,
) -> Result<List<(u32, Record)>, LiveFault>
    ensures list { IfOk result (λ list. HasAllAppends list engines.items) }
    ensures by { IfOk result (λ list. EachByEngine J.engines list) }
{
    match log.close(rt, engines, door) {
        Ok(list) => Ok(list),
        Err(fault) => Err(let_go(rt, fault)),
    }
}
