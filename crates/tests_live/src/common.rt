//! What the tests share.
use lb_base::{Cond, List, Memory, Record, Tag};
use live_log::{CloseFault, Door, LiveEngine, LiveLog, Naming};
use std::alloc::Global;
use std::sync::Wait;

/// A record with one tag, a text, and maybe the place of its condition.
pub(crate) fn record(
    alloc: Global,
    tag: u64,
    text: &str,
    place: Option<u64>,
) -> Result<Record, Memory> {
    let mut tags = List::new(alloc);
    tags.push(Tag(tag))?;
    Ok(Record {
        tags,
        cond: place.map(|place| Cond {
            tag: Tag(tag),
            place,
        }),
        bytes: List::from_slice(alloc, text.as_bytes())?,
    })
}

/// Closes a log, and once more where the door refused.
pub(crate) fn closed<J: Naming, D: Door, R: Wait>(
    rt: &R,
    log: LiveLog<J>,
    engines: Vec<LiveEngine<J>>,
    door: &mut D,
) -> Option<List<(u32, Record)>> {
    match log.close(rt, engines, door) {
        Ok(list) => return Some(list),
        Err(CloseFault::Refused(log, engines)) => match log.close(rt, engines, door) {
            Ok(list) => return Some(list),
            Err(fault) => give_up(rt, fault),
        },
        Err(fault) => give_up(rt, fault),
    }
    None
}

fn give_up<J: Naming, R: Wait>(rt: &R, fault: CloseFault<J>) {
    match fault {
        CloseFault::Memory(log, engines) => log.give_up(rt, engines),
        CloseFault::Refused(log, engines) => log.give_up(rt, engines),
        CloseFault::Ahead {
            engine: _,
            seen: _,
            list: _list,
            engines: _engines,
        } => {}
    }
}
