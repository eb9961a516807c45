//! What a cache answers, compared with texts.
ghost use Rattle.step_log.specs.Sound.{live_bodies};
ghost use Rattle.boki_queue.specs.QueueStates.{AreQueueFolds};
ghost use Rattle.tests_queues.specs.Logs.{IsLog};

use crate::logs::{pop, values};
use boki_queue::QueueCache;
use book_api::Book;
use lb_base::{Memory, Value};
use std::alloc::Global;

fn is(value: &Value, wanted: Option<&str>) -> bool {
    match (value, wanted) {
        (Value::Text(text), Some(wanted)) => text.is(wanted),
        (Value::Nothing, None) => true,
        _ => false,
    }
}

fn are(values: &[Value], wanted: &[&str]) -> bool {
    if values.len() != wanted.len() {
        return false;
    }
    for (value, text) in values.iter().zip(wanted.iter()) {
        if !is(value, Some(text)) {
            return false;
        }
    }
    true
}

/// Whether a pop stands at a place and takes a text, or finds its queue empty.
pub(crate) fn pop_takes(
    alloc: Global,
    book: &Book,
    cache: &mut QueueCache,
    place: u64,
    wanted: Option<&str>,
) -> Result<bool, Memory>
    requires log { IsLog book.now }
    requires folds { AreQueueFolds cache.old (live_bodies book.now) }
    ensures { AreQueueFolds cache.new (live_bodies book.now) }
{
    match pop(alloc, book, cache, place)? {
        Some(value) => Ok(is(&value, wanted)),
        None => Ok(false),
    }
}

/// Whether a push or a pop stands at a place, and its queue holds these texts behind it.
pub(crate) fn queue_holds(
    alloc: Global,
    book: &Book,
    cache: &mut QueueCache,
    place: u64,
    wanted: &[&str],
) -> Result<bool, Memory>
    requires log { IsLog book.now }
    requires folds { AreQueueFolds cache.old (live_bodies book.now) }
    ensures { AreQueueFolds cache.new (live_bodies book.now) }
{
    match values(alloc, book, cache, place)? {
        Some(values) => Ok(are(values.as_slice(), wanted)),
        None => Ok(false),
    }
}
