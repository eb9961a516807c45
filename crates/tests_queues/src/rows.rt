//! Short logs, whose answers are known.
ghost use Rattle.step_log.specs.Sound.{live_bodies};
ghost use Rattle.boki_queue.specs.QueueStates.{AreQueueFolds};
ghost use Rattle.tests_queues.specs.Logs.{IsLog};

use crate::asking::{pop_takes, queue_holds};
use crate::logs::Change::{self, Pop, Push};
use crate::logs::log_of;
use boki_queue::QueueCache;
use book_api::Book;
use lb_base::Memory;
use std::alloc::Global;
use std::test::Fail;

/// What is asked at a place of the log: what its pop takes, or what its queue holds behind it.
#[derive(Clone, Copy)]
enum Ask<'a> {
    Takes(u64, Option<&'a str>),
    Holds(u64, &'a [&'a str]),
}

fn is_told(alloc: Global, book: &Book, cache: &mut QueueCache, ask: Ask<'_>) -> Result<bool, Memory>
    requires log { IsLog book.now }
    requires folds { AreQueueFolds cache.old (live_bodies book.now) }
    ensures { AreQueueFolds cache.new (live_bodies book.now) }
{
    match ask {
        Ask::Takes(place, wanted) => pop_takes(alloc, book, cache, place, wanted),
        Ask::Holds(place, wanted) => queue_holds(alloc, book, cache, place, wanted),
    }
}

// Whether each is told in turn, from what the cache keeps of those before it.
fn are_told(
    alloc: Global,
    book: &Book,
    cache: &mut QueueCache,
    asks: &[Ask<'_>],
) -> Result<bool, Memory>
    requires log { IsLog book.now }
    requires folds { AreQueueFolds cache.old (live_bodies book.now) }
    ensures { AreQueueFolds cache.new (live_bodies book.now) }
{
    'asks: for ask in asks {
        if !is_told(alloc, book, cache, *ask)? {
            return Ok(false);
        }
    }
    Ok(true)
}

// The same with a cache that keeps nothing.
fn are_told_alone(
    alloc: Global,
    book: &Book,
    cache: &mut QueueCache,
    asks: &[Ask<'_>],
) -> Result<bool, Memory>
    requires { IsLog book.now }
{
    for ask in asks {
        cache.clear();
        if !is_told(alloc, book, cache, *ask)? {
            return Ok(false);
        }
    }
    Ok(true)
}

fn tells(alloc: Global, changes: &[Change<'_>], asks: &[Ask<'_>]) -> Result<bool, Memory> {
    let book = log_of(alloc, changes)?;
    let mut cache = QueueCache::new(alloc)?;
    Ok(are_told(alloc, &book, &mut cache, asks)? && are_told_alone(alloc, &book, &mut cache, asks)?)
}

#[test]
fn a_queue_is_told_behind_its_records(rt: HostRuntime) -> Result<(), Fail> {
    let changes = [Push("q", "8"), Push("q", "9"), Pop("q")];
    let asks = [
        Ask::Holds(1, &["8", "9"]),
        Ask::Holds(2, &["9"]),
        Ask::Holds(0, &["8"]),
    ];
    assert!(rt; tells(rt.alloc(), &changes, &asks)?);
    Ok(())
}

#[test]
fn pops_take_the_front_of_their_queue(rt: HostRuntime) -> Result<(), Fail> {
    let changes = [
        Push("r", "1"),
        Push("q", "2"),
        Push("r", "3"),
        Push("q", "4"),
        Pop("q"),
        Pop("r"),
        Pop("q"),
    ];
    let asks = [
        Ask::Takes(4, Some("2")),
        Ask::Takes(6, Some("4")),
        Ask::Takes(5, Some("1")),
    ];
    assert!(rt; tells(rt.alloc(), &changes, &asks)?);
    Ok(())
}

#[test]
fn an_empty_queue_gives_nothing(rt: HostRuntime) -> Result<(), Fail> {
    let changes = [Pop("q"), Push("q", "1"), Pop("q"), Pop("q"), Push("q", "2")];
    let asks = [
        Ask::Takes(0, None),
        Ask::Takes(3, None),
        Ask::Takes(2, Some("1")),
        Ask::Holds(3, &[]),
        Ask::Holds(4, &["2"]),
    ];
    assert!(rt; tells(rt.alloc(), &changes, &asks)?);
    Ok(())
}
