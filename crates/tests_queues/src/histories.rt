//! Histories of pushes and pops, made by a generator, beside a plain scan of them.
ghost use Rattle.std.specs.Prelude.{◌<◌};
ghost use Rattle.step_log.specs.Sound.{live_bodies};
ghost use Rattle.boki_queue.specs.QueueStates.{AreQueueFolds};
ghost use Rattle.tests_queues.specs.Logs.{IsLog};

use crate::asking::{pop_takes, queue_holds};
use crate::logs::{Change, log_of};
use boki_queue::QueueCache;
use book_api::Book;
use lb_base::Memory;
use std::alloc::Global;
use std::test::Fail;

/// The generator's first state.
const SEED: u64 = 21;

/// A linear congruence of 64 bits.
#[derive(Drop)]
struct Generator {
    state: u64,
}

impl Generator {
    /// A number below a bound.
    fn below(&mut self, bound: u32) -> u32
        requires { 0 < bound }
        ensures { result < bound }
    {
        self.state = self
            .state
            .wrapping_mul(6_364_136_223_846_793_005)
            .wrapping_add(1_442_695_040_888_963_407);
        (self.state >> 33) as u32 % bound
    }

    fn queue(&mut self) -> &'static str {
        if self.below(2) == 0 { "a" } else { "b" }
    }

    fn text(&mut self) -> &'static str {
        match self.below(6) {
            0 => "0",
            1 => "1",
            2 => "2",
            3 => "3",
            4 => "4",
            _ => "5",
        }
    }
}

fn change(generator: &mut Generator) -> Change<'static> {
    let queue = generator.queue();
    if generator.below(5) < 3 {
        Change::Push(queue, generator.text())
    } else {
        Change::Pop(queue)
    }
}

fn history(alloc: Global, generator: &mut Generator) -> Result<Vec<Change<'static>>, Memory> {
    let mut changes = Vec::new(alloc);
    for _ in 0..4 + generator.below(16) {
        changes.push(change(generator))?;
    }
    Ok(changes)
}

// What a queue holds behind these records, the front first, by a plain scan.
fn scan<'a>(alloc: Global, changes: &[Change<'a>], queue: &str) -> Result<Vec<&'a str>, Memory> {
    let mut waiting = Vec::new(alloc);
    for change in changes {
        match change {
            Change::Push(named, text) => {
                if *named == queue {
                    waiting.push(*text)?;
                }
            }
            Change::Pop(named) => {
                if *named == queue && !waiting.is_empty() {
                    waiting.remove(0);
                }
            }
        }
    }
    Ok(waiting)
}

// Whether a pop takes what the plain scan finds at the front before it.
fn pop_agrees(
    alloc: Global,
    changes: &[Change<'_>],
    queue: &str,
    book: &Book,
    cache: &mut QueueCache,
) -> Result<bool, Memory>
    requires log { IsLog book.now }
    requires folds { AreQueueFolds cache.old (live_bodies book.now) }
    ensures { AreQueueFolds cache.new (live_bodies book.now) }
{
    let waiting = scan(alloc, changes, queue)?;
    pop_takes(
        alloc,
        book,
        cache,
        changes.len() as u64,
        waiting.first().copied(),
    )
}

// Whether the queue of the record at a place is told as the plain scan has it, and a pop there, too.
fn agrees_at(
    alloc: Global,
    changes: &[Change<'_>],
    book: &Book,
    cache: &mut QueueCache,
    place: usize,
) -> Result<bool, Memory>
    requires log { IsLog book.now }
    requires folds { AreQueueFolds cache.old (live_bodies book.now) }
    ensures { AreQueueFolds cache.new (live_bodies book.now) }
{
    if place >= changes.len() {
        return Ok(true);
    }
    match changes[place] {
        Change::Push(queue, _) => {
            let waiting = scan(alloc, &changes[..place + 1], queue)?;
            queue_holds(alloc, book, cache, place as u64, &waiting)
        }
        Change::Pop(queue) => pop_agrees(alloc, &changes[..place], queue, book, cache),
    }
}

fn all_agree(
    alloc: Global,
    changes: &[Change<'_>],
    book: &Book,
    generator: &mut Generator,
) -> Result<bool, Memory>
    requires { IsLog book.now }
{
    let mut cache = QueueCache::new(alloc)?;
    'looks: for _ in 0..30 {
        let place = generator.below(20) as usize;
        if !agrees_at(alloc, changes, book, &mut cache, place)? {
            return Ok(false);
        }
    }
    Ok(true)
}

fn agrees(alloc: Global, generator: &mut Generator) -> Result<bool, Memory> {
    let changes = history(alloc, generator)?;
    let book = log_of(alloc, &changes)?;
    all_agree(alloc, &changes, &book, generator)
}

#[test]
fn answers_agree_with_a_plain_scan(rt: HostRuntime) -> Result<(), Fail> {
    let mut generator = Generator { state: SEED };
    for _ in 0..200 {
        assert!(rt; agrees(rt.alloc(), &mut generator)?);
    }
    Ok(())
}
