//! Books of one engine, whose records are pushes and pops of one invocation.
ghost use Rattle.std.specs.Prelude.{◌≡◌, IfOk, IsTrue};
ghost use Rattle.boki_model.specs.Bodies.{in_range as ranged, is_name as named, is_value as valued, is_step_id as step};
ghost use Rattle.step_log.specs.Sound.{live_bodies};
ghost use Rattle.boki_queue.specs.QueueStates.{AreQueueFolds};
ghost use Rattle.tests_queues.specs.Logs.{IsLog};

use boki_queue::QueueCache;
use boki_types::Body;
use book_api::Book;
use lb_base::{List, Memory, Path, Value, Words};
use std::alloc::Global;
use step_log::{at, send_body};

/// A record of a queue: a push of a text, or a pop.
#[derive(Clone, Copy)]
pub(crate) enum Change<'a> {
    Push(&'a str, &'a str),
    Pop(&'a str),
}

// The invocation whose records they are.
fn path() -> Path {
    Path::request(1).unwrap()
}

/// A book whose engine sees these records.
pub(crate) fn log_of(alloc: Global, changes: &[Change<'_>]) -> Result<Book, Memory>
    ensures { IfOk result IsLog }
{
    let mut book = new_log(alloc)?;
    fill(alloc, &mut book, changes)?;
    Ok(book)
}

fn fill(alloc: Global, book: &mut Book, changes: &[Change<'_>]) -> Result<(), Memory>
    requires { IsLog book.old }
    ensures { IsLog book.new }
{
    for change in changes {
        send(alloc, book, *change)?;
    }
    order(book)
}

fn new_log(alloc: Global) -> Result<Book, Memory>
    ensures { IfOk result IsLog }
{
    Book::new(alloc, 1, 1, 1)
}

fn send(alloc: Global, book: &mut Book, change: Change<'_>) -> Result<(), Memory>
    requires { IsLog book.old }
    ensures { IsLog book.new }
{
    let body = body_of(alloc, change)?;
    let sent = send_if_ranged(alloc, book, &body);
    drop(body);
    sent
}

fn body_of(alloc: Global, change: Change<'_>) -> Result<Body, Memory> {
    let path = path();
    match change {
        Change::Push(queue, text) => {
            let queue = Words::from_text(alloc, queue)?;
            let value = Value::Text(Words::from_text(alloc, text)?);
            Ok(Body::Push {
                path,
                index: 1,
                queue,
                value,
            })
        }
        Change::Pop(queue) => Ok(Body::Pop {
            path,
            index: 1,
            queue: Words::from_text(alloc, queue)?,
        }),
    }
}

#[tactic(auto, using(crate::proofs::Books::sent_is_log))]
fn send_if_ranged(alloc: Global, book: &mut Book, body: &Body) -> Result<(), Memory>
    requires { IsLog book.old }
    ensures { IsLog book.new }
{
    if is_ranged(body) {
        send_body(alloc, book, 1, None, body)?;
    }
    Ok(())
}

// Whether a body is a push of a text or a pop, with its fields in range.
fn is_ranged(body: &Body) -> bool
    ensures { IsTrue result → IsTrue (ranged body.now) }
{
    match body {
        Body::Push {
            path,
            index,
            queue,
            value,
        } => is_step(path, *index) && is_name(queue) && is_text(value),
        Body::Pop { path, index, queue } => is_step(path, *index) && is_name(queue),
        _ => false,
    }
}

fn is_step(path: &Path, index: u64) -> bool
    ensures { IsTrue result → IsTrue (step path.now index) }
{
    let _depth = path.depth();
    index > 0
}

fn is_name(queue: &Words) -> bool
    ensures { result ≡ named queue.now }
{
    queue.len() >= 1 && queue.len() <= 64
}

fn is_text(value: &Value) -> bool
    ensures { IsTrue result → IsTrue (valued value.now) }
{
    match value {
        Value::Text(text) => text.len() <= 256,
        _ => false,
    }
}

// Orders what was sent, and shows it to the engine.
#[tactic(auto, using(crate::proofs::Books::cut_is_log, crate::proofs::Books::caught_is_log))]
fn order(book: &mut Book) -> Result<(), Memory>
    requires { IsLog book.old }
    ensures { IsLog book.new }
{
    book.cut()?;
    book.catch_up(1)?;
    Ok(())
}

/// What the pop at a place of the invocation's step log takes, or nothing where no pop stands there.
pub(crate) fn pop(
    alloc: Global,
    book: &Book,
    cache: &mut QueueCache,
    place: u64,
) -> Result<Option<Value>, Memory>
    requires log { IsLog book.now }
    requires folds { AreQueueFolds cache.old (live_bodies book.now) }
    ensures { AreQueueFolds cache.new (live_bodies book.now) }
{
    let Some((seq, body)) = at(alloc, book, 1, path(), place)? else {
        return Ok(None);
    };
    match body {
        Body::Pop { queue, .. } => {
            let value = cache.pop_uncounted(book, 1, queue.as_str(), seq)?;
            Ok(Some(value))
        }
        other => {
            drop(other);
            Ok(None)
        }
    }
}

/// What its queue holds behind the record at a place, or nothing where no push and no pop stands there.
pub(crate) fn values(
    alloc: Global,
    book: &Book,
    cache: &mut QueueCache,
    place: u64,
) -> Result<Option<List<Value>>, Memory>
    requires log { IsLog book.now }
    requires folds { AreQueueFolds cache.old (live_bodies book.now) }
    ensures { AreQueueFolds cache.new (live_bodies book.now) }
{
    let Some((seq, body)) = at(alloc, book, 1, path(), place)? else {
        return Ok(None);
    };
    match body {
        Body::Push { queue, value, .. } => {
            drop(value);
            let values = cache.queue_at(book, 1, queue.as_str(), seq)?;
            Ok(Some(values))
        }
        Body::Pop { queue, .. } => {
            let values = cache.queue_at(book, 1, queue.as_str(), seq)?;
            Ok(Some(values))
        }
        other => {
            drop(other);
            Ok(None)
        }
    }
}
