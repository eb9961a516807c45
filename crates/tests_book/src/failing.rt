//! A short history of which each call is tried again where memory runs out: it then was as before the call, and ends as without that.
ghost use Rattle.std.specs.Prelude.{◌≡◌, ◌≤◌, ◌<◌, length};
ghost use Rattle.book_api.specs.Books.{HasEngine};
ghost use Rattle.tests_book.specs.Engines.{HasEngines, EnginesStay};

use crate::common::{book_of_four, hide, note, order, put, put_at, show};
use book_api::{Book, Gate, NoGate};
use lb_base::{Memory, Seqnum, Tag};
use std::test::Fail;
use std::thread::Threads;

// What a book answers of the engines 1 and 2: its length, and of each its position, how many records of the tag 5 it has, the last
// that isn't hidden, and whether there are data of the first record.
fn state_of(book: &Book) -> [u64; 9]
    requires { HasEngines 4 book.now }
{
    let [position, count, last, noted] = state_at(book, 1);
    let [other_position, other_count, other_last, other_noted] = state_at(book, 2);
    [
        book.length(),
        position,
        count,
        last,
        noted,
        other_position,
        other_count,
        other_last,
        other_noted,
    ]
}

fn state_at(book: &Book, engine: u32) -> [u64; 4]
    requires { HasEngine engine book.now }
{
    [
        book.position(engine),
        book.count(engine, Tag(5)),
        last_of(book, engine),
        u64::from(book.aux(engine, Seqnum(1)).is_some()),
    ]
}

fn last_of(book: &Book, engine: u32) -> u64
    requires { HasEngine engine book.now }
{
    match book.check_tail(engine, Tag(5)) {
        Some(seq) => seq.0,
        None => 0,
    }
}

/// The calls of the history, in their order.
#[derive(Clone, Copy, Debug, PartialEq, Eq)]
enum Step {
    Put,
    PutAt,
    PutAgain,
    Hide,
    Order,
    Show,
    Note,
    ShowAll,
}

const STEPS: [Step; 8] = [
    Step::Put,
    Step::PutAt,
    Step::PutAgain,
    Step::Hide,
    Step::Order,
    Step::Show,
    Step::Note,
    Step::ShowAll,
];

fn does<R: Threads + Sync>(rt: &R, book: &mut Book, step: Step) -> Result<(), Memory>
    requires { HasEngines 4 book.old }
    ensures { EnginesStay book.old book.new }
{
    match step {
        Step::Put => put(book, 1, 5, "a").map(|_| ()),
        Step::PutAt => put_at(book, 2, 1, 5, "b").map(|_| ()),
        Step::PutAgain => put_at(book, 1, 1, 5, "c").map(|_| ()),
        Step::Hide => hide(book, 2, 5, 1).map(|_| ()),
        Step::Order => order(book).map(|_| ()),
        Step::Show => show(book, 1).map(|_| ()),
        Step::Note => note(book, 1, 1, "note").map(|_| ()),
        Step::ShowAll => show_all(rt, book),
    }
}

fn show_all<R: Threads + Sync>(rt: &R, book: &mut Book) -> Result<(), Memory>
    ensures { EnginesStay book.old book.new }
{
    match book.catch_all(rt, &NoGate) {
        Ok(_) => Ok(()),
        Err(Memory) => Err(Memory),
    }
}

// Does a step, once more where memory ran out, and answers whether the book was then as before. An engine that is caught up may
// have come some way.
fn tries<R: Threads + Sync>(rt: &R, book: &mut Book, step: Step) -> Result<bool, Memory>
    requires { HasEngines 4 book.old }
    ensures { EnginesStay book.old book.new }
{
    let before = state_of(book);
    if does(rt, book, step).is_ok() {
        return Ok(true);
    }
    let same = step == Step::Show || step == Step::ShowAll || state_of(book) == before;
    does(rt, book, step)?;
    Ok(same)
}

// Whether the book was as before each call for which memory ran out.
fn goes_through<R: Threads + Sync>(rt: &R, book: &mut Book) -> Result<bool, Memory>
    requires { HasEngines 4 book.old }
    ensures { EnginesStay book.old book.new }
{
    for step in STEPS {
        if !tries(rt, book, step)? {
            return Ok(false);
        }
    }
    Ok(true)
}

fn ends<R: Threads + Sync>(rt: &R, book: &mut Book) -> Result<(bool, [u64; 9]), Memory>
    requires { HasEngines 4 book.old }
{
    let same = goes_through(rt, book)?;
    Ok((same, state_of(book)))
}

#[test]
fn want_of_memory_changes_nothing(rt: HostRuntime) -> Result<(), Fail> {
    let mut book = book_of_four(rt.alloc())?;
    let end = ends(&rt, &mut book);
    drop(book);
    assert_eq!(rt; end?, (true, [4, 4, 2, 2, 1, 4, 2, 2, 0]));
    Ok(())
}
