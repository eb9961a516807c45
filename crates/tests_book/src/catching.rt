//! All engines are caught up at once, few records behind and many, with the gate that is always open and with one of one's own.
ghost use Rattle.std.specs.Prelude.{◌≡◌, ◌≤◌, ◌<◌, length};
ghost use Rattle.book_api.specs.Books.{HasEngine};
ghost use Rattle.tests_book.specs.Engines.{HasEngines, EnginesStay};

use crate::common::{book_of_four, order, put, show};
use book_api::{Book, Gate, NoGate};
use lb_base::{Memory, Seqnum, Tag};
use std::alloc::Global;
use std::test::Fail;
use std::thread::Threads;

// So many records of the tag 5 and so many of the tag 6, in turn.
fn put_many(book: &mut Book, count: u64) -> Result<(), Memory>
    requires { HasEngines 4 book.old }
    ensures { EnginesStay book.old book.new }
{
    for _ in 0..count {
        put(book, 1, 5, "five")?;
        put(book, 2, 6, "six")?;
    }
    order(book)?;
    Ok(())
}

// What an engine sees: its position, how many records of the tag 5, and the last of them.
type View = (u64, u64, Option<Seqnum>);

fn view_of(book: &Book, engine: u32) -> View
    requires { HasEngine engine book.now }
{
    (
        book.position(engine),
        book.count(engine, Tag(5)),
        book.check_tail(engine, Tag(5)),
    )
}

fn views_of(book: &Book) -> [View; 4]
    requires { HasEngines 4 book.now }
{
    [
        view_of(book, 1),
        view_of(book, 2),
        view_of(book, 3),
        view_of(book, 4),
    ]
}

// What the engines see of so many records once all are caught up, of which one was before.
fn catch_all<G: Gate + Sync, R: Threads + Sync>(
    rt: &R,
    book: &mut Book,
    gate: &G,
    count: u64,
) -> Result<[View; 4], Memory>
    requires { HasEngines 4 book.old }
{
    put_many(book, 3)?;
    show(book, 2)?;
    put_many(book, count)?;
    all_at_once(rt, book, gate)?;
    Ok(views_of(book))
}

fn all_at_once<G: Gate + Sync, R: Threads + Sync>(
    rt: &R,
    book: &mut Book,
    gate: &G,
) -> Result<u64, Memory>
    ensures { EnginesStay book.old book.new }
{
    book.catch_all(rt, gate)
}

// The same where they are caught up in turn.
fn catch_each(book: &mut Book, count: u64) -> Result<[View; 4], Memory>
    requires { HasEngines 4 book.old }
{
    put_many(book, 3)?;
    show(book, 2)?;
    put_many(book, count)?;
    show(book, 1)?;
    show(book, 2)?;
    show(book, 3)?;
    show(book, 4)?;
    Ok(views_of(book))
}

fn in_turn(alloc: Global, count: u64) -> Result<[View; 4], Memory> {
    let mut book = book_of_four(alloc)?;
    catch_each(&mut book, count)
}

fn at_once<G: Gate + Sync, R: Threads + Sync>(
    rt: &R,
    alloc: Global,
    gate: &G,
    count: u64,
) -> Result<[View; 4], Memory> {
    let mut book = book_of_four(alloc)?;
    catch_all(rt, &mut book, gate, count)
}

// A gate of one's own, with which there are always threads.
struct Open;

impl Gate for Open {
    fn enter(&self, _engine: u32) {}
}

#[test]
fn few_are_caught_up_without_threads(rt: HostRuntime) -> Result<(), Fail> {
    let views = at_once(&rt, rt.alloc(), &NoGate, 10)?;
    assert_eq!(rt; views, in_turn(rt.alloc(), 10)?);
    assert_eq!(rt; views[3], (26, 13, Some(Seqnum(16))));
    Ok(())
}

#[test]
fn few_are_caught_up_in_threads(rt: HostRuntime) -> Result<(), Fail> {
    let views = at_once(&rt, rt.alloc(), &Open, 10)?;
    assert_eq!(rt; views, in_turn(rt.alloc(), 10)?);
    Ok(())
}

#[test]
fn many_are_caught_up_in_threads(rt: HostRuntime) -> Result<(), Fail> {
    let views = at_once(&rt, rt.alloc(), &NoGate, 2_100)?;
    assert_eq!(rt; views, in_turn(rt.alloc(), 2_100)?);
    assert_eq!(rt; views[3].0, 4_206);
    Ok(())
}

// The position of the last engine of a book with so many of them, behind two records.
fn last_of<R: Threads + Sync>(rt: &R, alloc: Global, engines: u32) -> Result<u64, Memory>
    requires { (1 ≤ engines) × (engines ≤ 16) }
{
    let mut book = Book::new(alloc, 1, 1, engines)?;
    let caught = caught_up(rt, &mut book, engines);
    drop(book);
    caught
}

fn caught_up<R: Threads + Sync>(rt: &R, book: &mut Book, engines: u32) -> Result<u64, Memory>
    requires { (1 ≤ engines) × HasEngines engines book.old }
{
    put(book, 1, 5, "a")?;
    put(book, engines, 5, "b")?;
    order(book)?;
    all_at_once(rt, book, &Open)?;
    Ok(book.position(engines))
}

#[test]
fn any_number_of_engines_is_caught_up(rt: HostRuntime) -> Result<(), Fail> {
    for engines in 1..17u32 {
        let position = last_of(&rt, rt.alloc(), engines)?;
        assert_eq!(rt; position, 2, "of {engines}");
    }
    Ok(())
}
