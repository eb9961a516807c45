//! Reads at positions, records that are live and dead, and trimmed tags.
ghost use Rattle.std.specs.Prelude.{◌≡◌, ◌≤◌, ◌<◌, length};
ghost use Rattle.book_api.specs.Books.{HasEngine};
ghost use Rattle.tests_book.specs.Engines.{HasEngines, EnginesStay};

use crate::common::{book_of_four, hide, order, put, put_at, show};
use book_api::{Book, Cut, Index, Sent, Settle};
use lb_base::{Memory, Seqnum, Tag};
use std::alloc::Global;
use std::test::Fail;

// Three records, two of them with the tag 5, which engine 1 sees and engine 2 doesn't.
fn three_records(book: &mut Book) -> Result<[Sent; 3], Memory>
    requires { HasEngines 4 book.old }
    ensures { EnginesStay book.old book.new }
{
    let first = put(book, 1, 5, "a")?;
    let second = put(book, 2, 5, "b")?;
    let third = put(book, 1, 6, "c")?;
    order(book)?;
    show(book, 1)?;
    Ok([first, second, third])
}

// The engine's reads of the tag 5.
fn reads_of(book: &Book, engine: u32) -> [Option<Seqnum>; 4]
    requires { HasEngine engine book.now }
{
    [
        book.nth(engine, Tag(5), 1),
        book.read_next(engine, Tag(5), Seqnum(2)),
        book.read_prev(engine, Tag(5), Seqnum(2)),
        book.check_tail(engine, Tag(5)),
    ]
}

#[test]
fn an_append_answers_its_location(rt: HostRuntime) -> Result<(), Fail> {
    let mut book = book_of_four(rt.alloc())?;
    let sent = three_records(&mut book);
    drop(book);
    let [first, second, third] = sent?;
    assert_eq!(rt; first, Sent { shard: 1, local: 1 });
    assert_eq!(rt; second, Sent { shard: 2, local: 1 });
    assert_eq!(rt; third, Sent { shard: 1, local: 2 });
    Ok(())
}

// What two cuts answer, and how many records are ordered before the first.
fn two_cuts(book: &mut Book) -> Result<(u64, Cut, Cut), Memory>
    requires { HasEngines 4 book.old }
{
    put(book, 1, 5, "a")?;
    let before = book.length();
    let first = order(book)?;
    let second = order(book)?;
    Ok((before, first, second))
}

#[test]
fn a_cut_orders_what_is_new(rt: HostRuntime) -> Result<(), Fail> {
    let mut book = book_of_four(rt.alloc())?;
    let cuts = two_cuts(&mut book);
    drop(book);
    assert_eq!(rt; cuts?, (0, Cut::Entry(1), Cut::Same));
    Ok(())
}

// The reads of two engines of which one has seen the log.
fn two_views(book: &mut Book) -> Result<([Option<Seqnum>; 4], [Option<Seqnum>; 4]), Memory>
    requires { HasEngines 4 book.old }
{
    three_records(book)?;
    Ok((reads_of(book, 1), reads_of(book, 2)))
}

#[test]
fn each_engine_reads_at_its_position(rt: HostRuntime) -> Result<(), Fail> {
    let mut book = book_of_four(rt.alloc())?;
    let reads = two_views(&mut book);
    drop(book);
    let (one, two) = reads?;
    assert_eq!(rt;
        one,
        [
            Some(Seqnum(3)),
            Some(Seqnum(3)),
            Some(Seqnum(1)),
            Some(Seqnum(3))
        ]
    );
    assert_eq!(rt; two, [None, None, None, None]);
    Ok(())
}

// Whether the first engine counts, lists and finds what it sees.
fn lists_and_finds(book: &mut Book) -> Result<bool, Memory>
    requires { HasEngines 4 book.old }
{
    three_records(book)?;
    let counted = book.count(1, Tag(5)) == 2 && book.count(2, Tag(5)) == 0;
    let listed = book.seqnums(1, Tag(5)) == [1u64, 3].as_slice()
        && book.seqnums(2, Tag(5)).is_empty();
    Ok(counted && listed && finds(book))
}

fn finds(book: &Book) -> bool {
    let there = match book.record(Seqnum(3)) {
        Some(rec) => rec.bytes.as_slice() == b"b".as_slice(),
        None => false,
    };
    there && book.record(Seqnum(0)).is_none() && book.record(Seqnum(4)).is_none()
}

#[test]
fn lists_records_and_finds_them(rt: HostRuntime) -> Result<(), Fail> {
    let mut book = book_of_four(rt.alloc())?;
    let right = lists_and_finds(&mut book);
    drop(book);
    assert!(rt; right?);
    Ok(())
}

// What became of two records that were sent for one place: before the cut, then for an engine that sees it, then for another.
fn two_at_a_place(book: &mut Book) -> Result<[Option<Settle>; 4], Memory>
    requires { HasEngines 4 book.old }
{
    let first = put_at(book, 2, 0, 7, "first")?;
    let second = put_at(book, 2, 0, 7, "second")?;
    let before = book.settled(1, first);
    order(book)?;
    show(book, 1)?;
    Ok([
        before,
        book.settled(1, first),
        book.settled(1, second),
        book.settled(2, first),
    ])
}

#[test]
fn the_second_at_a_place_is_taken(rt: HostRuntime) -> Result<(), Fail> {
    let mut book = book_of_four(rt.alloc())?;
    let settled = two_at_a_place(&mut book);
    drop(book);
    let [before, first, second, unseen] = settled?;
    assert_eq!(rt; before, None);
    assert_eq!(rt; first, Some(Settle::Placed(Seqnum(1))));
    assert_eq!(rt; second, Some(Settle::Taken(Seqnum(2))));
    assert_eq!(rt; unseen, None);
    Ok(())
}

// Two records that were sent for one place, which the first engine sees.
fn one_place(book: &mut Book) -> Result<(), Memory>
    requires { HasEngines 4 book.old }
    ensures { EnginesStay book.old book.new }
{
    put_at(book, 2, 0, 7, "first")?;
    put_at(book, 2, 0, 7, "second")?;
    order(book)?;
    show(book, 1)?;
    Ok(())
}

// Whether seqnums are those of live records: for an engine that sees two, and for one that sees none.
fn live_of_two(book: &mut Book) -> Result<[bool; 5], Memory>
    requires { HasEngines 4 book.old }
{
    one_place(book)?;
    Ok([
        book.is_live(1, Seqnum(0)),
        book.is_live(1, Seqnum(1)),
        book.is_live(1, Seqnum(2)),
        book.is_live(1, Seqnum(3)),
        book.is_live(2, Seqnum(1)),
    ])
}

#[test]
fn the_first_at_a_place_is_live(rt: HostRuntime) -> Result<(), Fail> {
    let mut book = book_of_four(rt.alloc())?;
    let live = live_of_two(&mut book);
    drop(book);
    assert_eq!(rt; live?, [false, true, false, false, false]);
    Ok(())
}

// What an index of the whole list tells of the tag 7, of which one more record is ordered than an engine has seen, and one more
// sent; and the position of that engine.
fn whole_of_three(alloc: Global, book: &mut Book) -> Result<(u64, u64, Option<Seqnum>, u64), Memory>
    requires { HasEngines 4 book.old }
{
    one_place(book)?;
    put(book, 2, 7, "third")?;
    order(book)?;
    put(book, 2, 7, "fourth")?;
    let index = book.whole(alloc)?;
    let (length, count, last) = told_by(&index);
    drop(index);
    Ok((length, count, last, book.position(1)))
}

fn told_by(index: &Index) -> (u64, u64, Option<Seqnum>) {
    (
        index.position(),
        index.count(Tag(7)),
        index.prev(Tag(7), Seqnum(u64::MAX)),
    )
}

#[test]
fn an_index_of_the_whole_list(rt: HostRuntime) -> Result<(), Fail> {
    let mut book = book_of_four(rt.alloc())?;
    let told = whole_of_three(rt.alloc(), &mut book);
    drop(book);
    assert_eq!(rt; told?, (3, 2, Some(Seqnum(3)), 2));
    Ok(())
}

// Reads of a tag whose first record is hidden, of a tag that none can trim, and how many records the tag has.
fn trimmed(book: &mut Book) -> Result<([Option<Seqnum>; 3], u64), Memory>
    requires { HasEngines 4 book.old }
{
    put(book, 1, 5, "a")?;
    put(book, 1, 5, "b")?;
    hide(book, 1, 5, 1)?;
    order(book)?;
    show(book, 2)?;
    let next = book.read_next(2, Tag(5), Seqnum(0));
    let prev = book.read_prev(2, Tag(5), Seqnum(1));
    let none = book.read_next(2, Tag(u64::MAX), Seqnum(0));
    Ok(([next, prev, none], book.count(2, Tag(5))))
}

#[test]
fn trimmed_records_are_hidden(rt: HostRuntime) -> Result<(), Fail> {
    let mut book = book_of_four(rt.alloc())?;
    let reads = trimmed(&mut book);
    drop(book);
    assert_eq!(rt; reads?, ([Some(Seqnum(2)), None, None], 2));
    Ok(())
}
