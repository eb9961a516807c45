//! Auxiliary data, and engines that have lost what they had in memory.
ghost use Rattle.std.specs.Prelude.{◌≡◌, ◌≤◌, ◌<◌, length};
ghost use Rattle.book_api.specs.Books.{HasEngine};
ghost use Rattle.tests_book.specs.Engines.{HasEngines, EnginesStay};

use crate::common::{book_of_four, lose, note, order, put, show};
use book_api::Book;
use lb_base::{Memory, Seqnum, Tag};
use std::test::Fail;

// One record, which engine 1 sees.
fn one_record(book: &mut Book) -> Result<(), Memory>
    requires { HasEngines 4 book.old }
    ensures { EnginesStay book.old book.new }
{
    put(book, 1, 5, "a")?;
    order(book)?;
    show(book, 1)?;
    Ok(())
}

// Whether the engine has these data of the first record.
fn has_note(book: &Book, engine: u32, text: &str) -> bool
    requires { HasEngine engine book.now }
{
    match book.aux(engine, Seqnum(1)) {
        Some(bytes) => bytes.as_slice() == text.as_bytes(),
        None => false,
    }
}

// Whether data are set of what the engine sees, and of nothing else.
fn sets_what_is_seen(book: &mut Book) -> Result<[bool; 4], Memory>
    requires { HasEngines 4 book.old }
{
    one_record(book)?;
    let seen = note(book, 1, 1, "note")?;
    let late = note(book, 1, 2, "late")?;
    let unseen = note(book, 2, 1, "unseen")?;
    Ok([seen, late, unseen, has_note(book, 1, "note")])
}

#[test]
fn data_are_of_what_is_seen(rt: HostRuntime) -> Result<(), Fail> {
    let mut book = book_of_four(rt.alloc())?;
    let set = sets_what_is_seen(&mut book);
    drop(book);
    assert_eq!(rt; set?, [true, false, false, true]);
    Ok(())
}

// The position, whether there are data, and how many records are seen, behind a restart; and the last two once it is caught up.
fn restarted(book: &mut Book) -> Result<(u64, bool, u64, bool, u64), Memory>
    requires { HasEngines 4 book.old }
{
    one_record(book)?;
    note(book, 1, 1, "note")?;
    lose(book, 1);
    let (position, noted, count) = (
        book.position(1),
        has_note(book, 1, "note"),
        book.count(1, Tag(5)),
    );
    show(book, 1)?;
    Ok((
        position,
        noted,
        count,
        has_note(book, 1, "note"),
        book.count(1, Tag(5)),
    ))
}

#[test]
fn a_restarted_engine_has_lost_its_data(rt: HostRuntime) -> Result<(), Fail> {
    let mut book = book_of_four(rt.alloc())?;
    let seen = restarted(&mut book);
    drop(book);
    assert_eq!(rt; seen?, (0, false, 0, false, 1));
    Ok(())
}

fn put_many(book: &mut Book, count: u64) -> Result<(), Memory>
    requires { HasEngines 4 book.old }
    ensures { EnginesStay book.old book.new }
{
    for _ in 0..count {
        put(book, 1, 5, "a")?;
    }
    Ok(())
}

// Sets data of so many records, the first of them first.
fn note_many(book: &mut Book, count: u64) -> Result<(), Memory>
    requires { HasEngines 4 book.old }
    ensures { EnginesStay book.old book.new }
{
    for index in 0..count {
        note(book, 1, index.wrapping_add(1), "note")?;
    }
    Ok(())
}

// Data of 65 records, of which the first is used again before the last is set: whether the first and the second are there then.
fn sixty_five(book: &mut Book) -> Result<(bool, bool), Memory>
    requires { HasEngines 4 book.old }
{
    put_many(book, 65)?;
    order(book)?;
    show(book, 1)?;
    note_many(book, 64)?;
    book.get_aux(1, Seqnum(1));
    note(book, 1, 65, "note")?;
    Ok((
        book.aux(1, Seqnum(1)).is_some(),
        book.aux(1, Seqnum(2)).is_some(),
    ))
}

#[test]
fn a_look_keeps_data(rt: HostRuntime) -> Result<(), Fail> {
    let mut book = book_of_four(rt.alloc())?;
    let there = sixty_five(&mut book);
    drop(book);
    assert_eq!(rt; there?, (true, false));
    Ok(())
}
