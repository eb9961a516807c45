//! Reads at a marker, and free writes; all over an empty log.
ghost use Rattle.book_api.specs.Books.{HasEngine};

use crate::base::{integer, name, new_book, put, read, read_group, two_integers, two_names};
use book_api::Book;
use hm_write::{read_group_marked, read_marked, store_write};
use lb_base::{Memory, Seqnum, Value};
use obj_store::{Named, ObjStore, Put};
use std::alloc::Global;
use std::test::Fail;

fn free(alloc: Global, store: &ObjStore, cursor: u64) -> Result<Option<i64>, Memory> {
    let book = new_book(alloc)?;
    let answer = read(alloc, &book, store, cursor);
    drop(book);
    answer
}

fn free_group(alloc: Global, store: &ObjStore, cursor: u64) -> Result<Option<(i64, i64)>, Memory> {
    let book = new_book(alloc)?;
    let answer = read_group(alloc, &book, store, cursor);
    drop(book);
    answer
}

fn marked(alloc: Global, store: &mut ObjStore, at: u64) -> Result<Option<i64>, Memory> {
    let book = new_book(alloc)?;
    let answer = read_marked(alloc, &book, store, 1, "x", Seqnum(at));
    drop(book);
    Ok(integer(answer?))
}

fn marked_group(
    alloc: Global,
    store: &mut ObjStore,
    at: u64,
) -> Result<Option<(i64, i64)>, Memory> {
    let book = new_book(alloc)?;
    let answer = marked_two(alloc, &book, store, at);
    drop(book);
    answer
}

// A marked read of "y" and "x".
fn marked_two(
    alloc: Global,
    book: &Book,
    store: &mut ObjStore,
    at: u64,
) -> Result<Option<(i64, i64)>, Memory>
    requires { HasEngine 1 book.now }
{
    let keys = two_names(alloc)?;
    let answer = read_group_marked(alloc, book, store, 1, keys.as_slice(), Seqnum(at));
    drop(keys);
    Ok(two_integers(answer?))
}

// Fences "x" at 10, and puts a version there.
fn fence(alloc: Global, store: &mut ObjStore) -> Result<(), Memory> {
    marked(alloc, store, 10)?;
    put(store, "x", 10)?;
    Ok(())
}

// The same, and then sets the floor to 11.
fn fence_and_sweep(alloc: Global, store: &mut ObjStore) -> Result<(), Memory> {
    fence(alloc, store)?;
    store.sweep(Seqnum(11), &[])
}

fn marks_and_puts(alloc: Global, store: &mut ObjStore) -> Result<(Option<i64>, Put, Put), Memory> {
    let answer = marked(alloc, store, 10)?;
    let late = put(store, "x", 5)?;
    put(store, "x", 10)?;
    let again = put(store, "x", 10)?;
    Ok((answer, late, again))
}

#[test]
fn a_marked_read_makes_earlier_writes_late(rt: HostRuntime) -> Result<(), Fail> {
    let mut store = ObjStore::new(rt.alloc(), &[])?;
    let answers = marks_and_puts(rt.alloc(), &mut store);
    drop(store);
    assert_eq!(rt; answers?, (Some(0), Put::Late, Put::Done));
    Ok(())
}

fn reads_fenced(alloc: Global, store: &mut ObjStore) -> Result<(Option<i64>, Option<i64>), Memory> {
    fence(alloc, store)?;
    Ok((free(alloc, store, 10)?, free(alloc, store, 9)?))
}

#[test]
fn a_version_is_read_from_its_cursor_on(rt: HostRuntime) -> Result<(), Fail> {
    let mut store = ObjStore::new(rt.alloc(), &[])?;
    let answers = reads_fenced(rt.alloc(), &mut store);
    drop(store);
    assert_eq!(rt; answers?, (Some(9), Some(0)));
    Ok(())
}

fn marks_group(
    alloc: Global,
    store: &mut ObjStore,
) -> Result<(Option<(i64, i64)>, Put, Put), Memory> {
    fence(alloc, store)?;
    let answer = marked_group(alloc, store, 12)?;
    Ok((answer, put(store, "x", 11)?, put(store, "y", 11)?))
}

#[test]
fn a_marked_group_makes_earlier_writes_late(rt: HostRuntime) -> Result<(), Fail> {
    let mut store = ObjStore::new(rt.alloc(), &[])?;
    let answers = marks_group(rt.alloc(), &mut store);
    drop(store);
    assert_eq!(rt; answers?, (Some((0, 9)), Put::Late, Put::Late));
    Ok(())
}

fn writes_swept(alloc: Global, store: &mut ObjStore) -> Result<(Put, Named), Memory> {
    fence_and_sweep(alloc, store)?;
    let answer = put(store, "x", 10)?;
    let stored = store_write(store, name(), Seqnum(10), &Value::Int(9))?;
    Ok((answer, stored))
}

#[test]
fn writes_below_the_floor_are_gone(rt: HostRuntime) -> Result<(), Fail> {
    let mut store = ObjStore::new(rt.alloc(), &[])?;
    let answers = writes_swept(rt.alloc(), &mut store);
    let held = store.held();
    drop(store);
    assert_eq!(rt; answers?, (Put::Gone, Named::Gone));
    assert_eq!(rt; held, 1);
    Ok(())
}

fn reads_swept(
    alloc: Global,
    store: &mut ObjStore,
) -> Result<(Option<i64>, Option<i64>, Option<i64>), Memory> {
    fence_and_sweep(alloc, store)?;
    let at_floor = free(alloc, store, 11)?;
    let below = free(alloc, store, 10)?;
    Ok((at_floor, below, marked(alloc, store, 10)?))
}

#[test]
fn reads_below_the_floor_are_gone(rt: HostRuntime) -> Result<(), Fail> {
    let mut store = ObjStore::new(rt.alloc(), &[])?;
    let answers = reads_swept(rt.alloc(), &mut store);
    drop(store);
    assert_eq!(rt; answers?, (Some(9), None, None));
    Ok(())
}

fn reads_groups_swept(
    alloc: Global,
    store: &mut ObjStore,
) -> Result<(Option<(i64, i64)>, Option<(i64, i64)>), Memory> {
    fence_and_sweep(alloc, store)?;
    Ok((
        free_group(alloc, store, 10)?,
        marked_group(alloc, store, 10)?,
    ))
}

#[test]
fn group_reads_below_the_floor_are_gone(rt: HostRuntime) -> Result<(), Fail> {
    let mut store = ObjStore::new(rt.alloc(), &[])?;
    let answers = reads_groups_swept(rt.alloc(), &mut store);
    drop(store);
    assert_eq!(rt; answers?, (None, None));
    Ok(())
}
