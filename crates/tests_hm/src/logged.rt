//! Logged writes, and free reads of them.
ghost use Rattle.book_api.specs.Books.{HasEngine};

use crate::base::{book_with_write, name, new_book, path, read, read_group, two_names};
use book_api::{Book, Sent};
use hm_write::{mark_group, mark_read, store_write};
use lb_base::{Memory, Seqnum, Value};
use obj_store::{Named, ObjStore};
use std::alloc::Global;
use std::test::Fail;

fn store_four(store: &mut ObjStore) -> Result<Named, Memory> {
    store_write(store, name(), Seqnum(0), &Value::Int(4))
}

// A store that has 4 under the name.
fn named(alloc: Global) -> Result<ObjStore, Memory> {
    let mut store = ObjStore::new(alloc, &[])?;
    match store_four(&mut store) {
        Ok(_) => Ok(store),
        Err(Memory) => {
            drop(store);
            Err(Memory)
        }
    }
}

#[test]
fn a_name_is_stored_once(rt: HostRuntime) -> Result<(), Fail> {
    let mut store = named(rt.alloc())?;
    let again = store_four(&mut store);
    let held = store.held();
    drop(store);
    assert_eq!(rt; again?, Named::Done);
    assert_eq!(rt; held, 1);
    Ok(())
}

// Free reads at 1 and 0, over a store that has 4 under the name.
fn reads(alloc: Global, book: &Book) -> Result<(Option<i64>, Option<i64>), Memory>
    requires { HasEngine 1 book.now }
{
    let store = named(alloc)?;
    let one = read(alloc, book, &store, 1);
    let zero = read(alloc, book, &store, 0);
    drop(store);
    Ok((one?, zero?))
}

#[test]
fn a_logged_write_is_read_by_its_name(rt: HostRuntime) -> Result<(), Fail> {
    let book = book_with_write(rt.alloc(), None)?;
    let answers = reads(rt.alloc(), &book);
    drop(book);
    assert_eq!(rt; answers?, (Some(4), Some(0)));
    Ok(())
}

#[test]
fn an_inline_write_is_read_from_its_record(rt: HostRuntime) -> Result<(), Fail> {
    let book = book_with_write(rt.alloc(), Some(&Value::Int(5)))?;
    let answers = reads(rt.alloc(), &book);
    drop(book);
    assert_eq!(rt; answers?, (Some(5), Some(0)));
    Ok(())
}

// A free read of "y" and "x" at 1, over the same store.
fn reads_group(alloc: Global, book: &Book) -> Result<Option<(i64, i64)>, Memory>
    requires { HasEngine 1 book.now }
{
    let store = named(alloc)?;
    let answer = read_group(alloc, book, &store, 1);
    drop(store);
    answer
}

#[test]
fn a_group_is_read_in_its_order(rt: HostRuntime) -> Result<(), Fail> {
    let book = book_with_write(rt.alloc(), None)?;
    let answer = reads_group(rt.alloc(), &book);
    drop(book);
    assert_eq!(rt; answer?, Some((0, 4)));
    Ok(())
}

fn mark_two(alloc: Global, book: &mut Book) -> Result<Sent, Memory>
    requires { HasEngine 1 book.old }
{
    let keys = two_names(alloc)?;
    let sent = mark_group(alloc, book, 1, path(), 0, 1, keys.as_slice());
    drop(keys);
    sent
}

#[test]
fn a_marker_is_sent(rt: HostRuntime) -> Result<(), Fail> {
    let mut book = new_book(rt.alloc())?;
    let sent = mark_read(rt.alloc(), &mut book, 1, path(), 0, 1, "x");
    drop(book);
    let sent = sent?;
    assert_eq!(rt; (sent.shard, sent.local), (1, 1));
    Ok(())
}

#[test]
fn a_group_marker_is_sent(rt: HostRuntime) -> Result<(), Fail> {
    let mut book = new_book(rt.alloc())?;
    let sent = mark_two(rt.alloc(), &mut book);
    drop(book);
    let sent = sent?;
    assert_eq!(rt; (sent.shard, sent.local), (1, 1));
    Ok(())
}
