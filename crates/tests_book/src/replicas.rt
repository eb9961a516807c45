//! A record is ordered once each replica of its shard has it.
ghost use Rattle.std.specs.Prelude.{◌≡◌, ◌≤◌, ◌<◌, length, IfOk};
ghost use Rattle.tests_book.specs.Engines.{HasEngines, HasSecondReplica};

use book_api::{Book, Cut};
use lb_base::{Memory, Tag};
use std::alloc::Global;
use std::test::Fail;

// A book of one shard with two replicas.
fn book_of_two(alloc: Global) -> Result<Book, Memory>
    ensures engines { IfOk result (HasEngines 1) }
    ensures replicas { IfOk result HasSecondReplica }
{
    Book::new(alloc, 1, 2, 1)
}

fn put_one(book: &mut Book) -> Result<(), Memory>
    requires engines { HasEngines 1 book.old }
    requires replicas { HasSecondReplica book.old }
    ensures replicas { HasSecondReplica book.new }
{
    book.append(1, &[Tag(5)], b"a")?;
    Ok(())
}

fn cut(book: &mut Book) -> Result<Cut, Memory>
    requires { HasSecondReplica book.old }
    ensures { HasSecondReplica book.new }
{
    book.cut()
}

fn copy(book: &mut Book) -> u64
    requires { HasSecondReplica book.old }
    ensures { HasSecondReplica book.new }
{
    book.copy(1, 2, 5)
}

// What a cut answers before the second replica has the record; how many records two copies move; and what a cut answers then.
fn copied(book: &mut Book) -> Result<(Cut, [u64; 2], Cut), Memory>
    requires engines { HasEngines 1 book.old }
    requires replicas { HasSecondReplica book.old }
{
    put_one(book)?;
    let early = cut(book)?;
    let copies = [copy(book), copy(book)];
    let late = cut(book)?;
    Ok((early, copies, late))
}

#[test]
fn a_cut_waits_for_the_replicas(rt: HostRuntime) -> Result<(), Fail> {
    let mut book = book_of_two(rt.alloc())?;
    let answers = copied(&mut book);
    drop(book);
    assert_eq!(rt; answers?, (Cut::Same, [1, 0], Cut::Entry(1)));
    Ok(())
}
