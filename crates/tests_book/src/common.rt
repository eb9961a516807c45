//! Books of two shards, and the calls on them that the tests make.
ghost use Rattle.std.specs.Prelude.{◌≡◌, ◌≤◌, ◌<◌, ◌^◌, length, IfOk};
ghost use Rattle.book_api.specs.Books.{HasEngine};
ghost use Rattle.tests_book.specs.Engines.{HasEngines, EnginesStay};

use book_api::{Book, Cut, Sent};
use lb_base::{Memory, Seqnum, Tag};
use std::alloc::Global;

/// A book of two shards, without further replicas, and four engines.
pub(crate) fn book_of_four(alloc: Global) -> Result<Book, Memory>
    ensures { IfOk result (HasEngines 4) }
{
    Book::new(alloc, 2, 1, 4)
}

/// Appends a text with a tag.
pub(crate) fn put(book: &mut Book, engine: u32, tag: u64, text: &str) -> Result<Sent, Memory>
    requires engine { HasEngine engine book.old }
    requires text { length text.now ≤ 4096 }
    ensures { EnginesStay book.old book.new }
{
    book.append(engine, &[Tag(tag)], text.as_bytes())
}

/// Appends a text with a tag, to be live at a place.
pub(crate) fn put_at(
    book: &mut Book,
    engine: u32,
    place: u64,
    tag: u64,
    text: &str,
) -> Result<Sent, Memory>
    requires engine { HasEngine engine book.old }
    requires text { length text.now ≤ 4096 }
    ensures { EnginesStay book.old book.new }
{
    book.cond_append(engine, place, &[Tag(tag)], text.as_bytes())
}

/// Hides a tag's records up to a seqnum.
pub(crate) fn hide(book: &mut Book, engine: u32, tag: u8, upto: u64) -> Result<Sent, Memory>
    requires { HasEngine engine book.old }
    ensures { EnginesStay book.old book.new }
{
    book.trim(engine, Tag(u64::from(tag)), Seqnum(upto))
}

/// Orders what was appended.
pub(crate) fn order(book: &mut Book) -> Result<Cut, Memory>
    ensures { EnginesStay book.old book.new }
{
    book.cut()
}

/// Catches an engine up.
pub(crate) fn show(book: &mut Book, engine: u32) -> Result<u64, Memory>
    requires { HasEngine engine book.old }
    ensures { EnginesStay book.old book.new }
{
    book.catch_up(engine)
}

/// Takes from an engine what it had in memory.
pub(crate) fn lose(book: &mut Book, engine: u32)
    requires { HasEngine engine book.old }
    ensures { EnginesStay book.old book.new }
{
    book.restart(engine);
}

/// Sets an engine's auxiliary data of a record.
pub(crate) fn note(book: &mut Book, engine: u32, seq: u64, text: &str) -> Result<bool, Memory>
    requires { HasEngine engine book.old }
    ensures { EnginesStay book.old book.new }
{
    book.set_aux(engine, Seqnum(seq), text.as_bytes())
}
