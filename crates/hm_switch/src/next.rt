//! The next record that says something.
ghost use Rattle.std.specs.Prelude.{◌≡◌, ◌<◌, ◌≤◌, ◌^◌, ℕ, suc, IfOk, option_map};
ghost use Rattle.boki_model.specs.Reads.{next};
ghost use Rattle.book_api.specs.Books.{HasEngine, position};
ghost use Rattle.step_log.specs.Sound.{view, body_of};
ghost use Rattle.hm_switch.specs.Marks.{mark_of, mark_in};
ghost use Rattle.hm_switch.specs.Next.{IsNextMarked, earlier};

use crate::marks::{self, Mark};
use book_api::Book;
use lb_base::{Memory, Seqnum, Tag};
use rec_codec::{DecodeFault, decode};
use std::alloc::Global;

/// The tag of switches: of class 3.
const SWITCHES: Tag = Tag(216_172_782_113_783_808);

/// The tag of trims: of class 4.
const TRIMS: Tag = Tag(288_230_376_151_711_744);

/// The tag of Inits and Finishes: of class 9.
const LIVES: Tag = Tag(648_518_346_341_351_424);

/// The first record behind a seqnum that says something, of those that the engine sees.
pub(crate) fn next_marked(book: &Book, engine: u32, behind: u64) -> Option<Seqnum>
    requires engine { HasEngine engine book.now }
    requires room { suc behind < 2 ^ 64 }
    ensures { IsNextMarked (position book.now engine) behind (option_map (λ seq. seq.0) result) (view book.now engine) }
{
    let switch = next_with(book, engine, SWITCHES, behind);
    let trim = next_with(book, engine, TRIMS, behind);
    let life = next_with(book, engine, LIVES, behind);
    earlier(earlier(switch, trim), life)
}

// The first record of a tag behind a seqnum.
fn next_with(book: &Book, engine: u32, tag: Tag, behind: u64) -> Option<Seqnum>
    requires engine { HasEngine engine book.now }
    requires room { suc behind < 2 ^ 64 }
    requires tag { 2 ^ 56 ≤ tag.0 }
    ensures { option_map (λ seq. seq.0) result ≡ next tag.0 (suc behind) (view book.now engine) }
{
    book.read_next(engine, tag, Seqnum(behind + 1))
}

// The earlier of two seqnums, where they are there.
fn earlier(one: Option<Seqnum>, other: Option<Seqnum>) -> Option<Seqnum>
    ensures { option_map (λ seq. seq.0) result ≡ earlier (option_map (λ seq. seq.0) one) (option_map (λ seq. seq.0) other) }
{
    match (one, other) {
        (Some(a), Some(b)) => if a.0 <= b.0 { Some(a) } else { Some(b) },
        (Some(a), None) => Some(a),
        (None, b) => b,
    }
}

/// What the ordered record with a seqnum says.
pub(crate) fn mark_at(alloc: Global, book: &Book, seq: Seqnum) -> Result<Mark, Memory>
    ensures { IfOk result (λ mark. mark ≡ mark_in book.now seq.0) }
{
    match book.record(seq) {
        Some(rec) => mark_of_bytes(alloc, rec.bytes.as_slice()),
        None => Ok(Mark::Other),
    }
}

// What bytes say.
fn mark_of_bytes(alloc: Global, bytes: &[u8]) -> Result<Mark, Memory>
    ensures { IfOk result (λ mark. mark ≡ mark_of (body_of bytes.now)) }
{
    match decode(alloc, bytes) {
        Ok(body) => {
            let mark = marks::mark_of(&body);
            drop(body);
            Ok(mark)
        }
        Err(DecodeFault::Bad(_)) => Ok(Mark::SwitchEnd),
        Err(DecodeFault::Memory) => Err(Memory),
    }
}
