//! The last logged write of an object.
ghost use Rattle.std.specs.Prelude.{◌≡◌, ◌≤◌, suc, length, true, option_map, IfOk};
ghost use Rattle.std.specs.Option.{option_copied};
ghost use Rattle.std.specs.List.Sorted.{IsNonDecreasing};
ghost use Rattle.boki_model.specs.Writes.{logged_write};
ghost use Rattle.book_api.specs.Books.{HasEngine};
ghost use Rattle.log_folds.specs.Bounds.{IsCountUpTo};
ghost use Rattle.obj_store.specs.Answers.{logged_parts};
ghost use Rattle.obj_store.specs.StandsFor.{last_logged, logged_of as write_to};
ghost use Rattle.step_log.specs.Sound.{Sound, body_of, view};
ghost use Rattle.hm_read.specs.LastWrites.{write_parts, written_at, last_written};

use boki_model::tag_classes::OBJECT_CLASS;
use book_api::Book;
use lb_base::{Memory, Seqnum, Value};
use obj_store::{Logged, Name};
use rec_codec::{Body, DecodeFault, decode, key_tag};
use std::alloc::Global;

/// A logged write of an object: its seqnum, its name, and its value where its record holds it.
#[derive(Debug, Drop)]
pub struct LastWrite {
    pub seq: Seqnum,
    pub name: Name,
    pub here: Option<Value>,
}

/// The write, where there is one, as a store is told of it.
pub fn logged_of(last: Option<&LastWrite>) -> Option<Logged<'_>>
    ensures { option_map logged_parts result ≡ option_map write_parts (option_copied last.entry) }
{
    match last {
        Some(write) => Some(Logged {
            seq: write.seq,
            name: write.name,
            here: write.here.as_ref(),
        }),
        None => None,
    }
}

/// The last logged write of an object with a seqnum at most `upto`, of the live ones that the engine sees, or None where there is
/// none. It goes over the records with the object's tag from `upto` down, and passes over writes of other objects, which may share
/// the tag. The book is to be sound.
pub fn last_write(
    alloc: Global,
    book: &Book,
    engine: u32,
    key: &str,
    upto: Seqnum,
) -> Result<Option<LastWrite>, Memory>
    requires { HasEngine engine book.now }
    ensures { Sound book.now → IfOk result (λ w. option_map write_parts w
        ≡ last_logged key.now (suc upto.0) (view book.now engine)) }
{
    let seqs = book.seqnums(engine, key_tag(OBJECT_CLASS, key));
    let count = count_upto(seqs, upto);
    last_of(alloc, book, key, &seqs[..count])
}

// How many of ascending seqnums are at most `upto`.
fn count_upto(seqs: &[u64], upto: Seqnum) -> usize
    ensures bound { result ≤ length seqs.now }
    ensures count { IsNonDecreasing seqs.now → IsCountUpTo upto.0 seqs.now result }
{
    seqs.partition_point(|seq| *seq <= upto.0)
}

// The write of the object at the last of the seqnums at which there is one.
fn last_of(alloc: Global, book: &Book, key: &str, seqs: &[u64]) -> Result<Option<LastWrite>, Memory>
    ensures { IfOk result (λ w. option_map write_parts w ≡ last_written book.now key.now seqs.now) }
{
    for past in 0..seqs.len() {
        let seq = seqs[seqs.len() - 1 - past];
        let write = write_at(alloc, book, key, Seqnum(seq))?;
        if write.is_some() {
            return Ok(write);
        }
    }
    Ok(None)
}

// The write of the object that the record with a seqnum says.
fn write_at(alloc: Global, book: &Book, key: &str, seq: Seqnum) -> Result<Option<LastWrite>, Memory>
    ensures { IfOk result (λ w. option_map write_parts w ≡ written_at book.now key.now seq.0) }
{
    match book.record(seq) {
        Some(rec) => write_of_bytes(alloc, key, seq, rec.bytes.as_slice()),
        None => Ok(None),
    }
}

// The write of the object that bytes say.
fn write_of_bytes(
    alloc: Global,
    key: &str,
    seq: Seqnum,
    bytes: &[u8],
) -> Result<Option<LastWrite>, Memory>
    ensures { IfOk result (λ w. option_map write_parts w
        ≡ write_to key.now seq.0 true (logged_write (body_of bytes.now))) }
{
    match decode(alloc, bytes) {
        Ok(body) => Ok(write_of(key, seq, body)),
        Err(DecodeFault::Bad(_)) => Ok(None),
        Err(DecodeFault::Memory) => Err(Memory),
    }
}

// The write of the object that a body is.
fn write_of(key: &str, seq: Seqnum, body: Body) -> Option<LastWrite>
    ensures { option_map write_parts result ≡ write_to key.now seq.0 true (logged_write body) }
{
    match body {
        Body::Write {
            path,
            place,
            key: written,
            value,
            ..
        } => {
            if key == written.as_str() {
                let name = Name { path, place };
                Some(LastWrite {
                    seq,
                    name,
                    here: value,
                })
            } else {
                None
            }
        }
        other => {
            drop(other);
            None
        }
    }
}
