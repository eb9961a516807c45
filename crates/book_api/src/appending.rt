//! Appends.
ghost use Rattle.std.specs.Prelude.{◌≡◌, ◌<◌, ◌≤◌, ◌^◌, length, IfOk, OnErr};
ghost use Rattle.book_api.specs.Books.{HasEngine, IsSent, unconditional_record, conditional_record, trim_record};

use crate::book::Book;
use boki_types::{Body, Sent};
use lb_base::{Cond, List, Memory, Record, Seqnum, Tag};
use rec_codec::{encode, tags_of};
use std::alloc::Global;

/// The most records of a book.
const MOST_RECORDS: u64 = 9_223_372_036_854_775_808;

impl Book {
    /// Adds a record to the engine's home shard, and answers where it stands. It is live wherever it is ordered. It needs 1 to 8
    /// tags and at most 4,096 bytes, of both of which the record has copies.
    ///
    /// After `Memory` the book is as before. It comes too where the book has 2^63 records, which no clause says; so in each call that
    /// adds a record.
    pub fn append(&mut self, engine: u32, tags: &[Tag], bytes: &[u8]) -> Result<Sent, Memory>
        requires engine { HasEngine engine self.old }
        requires tags { (1 ≤ length tags.now) × (length tags.now ≤ 8) }
        requires bytes { length bytes.now ≤ 4096 }
        ensures ok { IfOk result (IsSent engine (unconditional_record tags.now bytes.now) self.old self.new) }
        ensures err { OnErr result (self.new ≡ self.old) }
    {
        let rec = new_record(self.alloc, None, tags, bytes)?;
        self.send(engine, rec)
    }

    /// Adds a record to the engine's home shard that is live exactly where so many live records with its first tag are ordered
    /// before it, and answers where it stands. After `Memory` the book is as before.
    pub fn cond_append(
        &mut self,
        engine: u32,
        place: u64,
        tags: &[Tag],
        bytes: &[u8],
    ) -> Result<Sent, Memory>
        requires engine { HasEngine engine self.old }
        requires tags { (1 ≤ length tags.now) × (length tags.now ≤ 8) }
        requires bytes { length bytes.now ≤ 4096 }
        ensures ok { IfOk result (IsSent engine (conditional_record place tags.now bytes.now) self.old self.new) }
        ensures err { OnErr result (self.new ≡ self.old) }
    {
        let cond = Cond {
            tag: tags[0],
            place,
        };
        let rec = new_record(self.alloc, Some(cond), tags, bytes)?;
        self.send(engine, rec)
    }

    /// Adds this record to the engine's home shard, and answers where it stands. Nothing is copied. After `Memory` the book is as
    /// before, and the record is dropped.
    pub fn send(&mut self, engine: u32, rec: Record) -> Result<Sent, Memory>
        requires { HasEngine engine self.old }
        ensures ok { IfOk result (IsSent engine rec self.old self.new) }
        ensures err { OnErr result (self.new ≡ self.old) }
    {
        if self.sent == MOST_RECORDS {
            return Err(Memory);
        }
        let shard = (engine - 1) % self.progress.len() as u32 + 1;
        let local = self.shards.append(shard, rec)?;
        self.sent += 1;
        Ok(Sent { shard, local })
    }

    /// Hides the live records of a user's tag up to a seqnum, by a record, and answers where it stands: reads see them no longer
    /// where they see that record, but for those behind it. After `Memory` the book is as before.
    pub fn trim(&mut self, engine: u32, tag: Tag, upto: Seqnum) -> Result<Sent, Memory>
        requires engine { HasEngine engine self.old }
        requires user { tag.0 < 2 ^ 56 }
        ensures ok { IfOk result (IsSent engine (trim_record tag.0 upto.0) self.old self.new) }
        ensures err { OnErr result (self.new ≡ self.old) }
    {
        let rec = new_trim(self.alloc, tag, upto)?;
        self.send(engine, rec)
    }
}

// The record of a trimmed tag.
fn new_trim(alloc: Global, tag: Tag, upto: Seqnum) -> Result<Record, Memory>
    requires { tag.0 < 2 ^ 56 }
    ensures { IfOk result (λ rec. rec ≡ trim_record tag.0 upto.0) }
{
    let body = Body::TrimTag {
        number: tag.0,
        upto: upto.0,
    };
    let tags = tags_of(alloc, &body)?;
    let Ok(bytes) = encode(alloc, &body) else {
        return Err(Memory);
    };
    Ok(Record {
        tags,
        cond: None,
        bytes,
    })
}

// A record of copies of these tags and bytes.
fn new_record(
    alloc: Global,
    cond: Option<Cond>,
    tags: &[Tag],
    bytes: &[u8],
) -> Result<Record, Memory>
    ensures { IfOk result (λ rec. rec ≡ record { tags = tags.now; cond = cond; bytes = bytes.now }) }
{
    Ok(Record {
        tags: List::from_slice(alloc, tags)?,
        cond,
        bytes: List::from_slice(alloc, bytes)?,
    })
}
