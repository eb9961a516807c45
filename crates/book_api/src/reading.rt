//! Reads at an engine's position.
ghost use Rattle.std.specs.Prelude.{◌≡◌, ◌≤◌, ◌^◌, reverse, option_map};
ghost use Rattle.boki_model.specs.Live.{count, is_live};
ghost use Rattle.boki_model.specs.Reads.{tagged_seqnums, nth_seq, read_next, read_prev, hidden_bound};
ghost use Rattle.book_api.specs.Books.{HasEngine, position, seen, settled, ordered, trim_of_bytes};
ghost use Rattle.book_api.specs.Trims.{bound_of, bound_at};

use crate::book::Book;
use boki_types::{Sent, Settle};
use lb_base::{Seqnum, Tag};
use rec_codec::trim_tag_of;

/// The first number that is no user's tag.
const USER_TAGS: u64 = 72_057_594_037_927_936;

impl Book {
    /// The live record of the tag at a place, of those that the engine sees, or None where there is none. Places are counted from
    /// 0, over the tag's live records, hidden ones too. It takes no memory, as no read does.
    pub fn nth(&self, engine: u32, tag: Tag, place: u64) -> Option<Seqnum>
        requires { HasEngine engine self.now }
        ensures { option_map (λ seq. seq.0) result ≡ nth_seq tag.0 place (seen self.now engine) }
    {
        self.index_of(engine).nth(tag, place)
    }

    /// How many live records of the tag the engine sees, hidden ones too.
    pub fn count(&self, engine: u32, tag: Tag) -> u64
        requires { HasEngine engine self.now }
        ensures { result ≡ count tag.0 (seen self.now engine) }
    {
        self.index_of(engine).count(tag)
    }

    /// The seqnums of the tag's live records that the engine sees, ascending, hidden ones too. They are lent.
    pub fn seqnums(&self, engine: u32, tag: Tag) -> &[u64]
        requires { HasEngine engine self.now }
        ensures { result.now ≡ reverse (tagged_seqnums tag.0 (seen self.now engine)) }
    {
        self.index_of(engine).seqnums(tag)
    }

    /// The first live record of the tag at or behind a seqnum that the engine sees and that isn't hidden, or None where there is
    /// none.
    pub fn read_next(&self, engine: u32, tag: Tag, from: Seqnum) -> Option<Seqnum>
        requires { HasEngine engine self.now }
        ensures { option_map (λ seq. seq.0) result ≡ read_next trim_of_bytes tag.0 from.0 (seen self.now engine) }
    {
        let behind = self.hidden(engine, tag) + 1;
        self.index_of(engine).next(tag, Seqnum(from.0.max(behind)))
    }

    /// The last live record of the tag at or before a seqnum that the engine sees and that isn't hidden, or None where there is
    /// none.
    pub fn read_prev(&self, engine: u32, tag: Tag, upto: Seqnum) -> Option<Seqnum>
        requires { HasEngine engine self.now }
        ensures { option_map (λ seq. seq.0) result ≡ read_prev trim_of_bytes tag.0 upto.0 (seen self.now engine) }
    {
        let last = self.index_of(engine).prev(tag, upto)?;
        if last.0 <= self.hidden(engine, tag) {
            return None;
        }
        Some(last)
    }

    /// The last live record of the tag that the engine sees and that isn't hidden, or None where there is none.
    pub fn check_tail(&self, engine: u32, tag: Tag) -> Option<Seqnum>
        requires { HasEngine engine self.now }
        ensures { option_map (λ seq. seq.0) result ≡ read_prev trim_of_bytes tag.0 (position self.now engine) (seen self.now engine) }
    {
        self.read_prev(engine, tag, Seqnum(self.position(engine)))
    }

    /// Whether there is a record with the seqnum that the engine sees, and it is live.
    pub fn is_live(&self, engine: u32, seq: Seqnum) -> bool
        requires { HasEngine engine self.now }
        ensures { result ≡ is_live seq.0 (seen self.now engine) }
    {
        self.index_of(engine).live(seq)
    }

    /// What became of a record that was sent: it is live, or it is dead, as the place of its condition was taken. None comes
    /// exactly while the engine's position doesn't cover it.
    pub fn settled(&self, engine: u32, sent: Sent) -> Option<Settle>
        requires { HasEngine engine self.now }
        ensures { result ≡ settled self.now engine sent }
    {
        let seq = self.metalog.seq_of(sent.shard, sent.local)?;
        let index = self.index_of(engine);
        if seq.0 > index.position() {
            return None;
        }
        if index.live(seq) {
            Some(Settle::Placed(seq))
        } else {
            Some(Settle::Taken(seq))
        }
    }

    // The greatest seqnum up to which the records of a tag are hidden from the engine, or 0. It goes over the tag's own trims.
    fn hidden(&self, engine: u32, tag: Tag) -> u64
        requires { HasEngine engine self.now }
        ensures value { result ≡ hidden_bound trim_of_bytes tag.0 (seen self.now engine) }
        ensures bound { result ≤ 2 ^ 63 }
    {
        if tag.0 >= USER_TAGS {
            return 0;
        }
        let index = self.index_of(engine);
        let trims = index.seqnums(Tag(8 * USER_TAGS + tag.0));
        let mut bound = 0;
        for seq in trims {
            bound = bound.max(self.bound_at(tag, Seqnum(*seq)));
        }
        bound
    }

    // Up to which seqnum the record with a seqnum hides the tag's records.
    fn bound_at(&self, tag: Tag, seq: Seqnum) -> u64
        ensures { result ≡ bound_at tag.0 (ordered self.now) seq.0 }
    {
        match self.record(seq) {
            Some(rec) => bound_in(tag, seq, rec.bytes.as_slice()),
            None => 0,
        }
    }
}

// Up to which seqnum a record of these bytes, at a seqnum, hides the tag's records.
fn bound_in(tag: Tag, seq: Seqnum, bytes: &[u8]) -> u64
    ensures { result ≡ bound_of tag.0 seq.0 (trim_of_bytes bytes.now) }
{
    match trim_tag_of(bytes) {
        Some((number, upto)) if number == tag.0 => upto.0.min(seq.0),
        _ => 0,
    }
}
