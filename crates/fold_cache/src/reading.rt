//! What a walk over the records of a tag reads.
ghost use Rattle.std.specs.Prelude.{◌≡◌, reverse, IfOk};
ghost use Rattle.boki_model.specs.Live.{upto as seen_upto};
ghost use Rattle.boki_model.specs.Reads.{tagged_seqnums};
ghost use Rattle.book_api.specs.Books.{HasEngine};
ghost use Rattle.fold_cache.specs.Bodies.{body_at};
ghost use Rattle.step_log.specs.Sound.{body_of, view};

use book_api::Book;
use lb_base::{Memory, Seqnum, Tag};
use rec_codec::{Body, DecodeFault, decode};
use std::alloc::Global;

/// The seqnums at or below one of the tag's live records that the engine sees, ascending. It takes no memory.
pub fn seqnums_upto(book: &Book, engine: u32, tag: Tag, upto: u64) -> &[u64]
    requires { HasEngine engine book.now }
    ensures { result.now ≡ reverse (tagged_seqnums tag.0 (seen_upto upto (view book.now engine))) }
{
    let seqs = book.seqnums(engine, tag);
    let count = seqs.partition_point(|seq| *seq <= upto);
    &seqs[..count]
}

/// The body that the ordered record with the seqnum spells; where there is no such record, or it spells none, the end
/// of a switch.
pub fn body_at(alloc: Global, book: &Book, seq: Seqnum) -> Result<Body, Memory>
    ensures { IfOk result (λ body. body ≡ body_at book.now seq.0) }
{
    match book.record(seq) {
        Some(rec) => body_in(alloc, rec.bytes.as_slice()),
        None => Ok(Body::SwitchEnd),
    }
}

// The body that bytes spell, or the end of a switch where they spell none.
fn body_in(alloc: Global, bytes: &[u8]) -> Result<Body, Memory>
    ensures { IfOk result (λ body. body ≡ body_of bytes.now) }
{
    match decode(alloc, bytes) {
        Ok(body) => Ok(body),
        Err(DecodeFault::Bad(_)) => Ok(Body::SwitchEnd),
        Err(DecodeFault::Memory) => Err(Memory),
    }
}
