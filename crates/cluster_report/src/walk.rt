//! The live records of the whole list, one by one.
ghost use Rattle.std.specs.Prelude.{◌≡◌, option_map, IfOk};
ghost use Rattle.log_folds.specs.Bounds.{record_at};
ghost use Rattle.eng_index.specs.IndexState.{IsIndexOf};
ghost use Rattle.book_api.specs.Books.{log_of};
ghost use Rattle.step_log.specs.Sound.{live_bodies};

use boki_types::Body;
use book_api::Book;
use eng_index::Index;
use fold_cache::body_at;
use lb_base::{Memory, Seqnum};
use std::alloc::Global;

/// What the record with a seqnum says, where it is live. The index is that of all ordered records.
pub(crate) fn live_body(
    alloc: Global,
    book: &Book,
    index: &Index,
    seq: Seqnum,
) -> Result<Option<Body>, Memory>
    requires { IsIndexOf (log_of book.now) index.now }
    ensures { IfOk result (λ body. body ≡ option_map (λ x. x.holds) (record_at seq.0 (live_bodies book.now))) }
{
    if !index.live(seq) {
        return Ok(None);
    }
    let body = body_at(alloc, book, seq)?;
    Ok(Some(body))
}
