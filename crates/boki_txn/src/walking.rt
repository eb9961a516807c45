//! The store names at a seqnum: from the newest state that is kept below it, on over the commits above that.
ghost use Rattle.std.specs.Prelude.{◌≡◌, ◌≤◌, length, drop, OnOk, IfOk};
ghost use Rattle.log_folds.specs.Own.{commit_tag as tag_of_commits};
ghost use Rattle.book_api.specs.Books.{HasEngine};
ghost use Rattle.step_log.specs.Sound.{Sound, view, live_bodies};
ghost use Rattle.fold_cache.specs.Bodies.{body_at as said_at};
ghost use Rattle.boki_txn.specs.Names.{changed_by, is_good as good};
ghost use Rattle.boki_txn.specs.TxnStates.{names_at, AreTxnFolds};
ghost use Rattle.boki_txn.specs.Walks.{changed_by_all, kept_names, IsStart};

use crate::stored::Names;
use aux_cache::Cache;
use book_api::Book;
use fold_cache::{body_at, seqnums_upto};
use lb_base::{Memory, Seqnum, Tag};
use rec_codec::Body;
use std::alloc::Global;

/// The tag of commits.
const COMMITS: u64 = 504_403_158_265_495_552;

/// The store names from which a walk goes on, and how many of its commits are behind them.
#[derive(Drop)]
pub(crate) struct Start {
    pub(crate) count: usize,
    pub(crate) names: Names,
}

/// The tag of commits.
pub(crate) fn commit_tag() -> Tag
    ensures { result.0 ≡ tag_of_commits }
{
    Tag(COMMITS)
}

// The names behind the newest of these commits behind which a state is kept; or no names. The seqnums ascend.
#[tactic(auto, using(crate::proofs::Kept::found_start, crate::proofs::Kept::no_start))]
fn newest_kept(alloc: Global, entries: &Cache<Names>, seqs: &[u64]) -> Result<Start, Memory>
    ensures { IfOk result (IsStart (kept_names entries.now) seqs.now) }
{
    let mut count = seqs.len();
    while count > 0 {
        if let Some(names) = entries.peek(Seqnum(seqs[count - 1])) {
            let names = names.copy()?;
            return Ok(Start { count, names });
        }
        count -= 1;
    }
    Ok(Start {
        count: 0,
        names: Names::new(alloc),
    })
}

/// Changes names by what the record with a seqnum says, and tells whether that is a commit that succeeds.
pub(crate) fn change(
    alloc: Global,
    names: &mut Names,
    book: &Book,
    seq: Seqnum,
) -> Result<bool, Memory>
    ensures good { IfOk result (λ told. told ≡ good (said_at book.now seq.0) names.old) }
    ensures names { OnOk result (names.new ≡ changed_by seq.0 (said_at book.now seq.0) names.old) }
{
    let body = body_at(alloc, book, seq)?;
    let told = change_by_body(names, seq, &body);
    drop(body);
    told
}

fn change_by_body(names: &mut Names, seq: Seqnum, body: &Body) -> Result<bool, Memory>
    ensures good { IfOk result (λ told. told ≡ good body.now names.old) }
    ensures names { OnOk result (names.new ≡ changed_by seq.0 body.now names.old) }
{
    match body {
        Body::TxnCommit {
            begin,
            names: read,
            writes,
            ..
        } => {
            if !names.may_commit(*begin, read.as_slice(), writes.as_slice()) {
                return Ok(false);
            }
            names.put_writes(writes.as_slice(), seq.0)?;
            Ok(true)
        }
        _ => Ok(false),
    }
}

// The names behind the records with these seqnums.
#[tactic(auto, using(crate::proofs::Walks::none_changed, crate::proofs::Walks::one_changed, crate::proofs::Walks::all_changed))]
fn changed_by_each(alloc: Global, names: Names, book: &Book, seqs: &[u64]) -> Result<Names, Memory>
    ensures { IfOk result (λ new. new ≡ changed_by_all book.now seqs.now names) }
{
    let mut names = names;
    for seq in seqs {
        change(alloc, &mut names, book, Seqnum(*seq))?;
    }
    Ok(names)
}

// The seqnums from an index on.
fn from_index(seqs: &[u64], index: usize) -> &[u64]
    requires { index ≤ length seqs.now }
    ensures { result.now ≡ drop index seqs.now }
{
    &seqs[index..]
}

/// The store names behind the live commits at or below a seqnum, of those that the engine sees.
pub(crate) fn names_upto(
    alloc: Global,
    entries: &Cache<Names>,
    book: &Book,
    engine: u32,
    upto: u64,
) -> Result<Names, Memory>
    requires engine { HasEngine engine book.now }
    requires sound { Sound book.now }
    requires folds { AreTxnFolds (kept_names entries.now) (live_bodies book.now) }
    ensures { IfOk result (λ names. names ≡ names_at upto (view book.now engine)) }
{
    let seqs = seqnums_upto(book, engine, commit_tag(), upto);
    let start = newest_kept(alloc, entries, seqs)?;
    let above = from_index(seqs, start.count);
    changed_by_each(alloc, start.names, book, above)
}
