//! What names have before a record, and whether a commit succeeds: each answer comes from the state there, which is then
//! kept.
ghost use Rattle.std.specs.Prelude.{◌≡◌, ◌-◌, true, option_map, OnOk, OnErr, IfOk};
ghost use Rattle.std.specs.Option.{option_map_or};
ghost use Rattle.boki_model.specs.Live.{upto as seen_upto};
ghost use Rattle.boki_model.specs.Reads.{tagged_seqnums};
ghost use Rattle.book_api.specs.Books.{HasEngine};
ghost use Rattle.step_log.specs.Sound.{Sound, view, live_bodies};
ghost use Rattle.log_folds.specs.Own.{commit_tag as tag_of_commits};
ghost use Rattle.boki_txn.specs.TxnStates.{first_of, commits_at, AreTxnFolds, with_names, AreValuesTold, IsValueTold, IsCommitTold};
ghost use Rattle.boki_txn.specs.Walks.{kept_names, IsBounded};

use crate::stored::Names;
use crate::walking::{change, commit_tag, names_upto};
use aux_cache::Cache;
use book_api::Book;
use fold_cache::seqnums_upto;
use lb_base::{List, Memory, Seqnum, Value, Words};
use std::alloc::Global;

/// The names of a state that is kept, at most.
const MOST_NAMES: usize = 4_096;

/// The values of names before a record.
pub(crate) fn told_values(
    alloc: Global,
    entries: &mut Cache<Names>,
    book: &Book,
    engine: u32,
    seq: Seqnum,
    names: &[Words],
) -> Result<List<Value>, Memory>
    requires engine { HasEngine engine book.now }
    requires sound { Sound book.now }
    requires small { IsBounded entries.old }
    requires folds { AreTxnFolds (kept_names entries.old) (live_bodies book.now) }
    ensures ok { IfOk result (AreValuesTold names.now seq.0 (view book.now engine) (kept_names entries.old) (kept_names entries.new)) }
    ensures err { OnErr result (kept_names entries.new ≡ kept_names entries.old) }
    ensures small { IsBounded entries.new }
{
    let below = seqnum_below(seq);
    let state = names_upto(alloc, entries, book, engine, below)?;
    let values = state.values(alloc, names)?;
    keep_below(entries, book, engine, below, state)?;
    Ok(values)
}

/// The value of a name before a record.
pub(crate) fn told_value(
    alloc: Global,
    entries: &mut Cache<Names>,
    book: &Book,
    engine: u32,
    seq: Seqnum,
    name: &Words,
) -> Result<Value, Memory>
    requires engine { HasEngine engine book.now }
    requires sound { Sound book.now }
    requires small { IsBounded entries.old }
    requires folds { AreTxnFolds (kept_names entries.old) (live_bodies book.now) }
    ensures ok { IfOk result (IsValueTold name.now seq.0 (view book.now engine) (kept_names entries.old) (kept_names entries.new)) }
    ensures err { OnErr result (kept_names entries.new ≡ kept_names entries.old) }
    ensures small { IsBounded entries.new }
{
    let below = seqnum_below(seq);
    let state = names_upto(alloc, entries, book, engine, below)?;
    let value = state.value(name)?;
    keep_below(entries, book, engine, below, state)?;
    Ok(value)
}

/// Whether the commit with a seqnum succeeds.
pub(crate) fn told_commit(
    alloc: Global,
    entries: &mut Cache<Names>,
    book: &Book,
    engine: u32,
    seq: Seqnum,
) -> Result<bool, Memory>
    requires engine { HasEngine engine book.now }
    requires sound { Sound book.now }
    requires commit { commits_at seq.0 (view book.now engine) ≡ true }
    requires small { IsBounded entries.old }
    requires folds { AreTxnFolds (kept_names entries.old) (live_bodies book.now) }
    ensures ok { IfOk result (IsCommitTold seq.0 (view book.now engine) (kept_names entries.old) (kept_names entries.new)) }
    ensures err { OnErr result (kept_names entries.new ≡ kept_names entries.old) }
    ensures small { IsBounded entries.new }
{
    let below = seqnum_below(seq);
    let mut state = names_upto(alloc, entries, book, engine, below)?;
    let good = change(alloc, &mut state, book, seq)?;
    keep(entries, seq, state)?;
    Ok(good)
}

// The seqnum below one.
fn seqnum_below(seq: Seqnum) -> u64
    ensures { result ≡ seq.0 - 1 }
{
    seq.0.saturating_sub(1)
}

// Keeps a state behind the newest commit at or below a seqnum, where there is one.
fn keep_below(
    entries: &mut Cache<Names>,
    book: &Book,
    engine: u32,
    below: u64,
    state: Names,
) -> Result<(), Memory>
    requires engine { HasEngine engine book.now }
    requires small { IsBounded entries.old }
    ensures ok { OnOk result (kept_names entries.new ≡ option_map_or (λ s. with_names s state (kept_names entries.old))
        (first_of (tagged_seqnums tag_of_commits (seen_upto below (view book.now engine)))) (kept_names entries.old)) }
    ensures err { OnErr result (entries.new ≡ entries.old) }
    ensures small { IsBounded entries.new }
{
    match newest_commit(book, engine, below) {
        Some(last) => keep(entries, last, state),
        None => {
            drop(state);
            Ok(())
        }
    }
}

// The newest commit at or below a seqnum.
fn newest_commit(book: &Book, engine: u32, below: u64) -> Option<Seqnum>
    requires { HasEngine engine book.now }
    ensures { option_map (λ seq. seq.0) result ≡ first_of (tagged_seqnums tag_of_commits (seen_upto below (view book.now engine))) }
{
    let seqs = seqnums_upto(book, engine, commit_tag(), below);
    let count = seqs.len();
    if count == 0 {
        return None;
    }
    Some(Seqnum(seqs[count - 1]))
}

// Keeps a state behind a record, if it has at most 4,096 names.
#[tactic(auto, using(crate::proofs::Kept::set_result, crate::proofs::Kept::small_result))]
fn keep(entries: &mut Cache<Names>, seq: Seqnum, state: Names) -> Result<(), Memory>
    requires { IsBounded entries.old }
    ensures ok { OnOk result (kept_names entries.new ≡ with_names seq.0 state (kept_names entries.old)) }
    ensures err { OnErr result (entries.new ≡ entries.old) }
    ensures small { IsBounded entries.new }
{
    if state.len() > MOST_NAMES {
        drop(state);
        return Ok(());
    }
    // It has at most 64 entries, and no two of one seqnum.
    let _count = entries.len();
    entries.set(seq, state)
}
