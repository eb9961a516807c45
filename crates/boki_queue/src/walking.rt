//! The state of a queue at a seqnum: from the newest state that is kept below it, on over the records of the queue's
//! tag.
ghost use Rattle.std.specs.Prelude.{◌≡◌, ◌↔◌, ◌≤◌, ◌<◌, ◌+◌, None, [], false, length, drop, reverse, IfOk, IfSome, IsTrue};
ghost use Rattle.boki_model.specs.Bodies as bodies;
ghost use Rattle.boki_model.specs.Live.{upto as seen_upto};
ghost use Rattle.boki_model.specs.Reads.{tagged_seqnums};
ghost use Rattle.book_api.specs.Books.{HasEngine};
ghost use Rattle.step_log.specs.Sound.{Sound, view, live_bodies};
ghost use Rattle.fold_cache.specs.Bodies.{body_at as said_at};
ghost use Rattle.fold_cache.specs.Kept.{state_at};
ghost use Rattle.boki_queue.specs.QueueStates.{values_at, AreQueueFolds, has_state, unkept_count};
ghost use Rattle.boki_queue.specs.Shared.{row_at, window_values, IsWithin, IsState, IsKept, IsFound, WindowsStay, kept_states, IsSound};
ghost use Rattle.boki_queue.specs.Walks.{changed_by, changed_by_all};

use crate::shared::{Row, Window, opened, popped, pushed};
use crate::steps::Steps;
use aux_cache::Cache;
use boki_model::tag_classes::QUEUE_CLASS;
use book_api::Book;
use fold_cache::{body_at, seqnums_upto};
use lb_base::{Memory, Seqnum, Tag, Words};
use rec_codec::{Body, key_tag};
use std::alloc::Global;
use std::collections::BTreeMap;
use std::sync::ledger::Ledger;

/// A state that is kept: how many of the tag's records are up to its record, and its window.
#[derive(Clone, Copy, Drop)]
pub(crate) struct Found {
    pub(crate) count: usize,
    pub(crate) window: Window,
}

// The newest state of the queue that is kept behind one of the records with these seqnums, which ascend; each record
// above it is a step.
#[tactic(auto, using(crate::proofs::Walks::none_walked, crate::proofs::Walks::one_walked, crate::proofs::Walks::walk_cost))]
fn newest<L: Ledger>(
    rows: &Vec<Row>,
    entries: &Cache<Window>,
    queue: &str,
    seqs: &[u64],
    steps: &mut Steps<L>,
) -> Option<Found>
    requires { IsSound rows.now.items entries.now }
    ensures found { IfSome result (IsFound rows.now.items (kept_states rows.now.items entries.now) queue.now seqs.now) }
    ensures cost { steps.new ≤ steps.old + unkept_count (kept_states rows.now.items entries.now) queue.now (reverse seqs.now) }
{
    let mut count = seqs.len();
    while count > 0 {
        if let Some(window) = state_behind(rows, entries, queue, Seqnum(seqs[count - 1])) {
            return Some(Found { count, window });
        }
        steps.tick();
        count -= 1;
    }
    None
}

// The state of the queue that is kept behind a record.
fn state_behind(
    rows: &Vec<Row>,
    entries: &Cache<Window>,
    queue: &str,
    seq: Seqnum,
) -> Option<Window>
    requires { IsSound rows.now.items entries.now }
    ensures some { IfSome result (IsKept rows.now.items (kept_states rows.now.items entries.now) queue.now seq.0) }
    ensures none { result ≡ None → has_state queue.now (state_at seq.0 (kept_states rows.now.items entries.now)) ≡ false }
{
    let Some(window) = entries.peek(seq) else {
        return None;
    };
    let window = *window;
    if is_of(rows, window, queue) {
        Some(window)
    } else {
        None
    }
}

// Whether a state is one of the queue.
fn is_of(rows: &Vec<Row>, w: Window, queue: &str) -> bool
    requires { IsWithin rows.now.items w }
    ensures { IsTrue result ↔ ((row_at rows.now.items w.row).queue ≡ queue.now) }
{
    rows[w.row].queue.is(queue)
}

// A state that follows another by what the record with a seqnum says.
fn changed(
    alloc: Global,
    rows: &mut Vec<Row>,
    book: &Book,
    queue: &str,
    seq: Seqnum,
    w: Window,
) -> Result<Window, Memory>
    requires { IsWithin rows.old.items w }
    ensures ok { IfOk result (IsState rows.new.items (row_at rows.old.items w.row).queue (changed_by queue.now (said_at book.now seq.0) (window_values rows.old.items w))) }
    ensures stay { WindowsStay rows.old.items rows.new.items }
{
    let body = body_at(alloc, book, seq)?;
    let next = changed_by_body(alloc, rows, queue, &body, w);
    drop(body);
    next
}

fn changed_by_body(
    alloc: Global,
    rows: &mut Vec<Row>,
    queue: &str,
    body: &Body,
    w: Window,
) -> Result<Window, Memory>
    requires { IsWithin rows.old.items w }
    ensures ok { IfOk result (IsState rows.new.items (row_at rows.old.items w.row).queue (changed_by queue.now body.now (window_values rows.old.items w))) }
    ensures stay { WindowsStay rows.old.items rows.new.items }
{
    match body {
        Body::Push {
            queue: named,
            value,
            ..
        } if named.is(queue) => pushed(alloc, rows, w, value),
        Body::Pop { queue: named, .. } if named.is(queue) => Ok(popped(rows, w)),
        _ => Ok(w),
    }
}

// A state that follows another by what the records with these seqnums say.
#[tactic(auto, using(crate::proofs::Windows::none_changed, crate::proofs::Windows::one_changed, crate::proofs::Windows::all_changed))]
fn changed_by_each(
    alloc: Global,
    rows: &mut Vec<Row>,
    book: &Book,
    queue: &str,
    seqs: &[u64],
    w: Window,
) -> Result<Window, Memory>
    requires { IsWithin rows.old.items w }
    ensures ok { IfOk result (IsState rows.new.items (row_at rows.old.items w.row).queue (changed_by_all book.now queue.now seqs.now (window_values rows.old.items w))) }
    ensures stay { WindowsStay rows.old.items rows.new.items }
{
    let mut w = w;
    for seq in seqs {
        w = changed(alloc, rows, book, queue, Seqnum(*seq), w)?;
    }
    Ok(w)
}

// The empty state of a queue, in its row.
fn empty(
    alloc: Global,
    rows: &mut Vec<Row>,
    numbers: &mut BTreeMap<Words, usize>,
    queue: &str,
) -> Result<Window, Memory>
    ensures ok { IfOk result (IsState rows.new.items queue.now []) }
    ensures stay { WindowsStay rows.old.items rows.new.items }
{
    let name = Words::from_text(alloc, queue)?;
    if let Some(row) = known(rows, numbers, &name) {
        return Ok(Window {
            row,
            from: 0,
            to: 0,
        });
    }
    let window = opened(alloc, rows, queue)?;
    numbers.insert(name, window.row)?;
    Ok(window)
}

// The row of a queue, where it is known to have one.
fn known(rows: &Vec<Row>, numbers: &BTreeMap<Words, usize>, name: &Words) -> Option<usize>
    ensures { IfSome result (λ row. (row < length rows.now.items) × ((row_at rows.now.items row).queue ≡ name.now)) }
{
    let row = *numbers.get(name)?;
    if row < rows.len() && rows[row].queue == *name {
        Some(row)
    } else {
        None
    }
}

// The tag of a queue.
fn tag_of_queue(queue: &str) -> Tag
    ensures { result.0 ≡ bodies.key_tag 6 queue.now }
{
    key_tag(QUEUE_CLASS, queue)
}

// The seqnums from an index on.
fn from_index(seqs: &[u64], index: usize) -> &[u64]
    requires { index ≤ length seqs.now }
    ensures { result.now ≡ drop index seqs.now }
{
    &seqs[index..]
}

/// The state of a queue behind its live records at or below a seqnum, of those that the engine sees.
pub(crate) fn state_upto<L: Ledger>(
    alloc: Global,
    rows: &mut Vec<Row>,
    numbers: &mut BTreeMap<Words, usize>,
    entries: &Cache<Window>,
    book: &Book,
    engine: u32,
    queue: &str,
    upto: u64,
    steps: &mut Steps<L>,
) -> Result<Window, Memory>
    requires engine { HasEngine engine book.now }
    requires sound { Sound book.now }
    requires whole { IsSound rows.old.items entries.now }
    requires folds { AreQueueFolds (kept_states rows.old.items entries.now) (live_bodies book.now) }
    ensures ok { IfOk result (IsState rows.new.items queue.now (values_at queue.now upto (view book.now engine))) }
    ensures stay { WindowsStay rows.old.items rows.new.items }
    ensures cost { steps.new ≤ steps.old + unkept_count (kept_states rows.old.items entries.now) queue.now (tagged_seqnums (bodies.key_tag 6 queue.now) (seen_upto upto (view book.now engine))) }
{
    let seqs = seqnums_upto(book, engine, tag_of_queue(queue), upto);
    match newest(rows, entries, queue, seqs, steps) {
        Some(found) => {
            let above = from_index(seqs, found.count);
            changed_by_each(alloc, rows, book, queue, above, found.window)
        }
        None => {
            let start = empty(alloc, rows, numbers, queue)?;
            changed_by_each(alloc, rows, book, queue, seqs, start)
        }
    }
}
