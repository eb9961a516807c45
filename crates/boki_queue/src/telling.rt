//! What a queue holds at a record, and what a pop takes: each answer comes from the state there, which is then kept.
ghost use Rattle.std.specs.Prelude.{◌≡◌, ◌-◌, ◌<◌, ◌≤◌, ◌+◌, Some, OnOk, OnErr, IfOk};
ghost use Rattle.boki_model.specs.Bodies as bodies;
ghost use Rattle.boki_model.specs.Reads.{tagged_seqnums};
ghost use Rattle.boki_machine.specs.Step.{records_below};
ghost use Rattle.book_api.specs.Books.{HasEngine};
ghost use Rattle.step_log.specs.Sound.{Sound, view, live_bodies};
ghost use Rattle.boki_queue.specs.QueueStates.{popped_at, AreQueueFolds, IsQueueTold, IsPopTold, with_queue, unkept_count};
ghost use Rattle.boki_queue.specs.Shared.{state_of, IsWithin, kept_states, IsSound};

use crate::shared::{Row, Window, copied, front, popped};
use crate::steps::Steps;
use crate::walking::state_upto;
use aux_cache::Cache;
use book_api::Book;
use lb_base::{List, Memory, Seqnum, Value, Words};
use std::alloc::Global;
use std::collections::BTreeMap;
use std::sync::ledger::{Blank, Ledger};

/// The values of a state that is kept, at most.
const MOST_VALUES: usize = 4_096;

/// What a queue holds at a record. The ledger is of `blank`, and what it counts is told to nobody.
#[tactic(auto, using(crate::proofs::Kept::kept_stay, crate::proofs::Kept::sound_stays, crate::proofs::Told::queue_is_told))]
pub(crate) fn told_values<L: Ledger>(
    alloc: Global,
    rows: &mut Vec<Row>,
    numbers: &mut BTreeMap<Words, usize>,
    entries: &mut Cache<Window>,
    book: &Book,
    engine: u32,
    queue: &Words,
    seq: Seqnum,
    blank: Blank,
) -> Result<List<Value>, Memory>
    requires name { blank.name ≡ L.name }
    requires parts { blank.parts ≡ L.parts }
    requires some { 0 < L.parts }
    requires engine { HasEngine engine book.now }
    requires sound { Sound book.now }
    requires whole { IsSound rows.old.items entries.old }
    requires folds { AreQueueFolds (kept_states rows.old.items entries.old) (live_bodies book.now) }
    ensures ok { IfOk result (IsQueueTold queue.now seq.0 (view book.now engine) (kept_states rows.old.items entries.old) (kept_states rows.new.items entries.new)) }
    ensures err { OnErr result (kept_states rows.new.items entries.new ≡ kept_states rows.old.items entries.old) }
    ensures whole { IsSound rows.new.items entries.new }
{
    let mut steps = Steps::<L>::new(blank);
    let w = state_upto(
        alloc,
        rows,
        numbers,
        entries,
        book,
        engine,
        queue.as_str(),
        seq.0,
        &mut steps,
    )?;
    let values = copied(alloc, rows, w)?;
    keep(rows, entries, seq, w)?;
    Ok(values)
}

/// What the pop with a seqnum takes.
#[tactic(auto, using(crate::proofs::Kept::kept_stay, crate::proofs::Kept::sound_stays, crate::proofs::Told::pop_is_told))]
pub(crate) fn told_pop<L: Ledger>(
    alloc: Global,
    rows: &mut Vec<Row>,
    numbers: &mut BTreeMap<Words, usize>,
    entries: &mut Cache<Window>,
    book: &Book,
    engine: u32,
    queue: &str,
    seq: Seqnum,
    steps: &mut Steps<L>,
) -> Result<Value, Memory>
    requires engine { HasEngine engine book.now }
    requires sound { Sound book.now }
    requires record { popped_at seq.0 (view book.now engine) ≡ Some queue.now }
    requires whole { IsSound rows.old.items entries.old }
    requires folds { AreQueueFolds (kept_states rows.old.items entries.old) (live_bodies book.now) }
    ensures ok { IfOk result (IsPopTold queue.now seq.0 (view book.now engine) (kept_states rows.old.items entries.old) (kept_states rows.new.items entries.new)) }
    ensures err { OnErr result (kept_states rows.new.items entries.new ≡ kept_states rows.old.items entries.old) }
    ensures whole { IsSound rows.new.items entries.new }
    ensures cost { steps.new ≤ steps.old + unkept_count (kept_states rows.old.items entries.old) queue.now
        (tagged_seqnums (bodies.key_tag 6 queue.now) (records_below seq.0 (view book.now engine))) }
{
    let below = seqnum_below(seq);
    let w = state_upto(
        alloc, rows, numbers, entries, book, engine, queue, below, steps,
    )?;
    let value = front(rows, w)?;
    let next = popped(rows, w);
    keep(rows, entries, seq, next)?;
    Ok(value)
}

/// The same, where nobody asks for the steps. The ledger is of `blank`.
pub(crate) fn uncounted_pop<L: Ledger>(
    alloc: Global,
    rows: &mut Vec<Row>,
    numbers: &mut BTreeMap<Words, usize>,
    entries: &mut Cache<Window>,
    book: &Book,
    engine: u32,
    queue: &Words,
    seq: Seqnum,
    blank: Blank,
) -> Result<Value, Memory>
    requires name { blank.name ≡ L.name }
    requires parts { blank.parts ≡ L.parts }
    requires some { 0 < L.parts }
    requires engine { HasEngine engine book.now }
    requires sound { Sound book.now }
    requires record { popped_at seq.0 (view book.now engine) ≡ Some queue.now }
    requires whole { IsSound rows.old.items entries.old }
    requires folds { AreQueueFolds (kept_states rows.old.items entries.old) (live_bodies book.now) }
    ensures ok { IfOk result (IsPopTold queue.now seq.0 (view book.now engine) (kept_states rows.old.items entries.old) (kept_states rows.new.items entries.new)) }
    ensures err { OnErr result (kept_states rows.new.items entries.new ≡ kept_states rows.old.items entries.old) }
    ensures whole { IsSound rows.new.items entries.new }
{
    let mut steps = Steps::<L>::new(blank);
    told_pop(
        alloc,
        rows,
        numbers,
        entries,
        book,
        engine,
        queue.as_str(),
        seq,
        &mut steps,
    )
}

// The seqnum below one.
fn seqnum_below(seq: Seqnum) -> u64
    ensures { result ≡ seq.0 - 1 }
{
    seq.0.saturating_sub(1)
}

// Keeps a state behind a record, if it has at most 4,096 values.
fn keep(rows: &Vec<Row>, entries: &mut Cache<Window>, seq: Seqnum, w: Window) -> Result<(), Memory>
    requires whole { IsSound rows.now.items entries.old }
    requires within { IsWithin rows.now.items w }
    ensures ok { OnOk result (kept_states rows.now.items entries.new ≡ with_queue seq.0 (state_of rows.now.items w) (kept_states rows.now.items entries.old)) }
    ensures err { OnErr result (entries.new ≡ entries.old) }
    ensures whole { IsSound rows.now.items entries.new }
{
    if w.to - w.from > MOST_VALUES {
        return Ok(());
    }
    // It has at most 64 entries, and no two of one seqnum.
    let _count = entries.len();
    entries.set(seq, w)
}
