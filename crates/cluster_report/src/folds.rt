//! The folds of the whole list, from the oldest record up: results, queues and store names, and the last logged write of each
//! object.
ghost use Rattle.std.specs.Prelude.{◌≡◌, [], cond, Some, None, option_map, OnOk, IfOk};
ghost use Rattle.boki_model.specs.Maps.{get, put};
ghost use Rattle.boki_model.specs.Folds.{push_queue, pop_queue};
ghost use Rattle.boki_machine.specs.Reports.{add_first_result};
ghost use Rattle.log_folds.specs.Bounds.{record_at};
ghost use Rattle.eng_index.specs.IndexState.{IsIndexOf};
ghost use Rattle.book_api.specs.Books.{log_of};
ghost use Rattle.step_log.specs.Sound.{live_bodies};
ghost use Rattle.boki_txn.specs.Names.{may_commit, put_writes};
ghost use Rattle.cluster_report.specs.Folded.{maps_of, with_keys, folded, added, added_some};

use crate::queue::Queue;
use crate::walk::live_body;
use boki_txn::Names;
use boki_types::{Body, Name};
use book_api::Book;
use eng_index::Index;
use hm_read::LastWrite;
use lb_base::{List, Memory, Outcome, Path, Seqnum, Value, Words};
use std::alloc::Global;
use std::collections::BTreeMap;

/// What is kept of the records up to one.
#[derive(Drop)]
pub(crate) struct Folds {
    pub(crate) alloc: Global,
    /// The first result of each path.
    pub(crate) results: BTreeMap<Path, Outcome>,
    /// The last logged write of each known key, where it has one.
    pub(crate) writes: BTreeMap<Words, Option<LastWrite>>,
    pub(crate) queues: BTreeMap<Words, Queue>,
    pub(crate) names: Names,
}

/// Those of the whole list. The keys are known from the start, and the index is that of all ordered records.
pub(crate) fn folds_of(
    alloc: Global,
    book: &Book,
    index: &Index,
    keys: &[Words],
) -> Result<Folds, Memory>
    requires { IsIndexOf (log_of book.now) index.now }
    ensures { IfOk result (λ folds. maps_of folds ≡ folded keys.now (live_bodies book.now)) }
{
    let mut folds = opening(alloc, keys)?;
    for past in 0..book.length() {
        add_at(alloc, book, index, Seqnum(past + 1), &mut folds)?;
    }
    Ok(folds)
}

// Those of no record.
fn opening(alloc: Global, keys: &[Words]) -> Result<Folds, Memory>
    ensures { IfOk result (λ folds. maps_of folds ≡ folded keys.now []) }
{
    Ok(Folds {
        alloc,
        results: BTreeMap::new(alloc),
        writes: unwritten(alloc, keys)?,
        queues: BTreeMap::new(alloc),
        names: Names::new(alloc),
    })
}

// The keys, none of which has a write.
fn unwritten(alloc: Global, keys: &[Words]) -> Result<BTreeMap<Words, Option<LastWrite>>, Memory>
    ensures { IfOk result (λ writes. writes.entries ≡ with_keys keys.now []) }
{
    let mut writes = BTreeMap::new(alloc);
    'keys: for key in keys {
        add_key(&mut writes, key)?;
    }
    Ok(writes)
}

fn add_key(writes: &mut BTreeMap<Words, Option<LastWrite>>, key: &Words) -> Result<(), Memory>
    ensures { OnOk result (writes.new.entries ≡ put key.now None writes.old.entries) }
{
    let key = key.clone()?;
    writes.insert(key, None)?;
    Ok(())
}

// One seqnum more: its record counts where it is live.
fn add_at(
    alloc: Global,
    book: &Book,
    index: &Index,
    seq: Seqnum,
    folds: &mut Folds,
) -> Result<(), Memory>
    requires { IsIndexOf (log_of book.now) index.now }
    ensures { OnOk result (maps_of folds.new
        ≡ added_some seq.0 (option_map (λ x. x.holds) (record_at seq.0 (live_bodies book.now))) (maps_of folds.old)) }
{
    match live_body(alloc, book, index, seq)? {
        Some(body) => add(folds, seq, body),
        None => Ok(()),
    }
}

// One record more.
fn add(folds: &mut Folds, seq: Seqnum, body: Body) -> Result<(), Memory>
    ensures { OnOk result (maps_of folds.new ≡ added seq.0 body (maps_of folds.old)) }
{
    match body {
        Body::Finish { path, outcome, .. } => end(&mut folds.results, path, outcome),
        Body::Write {
            path,
            place,
            key,
            value,
            ..
        } => {
            let name = Name { path, place };
            let here = value;
            write(&mut folds.writes, key, LastWrite { seq, name, here })
        }
        Body::Push { queue, value, .. } => push(folds.alloc, &mut folds.queues, queue, value),
        Body::Pop { queue, .. } => pop(folds.alloc, &mut folds.queues, queue),
        Body::TxnCommit {
            begin,
            names,
            writes,
            ..
        } => commit(&mut folds.names, seq, begin, names, writes),
        other => {
            drop(other);
            Ok(())
        }
    }
}

// The first result of a path counts.
fn end(results: &mut BTreeMap<Path, Outcome>, path: Path, outcome: Outcome) -> Result<(), Memory>
    ensures { OnOk result (results.new.entries
        ≡ add_first_result path outcome results.old.entries (get path results.old.entries)) }
{
    if results.contains_key(&path) {
        return Ok(());
    }
    results.insert(path, outcome)?;
    Ok(())
}

// The last write of a key counts.
fn write(
    writes: &mut BTreeMap<Words, Option<LastWrite>>,
    key: Words,
    write: LastWrite,
) -> Result<(), Memory>
    ensures { OnOk result (writes.new.entries ≡ put key (Some write) writes.old.entries) }
{
    writes.insert(key, Some(write))?;
    Ok(())
}

// A value at the end of a queue, which becomes known.
fn push(
    alloc: Global,
    queues: &mut BTreeMap<Words, Queue>,
    name: Words,
    value: Value,
) -> Result<(), Memory>
    ensures { OnOk result (queues.new.entries ≡ push_queue name value queues.old.entries) }
{
    if let Some(queue) = queues.get_mut(&name) {
        queue.push(value)?;
        return Ok(());
    }
    let mut queue = Queue::new(alloc);
    queue.push(value)?;
    queues.insert(name, queue)?;
    Ok(())
}

// The front of a queue is taken, where there is one. The queue becomes known.
fn pop(alloc: Global, queues: &mut BTreeMap<Words, Queue>, name: Words) -> Result<(), Memory>
    ensures { OnOk result (queues.new.entries ≡ pop_queue name queues.old.entries) }
{
    if let Some(queue) = queues.get_mut(&name) {
        queue.pop();
        return Ok(());
    }
    queues.insert(name, Queue::new(alloc))?;
    Ok(())
}

// A commit writes its names where it succeeds.
fn commit(
    names: &mut Names,
    seq: Seqnum,
    begin: u64,
    read: List<Words>,
    writes: List<(Words, Value)>,
) -> Result<(), Memory>
    ensures { OnOk result (names.new
        ≡ cond (may_commit begin read writes names.old) (put_writes seq.0 writes names.old) names.old) }
{
    if names.may_commit(begin, read.as_slice(), writes.as_slice()) {
        names.put_writes(writes.as_slice(), seq.0)?;
    }
    Ok(())
}
