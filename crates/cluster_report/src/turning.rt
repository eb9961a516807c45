//! The turns of the whole list, from the newest record down.
ghost use Rattle.std.specs.Prelude.{◌≡◌, ◌≤◌, ◌<◌, ◌^◌, ◌++◌, ◌∷◌, [], List, None, option_map, length, reverse, OnOk, IfOk};
ghost use Rattle.std.specs.Option.{option_copied};
ghost use Rattle.boki_types.specs.declared.body.Body.{Body as Said};
ghost use Rattle.boki_model.specs.Bodies.{step_of};
ghost use Rattle.boki_model.specs.Live.{Live};
ghost use Rattle.boki_model.specs.Maps.{get, put};
ghost use Rattle.boki_model.specs.Writes.{Store, versions_at};
ghost use Rattle.boki_machine.specs.Turns as model;
ghost use Rattle.log_folds.specs.Bounds.{record_at};
ghost use Rattle.eng_index.specs.IndexState.{IsIndexOf};
ghost use Rattle.book_api.specs.Books.{log_of};
ghost use Rattle.obj_store.specs.StandsFor.{StandsFor};
ghost use Rattle.step_log.specs.Sound.{live_bodies};
ghost use Rattle.cluster_report.specs.Reported.{CanReport};
ghost use Rattle.cluster_report.specs.Turned.{kind_of as kind_in, submit_turn, AddsTurn, AddsAt};

use crate::walk::live_body;
use boki_types::{Body, Program, Turn};
use book_api::Book;
use eng_index::Index;
use lb_base::{List, Memory, Path, Seqnum};
use obj_store::ObjStore;
use std::alloc::Global;
use std::collections::BTreeMap;

/// Which turn a record gives.
pub(crate) enum TurnKind {
    Submit,
    /// A go from an index on, with so many operations of the record's own.
    Go(Path, u64, u64),
    End(Path, u64),
    Nothing,
}

/// A walk from the newest record down: the index of each path's next step record, and the turns so far, the newest first.
#[derive(Drop)]
pub(crate) struct Walk {
    pub(crate) ahead: BTreeMap<Path, u64>,
    pub(crate) turns: Vec<Turn>,
}

/// The turns of the whole list, the oldest first. The index is that of all ordered records.
pub(crate) fn turns_of(
    alloc: Global,
    book: &Book,
    index: &Index,
    store: &ObjStore,
    program: &Program,
) -> Result<List<Turn>, Memory>
    requires few { length program.now.functions < 2 ^ 32 }
    requires index { IsIndexOf (log_of book.now) index.now }
    ensures { IfOk result (λ turns. (m : Store) → CanReport book.now store.now m
        → turns ≡ model.turns program.now.functions m.versions (live_bodies book.now)) }
{
    let mut walk = Walk {
        ahead: BTreeMap::new(alloc),
        turns: Vec::new(alloc),
    };
    let length = book.length();
    for passed in 0..length {
        let seq = Seqnum(length - passed);
        add_at(alloc, book, index, store, program, seq, &mut walk)?;
    }
    Ok(oldest_first(walk))
}

// The turns of a walk that is done.
fn oldest_first(walk: Walk) -> List<Turn>
    ensures { result ≡ reverse walk.turns.items }
{
    let Walk { turns, .. } = walk;
    let mut turns = turns;
    turns.reverse();
    List::from_vec(turns)
}

// Adds the turn of the record with a seqnum, where it is live and gives one.
fn add_at(
    alloc: Global,
    book: &Book,
    index: &Index,
    store: &ObjStore,
    program: &Program,
    seq: Seqnum,
    walk: &mut Walk,
) -> Result<(), Memory>
    requires few { length program.now.functions < 2 ^ 32 }
    requires index { IsIndexOf (log_of book.now) index.now }
    ensures { OnOk result (AddsAt program.now.functions store.now seq.0
        (option_map (λ x. x.holds) (record_at seq.0 (live_bodies book.now))) walk.old walk.new) }
{
    match live_body(alloc, book, index, seq)? {
        Some(body) => add(store, program, seq, body, walk),
        None => Ok(()),
    }
}

// Adds the turn of a record, where it gives one.
fn add(
    store: &ObjStore,
    program: &Program,
    seq: Seqnum,
    body: Body,
    walk: &mut Walk,
) -> Result<(), Memory>
    requires { length program.now.functions < 2 ^ 32 }
    ensures { OnOk result (AddsTurn program.now.functions store.now seq.0 body walk.old walk.new) }
{
    let kind = kind_of(&body);
    match kind {
        TurnKind::Submit => add_submit(program, body, &mut walk.turns),
        TurnKind::Go(path, index, own) => {
            drop(body);
            add_go(store, seq, path, index, own, walk)
        }
        TurnKind::End(path, index) => {
            drop(body);
            walk.turns.push(Turn::End { path })?;
            pass(&mut walk.ahead, path, index)
        }
        TurnKind::Nothing => {
            drop(body);
            Ok(())
        }
    }
}

// Adds the turn of a submit.
fn add_submit(program: &Program, body: Body, turns: &mut Vec<Turn>) -> Result<(), Memory>
    requires { length program.now.functions < 2 ^ 32 }
    ensures { OnOk result (turns.new.items ≡ turns.old.items ++ submit_turn program.now.functions body) }
{
    match body {
        Body::Submit {
            path,
            function,
            args,
        } => {
            let (request, _) = path.split();
            let function = program.find(function.as_str()).unwrap_or(0);
            turns.push(Turn::Submit {
                request,
                function,
                args,
            })?;
            Ok(())
        }
        other => {
            drop(other);
            Ok(())
        }
    }
}

// Adds the turn of the operations that run at a step record.
fn add_go(
    store: &ObjStore,
    seq: Seqnum,
    path: Path,
    index: u64,
    own: u64,
    walk: &mut Walk,
) -> Result<(), Memory>
    ensures ahead { OnOk result (walk.new.ahead.entries ≡ put path index walk.old.ahead.entries) }
    ensures turns { OnOk result ((m : Store) (records : List (Live Said)) → StandsFor store.now m records
        → (get path walk.old.ahead.entries ≡ None → m.floor ≤ seq.0)
        → walk.new.turns.items ≡ walk.old.turns.items
        ++ Turn.Go path (model.operation_count (get path walk.old.ahead.entries) index own (versions_at seq.0 m.versions)) ∷ []) }
{
    let n = operations(walk.ahead.get(&path), index, own, store, seq)?;
    walk.turns.push(Turn::Go { path, n })?;
    pass(&mut walk.ahead, path, index)
}

// A step record of a path was passed.
fn pass(ahead: &mut BTreeMap<Path, u64>, path: Path, index: u64) -> Result<(), Memory>
    ensures { OnOk result (ahead.new.entries ≡ put path index ahead.old.entries) }
{
    ahead.insert(path, index)?;
    Ok(())
}

// How many operations run at a step record: up to the path's next one, or, at its last one, its own and those of the versions
// that stand at it.
fn operations(
    next: Option<&u64>,
    index: u64,
    own: u64,
    store: &ObjStore,
    seq: Seqnum,
) -> Result<u64, Memory>
    ensures { IfOk result (λ n. (m : Store) (records : List (Live Said)) → StandsFor store.now m records
        → (option_copied next.entry ≡ None → m.floor ≤ seq.0)
        → n ≡ model.operation_count (option_copied next.entry) index own (versions_at seq.0 m.versions)) }
{
    match next {
        Some(next) => Ok(next.saturating_sub(index)),
        None => {
            let n = own.checked_add(store.versions_at(seq)).ok_or(Memory)?;
            Ok(n)
        }
    }
}

// Which turn a record gives.
fn kind_of(body: &Body) -> TurnKind
    ensures { result ≡ kind_in body.now }
{
    match body {
        Body::Submit { .. } => TurnKind::Submit,
        Body::Init { path } => TurnKind::Go(*path, 1, 0),
        Body::Read { path, index, .. } => TurnKind::Go(*path, *index, 1),
        Body::ReadGroup { path, index, .. } => TurnKind::Go(*path, *index, 1),
        Body::Write { path, index, .. } => TurnKind::Go(*path, *index, 1),
        Body::Spawn { path, index, .. } => TurnKind::Go(*path, *index, 1),
        Body::Join { path, index, .. } => TurnKind::Go(*path, *index, 1),
        Body::Push { path, index, .. } => TurnKind::Go(*path, *index, 1),
        Body::Pop { path, index, .. } => TurnKind::Go(*path, *index, 1),
        Body::TxnBegin { path, index, .. } => TurnKind::Go(*path, *index, 1),
        Body::TxnCommit { path, index, .. } => TurnKind::Go(*path, *index, 1),
        Body::Finish { path, index, .. } => TurnKind::End(*path, *index),
        _ => TurnKind::Nothing,
    }
}
