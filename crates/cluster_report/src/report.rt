//! The report, whole or in parts. Each part is one pass over the ordered list.
ghost use Rattle.std.specs.Prelude.{◌≡◌, ◌<◌, ◌^◌, [], length, IfOk};
ghost use Rattle.boki_model.specs.Writes.{Store};
ghost use Rattle.boki_model.specs.Folds as fold;
ghost use Rattle.boki_machine.specs.Reports as machine;
ghost use Rattle.boki_machine.specs.Turns as turn;
ghost use Rattle.step_log.specs.Sound.{live_bodies};
ghost use Rattle.cluster_report.specs.Folded.{maps_of, folded};
ghost use Rattle.cluster_report.specs.Reported.{CanReport, HasParts, objects_in, report_in};

use crate::folds::{Folds, folds_of};
use crate::turning::turns_of;
use boki_types::{Program, Report, Turn};
use book_api::Book;
use lb_base::{List, Memory, Outcome, Path, Seqnum, Value, Words};
use obj_store::ObjStore;
use std::alloc::Global;

/// The report of the whole ordered list, whatever the engines have seen; or `Memory`.
///
/// It needs fewer than 2^32 functions, as every program that is read from a text has. The report is right for every store that
/// the object store stands for and that can be reported, as that of a machine that holds the invariant. It goes over the ordered
/// list three times: for an index, from the oldest record up for the folds, and from the newest down for the turns.
pub fn report_of(
    alloc: Global,
    program: &Program,
    book: &Book,
    store: &ObjStore,
) -> Result<Report, Memory>
    requires { length program.now.functions < 2 ^ 32 }
    ensures { IfOk result (λ report. (m : Store) → CanReport book.now store.now m
        → report ≡ report_in program.now.functions m book.now) }
{
    let index = book.whole(alloc)?;
    let turns = turns_of(alloc, book, &index, store, program)?;
    let keys = store.keys()?;
    let folds = folds_of(alloc, book, &index, keys.as_slice())?;
    with_turns(turns, &folds, store, Seqnum(book.length()))
}

// The report of these turns and of the folds of the records up to a seqnum.
fn with_turns(
    turns: List<Turn>,
    folds: &Folds,
    store: &ObjStore,
    last: Seqnum,
) -> Result<Report, Memory>
    ensures { IfOk result (HasParts turns folds.now store.now last.0) }
{
    Ok(Report {
        turns,
        results: folds.all_results()?,
        objects: folds.objects(store, last)?,
        queues: folds.all_queues()?,
        stores: folds.all_stores()?,
    })
}

/// The turns, the oldest first. What it needs is as for the report.
pub fn turns(
    alloc: Global,
    program: &Program,
    book: &Book,
    store: &ObjStore,
) -> Result<List<Turn>, Memory>
    requires { length program.now.functions < 2 ^ 32 }
    ensures { IfOk result (λ turns. (m : Store) → CanReport book.now store.now m
        → turns ≡ turn.turns program.now.functions m.versions (live_bodies book.now)) }
{
    let index = book.whole(alloc)?;
    turns_of(alloc, book, &index, store, program)
}

/// The results of the invocations that have ended, in the order of paths.
pub fn results(alloc: Global, book: &Book) -> Result<List<(Path, Outcome)>, Memory>
    ensures { IfOk result (λ results. results ≡ machine.results (live_bodies book.now)) }
{
    whole(alloc, book)?.all_results()
}

/// The objects with their values at the end, in the order of keys. What it needs of the store is as for the report.
pub fn objects(alloc: Global, book: &Book, store: &ObjStore) -> Result<List<(Words, Value)>, Memory>
    ensures { IfOk result (λ objects. (m : Store) → CanReport book.now store.now m → objects ≡ objects_in m book.now) }
{
    let index = book.whole(alloc)?;
    let keys = store.keys()?;
    let folds = folds_of(alloc, book, &index, keys.as_slice())?;
    folds.objects(store, Seqnum(book.length()))
}

/// The queues with a push or a pop, in the order of their names, each with its front first.
pub fn queues(alloc: Global, book: &Book) -> Result<List<(Words, List<Value>)>, Memory>
    ensures { IfOk result (λ queues. queues ≡ fold.queues (live_bodies book.now)) }
{
    whole(alloc, book)?.all_queues()
}

/// The store names that a commit which succeeded wrote, with their values, in the order of their bytes.
pub fn stores(alloc: Global, book: &Book) -> Result<List<(Words, Value)>, Memory>
    ensures { IfOk result (λ stores. stores ≡ fold.store_values (fold.commits (live_bodies book.now))) }
{
    whole(alloc, book)?.all_stores()
}

// The folds of the whole list, where no key is known from the start.
fn whole(alloc: Global, book: &Book) -> Result<Folds, Memory>
    ensures { IfOk result (λ folds. maps_of folds ≡ folded [] (live_bodies book.now)) }
{
    let index = book.whole(alloc)?;
    folds_of(alloc, book, &index, &[])
}
