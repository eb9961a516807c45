//! Reads at a cursor.
ghost use Rattle.std.specs.Prelude.{◌≡◌, ◌<◌, suc, ℕ, List, option_map, IfOk};
ghost use Rattle.std.specs.Option.{option_copied};
ghost use Rattle.boki_types.specs.declared.body.Body.{Body};
ghost use Rattle.boki_model.specs.Live.{Live};
ghost use Rattle.boki_model.specs.Writes.{Store};
ghost use Rattle.boki_machine.specs.Step.{fenced_value};
ghost use Rattle.book_api.specs.Books.{HasEngine};
ghost use Rattle.obj_store.specs.Answers.{fenced_of};
ghost use Rattle.obj_store.specs.StandsFor.{last_logged};
ghost use Rattle.hm_read.specs.Kept.{IsKept};
ghost use Rattle.hm_read.specs.LastWrites.{write_parts};
ghost use Rattle.hm_read.specs.FreeReads.{free_value, IsFreeValue, AreFreeValues, ReadsFree, ReadsGroupFree};

use crate::last::{LastWrite, last_write, logged_of};
use book_api::Book;
use lb_base::{List, Memory, Seqnum, Value, Words};
use obj_store::{Answered, GroupAnswer, ObjStore, Read};
use std::alloc::Global;

/// A free read of an object at a cursor: the value of the last write up to it, of those of the store and of the logged ones that
/// the engine sees, or `none` where there is none. Gone comes exactly where the cursor is below the store's floor, and takes no
/// memory.
///
/// It needs a sound book, a store that is kept with it, and a cursor that the engine's position covers. Nothing is sent or changed.
pub fn read_r(
    alloc: Global,
    book: &Book,
    store: &ObjStore,
    engine: u32,
    key: &str,
    cursor: Seqnum,
) -> Result<Answered, Memory>
    requires { HasEngine engine book.now }
    ensures ok { IfOk result (ReadsFree book.now store.now engine cursor.0 key.now) }
    ensures gone { cursor.0 < store.now.floor → result ≡ Ok Answered.Gone }
{
    if cursor.0 < store.floor().0 {
        return Ok(Answered::Gone);
    }
    let value = value_at(alloc, book, store, engine, key, cursor)?;
    Ok(Answered::Value(value))
}

/// Free reads of several objects at one cursor, each as `read_r`; Gone is as there.
pub fn read_group_r(
    alloc: Global,
    book: &Book,
    store: &ObjStore,
    engine: u32,
    keys: &[Words],
    cursor: Seqnum,
) -> Result<GroupAnswer, Memory>
    requires { HasEngine engine book.now }
    ensures ok { IfOk result (ReadsGroupFree book.now store.now engine cursor.0 keys.now) }
    ensures gone { cursor.0 < store.now.floor → result ≡ Ok GroupAnswer.Gone }
{
    if cursor.0 < store.floor().0 {
        return Ok(GroupAnswer::Gone);
    }
    let values = values_at(alloc, book, store, engine, keys, cursor)?;
    Ok(GroupAnswer::Values(values))
}

// The values of the objects at the cursor, which isn't below the floor.
fn values_at(
    alloc: Global,
    book: &Book,
    store: &ObjStore,
    engine: u32,
    keys: &[Words],
    cursor: Seqnum,
) -> Result<List<Value>, Memory>
    requires { HasEngine engine book.now }
    ensures { IfOk result (AreFreeValues book.now store.now engine cursor.0 keys.now) }
{
    let mut values = List::new(alloc);
    for key in keys {
        let value = value_at(alloc, book, store, engine, key.as_str(), cursor)?;
        values.push(value)?;
    }
    Ok(values)
}

// The value of the object at the cursor, which isn't below the floor.
fn value_at(
    alloc: Global,
    book: &Book,
    store: &ObjStore,
    engine: u32,
    key: &str,
    cursor: Seqnum,
) -> Result<Value, Memory>
    requires { HasEngine engine book.now }
    ensures { IfOk result (IsFreeValue book.now store.now engine cursor.0 key.now) }
{
    let last = last_write(alloc, book, engine, key, cursor)?;
    told_value(store, key, cursor, last.as_ref())
}

// The value of the object at the cursor, where the store is told the last logged write.
fn told_value(
    store: &ObjStore,
    key: &str,
    cursor: Seqnum,
    last: Option<&LastWrite>,
) -> Result<Value, Memory>
    ensures { (m : Store) (records : List (Live Body)) → IsKept store.now m records
        → option_map write_parts (option_copied last.entry) ≡ last_logged key.now (suc cursor.0) records
        → IfOk result (λ v. v ≡ free_value cursor.0 key.now m records) }
{
    let logged = logged_of(last);
    copy_of(store.read_free(key, cursor, logged.as_ref()))
}

/// A copy of the value that a read found, or `none` where it found none.
pub fn copy_of(read: Read<'_>) -> Result<Value, Memory>
    ensures { IfOk result (λ v. v ≡ fenced_value (fenced_of read.entry)) }
{
    match read {
        Read::Found(value) => Ok(value.clone()?),
        Read::Missing | Read::Gone => Ok(Value::Nothing),
    }
}
