//! Reads at a marker.
ghost use Rattle.std.specs.Prelude.{◌≡◌, ◌<◌, ◌∷◌, [], ℕ, List, option_map, IfOk, OnErr};
ghost use Rattle.std.specs.Option.{option_copied};
ghost use Rattle.boki_types.specs.declared.body.Body.{Body};
ghost use Rattle.boki_model.specs.Live.{Live};
ghost use Rattle.boki_model.specs.Writes.{Store, after_read_fenced};
ghost use Rattle.boki_machine.specs.Step.{fenced_value};
ghost use Rattle.book_api.specs.Books.{HasEngine};
ghost use Rattle.obj_store.specs.StandsFor.{IsUnchanged, last_logged};
ghost use Rattle.step_log.specs.Sound.{Sound, view};
ghost use Rattle.hm_read.specs.Kept.{IsKept};
ghost use Rattle.hm_read.specs.LastWrites.{write_parts};
ghost use Rattle.hm_write.specs.Marked.{marked_value, IsMarkedValue, AreMarkedValues, ReadsMarked, ReadsGroupMarked};

use book_api::Book;
use hm_read::{LastWrite, copy_of, last_write, logged_of};
use lb_base::{List, Memory, Seqnum, Value, Words};
use obj_store::{Answered, Fenced, GroupAnswer, ObjStore};
use std::alloc::Global;

/// A read of an object at a marker: the value of the last write below the marker, of those of the store and of the logged ones that
/// the engine sees, or `none` where there is none. The object's fence is then at least the marker. Gone comes exactly where the
/// marker is below the store's floor; then nothing is changed, and it takes no memory.
///
/// It needs a sound book, a store that is kept with it, and an engine that sees all records below the marker. After `Memory` the
/// store is unchanged.
pub fn read_marked(
    alloc: Global,
    book: &Book,
    store: &mut ObjStore,
    engine: u32,
    key: &str,
    at: Seqnum,
) -> Result<Answered, Memory>
    requires { HasEngine engine book.now }
    ensures ok { IfOk result (ReadsMarked book.now engine at.0 key.now store.old store.new) }
    ensures err { OnErr result (IsUnchanged store.old store.new) }
    ensures gone { at.0 < store.old.floor → (result ≡ Ok Answered.Gone) × (store.new ≡ store.old) }
{
    if at.0 < store.floor().0 {
        return Ok(Answered::Gone);
    }
    let last = last_before(alloc, book, engine, key, at)?;
    let value = read_fenced(store, key, at, last.as_ref())?;
    Ok(Answered::Value(value))
}

/// Reads of several objects at one marker, each as `read_marked`, with Gone as there. The fences of all objects are raised, or after
/// `Memory` none.
pub fn read_group_marked(
    alloc: Global,
    book: &Book,
    store: &mut ObjStore,
    engine: u32,
    keys: &[Words],
    at: Seqnum,
) -> Result<GroupAnswer, Memory>
    requires { HasEngine engine book.now }
    ensures ok { IfOk result (ReadsGroupMarked book.now engine at.0 keys.now store.old store.new) }
    ensures err { OnErr result (IsUnchanged store.old store.new) }
    ensures gone { at.0 < store.old.floor → (result ≡ Ok GroupAnswer.Gone) × (store.new ≡ store.old) }
{
    if at.0 < store.floor().0 {
        return Ok(GroupAnswer::Gone);
    }
    let values = values_before(alloc, book, store, engine, keys, at)?;
    store.raise_group(keys, at)?;
    Ok(GroupAnswer::Values(values))
}

// The last logged write of the object below the marker.
fn last_before(
    alloc: Global,
    book: &Book,
    engine: u32,
    key: &str,
    at: Seqnum,
) -> Result<Option<LastWrite>, Memory>
    requires { HasEngine engine book.now }
    ensures { Sound book.now → IfOk result (λ w. option_map write_parts w
        ≡ last_logged key.now at.0 (view book.now engine)) }
{
    if at.0 == 0 {
        return Ok(None);
    }
    last_write(alloc, book, engine, key, Seqnum(at.0 - 1))
}

// The value of the object at the marker, where the store is told the last logged write below it; the fence is raised. The marker
// isn't below the floor.
fn read_fenced(
    store: &mut ObjStore,
    key: &str,
    at: Seqnum,
    last: Option<&LastWrite>,
) -> Result<Value, Memory>
    ensures ok { IfOk result (λ v. (m : Store) (records : List (Live Body)) → IsKept store.old m records
        → option_map write_parts (option_copied last.entry) ≡ last_logged key.now at.0 records
        → (v ≡ marked_value at.0 key.now m records)
        × IsKept store.new (after_read_fenced (key.now ∷ []) at.0 m) records) }
    ensures err { OnErr result (IsUnchanged store.old store.new) }
{
    let logged = logged_of(last);
    let found = store.read_fenced(key, at, logged.as_ref())?;
    Ok(value_of(found))
}

// The value that a read found, or `none` where it found none.
fn value_of(found: Fenced) -> Value
    ensures { result ≡ fenced_value found }
{
    match found {
        Fenced::Found(value) => value,
        Fenced::Missing | Fenced::Gone => Value::Nothing,
    }
}

// The values of the objects at the marker, which isn't below the floor. No fence is raised.
fn values_before(
    alloc: Global,
    book: &Book,
    store: &ObjStore,
    engine: u32,
    keys: &[Words],
    at: Seqnum,
) -> Result<List<Value>, Memory>
    requires { HasEngine engine book.now }
    ensures { IfOk result (AreMarkedValues book.now store.now engine at.0 keys.now) }
{
    let mut values = List::new(alloc);
    for key in keys {
        let value = value_before(alloc, book, store, engine, key.as_str(), at)?;
        values.push(value)?;
    }
    Ok(values)
}

// The value of the object at the marker, which isn't below the floor. No fence is raised.
fn value_before(
    alloc: Global,
    book: &Book,
    store: &ObjStore,
    engine: u32,
    key: &str,
    at: Seqnum,
) -> Result<Value, Memory>
    requires { HasEngine engine book.now }
    ensures { IfOk result (IsMarkedValue book.now store.now engine at.0 key.now) }
{
    let last = last_before(alloc, book, engine, key, at)?;
    told_value(store, key, at, last.as_ref())
}

// The value of the object at the marker, where the store is told the last logged write below it. No fence is raised.
fn told_value(
    store: &ObjStore,
    key: &str,
    at: Seqnum,
    last: Option<&LastWrite>,
) -> Result<Value, Memory>
    ensures { (m : Store) (records : List (Live Body)) → IsKept store.now m records
        → option_map write_parts (option_copied last.entry) ≡ last_logged key.now at.0 records
        → IfOk result (λ v. v ≡ marked_value at.0 key.now m records) }
{
    let logged = logged_of(last);
    copy_of(store.read_before(key, at, logged.as_ref()))
}
