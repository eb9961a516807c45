//! Values are put into the object store.
ghost use Rattle.std.specs.Prelude.{◌≡◌, ◌<◌, ◌≤◌, ℕ, true, false, is_some, List, IfOk, OnErr, IsOk};
ghost use Rattle.boki_types.specs.declared.body.Body.{Body};
ghost use Rattle.boki_model.specs.Live.{Live};
ghost use Rattle.boki_model.specs.Writes.{Store, puts_version};
ghost use Rattle.obj_store.specs.Kept.{value_under};
ghost use Rattle.obj_store.specs.StandsFor.{StandsFor, IsUnchanged};
ghost use Rattle.hm_write.specs.Stores.{StoresNamed, PutsFree};

use lb_base::{Memory, Seqnum, Value};
use obj_store::{Name, Named, ObjStore, Put};

/// Stores the value of a logged write under its name, before the write is sent. A name that is there keeps its value. Gone comes
/// exactly where the cursor is below the store's floor; then nothing is changed. Neither takes memory.
///
/// It needs a store that is kept with the records, and that the name is settled only where the cursor is below the floor. After
/// `Memory` the store is unchanged.
pub fn store_write(
    store: &mut ObjStore,
    name: Name,
    cursor: Seqnum,
    value: &Value,
) -> Result<Named, Memory>
    ensures ok { IfOk result (StoresNamed name cursor.0 value.now store.old store.new) }
    ensures err { OnErr result (IsUnchanged store.old store.new) }
    ensures gone { cursor.0 < store.old.floor
        → (result ≡ Ok Named.Gone) × (store.new ≡ store.old) }
    ensures there { is_some (value_under name store.old.named) ≡ true → IsOk result }
{
    store.put_named(name, cursor, value)
}

/// A free write: puts the k-th version since the cursor in, with k from 1. Gone comes exactly where the cursor is below the store's
/// floor; else Done where the version is there; else Late exactly where the object's fence is above the cursor, as a later read was
/// fenced; else the version is put in, and the answer is Done.
///
/// It needs a store that is kept with the records. After `Memory` the store is unchanged. Gone, Late and a version that is there
/// take no memory.
pub fn put_w(
    store: &mut ObjStore,
    key: &str,
    cursor: Seqnum,
    k: u64,
    value: &Value,
) -> Result<Put, Memory>
    requires { 1 ≤ k }
    ensures ok { IfOk result (PutsFree key.now cursor.0 k value.now store.old store.new) }
    ensures err { OnErr result (IsUnchanged store.old store.new) }
    ensures no_memory { (m : Store) (records : List (Live Body)) → StandsFor store.old m records
        → puts_version key.now cursor.0 k m ≡ false → IsOk result }
{
    store.put_at(key, cursor, k, value)
}
