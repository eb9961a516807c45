//! Calls over all objects of the store.

ghost use Rattle.std.specs.Prelude.{◌≡◌, ◌+◌, ◌<◌, ◌^◌, ℕ, true, cond, map, sum_by, slice_get, List, Some};
ghost use Rattle.std.specs.Map.{keys_of, values_of};
ghost use Rattle.boki_model.specs.Maps.{has};
ghost use Rattle.indexmap.specs.IndexMap.{set_value_at};
ghost use Rattle.obj_store.specs.Ascending.{Ascend};
ghost use Rattle.obj_store.specs.Kept.{KeptObject, object_in, has_key, count_of, total};
ghost use Rattle.obj_store.specs.Steps.{RaisesFences, LiftsBases, AllAscend, raised_to, swept_object, swept_objects, lifted, has_swept_write, count_at_cursor};

use crate::objects::{Objects, SweptWrite, lift, raise};
use lb_base::{Seqnum, Words};

/// Raises the fence of each of the objects, which have entries.
pub fn raise_all(objects: &mut Objects, keys: &[Words], at: Seqnum)
    requires { (k : List ℕ) → has k keys.now ≡ true → has_key k objects.old.entries ≡ true }
    ensures { RaisesFences keys.now at.0 objects.old.entries objects.new.entries }
{
    for key in keys {
        raise(objects, key.as_str(), at);
    }
}

// Makes the object at a index settle below the floor.
fn sweep_object_at(objects: &mut Objects, index: usize, floor: Seqnum)
    ensures keys { keys_of objects.new.entries ≡ keys_of objects.old.entries }
    ensures settled { (e : List ℕ × KeptObject) → slice_get objects.old.entries index ≡ Some e → Ascend e.1.versions → objects.new.entries ≡ set_value_at objects.old.entries index (swept_object floor.0 e.1) }
{
    if let Some(object) = objects.get_index_mut(index) {
        object.sweep_below(floor);
    }
}

/// Makes each object settle below the floor.
pub fn sweep_objects(objects: &mut Objects, floor: Seqnum)
    ensures keys { keys_of objects.new.entries ≡ keys_of objects.old.entries }
    ensures settled { AllAscend objects.old.entries → objects.new.entries ≡ swept_objects floor.0 objects.old.entries }
{
    for index in 0..objects.len() {
        sweep_object_at(objects, index, floor);
    }
}

/// Lifts the bases of objects that have entries to logged writes, each in turn.
pub fn lift_all(objects: &mut Objects, passed: Vec<SweptWrite>)
    requires { (k : List ℕ) → has_swept_write k passed.items ≡ true → has_key k objects.old.entries ≡ true }
    ensures { LiftsBases passed.items objects.old.entries objects.new.entries }
{
    for SweptWrite { key, write } in passed {
        lift(objects, key.as_str(), write);
    }
}

// How many writes are kept of the object at a index.
fn len_at(objects: &Objects, index: usize) -> u64
    ensures { (e : List ℕ × KeptObject) → slice_get objects.now.entries index ≡ Some e → result ≡ count_of e.1 }
{
    match objects.get_index(index) {
        Some((_, object)) => object.len(),
        None => 0,
    }
}

/// How many writes the objects keep, where a number of 64 bits tells it.
pub fn count(objects: &Objects) -> u64
    ensures { total objects.now.entries < 2 ^ 64 → result ≡ total objects.now.entries }
{
    let mut count = 0u64;
    for index in 0..objects.len() {
        count = count.saturating_add(len_at(objects, index));
    }
    count
}

// How many versions of the object at a index stand at a cursor.
fn versions_at(objects: &Objects, index: usize, cursor: Seqnum) -> u64
    ensures { (e : List ℕ × KeptObject) → slice_get objects.now.entries index ≡ Some e → Ascend e.1.versions → result ≡ count_at_cursor cursor.0 e.1 }
{
    match objects.get_index(index) {
        Some((_, object)) => object.count_at(cursor),
        None => 0,
    }
}

/// How many versions stand at a cursor, where a number of 64 bits tells it.
pub fn count_at(objects: &Objects, cursor: Seqnum) -> u64
    ensures { AllAscend objects.now.entries → sum_by (count_at_cursor cursor.0) (values_of objects.now.entries) < 2 ^ 64 → result ≡ sum_by (count_at_cursor cursor.0) (values_of objects.now.entries) }
{
    let mut count = 0u64;
    for index in 0..objects.len() {
        count = count.saturating_add(versions_at(objects, index, cursor));
    }
    count
}
