//! The keys of the store in order.

ghost use Rattle.std.specs.Prelude.{◌≡◌, ℕ, List, [], slice_get, Some, IfOk, OnOk};
ghost use Rattle.std.specs.Map.{keys_of};
ghost use Rattle.obj_store.specs.Kept.{KeptObject};
ghost use Rattle.obj_store.specs.Keys.{with_key, with_keys};

use crate::objects::Objects;
use lb_base::{Memory, Words};
use std::alloc::Global;
use std::collections::BTreeMap;

// Adds the key of the object at a index, where something is kept of it.
fn add_key(sorted: &mut BTreeMap<Words, ()>, objects: &Objects, index: usize) -> Result<(), Memory>
    ensures { OnOk result ((e : List ℕ × KeptObject) → slice_get objects.now.entries index ≡ Some e → sorted.new.entries ≡ with_key e sorted.old.entries) }
{
    if let Some((key, object)) = objects.get_index(index) {
        if !object.is_empty() {
            sorted.insert(key.clone()?, ())?;
        }
    }
    Ok(())
}

// The keys of the objects of which something is kept, in the order of their bytes.
fn sorted_keys(objects: &Objects, alloc: Global) -> Result<BTreeMap<Words, ()>, Memory>
    ensures { IfOk result (λ s. s.entries ≡ with_keys objects.now.entries []) }
{
    let mut sorted = BTreeMap::new(alloc);
    for index in 0..objects.len() {
        add_key(&mut sorted, objects, index)?;
    }
    Ok(sorted)
}

/// The keys of the objects of which something is kept, in the order of their bytes.
pub fn keys(objects: &Objects, alloc: Global) -> Result<Vec<Words>, Memory>
    ensures { IfOk result (λ v. v.items ≡ keys_of (with_keys objects.now.entries [])) }
{
    let sorted = sorted_keys(objects, alloc)?;
    let mut keys = Vec::new(alloc);
    for key in sorted.into_keys() {
        keys.push(key)?;
    }
    Ok(keys)
}
