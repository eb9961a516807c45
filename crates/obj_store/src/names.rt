//! The values that are stored under names.

ghost use Rattle.std.specs.Prelude.{◌≡◌, ◌≤◌, ◌+◌, ◌++◌, [], ℕ, cond, length, option_copied, option_map, Some, None, IfOk, OnOk, OnErr};
ghost use Rattle.std.specs.List.{IsDistinct};
ghost use Rattle.std.specs.Map.{keys_of};
ghost use Rattle.boki_types.specs.declared.store.Name.{Name};
ghost use Rattle.boki_model.specs.Writes.{prepend_some};
ghost use Rattle.obj_store.specs.Kept.{same_name_pair, value_under};
ghost use Rattle.obj_store.specs.Sweeps.{settled_value, swept_write, swept_writes, has_settled};

use crate::objects::SweptWrite;
use crate::writes::PositionedWrite;
use boki_types::{Name, Settled};
use lb_base::{Memory, Path, Value};
use std::alloc::Global;
use std::collections::HashMap;

/// The values by name: by a path and a place.
pub type Names = HashMap<(Path, u64), Value>;

/// The value under a name.
pub fn find<'a>(names: &'a Names, name: &Name) -> Option<&'a Value>
    ensures { option_copied result ≡ value_under name.now names.now.entries }
{
    names.get(&(name.path, name.place))
}

/// Stores a copy of a value under a name that has none. After `Memory` nothing is changed.
pub fn put(names: &mut Names, name: &Name, value: &Value) -> Result<(), Memory>
    requires { value_under name.now names.old.entries ≡ None }
    ensures finds { OnOk result ((n : Name) → value_under n names.new.entries ≡ cond (same_name_pair (name.now.path, name.now.place) (n.path, n.place)) (Some value.now) (value_under n names.old.entries)) }
    ensures len { OnOk result (length names.new.entries ≡ length names.old.entries + 1) }
    ensures distinct { OnOk result (IsDistinct same_name_pair (keys_of names.new.entries)) }
    ensures err { OnErr result (names.new.entries ≡ names.old.entries) }
{
    let value = value.clone()?;
    names.insert((name.path, name.place), value)?;
    Ok(())
}

// Takes out what is stored under a name.
fn remove(names: &mut Names, name: Name)
    ensures finds { (n : Name) → value_under n names.new.entries ≡ cond (same_name_pair (name.path, name.place) (n.path, n.place)) None (value_under n names.old.entries) }
    ensures distinct { IsDistinct same_name_pair (keys_of names.new.entries) }
    ensures len { length names.new.entries ≤ length names.old.entries }
{
    names.remove(&(name.path, name.place));
}

/// Takes out what is stored under the names of the writes.
pub fn remove_all(names: &mut Names, settled: &[Settled])
    ensures finds { (n : Name) → value_under n names.new.entries ≡ cond (has_settled n settled.now) None (value_under n names.old.entries) }
    ensures distinct { IsDistinct same_name_pair (keys_of names.old.entries) → IsDistinct same_name_pair (keys_of names.new.entries) }
    ensures len { length names.new.entries ≤ length names.old.entries }
{
    for write in settled {
        remove(names, write.name);
    }
}

// The value of a logged write: the one that its record holds, or the one under its name.
fn value_of<'a>(names: &'a Names, write: &'a Settled) -> Option<&'a Value>
    ensures { option_copied result ≡ settled_value names.now.entries write.now }
{
    match &write.here {
        Some(value) => Some(value),
        None => find(names, &write.name),
    }
}

// A logged write with a copy of its value, where it has one.
fn copy_swept_write(names: &Names, write: &Settled) -> Result<Option<SweptWrite>, Memory>
    ensures { IfOk result (λ o. o ≡ swept_write names.now.entries write.now) }
{
    let Some(value) = value_of(names, write) else {
        return Ok(None);
    };
    let value = value.clone()?;
    let key = write.key.clone()?;
    let write = PositionedWrite::new(write.seq.0, 0, value);
    Ok(Some(SweptWrite { key, write }))
}

// Adds a write at the end, where there is one.
fn push_some(passed: &mut Vec<SweptWrite>, one: Option<SweptWrite>) -> Result<(), Memory>
    ensures { OnOk result (passed.new.items ≡ passed.old.items ++ prepend_some one []) }
{
    if let Some(one) = one {
        passed.push(one)?;
    }
    Ok(())
}

/// The logged writes that have a value, each with a copy of it.
pub fn copy_swept_writes(
    names: &Names,
    alloc: Global,
    settled: &[Settled],
) -> Result<Vec<SweptWrite>, Memory>
    ensures { IfOk result (λ v. v.items ≡ swept_writes names.now.entries settled.now) }
{
    let mut passed = Vec::new(alloc);
    for write in settled {
        let one = copy_swept_write(names, write)?;
        push_some(&mut passed, one)?;
    }
    Ok(passed)
}
