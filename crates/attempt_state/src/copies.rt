//! Copies that are told to be the same value.
ghost use Rattle.std.specs.Prelude.{◌≡◌, IfOk};
ghost use Rattle.std.specs.Option.{option_copied};

use lb_base::{List, Memory, Outcome, Value, Words};

/// A copy of values.
pub fn copy_values(list: &List<Value>) -> Result<List<Value>, Memory>
    ensures { IfOk result (λ copy. copy ≡ list.now) }
{
    Ok(list.clone()?)
}

/// A copy of names.
pub fn copy_names(list: &List<Words>) -> Result<List<Words>, Memory>
    ensures { IfOk result (λ copy. copy ≡ list.now) }
{
    Ok(list.clone()?)
}

/// A copy of names with values.
pub fn copy_writes(list: &List<(Words, Value)>) -> Result<List<(Words, Value)>, Memory>
    ensures { IfOk result (λ copy. copy ≡ list.now) }
{
    Ok(list.clone()?)
}

/// A copy of an outcome.
pub fn copy_outcome(outcome: &Outcome) -> Result<Outcome, Memory>
    ensures { IfOk result (λ copy. copy ≡ outcome.now) }
{
    match outcome {
        Outcome::Good(value) => Ok(Outcome::Good(value.clone()?)),
        Outcome::Trap(kind) => Ok(Outcome::Trap(*kind)),
    }
}

/// A copy of a value, where there is one.
pub(crate) fn copy_optional(value: Option<&Value>) -> Result<Option<Value>, Memory>
    ensures { IfOk result (λ copy. copy ≡ option_copied value.entry) }
{
    match value {
        Some(value) => Ok(Some(value.clone()?)),
        None => Ok(None),
    }
}
