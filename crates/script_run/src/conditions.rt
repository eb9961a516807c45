//! Conditions: integers, where 0 is false.

ghost use Rattle.boki_model.specs.Values.{bool_value as truth_of, as_condition as condition_of, negate_condition as negated_of};
ghost use Rattle.std.specs.Prelude.{◌≡◌};
ghost use Rattle.script_run.specs.Computes.{Computes};

use crate::fault::EvalFault;
use lb_base::{TrapKind, Value};

/// The value of a test: 1 or 0.
pub(crate) fn truth(holds: bool) -> Value
    ensures { result ≡ truth_of holds }
{
    if holds { Value::Int(1) } else { Value::Int(0) }
}

/// Whether a value is true. It traps where the value is no integer.
pub(crate) fn condition(value: &Value) -> Result<bool, EvalFault>
    ensures { Computes (condition_of value.now) result }
{
    match value {
        Value::Int(n) => Ok(*n != 0),
        Value::Text(_) | Value::Nothing => Err(EvalFault::Trap(TrapKind::Kind)),
    }
}

/// `not`.
pub(crate) fn negated(value: &Value) -> Result<Value, EvalFault>
    ensures { Computes (negated_of value.now) result }
{
    let holds = condition(value)?;
    Ok(truth(!holds))
}
