//! Values, results and turns.

ghost use Rattle.std.specs.Prelude.{◌≡◌, IfOk};
ghost use Rattle.serde_json.specs.View.{view};
ghost use Rattle.report_json.specs.Json.{value_data, values_data, outcome_data, turn_data, turns_data};

use boki_types::{Program, Turn};
use lb_base::{Memory, Outcome, Value};
use plan_lang::text::bare_turn_string;
use serde_json::{Value as Json, json};
use std::alloc::Global;

/// An integer as a number, a text as a string, and `none` as null.
pub(crate) fn value(alloc: Global, value: &Value) -> Result<Json, Memory>
    ensures { IfOk result (λ v. view v ≡ value_data value.now) }
{
    match value {
        Value::Int(n) => Ok(Json::from(*n)),
        Value::Text(text) => Ok(Json::try_from_str(alloc, text.as_str())?),
        Value::Nothing => Ok(Json::Null),
    }
}

/// An array of values.
pub(crate) fn values(alloc: Global, values: &[Value]) -> Result<Json, Memory>
    ensures { IfOk result (λ v. view v ≡ values_data values.now) }
{
    let mut items = Vec::new(alloc);
    'values: for found in values {
        let item = value(alloc, found)?;
        serde_json::push(&mut items, item)?;
    }
    Ok(Json::Array(items))
}

/// A result, as an object with the member `value` or `trap`.
pub(crate) fn outcome(alloc: Global, outcome: &Outcome) -> Result<Json, Memory>
    ensures { IfOk result (λ v. view v ≡ outcome_data outcome.now) }
{
    match outcome {
        Outcome::Good(found) => {
            let value = value(alloc, found)?;
            Ok(json!(in alloc; {"value": value})?)
        }
        Outcome::Trap(kind) => {
            let kind = kind.to_string(alloc)?;
            Ok(json!(in alloc; {"trap": kind})?)
        }
    }
}

/// A turn's line without its first word.
fn turn(alloc: Global, turn: &Turn, program: &Program) -> Result<Json, Memory>
    ensures { IfOk result (λ v. view v ≡ turn_data program.now.functions turn.now) }
{
    let text = bare_turn_string(alloc, program.functions.as_slice(), turn)?;
    Ok(Json::try_from_str(alloc, text.as_str())?)
}

/// The turns in their order.
pub(crate) fn turns(alloc: Global, turns: &[Turn], program: &Program) -> Result<Json, Memory>
    ensures { IfOk result (λ v. view v ≡ turns_data program.now.functions turns.now) }
{
    let mut lines = Vec::new(alloc);
    'turns: for found in turns {
        let line = turn(alloc, found, program)?;
        serde_json::push(&mut lines, line)?;
    }
    Ok(Json::Array(lines))
}
