//! Expressions in turn, and names: texts of 1 to 64 bytes.

ghost use Rattle.boki_model.specs.Values.{eval as eval_of, to_name as name_of_value, and_then, as_condition as condition_of};
ghost use Rattle.script_run.specs.Computes.{Computes};
ghost use Rattle.script_run.specs.Pairs.{try_map, value_of, second_of, sides_of, named_of};

use crate::conditions::condition;
use crate::eval::eval;
use crate::fault::EvalFault;
use boki_types::Expr;
use lb_base::{List, TrapKind, Value, Words};
use std::alloc::Global;

/// A value as a name.
pub(crate) fn name_of(value: Value) -> Result<Words, EvalFault>
    ensures { Computes (name_of_value value) result }
{
    match value {
        Value::Text(text) => {
            if 1 <= text.len() && text.len() <= 64 {
                Ok(text)
            } else {
                Err(EvalFault::Trap(TrapKind::Key))
            }
        }
        Value::Int(_) => Err(EvalFault::Trap(TrapKind::Key)),
        Value::Nothing => Err(EvalFault::Trap(TrapKind::Key)),
    }
}

/// The name that an expression gives.
pub(crate) fn name_at(
    alloc: Global,
    x: &Expr,
    variables: &[(Words, Value)],
) -> Result<Words, EvalFault>
    ensures { Computes (and_then (eval_of x.now variables.now) name_of_value) result }
{
    let value = eval(alloc, x, variables)?;
    name_of(value)
}

/// The condition that an expression gives.
pub(crate) fn test(alloc: Global, x: &Expr, variables: &[(Words, Value)]) -> Result<bool, EvalFault>
    ensures { Computes (and_then (eval_of x.now variables.now) condition_of) result }
{
    let value = eval(alloc, x, variables)?;
    condition(&value)
}

/// The values of expressions, from left to right.
pub(crate) fn eval_all(
    alloc: Global,
    xs: &[Expr],
    variables: &[(Words, Value)],
) -> Result<List<Value>, EvalFault>
    ensures { Computes (try_map (value_of variables.now) xs.now) result }
{
    let mut values = List::new(alloc);
    'values: for x in xs {
        values.push(eval(alloc, x, variables)?)?;
    }
    Ok(values)
}

/// The values of the expressions beside names, from left to right.
fn eval_seconds(
    alloc: Global,
    pairs: &[(Words, Expr)],
    variables: &[(Words, Value)],
) -> Result<List<Value>, EvalFault>
    ensures { Computes (try_map (second_of variables.now) pairs.now) result }
{
    let mut values = List::new(alloc);
    'pairs: for pair in pairs {
        values.push(eval(alloc, &pair.1, variables)?)?;
    }
    Ok(values)
}

/// Two expressions' values, the left one first.
pub(crate) fn eval_pair(
    alloc: Global,
    pair: &(Expr, Expr),
    variables: &[(Words, Value)],
) -> Result<(Value, Value), EvalFault>
    ensures { Computes (sides_of variables.now pair.now) result }
{
    let left = eval(alloc, &pair.0, variables)?;
    let right = eval(alloc, &pair.1, variables)?;
    Ok((left, right))
}

/// The values of both sides of each pair, from left to right.
fn eval_sides(
    alloc: Global,
    pairs: &[(Expr, Expr)],
    variables: &[(Words, Value)],
) -> Result<List<(Value, Value)>, EvalFault>
    ensures { Computes (try_map (sides_of variables.now) pairs.now) result }
{
    let mut values = List::new(alloc);
    'pairs: for pair in pairs {
        values.push(eval_pair(alloc, pair, variables)?)?;
    }
    Ok(values)
}

/// Values as names, in their order.
fn names_of(alloc: Global, values: List<Value>) -> Result<List<Words>, EvalFault>
    ensures { Computes (try_map name_of_value values) result }
{
    let mut names = List::new(alloc);
    'names: for value in values.into_vec() {
        names.push(name_of(value)?)?;
    }
    Ok(names)
}

/// The names that the expressions beside variables give, all of which are worked out before the first is judged.
pub(crate) fn names_at(
    alloc: Global,
    pairs: &[(Words, Expr)],
    variables: &[(Words, Value)],
) -> Result<List<Words>, EvalFault>
    ensures { Computes (and_then (try_map (second_of variables.now) pairs.now) (try_map name_of_value)) result }
{
    let values = eval_seconds(alloc, pairs, variables)?;
    names_of(alloc, values)
}

/// A name with what is written to it.
fn named(pair: (Value, Value)) -> Result<(Words, Value), EvalFault>
    ensures { Computes (named_of pair) result }
{
    let (name, value) = pair;
    let name = name_of(name)?;
    Ok((name, value))
}

/// Names with what is written to them, from pairs of values.
fn named_all(alloc: Global, pairs: List<(Value, Value)>) -> Result<List<(Words, Value)>, EvalFault>
    ensures { Computes (try_map named_of pairs) result }
{
    let mut writes = List::new(alloc);
    'writes: for pair in pairs.into_vec() {
        writes.push(named(pair)?)?;
    }
    Ok(writes)
}

/// The names and values of a commit, all of which are worked out before the first name is judged.
pub(crate) fn writes_at(
    alloc: Global,
    pairs: &[(Expr, Expr)],
    variables: &[(Words, Value)],
) -> Result<List<(Words, Value)>, EvalFault>
    ensures { Computes (and_then (try_map (sides_of variables.now) pairs.now) (try_map named_of)) result }
{
    let values = eval_sides(alloc, pairs, variables)?;
    named_all(alloc, values)
}
