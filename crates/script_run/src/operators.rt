//! Operators between values. Each judges the kinds of its operands first, then a zero divisor, then the range.

ghost use Rattle.std.specs.Prelude.{◌≡◌, int_div, int_rem};
ghost use Rattle.boki_model.specs.Values.{same_value, checked_divide, concat_texts, apply_operator as operate_of, to_text as text_of_value, to_length as length_of_value};
ghost use Rattle.script_run.specs.Computes.{Computes};
ghost use Rattle.script_run.specs.Operators.{is_less as is_less_of, integers_of, ranged, short_circuit_of, applied_of, IsArithmetic};

use crate::conditions::{condition, truth};
use crate::fault::EvalFault;
use boki_types::BinOp;
use lb_base::{TrapKind, Value, print_int};
use std::alloc::Global;
use std::cmp::Ordering;

/// Whether two values are the same. Values of different kinds aren't.
fn is_same(left: &Value, right: &Value) -> bool
    ensures { result ≡ same_value left.now right.now }
{
    match left {
        Value::Int(a) => match right {
            Value::Int(b) => *a == *b,
            Value::Text(_) => false,
            Value::Nothing => false,
        },
        Value::Text(s) => match right {
            Value::Int(_) => false,
            Value::Text(t) => s == t,
            Value::Nothing => false,
        },
        Value::Nothing => match right {
            Value::Int(_) => false,
            Value::Text(_) => false,
            Value::Nothing => true,
        },
    }
}

/// Whether one value is below another: two integers, or two texts by their bytes.
fn is_less(left: &Value, right: &Value) -> Result<bool, EvalFault>
    ensures { Computes (is_less_of left.now right.now) result }
{
    match left {
        Value::Int(a) => match right {
            Value::Int(b) => Ok(*a < *b),
            Value::Text(_) => Err(EvalFault::Trap(TrapKind::Kind)),
            Value::Nothing => Err(EvalFault::Trap(TrapKind::Kind)),
        },
        Value::Text(s) => match right {
            Value::Int(_) => Err(EvalFault::Trap(TrapKind::Kind)),
            Value::Text(t) => Ok(s.cmp(t) == Ordering::Less),
            Value::Nothing => Err(EvalFault::Trap(TrapKind::Kind)),
        },
        Value::Nothing => Err(EvalFault::Trap(TrapKind::Kind)),
    }
}

/// Two integers.
fn integers(left: &Value, right: &Value) -> Result<(i64, i64), EvalFault>
    ensures { Computes (integers_of left.now right.now) result }
{
    match left {
        Value::Int(a) => match right {
            Value::Int(b) => Ok((*a, *b)),
            Value::Text(_) => Err(EvalFault::Trap(TrapKind::Kind)),
            Value::Nothing => Err(EvalFault::Trap(TrapKind::Kind)),
        },
        Value::Text(_) => Err(EvalFault::Trap(TrapKind::Kind)),
        Value::Nothing => Err(EvalFault::Trap(TrapKind::Kind)),
    }
}

/// An integer that may have left the range of 64 bits.
fn in_range(n: Option<i64>) -> Result<Value, EvalFault>
    ensures { Computes (ranged n) result }
{
    match n {
        Some(n) => Ok(Value::Int(n)),
        None => Err(EvalFault::Trap(TrapKind::Overflow)),
    }
}

/// The quotient, truncated toward zero.
fn quotient(a: i64, b: i64) -> Result<Value, EvalFault>
    ensures { Computes (checked_divide int_div a b) result }
{
    if b == 0 {
        return Err(EvalFault::Trap(TrapKind::Divide));
    }
    in_range(a.checked_div(b))
}

/// The remainder, which has the sign of the dividend.
fn remainder(a: i64, b: i64) -> Result<Value, EvalFault>
    ensures { Computes (checked_divide int_rem a b) result }
{
    if b == 0 {
        return Err(EvalFault::Trap(TrapKind::Divide));
    }
    in_range(a.checked_rem(b))
}

/// Two texts as one of at most 256 bytes.
fn glue(left: Value, right: &Value) -> Result<Value, EvalFault>
    ensures { Computes (concat_texts left right.now) result }
{
    match left {
        Value::Text(mut text) => match right {
            Value::Int(_) => Err(EvalFault::Trap(TrapKind::Kind)),
            Value::Text(more) => {
                text.push(more.as_str())?;
                if text.len() <= 256 {
                    Ok(Value::Text(text))
                } else {
                    Err(EvalFault::Trap(TrapKind::Text))
                }
            }
            Value::Nothing => Err(EvalFault::Trap(TrapKind::Kind)),
        },
        Value::Int(_) => Err(EvalFault::Trap(TrapKind::Kind)),
        Value::Nothing => Err(EvalFault::Trap(TrapKind::Kind)),
    }
}

/// Arithmetic on two integers: sum, difference, product, quotient and remainder.
fn computed(op: BinOp, left: &Value, right: &Value) -> Result<Value, EvalFault>
    requires { IsArithmetic op }
    ensures { Computes (operate_of op left.now right.now) result }
{
    let (a, b) = integers(left, right)?;
    match op {
        BinOp::Add => in_range(a.checked_add(b)),
        BinOp::Sub => in_range(a.checked_sub(b)),
        BinOp::Mul => in_range(a.checked_mul(b)),
        BinOp::Div => quotient(a, b),
        _ => remainder(a, b),
    }
}

/// What an operator makes of its operands, both worked out.
fn operate(op: BinOp, left: Value, right: &Value) -> Result<Value, EvalFault>
    ensures { Computes (operate_of op left right.now) result }
{
    match op {
        BinOp::Or | BinOp::And => Err(EvalFault::Trap(TrapKind::Kind)),
        BinOp::Eq => Ok(truth(is_same(&left, right))),
        BinOp::Ne => Ok(truth(!is_same(&left, right))),
        BinOp::Lt => {
            let less = is_less(&left, right)?;
            Ok(truth(less))
        }
        BinOp::Le => {
            let less = is_less(right, &left)?;
            Ok(truth(!less))
        }
        BinOp::Gt => {
            let less = is_less(right, &left)?;
            Ok(truth(less))
        }
        BinOp::Ge => {
            let less = is_less(&left, right)?;
            Ok(truth(!less))
        }
        BinOp::Glue => glue(left, right),
        BinOp::Add | BinOp::Sub | BinOp::Mul | BinOp::Div | BinOp::Rem => {
            computed(op, &left, right)
        }
    }
}

/// The value that the left operand of `and` or `or` decides. It traps where it is no condition; of the other operators it
/// decides nothing.
pub(crate) fn short_circuit(op: BinOp, left: &Value) -> Result<Option<Value>, EvalFault>
    ensures { Computes (short_circuit_of op left.now) result }
{
    match op {
        BinOp::Or => {
            let holds = condition(left)?;
            if holds {
                Ok(Some(truth(true)))
            } else {
                Ok(None)
            }
        }
        BinOp::And => {
            let holds = condition(left)?;
            if holds {
                Ok(None)
            } else {
                Ok(Some(truth(false)))
            }
        }
        _ => Ok(None),
    }
}

/// What an operator makes of its operands, where the left one didn't decide.
pub(crate) fn apply(op: BinOp, left: Value, right: &Value) -> Result<Value, EvalFault>
    ensures { Computes (applied_of op left right.now) result }
{
    match op {
        BinOp::Or | BinOp::And => {
            let holds = condition(right)?;
            Ok(truth(holds))
        }
        _ => operate(op, left, right),
    }
}

/// An integer's decimal text, or the text itself.
pub(crate) fn text_of(alloc: Global, value: Value) -> Result<Value, EvalFault>
    ensures { Computes (text_of_value value) result }
{
    match value {
        Value::Int(n) => Ok(Value::Text(print_int(alloc, n)?)),
        Value::Text(text) => Ok(Value::Text(text)),
        Value::Nothing => Err(EvalFault::Trap(TrapKind::Kind)),
    }
}

/// A text's number of bytes.
pub(crate) fn length_of(value: &Value) -> Result<Value, EvalFault>
    ensures { Computes (length_of_value value.now) result }
{
    match value {
        Value::Int(_) => Err(EvalFault::Trap(TrapKind::Kind)),
        Value::Text(text) => {
            let length = text.as_bytes().len();
            Ok(Value::Int(length as i64))
        }
        Value::Nothing => Err(EvalFault::Trap(TrapKind::Kind)),
    }
}
