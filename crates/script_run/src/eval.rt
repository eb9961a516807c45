//! Expressions. Both operands are worked out before an operator judges them, the left one first; `and` and `or` judge the
//! left one, and stop there where it decides.

ghost use Rattle.std.specs.Prelude.{◌≡◌};
ghost use Rattle.boki_model.specs.Values.{eval as eval_of};
ghost use Rattle.script_run.specs.Computes.{Computes};

use crate::conditions::negated;
use crate::fault::EvalFault;
use crate::operators::{apply, length_of, short_circuit, text_of};
use crate::variables::look_up;
use boki_types::Expr;
use lb_base::{Value, Words};
use std::alloc::Global;

#[tactic(auto, using(crate::proofs::Evals::evals))]
/// The value of an expression.
///
/// It calls itself as deep as the expression is.
pub(crate) fn eval(
    alloc: Global,
    x: &Expr,
    variables: &[(Words, Value)],
) -> Result<Value, EvalFault>
    ensures { Computes (eval_of x.now variables.now) result }
{
    match x {
        Expr::Int(n) => Ok(Value::Int(*n)),
        Expr::Text(text) => Ok(Value::Text(text.clone()?)),
        Expr::Nothing => Ok(Value::Nothing),
        Expr::Var(name) => Ok(look_up(name, variables)?),
        Expr::Not(x) => {
            let value = eval(alloc, x.get(), variables)?;
            negated(&value)
        }
        Expr::Two(op, x, y) => {
            let left = eval(alloc, x.get(), variables)?;
            match short_circuit(*op, &left)? {
                Some(value) => Ok(value),
                None => {
                    let right = eval(alloc, y.get(), variables)?;
                    apply(*op, left, &right)
                }
            }
        }
        Expr::TextOf(x) => {
            let value = eval(alloc, x.get(), variables)?;
            text_of(alloc, value)
        }
        Expr::Len(x) => {
            let value = eval(alloc, x.get(), variables)?;
            length_of(&value)
        }
    }
}
