//! Parts of expressions, within the limits.

ghost use Rattle.std.specs.Prelude.{◌≡◌, IfOk};
ghost use Rattle.script_lang.specs.Expressions.{leaf, binary_part, nested_part, wrap, not_expr, positive, negative, checked_expr};

use boki_types::{BinOp, Expr};
use lb_base::Memory;
use line_text::Checked;
use sqlite_items::Boxed;
use std::alloc::Global;

/// The most operands of an expression.
const MOST_OPERANDS: u16 = 64;
/// How many of parentheses, `not`, `text` and `len` may stand in one another.
const MOST_NESTED: u8 = 32;

/// A part of an expression.
#[derive(Drop)]
pub enum Part {
    /// An expression, its number of operands, and its nesting.
    Tree(Expr, u8, u8),
    /// Something in it is out of range.
    OutOfRange,
    /// It is past the limits, and all in it is in range.
    TooDeep,
}

/// What parentheses make of a part.
#[derive(Clone, Copy, Debug, PartialEq, Eq)]
pub enum Wrapper {
    Paren,
    TextOf,
    Len,
}

/// An operand.
pub(crate) fn operand(fits: bool, x: Expr) -> Part
    ensures { result ≡ leaf fits x }
{
    if fits {
        Part::Tree(x, 1, 0)
    } else {
        Part::OutOfRange
    }
}

/// A numeral without a sign.
pub(crate) fn positive_part(n: Option<u64>) -> Part
    ensures { result ≡ positive n }
{
    match n {
        None => Part::OutOfRange,
        Some(n) => {
            if n < 1 << 63 {
                Part::Tree(Expr::Int(n as i64), 1, 0)
            } else {
                Part::OutOfRange
            }
        }
    }
}

/// A numeral behind a minus.
pub(crate) fn negative_part(n: Option<u64>) -> Part
    ensures { result ≡ negative n }
{
    match n {
        None => Part::OutOfRange,
        Some(n) => {
            if n < 1 << 63 {
                Part::Tree(Expr::Int(-(n as i64)), 1, 0)
            } else if n == 1 << 63 {
                Part::Tree(Expr::Int(i64::MIN), 1, 0)
            } else {
                Part::OutOfRange
            }
        }
    }
}

fn two_trees(alloc: Global, op: BinOp, left: Expr, right: Expr) -> Result<Expr, Memory>
    ensures { IfOk result (λ x. x ≡ Expr.Two op left right) }
{
    let left = Boxed::new(alloc, left)?;
    Ok(Expr::Two(op, left, Boxed::new(alloc, right)?))
}

/// What two trees with their counts make.
fn join_trees(
    alloc: Global,
    op: BinOp,
    left: (Expr, u8, u8),
    right: (Expr, u8, u8),
) -> Result<Part, Memory>
    ensures { IfOk result (λ x. x ≡ binary_part op (Part.Tree left.0 left.1 left.2) (Part.Tree right.0 right.1 right.2)) }
{
    let operands = left.1 as u16 + right.1 as u16;
    if operands <= MOST_OPERANDS {
        let tree = two_trees(alloc, op, left.0, right.0)?;
        Ok(Part::Tree(tree, operands as u8, left.2.max(right.2)))
    } else {
        Ok(Part::TooDeep)
    }
}

/// An operator between two parts.
pub(crate) fn join_parts(alloc: Global, op: BinOp, left: Part, right: Part) -> Result<Part, Memory>
    ensures { IfOk result (λ x. x ≡ binary_part op left right) }
{
    match left {
        Part::Tree(x, n, d) => match right {
            Part::Tree(y, m, e) => join_trees(alloc, op, (x, n, d), (y, m, e)),
            Part::OutOfRange => Ok(Part::OutOfRange),
            Part::TooDeep => Ok(Part::TooDeep),
        },
        Part::OutOfRange => Ok(Part::OutOfRange),
        Part::TooDeep => match right {
            Part::Tree(_, _, _) => Ok(Part::TooDeep),
            Part::OutOfRange => Ok(Part::OutOfRange),
            Part::TooDeep => Ok(Part::TooDeep),
        },
    }
}

fn wrap_tree(alloc: Global, wrapper: Wrapper, x: Expr) -> Result<Expr, Memory>
    ensures { IfOk result (λ y. y ≡ wrap wrapper x) }
{
    match wrapper {
        Wrapper::Paren => Ok(x),
        Wrapper::TextOf => Ok(Expr::TextOf(Boxed::new(alloc, x)?)),
        Wrapper::Len => Ok(Expr::Len(Boxed::new(alloc, x)?)),
    }
}

/// A part in parentheses.
pub(crate) fn wrap_part(alloc: Global, wrapper: Wrapper, part: Part) -> Result<Part, Memory>
    ensures { IfOk result (λ x. x ≡ nested_part (wrap wrapper) part) }
{
    match part {
        Part::Tree(x, n, d) => {
            if d < MOST_NESTED {
                Ok(Part::Tree(wrap_tree(alloc, wrapper, x)?, n, d + 1))
            } else {
                Ok(Part::TooDeep)
            }
        }
        Part::OutOfRange => Ok(Part::OutOfRange),
        Part::TooDeep => Ok(Part::TooDeep),
    }
}

/// `not` before a part.
pub(crate) fn negate_part(alloc: Global, part: Part) -> Result<Part, Memory>
    ensures { IfOk result (λ x. x ≡ nested_part not_expr part) }
{
    match part {
        Part::Tree(x, n, d) => {
            if d < MOST_NESTED {
                Ok(Part::Tree(Expr::Not(Boxed::new(alloc, x)?), n, d + 1))
            } else {
                Ok(Part::TooDeep)
            }
        }
        Part::OutOfRange => Ok(Part::OutOfRange),
        Part::TooDeep => Ok(Part::TooDeep),
    }
}

/// A part as an expression.
pub(crate) fn checked_part(part: Part) -> Checked<Expr>
    ensures { result ≡ checked_expr part }
{
    match part {
        Part::Tree(x, _, _) => Checked::Valid(x),
        Part::OutOfRange => Checked::OutOfRange,
        Part::TooDeep => Checked::TooDeep,
    }
}
