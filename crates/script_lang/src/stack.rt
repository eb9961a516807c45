//! What stands before the part of an expression that is being read.

ghost use Rattle.std.specs.Prelude.{◌≡◌, ◌∷◌, ◌++◌, [], IfOk, reverse};
ghost use Rattle.script_lang.specs.Expressions.{precedence, reduce, is_after_comparison, may_be_negated, left_precedence};

use crate::parts::{Part, Wrapper, join_parts, negate_part};
use boki_types::BinOp;
use lb_base::Memory;
use std::alloc::Global;

/// What stands before the part that is being read.
#[derive(Drop)]
pub enum StackItem {
    /// A parenthesis that is open.
    Open(Wrapper),
    Not,
    /// The left side of an operator.
    Left(Part, BinOp),
}

/// What may come next.
#[derive(Drop)]
pub enum ExprState {
    /// An operand.
    NeedsOperand,
    /// The number whose sign was read.
    NeedsNumber,
    /// The parenthesis behind `text` or `len`.
    NeedsParen(Wrapper),
    /// An operator, or the end: this part is read.
    HasOperand(Part),
}

/// How tightly an operator binds. `not` binds as 3, between `and` and the comparisons.
pub(crate) fn precedence_of(op: BinOp) -> u8
    ensures { result ≡ precedence op }
{
    match op {
        BinOp::Or => 1,
        BinOp::And => 2,
        BinOp::Eq | BinOp::Ne | BinOp::Lt | BinOp::Le | BinOp::Gt | BinOp::Ge => 4,
        BinOp::Add | BinOp::Sub | BinOp::Glue => 5,
        BinOp::Mul | BinOp::Div | BinOp::Rem => 6,
    }
}

/// How tightly those bind that take what is read before an operator of this precedence.
pub(crate) fn left_precedence_of(precedence: u8) -> u8
    ensures { result ≡ left_precedence precedence }
{
    if precedence == 4 { 5 } else { precedence }
}

/// Puts an item back, and gives what was read behind it.
fn put_back<A: Drop, B: Drop>(stack: &mut Vec<A>, item: A, read: B) -> Result<B, Memory>
    ensures { IfOk result (λ x. (stack.new.items ≡ stack.old.items ++ item ∷ []) × (x ≡ read)) }
{
    match stack.push(item) {
        Ok(()) => Ok(read),
        Err(_) => {
            drop(read);
            Err(Memory)
        }
    }
}

/// Gives the operators that bind at least so tightly what is read as their right side.
pub(crate) fn reduce_stack(
    alloc: Global,
    precedence: u8,
    stack: &mut Vec<StackItem>,
    read: Part,
) -> Result<Part, Memory>
    ensures { IfOk result (λ x. (reverse stack.new.items, x) ≡ reduce precedence (reverse stack.old.items) read) }
{
    let mut read = read;
    'items: while let Some(item) = stack.pop() {
        match item {
            StackItem::Left(left, op) => {
                if precedence <= precedence_of(op) {
                    read = join_parts(alloc, op, left, read)?;
                } else {
                    return put_back(stack, StackItem::Left(left, op), read);
                }
            }
            StackItem::Not => {
                if precedence <= 3 {
                    read = negate_part(alloc, read)?;
                } else {
                    return put_back(stack, StackItem::Not, read);
                }
            }
            StackItem::Open(wrapper) => return put_back(stack, StackItem::Open(wrapper), read),
        }
    }
    Ok(read)
}

/// Whether the left side of a comparison stands last.
pub(crate) fn is_behind_comparison(stack: &Vec<StackItem>) -> bool
    ensures { result ≡ is_after_comparison (reverse stack.now.items) }
{
    match stack.last() {
        Some(StackItem::Left(_, op)) => precedence_of(*op) == 4,
        _ => false,
    }
}

/// Whether `not` may come.
pub(crate) fn may_negate(stack: &Vec<StackItem>) -> bool
    ensures { result ≡ may_be_negated (reverse stack.now.items) }
{
    match stack.last() {
        Some(StackItem::Left(_, op)) => precedence_of(*op) < 4,
        _ => true,
    }
}
