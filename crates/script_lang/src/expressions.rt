//! Expressions.
//!
//! They are read from the left with a stack of what stands before, so that nothing here calls itself: a line may have any number
//! of parentheses. A tree is built only within the limits.

ghost use Rattle.std.specs.Prelude.{◌≡◌, ◌<◌, ◌∷◌, List, IfOk, length, reverse};
ghost use Rattle.script_lang.specs.Expressions.{shift_operand, shift_number, shift_not, shift_keyword, shift_wrapper, left_precedence, precedence, shift_operator, push_operator, shift_minus, shift_open, shift_token, end_of_expr, expr_before, close_paren, reduce, read_from, expr_at, lookahead_of};
ghost use Rattle.line_text.specs.Stream.{found_before};
ghost use Rattle.script_lang.specs.ReadSteps.{with_stack, ReadsOn, Closes, Continues};

use crate::first::{Lookahead, lookahead_token};
use crate::parts::{
    Part, Wrapper, checked_part, negative_part, operand as operand_part, positive_part, wrap_part,
};
use crate::stack::{
    ExprState, StackItem, is_behind_comparison, left_precedence_of, may_negate, precedence_of,
    reduce_stack,
};
use boki_types::{BinOp, Expr};
use lb_base::Memory;
use line_text::{Checked, Keyword, Punctuation, Token, Tokens};
use std::alloc::Global;

/// An operand, where one is due.
fn shift_operand_part(place: ExprState, part: Part) -> Option<ExprState>
    ensures { (s : _) → with_stack s result ≡ shift_operand s place part }
{
    match place {
        ExprState::NeedsOperand => Some(ExprState::HasOperand(part)),
        ExprState::NeedsNumber => None,
        ExprState::NeedsParen(_) => None,
        ExprState::HasOperand(_) => None,
    }
}

/// A numeral.
fn number_here(place: ExprState, n: Option<u64>) -> Option<ExprState>
    ensures { (s : _) → with_stack s result ≡ shift_number n s place }
{
    match place {
        ExprState::NeedsOperand => Some(ExprState::HasOperand(positive_part(n))),
        ExprState::NeedsNumber => match n {
            Some(0) => None,
            _ => Some(ExprState::HasOperand(negative_part(n))),
        },
        ExprState::NeedsParen(_) => None,
        ExprState::HasOperand(_) => None,
    }
}

/// `text` or `len`.
fn wrapper_here(place: ExprState, wrapper: Wrapper) -> Option<ExprState>
    ensures { (s : _) → with_stack s result ≡ shift_wrapper wrapper s place }
{
    match place {
        ExprState::NeedsOperand => Some(ExprState::NeedsParen(wrapper)),
        ExprState::NeedsNumber => None,
        ExprState::NeedsParen(_) => None,
        ExprState::HasOperand(_) => None,
    }
}

/// `not`.
fn not_here(stack: &mut Vec<StackItem>, place: ExprState) -> Result<Option<ExprState>, Memory>
    ensures { IfOk result (λ r. with_stack (reverse stack.new.items) r ≡ shift_not (reverse stack.old.items) place) }
{
    match place {
        ExprState::NeedsOperand => {
            if may_negate(stack) {
                stack.push(StackItem::Not)?;
                Ok(Some(ExprState::NeedsOperand))
            } else {
                Ok(None)
            }
        }
        ExprState::NeedsNumber => Ok(None),
        ExprState::NeedsParen(_) => Ok(None),
        ExprState::HasOperand(_) => Ok(None),
    }
}

/// An opening parenthesis.
fn open_here(stack: &mut Vec<StackItem>, place: ExprState) -> Result<Option<ExprState>, Memory>
    ensures { IfOk result (λ r. with_stack (reverse stack.new.items) r ≡ shift_open (reverse stack.old.items) place) }
{
    match place {
        ExprState::NeedsOperand => {
            stack.push(StackItem::Open(Wrapper::Paren))?;
            Ok(Some(ExprState::NeedsOperand))
        }
        ExprState::NeedsNumber => Ok(None),
        ExprState::NeedsParen(wrapper) => {
            stack.push(StackItem::Open(wrapper))?;
            Ok(Some(ExprState::NeedsOperand))
        }
        ExprState::HasOperand(_) => Ok(None),
    }
}

/// An operator behind a part.
fn operator_behind(
    alloc: Global,
    stack: &mut Vec<StackItem>,
    op: BinOp,
    read: Part,
) -> Result<Option<ExprState>, Memory>
    ensures { IfOk result (λ r. with_stack (reverse stack.new.items) r ≡ push_operator op (reduce (left_precedence (precedence op)) (reverse stack.old.items) read)) }
{
    let precedence = precedence_of(op);
    let left = reduce_stack(alloc, left_precedence_of(precedence), stack, read)?;
    if precedence == 4 && is_behind_comparison(stack) {
        return Ok(None);
    }
    stack.push(StackItem::Left(left, op))?;
    Ok(Some(ExprState::NeedsOperand))
}

/// An operator.
fn operator_here(
    alloc: Global,
    stack: &mut Vec<StackItem>,
    place: ExprState,
    op: BinOp,
) -> Result<Option<ExprState>, Memory>
    ensures { IfOk result (λ r. with_stack (reverse stack.new.items) r ≡ shift_operator op (reverse stack.old.items) place) }
{
    match place {
        ExprState::NeedsOperand => Ok(None),
        ExprState::NeedsNumber => Ok(None),
        ExprState::NeedsParen(_) => Ok(None),
        ExprState::HasOperand(read) => operator_behind(alloc, stack, op, read),
    }
}

/// A minus, which a digit may follow at once.
fn minus_here(
    alloc: Global,
    stack: &mut Vec<StackItem>,
    place: ExprState,
    sign: bool,
) -> Result<Option<ExprState>, Memory>
    ensures { IfOk result (λ r. with_stack (reverse stack.new.items) r ≡ shift_minus sign (reverse stack.old.items) place) }
{
    match place {
        ExprState::NeedsOperand => {
            if sign {
                Ok(Some(ExprState::NeedsNumber))
            } else {
                Ok(None)
            }
        }
        ExprState::NeedsNumber => Ok(None),
        ExprState::NeedsParen(_) => Ok(None),
        ExprState::HasOperand(read) => operator_behind(alloc, stack, BinOp::Sub, read),
    }
}

/// A reserved word.
fn key_here(
    stack: &mut Vec<StackItem>,
    place: ExprState,
    key: Keyword,
) -> Result<Option<ExprState>, Memory>
    ensures { IfOk result (λ r. with_stack (reverse stack.new.items) r ≡ shift_keyword key (reverse stack.old.items) place) }
{
    match key {
        Keyword::Nothing => Ok(shift_operand_part(place, operand_part(true, Expr::Nothing))),
        Keyword::Not => not_here(stack, place),
        Keyword::TextOf => Ok(wrapper_here(place, Wrapper::TextOf)),
        Keyword::Len => Ok(wrapper_here(place, Wrapper::Len)),
        _ => Ok(None),
    }
}

/// What a token makes of what is read; None where it doesn't fit.
fn token_here(
    alloc: Global,
    stack: &mut Vec<StackItem>,
    place: ExprState,
    token: Token,
) -> Result<Option<ExprState>, Memory>
    ensures { IfOk result (λ r. with_stack (reverse stack.new.items) r ≡ shift_token token (reverse stack.old.items) place) }
{
    match token {
        Token::Numeral(n) => Ok(number_here(place, n)),
        Token::Dotted(_) => Ok(None),
        Token::Text(text) => {
            let fits = text.len() <= 256;
            Ok(shift_operand_part(place, operand_part(fits, Expr::Text(text))))
        }
        Token::Name(name) => {
            let fits = name.len() <= 32;
            Ok(shift_operand_part(place, operand_part(fits, Expr::Var(name))))
        }
        Token::Keyword(key) => key_here(stack, place, key),
        Token::Op(op) => operator_here(alloc, stack, place, op),
        Token::Minus(sign) => minus_here(alloc, stack, place, sign),
        Token::Punctuation(Punctuation::Open) => open_here(stack, place),
        Token::Punctuation(_) => Ok(None),
    }
}

/// What is read, where it is whole.
fn whole_part(
    alloc: Global,
    stack: &mut Vec<StackItem>,
    place: ExprState,
) -> Result<Option<Part>, Memory>
    ensures { IfOk result (λ r. r ≡ end_of_expr (reverse stack.old.items) place) }
{
    match place {
        ExprState::NeedsOperand => Ok(None),
        ExprState::NeedsNumber => Ok(None),
        ExprState::NeedsParen(_) => Ok(None),
        ExprState::HasOperand(read) => {
            let read = reduce_stack(alloc, 0, stack, read)?;
            if stack.is_empty() {
                Ok(Some(read))
            } else {
                Ok(None)
            }
        }
    }
}

/// What reading on from a place gives.
#[derive(Drop)]
pub enum ReadStep {
    /// This may come next.
    Continue(ExprState),
    /// The expression ends before the first token that is left.
    Done(Checked<Expr>),
    /// The first token doesn't fit.
    Invalid,
}

/// What a closing parenthesis closes.
#[derive(Drop)]
pub enum Closing {
    /// The innermost parenthesis that is open: this is the part in it, with the parenthesis.
    Inner(Part),
    /// None is open, and this part is read.
    Outer(Part),
    /// Nothing may be closed.
    Invalid,
}

/// The end of the expression, where it may end.
fn end_here(alloc: Global, stack: &mut Vec<StackItem>, place: ExprState) -> Result<ReadStep, Memory>
    ensures read { IfOk result (λ r. (ts : List Token) (s : List StackItem) → ReadsOn ts s r (expr_before ts (end_of_expr (reverse stack.old.items) place))) }
    ensures ends { IfOk result (λ r. Continues r → ⊥) }
{
    match whole_part(alloc, stack, place)? {
        Some(part) => Ok(ReadStep::Done(checked_part(part))),
        None => Ok(ReadStep::Invalid),
    }
}

/// What a closing parenthesis closes.
fn close_part(
    alloc: Global,
    stack: &mut Vec<StackItem>,
    place: ExprState,
) -> Result<Closing, Memory>
    ensures { IfOk result (λ r. Closes (reverse stack.new.items) r (close_paren (reverse stack.old.items) place) (end_of_expr (reverse stack.old.items) place)) }
{
    match place {
        ExprState::NeedsOperand => Ok(Closing::Invalid),
        ExprState::NeedsNumber => Ok(Closing::Invalid),
        ExprState::NeedsParen(_) => Ok(Closing::Invalid),
        ExprState::HasOperand(read) => {
            let read = reduce_stack(alloc, 0, stack, read)?;
            match stack.pop() {
                Some(StackItem::Open(wrapper)) => Ok(Closing::Inner(wrap_part(
                    alloc, wrapper, read,
                )?)),
                Some(StackItem::Not) => {
                    drop(read);
                    Ok(Closing::Invalid)
                }
                Some(StackItem::Left(left, _)) => {
                    drop((left, read));
                    Ok(Closing::Invalid)
                }
                None => Ok(Closing::Outer(read)),
            }
        }
    }
}

/// Reads on at a closing parenthesis.
fn close_here(
    alloc: Global,
    tokens: &mut Tokens,
    stack: &mut Vec<StackItem>,
    place: ExprState,
) -> Result<ReadStep, Memory>
    requires { lookahead_of tokens.old ≡ Lookahead.Close }
    ensures read { IfOk result (λ r. ReadsOn tokens.new (reverse stack.new.items) r (read_from tokens.old (reverse stack.old.items) place)) }
    ensures shorter { IfOk result (λ r. Continues r → length tokens.new < length tokens.old) }
{
    match close_part(alloc, stack, place)? {
        Closing::Inner(part) => {
            let _ = tokens.take();
            Ok(ReadStep::Continue(ExprState::HasOperand(part)))
        }
        Closing::Outer(part) => Ok(ReadStep::Done(checked_part(part))),
        Closing::Invalid => Ok(ReadStep::Invalid),
    }
}

/// Reads on at a token that ends no expression.
fn go_on_here(
    alloc: Global,
    tokens: &mut Tokens,
    stack: &mut Vec<StackItem>,
    place: ExprState,
) -> Result<ReadStep, Memory>
    requires { lookahead_of tokens.old ≡ Lookahead.Other }
    ensures read { IfOk result (λ r. ReadsOn tokens.new (reverse stack.new.items) r (read_from tokens.old (reverse stack.old.items) place)) }
    ensures shorter { IfOk result (λ r. Continues r → length tokens.new < length tokens.old) }
{
    match tokens.take() {
        Some(token) => match token_here(alloc, stack, place, token)? {
            Some(place) => Ok(ReadStep::Continue(place)),
            None => Ok(ReadStep::Invalid),
        },
        None => Ok(ReadStep::Invalid),
    }
}

/// Reads on at the first token.
fn advance(
    alloc: Global,
    tokens: &mut Tokens,
    stack: &mut Vec<StackItem>,
    place: ExprState,
) -> Result<ReadStep, Memory>
    ensures read { IfOk result (λ r. ReadsOn tokens.new (reverse stack.new.items) r (read_from tokens.old (reverse stack.old.items) place)) }
    ensures shorter { IfOk result (λ r. Continues r → length tokens.new < length tokens.old) }
{
    match lookahead_token(tokens) {
        Lookahead::Close => close_here(alloc, tokens, stack, place),
        Lookahead::Stop => end_here(alloc, stack, place),
        Lookahead::Other => go_on_here(alloc, tokens, stack, place),
    }
}

/// The longest expression that begins the tokens, which are then those behind it; None where a token doesn't fit before it ends.
pub(crate) fn read_expr(alloc: Global, tokens: &mut Tokens) -> Result<Option<Checked<Expr>>, Memory>
    ensures { IfOk result (λ found. found_before tokens.new found ≡ expr_at tokens.old) }
{
    let mut stack = Vec::new(alloc);
    let mut place = ExprState::NeedsOperand;
    'tokens: loop {
        match advance(alloc, tokens, &mut stack, place)? {
            ReadStep::Continue(next) => place = next,
            ReadStep::Done(expr) => return Ok(Some(expr)),
            ReadStep::Invalid => return Ok(None),
        }
    }
}
