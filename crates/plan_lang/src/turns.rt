//! The turn of a line.

ghost use Rattle.std.specs.Prelude.{◌≡◌, ◌^◌, ◌<◌, IfOk, length};
ghost use Rattle.plan_lang.specs.Turns.{submit_turn_entry, submit_turn_of, turn_without_call, go_turn_of, end_turn_of, turn_of_word, turn_behind, turn_of};

use crate::entries::function_number;
use crate::events::read_request;
use boki_types::{Function, Kind, Turn};
use lb_base::{List, Memory, Value, Words};
use line_text::{
    Checked, Keyword, Token, Tokens, check_both, checked_at_end, read_path, read_u64_in,
};
use script_lang::text::{call_fault, read_call};
use std::alloc::Global;

/// A turn, and what is wrong with the function that it calls.
#[derive(Drop)]
pub struct TurnEntry {
    pub turn: Turn,
    pub fault: Option<Kind>,
}

/// The turn of a call, with what is wrong with the call.
fn call_turn(functions: &[Function], request: u32, call: (Words, List<Value>)) -> TurnEntry
    requires { length functions.now < 2 ^ 32 }
    ensures { result ≡ submit_turn_entry functions.now (request, call) }
{
    let (name, args) = call;
    let function = function_number(functions, name.as_str());
    let fault = call_fault(functions, name.as_str(), args.len());
    TurnEntry {
        turn: Turn::Submit {
            request,
            function,
            args,
        },
        fault,
    }
}

/// `Q F(VALUE, ..)`, behind `submit`.
fn read_submit_turn(
    alloc: Global,
    tokens: &mut Tokens,
    functions: &[Function],
) -> Result<Option<Checked<TurnEntry>>, Memory>
    requires { length functions.now < 2 ^ 32 }
    ensures { IfOk result (λ found. found ≡ submit_turn_of functions.now tokens.old) }
{
    let Some(request) = read_request(tokens) else {
        return Ok(None);
    };
    let Some(call) = read_call(alloc, tokens)? else {
        return Ok(None);
    };
    let entry = match check_both(request, call) {
        Checked::Valid((request, call)) => Checked::Valid(call_turn(functions, request, call)),
        Checked::OutOfRange => Checked::OutOfRange,
        Checked::TooDeep => Checked::TooDeep,
    };
    Ok(checked_at_end(tokens, entry))
}

/// `P N`, behind `go`.
fn read_go(alloc: Global, tokens: &mut Tokens) -> Result<Option<Checked<TurnEntry>>, Memory>
    ensures { IfOk result (λ found. found ≡ go_turn_of tokens.old) }
{
    let Some(path) = read_path(alloc, tokens)? else {
        return Ok(None);
    };
    let Some(n) = read_u64_in(tokens, 0, 200000) else {
        return Ok(None);
    };
    let entry = match check_both(path, n) {
        Checked::Valid((path, n)) => Checked::Valid(TurnEntry {
            turn: Turn::Go { path, n },
            fault: None,
        }),
        Checked::OutOfRange => Checked::OutOfRange,
        Checked::TooDeep => Checked::TooDeep,
    };
    Ok(checked_at_end(tokens, entry))
}

/// `P`, behind `end`.
fn read_end(alloc: Global, tokens: &mut Tokens) -> Result<Option<Checked<TurnEntry>>, Memory>
    ensures { IfOk result (λ found. found ≡ end_turn_of tokens.old) }
{
    let Some(path) = read_path(alloc, tokens)? else {
        return Ok(None);
    };
    let entry = match path {
        Checked::Valid(path) => Checked::Valid(TurnEntry {
            turn: Turn::End { path },
            fault: None,
        }),
        Checked::OutOfRange => Checked::OutOfRange,
        Checked::TooDeep => Checked::TooDeep,
    };
    Ok(checked_at_end(tokens, entry))
}

fn read_turn_word(
    alloc: Global,
    tokens: &mut Tokens,
    functions: &[Function],
    word: &str,
) -> Result<Option<Checked<TurnEntry>>, Memory>
    requires { length functions.now < 2 ^ 32 }
    ensures { IfOk result (λ found. found ≡ turn_of_word functions.now word.now tokens.old) }
{
    if word == "submit" {
        read_submit_turn(alloc, tokens, functions)
    } else if word == "go" {
        read_go(alloc, tokens)
    } else {
        Ok(None)
    }
}

/// What follows `turn`.
fn read_behind_turn(
    alloc: Global,
    tokens: &mut Tokens,
    functions: &[Function],
) -> Result<Option<Checked<TurnEntry>>, Memory>
    requires { length functions.now < 2 ^ 32 }
    ensures { IfOk result (λ found. found ≡ turn_behind functions.now tokens.old) }
{
    match tokens.take() {
        Some(Token::Name(word)) => read_turn_word(alloc, tokens, functions, word.as_str()),
        Some(Token::Keyword(Keyword::End)) => read_end(alloc, tokens),
        _ => Ok(None),
    }
}

/// The turn that the tokens of a line are, with functions above it; None where they are none.
pub(crate) fn read_turn(
    alloc: Global,
    mut tokens: Tokens,
    functions: &[Function],
) -> Result<Option<Checked<TurnEntry>>, Memory>
    requires { length functions.now < 2 ^ 32 }
    ensures { IfOk result (λ found. found ≡ turn_of functions.now tokens) }
{
    match tokens.take() {
        Some(Token::Name(word)) => {
            if word.as_str() == "turn" {
                read_behind_turn(alloc, &mut tokens, functions)
            } else {
                Ok(None)
            }
        }
        _ => Ok(None),
    }
}
