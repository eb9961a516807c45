//! The lines of a live text, from their tokens.

ghost use Rattle.std.specs.Prelude.{◌≡◌, IfOk};
ghost use Rattle.live_text.specs.Reading.{workers_of, append_of, next_of, prev_of, count_of, op_of_word, op_of, op_line_of};

use crate::text::LiveOp;
use lb_base::{Memory, Seqnum};
use line_text::{
    Checked, Token, Tokens, check_both, checked_at_end, read_short_text, read_tag, read_tags,
    read_u32_in, read_u64,
};
use std::alloc::Global;

/// `live W`: how many workers there are.
pub(crate) fn read_workers(tokens: &mut Tokens) -> Option<Checked<u32>>
    ensures { result ≡ workers_of tokens.old }
{
    match tokens.take() {
        Some(Token::Name(word)) => {
            if word.as_str() != "live" {
                return None;
            }
            match read_u32_in(tokens, 1, 16) {
                Some(workers) => checked_at_end(tokens, workers),
                None => None,
            }
        }
        _ => None,
    }
}

/// `TAGS TEXT`, behind the word.
fn read_append(alloc: Global, tokens: &mut Tokens) -> Result<Option<Checked<LiveOp>>, Memory>
    ensures { IfOk result (λ found. found ≡ append_of tokens.old) }
{
    let Some(tags) = read_tags(alloc, tokens)? else {
        return Ok(None);
    };
    let Some(text) = read_short_text(tokens) else {
        return Ok(None);
    };
    let op = match check_both(tags, text) {
        Checked::Valid((tags, text)) => Checked::Valid(LiveOp::Append(tags, text)),
        Checked::OutOfRange => Checked::OutOfRange,
        Checked::TooDeep => Checked::TooDeep,
    };
    Ok(checked_at_end(tokens, op))
}

/// `T N`, behind the word.
fn read_next(tokens: &mut Tokens) -> Option<Checked<LiveOp>>
    ensures { result ≡ next_of tokens.old }
{
    let Some(tag) = read_tag(tokens) else {
        return None;
    };
    let Some(from) = read_u64(tokens) else {
        return None;
    };
    let op = match check_both(tag, from) {
        Checked::Valid((tag, from)) => Checked::Valid(LiveOp::Next(tag, Seqnum(from))),
        Checked::OutOfRange => Checked::OutOfRange,
        Checked::TooDeep => Checked::TooDeep,
    };
    checked_at_end(tokens, op)
}

/// `T N`, behind the word.
fn read_prev(tokens: &mut Tokens) -> Option<Checked<LiveOp>>
    ensures { result ≡ prev_of tokens.old }
{
    let Some(tag) = read_tag(tokens) else {
        return None;
    };
    let Some(upto) = read_u64(tokens) else {
        return None;
    };
    let op = match check_both(tag, upto) {
        Checked::Valid((tag, upto)) => Checked::Valid(LiveOp::Prev(tag, Seqnum(upto))),
        Checked::OutOfRange => Checked::OutOfRange,
        Checked::TooDeep => Checked::TooDeep,
    };
    checked_at_end(tokens, op)
}

/// `T`, behind the word.
fn read_count(tokens: &mut Tokens) -> Option<Checked<LiveOp>>
    ensures { result ≡ count_of tokens.old }
{
    let op = match read_tag(tokens) {
        Some(Checked::Valid(tag)) => Checked::Valid(LiveOp::Count(tag)),
        Some(Checked::OutOfRange) => Checked::OutOfRange,
        Some(Checked::TooDeep) => Checked::TooDeep,
        None => return None,
    };
    checked_at_end(tokens, op)
}

/// What stands behind the worker's number, by its word.
#[tactic(auto, unfolding(crate::specs::Reading::op_of_word))]
fn read_op_of_word(
    alloc: Global,
    word: &str,
    tokens: &mut Tokens,
) -> Result<Option<Checked<LiveOp>>, Memory>
    ensures { IfOk result (λ found. found ≡ op_of_word word.now tokens.old) }
{
    match word {
        "append" => read_append(alloc, tokens),
        "next" => Ok(read_next(tokens)),
        "prev" => Ok(read_prev(tokens)),
        "count" => Ok(read_count(tokens)),
        _ => Ok(None),
    }
}

fn read_op(alloc: Global, tokens: &mut Tokens) -> Result<Option<Checked<LiveOp>>, Memory>
    ensures { IfOk result (λ found. found ≡ op_of tokens.old) }
{
    match tokens.take() {
        Some(Token::Name(word)) => read_op_of_word(alloc, word.as_str(), tokens),
        _ => Ok(None),
    }
}

/// `I OP`: what one of so many workers does.
pub(crate) fn read_op_line(
    alloc: Global,
    workers: u32,
    tokens: &mut Tokens,
) -> Result<Option<Checked<(u32, LiveOp)>>, Memory>
    ensures { IfOk result (λ found. found ≡ op_line_of workers tokens.old) }
{
    let Some(worker) = read_u32_in(tokens, 1, workers) else {
        return Ok(None);
    };
    match read_op(alloc, tokens)? {
        Some(op) => Ok(Some(check_both(worker, op))),
        None => Ok(None),
    }
}
