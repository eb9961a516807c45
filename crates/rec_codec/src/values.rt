//! Readers of texts, names, values and outcomes.

ghost use Rattle.std.specs.Prelude.{◌≡◌, ◌^◌, length};
ghost use Rattle.rec_codec.specs.Answers.{ReadsAs};
ghost use Rattle.rec_codec.specs.Reading.{is_text, is_key, is_function, text_at, value_at, trap_of, trap_at, outcome_at, target_of, target_at, write_at};

use crate::elements::{piece, word};
use crate::fault::Stop;
use crate::names::{is_function_name, utf8_text};
use lb_base::{Mode, Outcome, TrapKind, Value, Words};
use std::alloc::Global;

/// A text of at most 256 bytes.
#[tactic(auto, unfolding(crate::specs::Reading::text_at))]
pub(crate) fn text(alloc: Global, bytes: &[u8]) -> Result<(Words, &[u8]), Stop>
    ensures { ReadsAs (λ x. (x.0, x.1.now)) result (text_at is_text bytes.now) }
{
    let (piece, rest) = piece(bytes)?;
    match utf8_text(piece) {
        Some(text) if text.len() <= 256 => Ok((Words::from_text(alloc, text)?, rest)),
        _ => Err(Stop::Left(bytes.len())),
    }
}

/// A name, of 1 to 64 bytes.
#[tactic(auto, unfolding(crate::specs::Reading::text_at))]
pub(crate) fn key(alloc: Global, bytes: &[u8]) -> Result<(Words, &[u8]), Stop>
    ensures { ReadsAs (λ x. (x.0, x.1.now)) result (text_at is_key bytes.now) }
{
    let (piece, rest) = piece(bytes)?;
    match utf8_text(piece) {
        Some(text) if text.len() >= 1 && text.len() <= 64 => Ok((
            Words::from_text(alloc, text)?,
            rest,
        )),
        _ => Err(Stop::Left(bytes.len())),
    }
}

/// The name of a function.
#[tactic(auto, unfolding(crate::specs::Reading::text_at))]
pub(crate) fn function(alloc: Global, bytes: &[u8]) -> Result<(Words, &[u8]), Stop>
    ensures { ReadsAs (λ x. (x.0, x.1.now)) result (text_at is_function bytes.now) }
{
    let (piece, rest) = piece(bytes)?;
    match utf8_text(piece) {
        Some(text) if is_function_name(text) => Ok((Words::from_text(alloc, text)?, rest)),
        _ => Err(Stop::Left(bytes.len())),
    }
}

/// A value.
#[tactic(auto, unfolding(crate::specs::Reading::value_at))]
pub(crate) fn value(alloc: Global, bytes: &[u8]) -> Result<(Value, &[u8]), Stop>
    ensures { ReadsAs (λ x. (x.0, x.1.now)) result (value_at bytes.now) }
{
    match bytes {
        [] => Err(Stop::Left(0)),
        [0, rest @ ..] => Ok((Value::Nothing, rest)),
        [1, rest @ ..] => {
            let (number, rest) = word(rest)?;
            Ok((Value::Int(number.cast_signed()), rest))
        }
        [2, rest @ ..] => {
            let (text, rest) = text(alloc, rest)?;
            Ok((Value::Text(text), rest))
        }
        [_, ..] => Err(Stop::Left(bytes.len())),
    }
}

/// The kind of trap that a number stands for.
fn trap_kind(number: u8) -> Option<TrapKind>
    ensures { result ≡ trap_of number }
{
    match number {
        1 => Some(TrapKind::Overflow),
        2 => Some(TrapKind::Divide),
        3 => Some(TrapKind::Loop),
        4 => Some(TrapKind::Key),
        5 => Some(TrapKind::Join),
        6 => Some(TrapKind::Txn),
        7 => Some(TrapKind::Text),
        8 => Some(TrapKind::Kind),
        9 => Some(TrapKind::Spawn),
        _ => None,
    }
}

/// The number of a trap.
#[tactic(auto, unfolding(crate::specs::Reading::trap_at))]
fn trap(bytes: &[u8]) -> Result<(TrapKind, &[u8]), Stop>
    ensures { ReadsAs (λ x. (x.0, x.1.now)) result (trap_at bytes.now) }
{
    match bytes {
        [] => Err(Stop::Left(0)),
        [first, rest @ ..] => match trap_kind(*first) {
            Some(kind) => Ok((kind, rest)),
            None => Err(Stop::Left(bytes.len())),
        },
    }
}

/// An outcome.
#[tactic(auto, unfolding(crate::specs::Reading::outcome_at))]
pub(crate) fn outcome(alloc: Global, bytes: &[u8]) -> Result<(Outcome, &[u8]), Stop>
    ensures { ReadsAs (λ x. (x.0, x.1.now)) result (outcome_at bytes.now) }
{
    match bytes {
        [] => Err(Stop::Left(0)),
        [0, rest @ ..] => {
            let (value, rest) = value(alloc, rest)?;
            Ok((Outcome::Good(value), rest))
        }
        [1, rest @ ..] => {
            let (kind, rest) = trap(rest)?;
            Ok((Outcome::Trap(kind), rest))
        }
        [_, ..] => Err(Stop::Left(bytes.len())),
    }
}

/// The mode that a number stands for.
fn target_mode(number: u8) -> Option<Mode>
    ensures { result ≡ target_of number }
{
    match number {
        1 => Some(Mode::R),
        2 => Some(Mode::W),
        _ => None,
    }
}

/// The mode that a switch goes to.
#[tactic(auto, unfolding(crate::specs::Reading::target_at))]
pub(crate) fn target(bytes: &[u8]) -> Result<(Mode, &[u8]), Stop>
    ensures { ReadsAs (λ x. (x.0, x.1.now)) result (target_at bytes.now) }
{
    match bytes {
        [] => Err(Stop::Left(0)),
        [first, rest @ ..] => match target_mode(*first) {
            Some(mode) => Ok((mode, rest)),
            None => Err(Stop::Left(bytes.len())),
        },
    }
}

/// A name and what is written under it.
#[tactic(auto, unfolding(crate::specs::Reading::write_at))]
pub(crate) fn write(alloc: Global, bytes: &[u8]) -> Result<((Words, Value), &[u8]), Stop>
    ensures { ReadsAs (λ x. (x.0, x.1.now)) result (write_at bytes.now) }
{
    let (key, rest) = key(alloc, bytes)?;
    let (value, rest) = value(alloc, rest)?;
    Ok(((key, value), rest))
}
