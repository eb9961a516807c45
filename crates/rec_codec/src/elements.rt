//! Readers of numbers and pieces at the front of bytes.

ghost use Rattle.std.specs.Prelude.{◌≡◌, ◌≤◌, length, IfOk};
ghost use Rattle.std.specs.Int.{w16, w32};
ghost use Rattle.rec_codec.specs.Answers.{ReadsAs, NeedsNoMemory};
ghost use Rattle.rec_codec.specs.Reading.{byte_at, number_at, word_at, index_at, ordinal_at, tag_at, piece_at, count_at, is_text, is_key, is_function, text_at, value_at, trap_of, trap_at, outcome_at, target_at, write_at};

use crate::fault::Stop;

/// A byte.
pub(crate) fn byte(bytes: &[u8]) -> Result<(u8, &[u8]), Stop>
    ensures read { ReadsAs (λ x. (x.0, x.1.now)) result (byte_at bytes.now) }
    ensures memory { NeedsNoMemory result }
{
    match bytes {
        [] => Err(Stop::Left(0)),
        [first, rest @ ..] => Ok((*first, rest)),
    }
}

/// A number of two bytes.
fn short(bytes: &[u8]) -> Result<(u16, &[u8]), Stop>
    ensures { ReadsAs (λ x. (x.0, x.1.now)) result (number_at w16 bytes.now) }
{
    if bytes.len() < 2 {
        return Err(Stop::Left(bytes.len()));
    }
    let (front, rest) = bytes.split_at(2);
    let number = u16::from_be_bytes([front[0], front[1]]);
    Ok((number, rest))
}

/// A number of four bytes.
pub(crate) fn part(bytes: &[u8]) -> Result<(u32, &[u8]), Stop>
    ensures read { ReadsAs (λ x. (x.0, x.1.now)) result (number_at w32 bytes.now) }
    ensures memory { NeedsNoMemory result }
{
    if bytes.len() < 4 {
        return Err(Stop::Left(bytes.len()));
    }
    let (front, rest) = bytes.split_at(4);
    let number = u32::from_be_bytes([front[0], front[1], front[2], front[3]]);
    Ok((number, rest))
}

/// A number of eight bytes.
pub(crate) fn word(bytes: &[u8]) -> Result<(u64, &[u8]), Stop>
    ensures read { ReadsAs (λ x. (x.0, x.1.now)) result (word_at bytes.now) }
    ensures memory { NeedsNoMemory result }
{
    if bytes.len() < 8 {
        return Err(Stop::Left(bytes.len()));
    }
    let (front, rest) = bytes.split_at(8);
    let number = u64::from_be_bytes([
        front[0], front[1], front[2], front[3], front[4], front[5], front[6], front[7],
    ]);
    Ok((number, rest))
}

/// The number of an operation, from 1.
#[tactic(auto, unfolding(crate::specs::Reading::index_at))]
pub(crate) fn index(bytes: &[u8]) -> Result<(u64, &[u8]), Stop>
    ensures { ReadsAs (λ x. (x.0, x.1.now)) result (index_at bytes.now) }
{
    let (number, rest) = word(bytes)?;
    if number < 1 {
        return Err(Stop::Left(bytes.len()));
    }
    Ok((number, rest))
}

/// The ordinal of a spawn, from 1 to 4,095.
#[tactic(auto, unfolding(crate::specs::Reading::ordinal_at))]
pub(crate) fn ordinal(bytes: &[u8]) -> Result<(u64, &[u8]), Stop>
    ensures { ReadsAs (λ x. (x.0, x.1.now)) result (ordinal_at bytes.now) }
{
    let (number, rest) = word(bytes)?;
    if number == 0 || number > 4_095 {
        return Err(Stop::Left(bytes.len()));
    }
    Ok((number, rest))
}

/// A user's tag, below 2^56.
#[tactic(auto, unfolding(crate::specs::Reading::tag_at))]
pub(crate) fn tag(bytes: &[u8]) -> Result<(u64, &[u8]), Stop>
    ensures { ReadsAs (λ x. (x.0, x.1.now)) result (tag_at bytes.now) }
{
    let (number, rest) = word(bytes)?;
    if number >= 72_057_594_037_927_936 {
        return Err(Stop::Left(bytes.len()));
    }
    Ok((number, rest))
}

/// How many there are, between two bounds.
#[tactic(auto, unfolding(crate::specs::Reading::count_at))]
pub(crate) fn count(least: u8, most: u8, bytes: &[u8]) -> Result<(u8, &[u8]), Stop>
    ensures read { ReadsAs (λ x. (x.0, x.1.now)) result (count_at least most bytes.now) }
    ensures bounds { IfOk result (λ x. (least ≤ x.0) × (x.0 ≤ most)) }
    ensures memory { NeedsNoMemory result }
{
    let (number, rest) = byte(bytes)?;
    if number < least || most < number {
        return Err(Stop::Left(bytes.len()));
    }
    Ok((number, rest))
}

/// Bytes behind their number.
#[tactic(auto, unfolding(crate::specs::Reading::piece_at))]
pub(crate) fn piece(bytes: &[u8]) -> Result<(&[u8], &[u8]), Stop>
    ensures { ReadsAs (λ x. (x.0.now, x.1.now)) result (piece_at bytes.now) }
{
    let (len, rest) = short(bytes)?;
    let len = len as usize;
    if rest.len() < len {
        return Err(Stop::Left(bytes.len()));
    }
    Ok(rest.split_at(len))
}
