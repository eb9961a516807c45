//! What is checked of a piece of a line.

ghost use Rattle.std.specs.Prelude.{◌≡◌};
ghost use Rattle.line_text.specs.Checks.{both_checked, checked_if, result_of_checked};
ghost use Rattle.line_text.specs.Faults.{LineGives};
ghost use Rattle.line_text.specs.Readers.{if_at_end};

use crate::fault::LineFault;
use crate::tokens::Tokens;
use boki_types::Kind;

/// What a well-formed piece of a line stands for; or that something in it is out of range; or else that it is past the limits
/// of nesting or operands.
#[derive(Debug, Drop)]
pub enum Checked<T> {
    Valid(T),
    OutOfRange,
    TooDeep,
}

/// A value, or that it is out of range.
pub fn in_range<T: Drop>(fits: bool, value: T) -> Checked<T>
    ensures { result ≡ checked_if fits value }
{
    if fits {
        Checked::Valid(value)
    } else {
        Checked::OutOfRange
    }
}

/// Both, where both are in range and within the limits; out of range wins over past the limits.
pub fn check_both<A: Drop, B: Drop>(a: Checked<A>, b: Checked<B>) -> Checked<(A, B)>
    ensures { result ≡ both_checked a b }
{
    match a {
        Checked::Valid(x) => match b {
            Checked::Valid(y) => Checked::Valid((x, y)),
            Checked::OutOfRange => Checked::OutOfRange,
            Checked::TooDeep => Checked::TooDeep,
        },
        Checked::OutOfRange => Checked::OutOfRange,
        Checked::TooDeep => match b {
            Checked::Valid(_) => Checked::TooDeep,
            Checked::OutOfRange => Checked::OutOfRange,
            Checked::TooDeep => Checked::TooDeep,
        },
    }
}

/// What was read of a line, where no token is left; else None, since the line is longer than what was read.
pub fn checked_at_end<T: Drop>(tokens: &Tokens, found: Checked<T>) -> Option<Checked<T>>
    ensures { result ≡ if_at_end tokens.now found }
{
    if tokens.is_empty() { Some(found) } else { None }
}

/// What was read of a line, where it is in range and within the limits.
///
/// Else the line is refused: with `Syntax` where nothing was read, with `Range` where something is out of range, and with `Deep`
/// where it is past the limits.
pub fn valid_or_fault<T: Drop>(found: Option<Checked<T>>) -> Result<T, LineFault>
    ensures { LineGives result (result_of_checked found) }
{
    match found {
        None => Err(LineFault::Refused(Kind::Syntax)),
        Some(Checked::OutOfRange) => Err(LineFault::Refused(Kind::Range)),
        Some(Checked::TooDeep) => Err(LineFault::Refused(Kind::Deep)),
        Some(Checked::Valid(value)) => Ok(value),
    }
}
