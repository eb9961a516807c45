//! Fields of a line: numbers in a range, modes, short texts and tags.

ghost use Rattle.std.specs.Prelude.{◌≡◌};
ghost use Rattle.line_text.specs.Fields.{number_in_range, number_at, u64_at, mode_of, mode_at, short_text_at, user_tag_of, tag_at};
ghost use Rattle.line_text.specs.Stream.{found_before};

use crate::checked::{Checked, in_range};
use crate::elements::{read_numeral, read_text};
use crate::token::Token;
use crate::tokens::Tokens;
use lb_base::{Mode, Tag, Words};

/// A number from `low` to `high`.
pub(crate) fn u64_in_range(n: Option<u64>, low: u64, high: u64) -> Checked<u64>
    ensures { result ≡ number_in_range low high n }
{
    match n {
        None => Checked::OutOfRange,
        Some(n) => in_range(low <= n && n <= high, n),
    }
}

/// A number from `low` to `high`, of 32 bits.
pub(crate) fn u32_in_range(n: Option<u64>, low: u32, high: u32) -> Checked<u32>
    ensures { result ≡ number_in_range low high n }
{
    match n {
        None => Checked::OutOfRange,
        Some(n) => {
            if low as u64 <= n && n <= high as u64 {
                Checked::Valid(n as u32)
            } else {
                Checked::OutOfRange
            }
        }
    }
}

/// The number from `low` to `high` that stands first; None where no numeral does.
pub fn read_u32_in(tokens: &mut Tokens, low: u32, high: u32) -> Option<Checked<u32>>
    ensures { found_before tokens.new result ≡ number_at low high tokens.old }
{
    match read_numeral(tokens) {
        Some(n) => Some(u32_in_range(n, low, high)),
        None => None,
    }
}

/// The number of 64 bits from `low` to `high` that stands first; None where no numeral does.
pub fn read_u64_in(tokens: &mut Tokens, low: u64, high: u64) -> Option<Checked<u64>>
    ensures { found_before tokens.new result ≡ number_at low high tokens.old }
{
    match read_numeral(tokens) {
        Some(n) => Some(u64_in_range(n, low, high)),
        None => None,
    }
}

/// The number of 64 bits that stands first; None where no numeral does.
pub fn read_u64(tokens: &mut Tokens) -> Option<Checked<u64>>
    ensures { found_before tokens.new result ≡ u64_at tokens.old }
{
    read_u64_in(tokens, 0, u64::MAX)
}

/// The mode that a word is.
fn mode_of_text(text: &str) -> Option<Mode>
    ensures { result ≡ mode_of text.now }
{
    if text == "R" {
        Some(Mode::R)
    } else if text == "W" {
        Some(Mode::W)
    } else {
        None
    }
}

/// The mode that stands first; None where none does.
pub fn read_mode(tokens: &mut Tokens) -> Option<Mode>
    ensures { found_before tokens.new result ≡ mode_at tokens.old }
{
    match tokens.take() {
        Some(Token::Name(word)) => mode_of_text(word.as_str()),
        _ => None,
    }
}

/// The quoted text that stands first, of at most 256 bytes; None where none does.
pub fn read_short_text(tokens: &mut Tokens) -> Option<Checked<Words>>
    ensures { found_before tokens.new result ≡ short_text_at tokens.old }
{
    match read_text(tokens) {
        Some(text) => {
            let fits = text.len() <= 256;
            Some(in_range(fits, text))
        }
        None => None,
    }
}

/// A user's tag.
fn checked_tag(n: Option<u64>) -> Checked<Tag>
    ensures { result ≡ user_tag_of n }
{
    match n {
        None => Checked::OutOfRange,
        Some(n) => in_range(n < 1 << 56, Tag(n)),
    }
}

/// The user's tag that stands first; None where no numeral does.
pub fn read_tag(tokens: &mut Tokens) -> Option<Checked<Tag>>
    ensures { found_before tokens.new result ≡ tag_at tokens.old }
{
    match read_numeral(tokens) {
        Some(n) => Some(checked_tag(n)),
        None => None,
    }
}
