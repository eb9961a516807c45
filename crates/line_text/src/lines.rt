//! Lines.

ghost use Rattle.std.specs.Prelude.{◌≡◌, ◌<◌, IfOk, IfSome, length, option_map};
ghost use Rattle.line_text.specs.Faults.{LineGives};
ghost use Rattle.line_text.specs.Lines.{first_line, lexed_line, utf8_text};
ghost use Rattle.line_text.specs.Texts.{unended_line, line_within};

use crate::fault::LineFault;
use crate::lexing::lex_text;
use crate::spans::{CharClass, split_span};
use crate::splits::split_bytes;
use crate::tokens::Tokens;
use boki_types::Kind;
use lb_base::Memory;
use std::alloc::Global;
use std::str;

/// What a line is: one that is skipped, one of these tokens, or one that no tokens spell.
#[derive(Debug, Drop)]
pub enum LexedLine {
    Skipped,
    Tokens(Tokens),
    Invalid,
}

/// The first line of a text, without its line feed, and what follows that; None where no line feed is left.
pub fn split_line(text: &[u8]) -> Option<(&[u8], &[u8])>
    ensures line { option_map (λ p. (p.0.now, p.1.now)) result ≡ first_line text.now }
    ensures shorter { IfSome result (λ p. length p.1.now < length text.now) }
{
    split_bytes(text, b'\n')
}

/// The text that bytes are, where they are UTF-8.
pub fn as_text(line: &[u8]) -> Option<&str>
    ensures { option_map (λ s. s.now) result ≡ utf8_text line.now }
{
    match str::from_utf8(line) {
        Ok(text) => Some(text),
        Err(_) => None,
    }
}

/// What a line is, given without its line feed.
///
/// Spaces at its start are skipped. A line that is then empty, or begins with `#`, is skipped.
pub fn read_line(alloc: Global, line: &str) -> Result<LexedLine, Memory>
    ensures { IfOk result (λ found. found ≡ lexed_line line.now) }
{
    let (_, front) = split_span(CharClass::Space, line);
    if front.is_empty() || front.as_bytes()[0] == b'#' {
        return Ok(LexedLine::Skipped);
    }
    match lex_text(alloc, front)? {
        Some(tokens) => Ok(LexedLine::Tokens(tokens)),
        None => Ok(LexedLine::Invalid),
    }
}

/// The line with this number of a text that has at most so many lines, given without its line feed.
///
/// It is refused with `Lines` where the text has too many lines, and else with `Utf8` where it isn't UTF-8.
pub fn lex_text_line(
    alloc: Global,
    most: u64,
    number: u64,
    line: &[u8],
) -> Result<LexedLine, LineFault>
    ensures { LineGives result (line_within most number line.now) }
{
    if number > most {
        return Err(LineFault::Refused(Kind::Lines));
    }
    match as_text(line) {
        Some(text) => Ok(read_line(alloc, text)?),
        None => Err(LineFault::Refused(Kind::Utf8)),
    }
}

/// What is wrong with a last line without its line feed, in a text that has at most so many lines: `Lines` where the text has too
/// many, or else `Utf8` where the line isn't UTF-8, or else `Truncated`.
pub fn fault_of_unended_line(most: u64, number: u64, line: &[u8]) -> Kind
    ensures { result ≡ unended_line most number line.now }
{
    if number > most {
        return Kind::Lines;
    }
    match as_text(line) {
        Some(_) => Kind::Truncated,
        None => Kind::Utf8,
    }
}
