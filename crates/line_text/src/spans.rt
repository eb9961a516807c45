//! Fronts of a text.

ghost use Rattle.std.specs.Prelude.{◌≡◌, ◌<◌, length, slice_index, drop};
ghost use Rattle.std.specs.Char.{is_ascii_digit};
ghost use Rattle.line_text.specs.Tokens.{in_class, is_letter as letter, span};

/// A class of characters.
#[derive(Clone, Copy, Debug, PartialEq, Eq)]
pub enum CharClass {
    /// Digits and dots.
    Numeric,
    /// Letters, digits and `_`.
    Word,
    Space,
}

/// Whether a byte is a letter, or `_`.
pub(crate) fn is_letter(c: u8) -> bool
    ensures { result ≡ letter c }
{
    (65 <= c && c <= 90) || (97 <= c && c <= 122) || c == 95
}

fn is_in_class(class: CharClass, c: u8) -> bool
    ensures { result ≡ in_class class c }
{
    match class {
        CharClass::Numeric => c.is_ascii_digit() || c == b'.',
        CharClass::Word => is_letter(c) || c.is_ascii_digit(),
        CharClass::Space => c == b' ',
    }
}

fn span_len(class: CharClass, text: &[u8]) -> usize
    ensures { result ≡ length (span class text.now).0 }
{
    let mut n = 0usize;
    for c in text {
        if !is_in_class(class, *c) {
            return n;
        }
        n += 1;
    }
    n
}

/// Cuts a text behind its longest front of a class.
pub(crate) fn split_span(class: CharClass, text: &str) -> (&str, &str)
    ensures { (result.0.now, result.1.now) ≡ span class text.now }
{
    text.split_at(span_len(class, text.as_bytes()))
}

/// What follows the first byte.
pub(crate) fn skip_first_byte(text: &str) -> &str
    requires some { 0 < length text.now }
    requires ascii { slice_index text.now 0 < 128 }
    ensures { result.now ≡ drop 1 text.now }
{
    text.split_at(1).1
}

/// The first byte, or 0 where there is none.
pub(crate) fn first_byte(text: &str) -> u8
    ensures { result ≡ slice_index text.now 0 }
{
    match text.as_bytes() {
        [c, ..] => *c,
        [] => 0,
    }
}
