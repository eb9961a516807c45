//! Splitting at a byte.

ghost use Rattle.std.specs.Prelude.{◌≡◌, ◌<◌, IfSome, length, option_map};
ghost use Rattle.std.specs.Str.{IsUtf8};
ghost use Rattle.line_text.specs.Splits.{split_first};

use crate::spans::skip_first_byte;

/// What stands before the first byte of this value, and what follows that byte; None where no such byte is left.
pub fn split_bytes(text: &[u8], byte: u8) -> Option<(&[u8], &[u8])>
    ensures split { option_map (λ p. (p.0.now, p.1.now)) result ≡ split_first byte text.now }
    ensures shorter { IfSome result (λ p. length p.1.now < length text.now) }
{
    for (i, c) in text.iter().enumerate() {
        if *c == byte {
            let (front, rest) = text.split_at(i);
            return Some((front, rest.split_at(1).1));
        }
    }
    None
}

/// What stands before the first byte of this value, and what follows that byte; None where no such byte is left. It needs an
/// ASCII byte, so that both are texts.
pub fn split_text(text: &str, byte: u8) -> Option<(&str, &str)>
    requires { byte < 128 }
    ensures split { option_map (λ p. (p.0.now, p.1.now)) result ≡ split_first byte text.now }
    ensures shorter { IfSome result (λ p. length p.1.now < length text.now) }
    ensures text { IfSome result (λ p. IsUtf8 p.0.now × IsUtf8 p.1.now) }
{
    for (i, c) in text.as_bytes().iter().enumerate() {
        if *c == byte {
            let (front, rest) = text.split_at(i);
            return Some((front, skip_first_byte(rest)));
        }
    }
    None
}
