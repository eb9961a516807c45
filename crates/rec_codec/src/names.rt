//! Which texts can name a function.

ghost use Rattle.std.specs.Prelude.{◌≡◌, true, false, bytes_eq, ◌||◌, MatchOption};
ghost use Rattle.std.specs.List.{list_all, list_any};
ghost use Rattle.std.specs.Str.{is_utf8};
ghost use Rattle.boki_model.specs.Bodies.{is_letter as letter, is_digit as digit, has_identifier_characters, is_identifier, reserved_words};

use std::str;

/// The words of the script language, which name no function.
static RESERVED: [&str; 21] = [
    "function", "end", "let", "read", "write", "spawn", "join", "push", "pop", "begin", "commit",
    "if", "else", "while", "return", "and", "or", "not", "none", "text", "len",
];

/// Whether a byte is a letter, or `_`.
fn is_letter(c: u8) -> bool
    ensures { result ≡ letter c }
{
    matches!(c, b'A'..=b'Z' | b'a'..=b'z' | b'_')
}

/// Whether a byte is a digit.
fn is_digit(c: u8) -> bool
    ensures { result ≡ digit c }
{
    matches!(c, b'0'..=b'9')
}

/// Whether a name is one of these words.
fn is_one_of(name: &str, words: &[&str]) -> bool
    ensures { result ≡ list_any (λ word. bytes_eq name.now word.now) words.now }
{
    words.iter().any(|word| name == *word)
}

/// Whether a name is a word of the script language.
fn is_reserved(name: &str) -> bool
    ensures { result ≡ list_any (bytes_eq name.now) reserved_words }
{
    is_one_of(name, &RESERVED)
}

/// Whether bytes are letters and digits.
fn are_letters_or_digits(bytes: &[u8]) -> bool
    ensures { result ≡ list_all (λ c. letter c || digit c) bytes.now }
{
    bytes.iter().all(|c| is_letter(*c) || is_digit(*c))
}

/// Whether bytes are letters, digits and `_`, at least one, and no digit first.
fn has_identifier_form(bytes: &[u8]) -> bool
    ensures { result ≡ has_identifier_characters bytes.now }
{
    match bytes {
        [] => false,
        [first, rest @ ..] => is_letter(*first) && are_letters_or_digits(rest),
    }
}

/// Whether a name can be a function's: 1 to 32 letters, digits and `_`, no digit first, and no word of the script language.
pub(crate) fn is_function_name(name: &str) -> bool
    ensures { result ≡ is_identifier name.now }
{
    has_identifier_form(name.as_bytes()) && name.len() <= 32 && !is_reserved(name)
}

/// The text that bytes are, where they are UTF-8.
pub(crate) fn utf8_text(bytes: &[u8]) -> Option<&str>
    ensures { MatchOption result (is_utf8 bytes.now ≡ false) (λ text. (text.now ≡ bytes.now) × (is_utf8 bytes.now ≡ true)) }
{
    match str::from_utf8(bytes) {
        Ok(text) => Some(text),
        Err(_) => None,
    }
}
