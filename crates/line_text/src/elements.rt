//! Values that stand first, and what lists are read of.

ghost use Rattle.std.specs.Prelude.{◌≡◌, IfOk};
ghost use Rattle.line_text.specs.Readers.{numeral_at, text_at, name_at, value_at, minus_value, positive_value, negative_value};
ghost use Rattle.line_text.specs.Stream.{found_before};

use crate::checked::{Checked, in_range};
use crate::token::{Keyword, Token};
use crate::tokens::Tokens;
use lb_base::{Memory, Value, Words};
use std::alloc::Global;

/// What may stand several times with commas between, as a grammar spells it.
///
/// A crate gives its own pieces a grammar of its own, as [`FieldGrammar`] is that of this crate.
pub trait Element<Grammar>: Drop {
    ghost use Rattle.std.specs.Prelude.{List, Option};
    ghost use Rattle.line_text.specs.declared.token.Token.{Token};
    ghost use Rattle.line_text.specs.declared.checked.Checked.{Checked as CheckedSpec};

    /// What tokens it is read from, and what is left of them.
    ghost reads: { List Token → Option (CheckedSpec Self × List Token) };

    /// Reads one from the first tokens, and leaves those behind it; None where a token doesn't fit. After `Memory` nothing is said of
    /// the tokens.
    fn read(alloc: Global, tokens: &mut Tokens) -> Result<Option<Checked<Self>>, Memory>
        ensures { IfOk result (λ found. found_before tokens.new found ≡ reads tokens.old) };
}

/// The grammar of the fields of a line: names, values and tags.
pub struct FieldGrammar;

/// The numeral that stands first, and nothing in it where it is 2^64 or more; None where none stands there.
///
/// After an answer the tokens behind it are left.
pub fn read_numeral(tokens: &mut Tokens) -> Option<Option<u64>>
    ensures { found_before tokens.new result ≡ numeral_at tokens.old }
{
    match tokens.take() {
        Some(Token::Numeral(n)) => Some(n),
        _ => None,
    }
}

/// The quoted text that stands first, of any length; None where none stands there.
///
/// After an answer the tokens behind it are left.
pub fn read_text(tokens: &mut Tokens) -> Option<Words>
    ensures { found_before tokens.new result ≡ text_at tokens.old }
{
    match tokens.take() {
        Some(Token::Text(text)) => Some(text),
        _ => None,
    }
}

/// The name that stands first, which is out of range where it has more than 32 bytes; None where none stands there.
///
/// After an answer the tokens behind it are left.
pub fn read_name(tokens: &mut Tokens) -> Option<Checked<Words>>
    ensures { found_before tokens.new result ≡ name_at tokens.old }
{
    match tokens.take() {
        Some(Token::Name(name)) => {
            let fits = name.len() <= 32;
            Some(in_range(fits, name))
        }
        _ => None,
    }
}

/// The value of a numeral.
fn positive_number(n: Option<u64>) -> Checked<Value>
    ensures { result ≡ positive_value n }
{
    match n {
        None => Checked::OutOfRange,
        Some(n) => {
            if n < 1 << 63 {
                Checked::Valid(Value::Int(n as i64))
            } else {
                Checked::OutOfRange
            }
        }
    }
}

/// The value of a numeral behind a minus.
fn negative_number(n: Option<u64>) -> Checked<Value>
    ensures { result ≡ negative_value n }
{
    match n {
        None => Checked::OutOfRange,
        Some(n) => {
            if n < 1 << 63 {
                Checked::Valid(Value::Int(-(n as i64)))
            } else if n == 1 << 63 {
                Checked::Valid(Value::Int(i64::MIN))
            } else {
                Checked::OutOfRange
            }
        }
    }
}

/// The value behind a minus.
fn read_negative(tokens: &mut Tokens) -> Option<Checked<Value>>
    ensures { found_before tokens.new result ≡ minus_value tokens.old }
{
    match tokens.take() {
        Some(Token::Numeral(n)) => match n {
            Some(0) => None,
            _ => Some(negative_number(n)),
        },
        _ => None,
    }
}

/// The value that stands first: an integer, a quoted text, or `none`; None where none stands there.
///
/// It is out of range where an integer doesn't have 64 bits, or a text has more than 256 bytes. After an answer the tokens
/// behind it are left.
pub fn read_value(tokens: &mut Tokens) -> Option<Checked<Value>>
    ensures { found_before tokens.new result ≡ value_at tokens.old }
{
    match tokens.take() {
        Some(Token::Numeral(n)) => Some(positive_number(n)),
        Some(Token::Minus(true)) => read_negative(tokens),
        Some(Token::Text(text)) => {
            let fits = text.len() <= 256;
            Some(in_range(fits, Value::Text(text)))
        }
        Some(Token::Keyword(Keyword::Nothing)) => Some(Checked::Valid(Value::Nothing)),
        _ => None,
    }
}

impl Element<FieldGrammar> for Words {
    ghost reads = { name_at };

    fn read(_alloc: Global, tokens: &mut Tokens) -> Result<Option<Checked<Words>>, Memory> {
        Ok(read_name(tokens))
    }
}

impl Element<FieldGrammar> for Value {
    ghost reads = { value_at };

    fn read(_alloc: Global, tokens: &mut Tokens) -> Result<Option<Checked<Value>>, Memory> {
        Ok(read_value(tokens))
    }
}
