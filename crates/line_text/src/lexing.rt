//! Tokens.

ghost use Rattle.std.specs.Prelude.{◌≡◌, ◌<◌, ◌^◌, IfOk, IfSome, option_map, length, slice_index, drop};
ghost use Rattle.lb_base.specs.Quoted.{quoted_at};
ghost use Rattle.line_text.specs.Tokens.{span, token_at, number_token, quoted_and_rest, double_symbol, single_symbol, symbol_and_rest, number_and_rest, word_and_rest, tokens_in};

use crate::spans::{CharClass, first_byte, is_letter, skip_first_byte, split_span};
use crate::token::{Punctuation, Token};
use crate::tokens::Tokens;
use crate::words::token_of_word;
use boki_types::BinOp;
use lb_base::{Memory, Words, is_numeral, read_num, split_quoted};
use std::alloc::Global;

/// The token of digits and dots.
fn number_token_of(alloc: Global, text: &str) -> Result<Option<Token>, Memory>
    ensures { IfOk result (λ token. token ≡ number_token text.now) }
{
    if is_numeral(text) {
        Ok(Some(Token::Numeral(read_num(text))))
    } else if text.as_bytes().contains(&b'.') {
        Ok(Some(Token::Dotted(Words::from_text(alloc, text)?)))
    } else {
        Ok(None)
    }
}

/// The token of two characters.
#[tactic(auto, unfolding(crate::specs::Tokens::double_symbol))]
fn double_symbol_of(c: u8, d: u8) -> Option<Token>
    ensures value { result ≡ double_symbol c d }
    ensures ascii { IfSome result (λ _. (0 < d) × (d < 128)) }
{
    if c == b'+' && d == b'+' {
        Some(Token::Op(BinOp::Glue))
    } else if c == b'=' && d == b'=' {
        Some(Token::Op(BinOp::Eq))
    } else if c == b'!' && d == b'=' {
        Some(Token::Op(BinOp::Ne))
    } else if c == b'<' && d == b'=' {
        Some(Token::Op(BinOp::Le))
    } else if c == b'>' && d == b'=' {
        Some(Token::Op(BinOp::Ge))
    } else {
        None
    }
}

/// The token of one character, which a digit may follow at once.
#[tactic(auto, unfolding(crate::specs::Tokens::single_symbol))]
fn single_symbol_of(c: u8, d: u8) -> Option<Token>
    ensures { result ≡ single_symbol c d }
{
    if c == b'(' {
        Some(Token::Punctuation(Punctuation::Open))
    } else if c == b')' {
        Some(Token::Punctuation(Punctuation::Close))
    } else if c == b',' {
        Some(Token::Punctuation(Punctuation::Comma))
    } else if c == b'=' {
        Some(Token::Punctuation(Punctuation::Assign))
    } else if c == b'+' {
        Some(Token::Op(BinOp::Add))
    } else if c == b'-' {
        Some(Token::Minus(d.is_ascii_digit()))
    } else if c == b'*' {
        Some(Token::Op(BinOp::Mul))
    } else if c == b'/' {
        Some(Token::Op(BinOp::Div))
    } else if c == b'%' {
        Some(Token::Op(BinOp::Rem))
    } else if c == b'<' {
        Some(Token::Op(BinOp::Lt))
    } else if c == b'>' {
        Some(Token::Op(BinOp::Gt))
    } else {
        None
    }
}

/// The mark or operator that begins a text, and what follows it.
fn symbol_and_rest_of(text: &str) -> Option<(Token, &str)>
    requires some { 0 < length text.now }
    requires ascii { slice_index text.now 0 < 128 }
    ensures { option_map (λ x. (x.0, x.1.now)) result ≡ symbol_and_rest (slice_index text.now 0) (drop 1 text.now) }
{
    let c = first_byte(text);
    let rest = skip_first_byte(text);
    let d = first_byte(rest);
    if let Some(token) = double_symbol_of(c, d) {
        return Some((token, skip_first_byte(rest)));
    }
    match single_symbol_of(c, d) {
        Some(token) => Some((token, rest)),
        None => None,
    }
}

/// The quoted text that begins a text, and what follows it.
fn quoted_and_rest_of(alloc: Global, text: &str) -> Result<Option<(Token, &str)>, Memory>
    ensures { IfOk result (λ found. option_map (λ x. (x.0, x.1.now)) found ≡ quoted_and_rest (quoted_at text.now)) }
{
    match split_quoted(alloc, text)? {
        Some((words, rest)) => Ok(Some((Token::Text(words), rest))),
        None => Ok(None),
    }
}

/// The number that begins a text, and what follows it.
fn number_and_rest_of(alloc: Global, text: &str) -> Result<Option<(Token, &str)>, Memory>
    ensures { IfOk result (λ found. option_map (λ x. (x.0, x.1.now)) found ≡ number_and_rest (span CharClass.Numeric text.now)) }
{
    let (figures, rest) = split_span(CharClass::Numeric, text);
    match number_token_of(alloc, figures)? {
        Some(token) => Ok(Some((token, rest))),
        None => Ok(None),
    }
}

/// The word that begins a text, and what follows it.
fn word_and_rest_of(alloc: Global, text: &str) -> Result<(Token, &str), Memory>
    ensures { IfOk result (λ x. (x.0, x.1.now) ≡ word_and_rest (span CharClass.Word text.now)) }
{
    let (word, rest) = split_span(CharClass::Word, text);
    Ok((token_of_word(alloc, word)?, rest))
}

/// The token that begins a text, and what follows it.
fn token_of(alloc: Global, text: &str) -> Result<Option<(Token, &str)>, Memory>
    ensures { IfOk result (λ found. option_map (λ x. (x.0, x.1.now)) found ≡ token_at text.now) }
{
    if text.is_empty() {
        return Ok(None);
    }
    let c = text.as_bytes()[0];
    if c == b'"' {
        quoted_and_rest_of(alloc, text)
    } else if c.is_ascii_digit() {
        number_and_rest_of(alloc, text)
    } else if is_letter(c) {
        Ok(Some(word_and_rest_of(alloc, text)?))
    } else if c < 128 {
        Ok(symbol_and_rest_of(text))
    } else {
        Ok(None)
    }
}

/// The tokens of a text.
pub(crate) fn lex_text(alloc: Global, text: &str) -> Result<Option<Tokens>, Memory>
    ensures { IfOk result (λ found. found ≡ tokens_in text.now) }
{
    let mut tokens = Tokens::new(alloc);
    let mut rest = text;
    'tokens: for _ in 0..text.len() + 1 {
        let (_, front) = split_span(CharClass::Space, rest);
        if front.is_empty() {
            return Ok(Some(tokens));
        }
        match token_of(alloc, front)? {
            None => return Ok(None),
            Some((token, behind)) => {
                tokens.push(token)?;
                rest = behind;
            }
        }
    }
    Ok(None)
}
