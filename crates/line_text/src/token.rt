//! The tokens of a line.

use boki_types::BinOp;
use lb_base::Words;

/// A reserved word, but for the operators `and` and `or`.
#[derive(Clone, Copy, Debug, PartialEq, Eq)]
pub enum Keyword {
    Function,
    End,
    Let,
    Read,
    Write,
    Spawn,
    Join,
    Push,
    Pop,
    Begin,
    Commit,
    If,
    Else,
    While,
    Return,
    Not,
    /// `none`
    Nothing,
    /// `text`
    TextOf,
    Len,
}

/// A mark that stands between other tokens.
#[derive(Clone, Copy, Debug, PartialEq, Eq)]
pub enum Punctuation {
    /// `(`
    Open,
    /// `)`
    Close,
    /// `,`
    Comma,
    /// `=`
    Assign,
}

/// A piece of a line.
///
/// Spaces between pieces may be left out where they stay apart: each token is the longest that begins there.
#[derive(Debug, Drop)]
pub enum Token {
    /// A numeral, without its sign; nothing where it is 2^64 or more.
    Numeral(Option<u64>),
    /// Digits and dots with a dot among them, that begin with a digit.
    Dotted(Words),
    /// A quoted text, as what it stands for.
    Text(Words),
    /// A word that isn't reserved, of any length.
    Name(Words),
    /// A reserved word.
    Keyword(Keyword),
    /// An operator but `-`.
    Op(BinOp),
    /// `-`, and whether a digit follows it at once, so that it may be the sign of a number.
    Minus(bool),
    Punctuation(Punctuation),
}
