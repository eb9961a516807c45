//! Reserved words.

ghost use Rattle.std.specs.Prelude.{◌≡◌, IfOk};
ghost use Rattle.line_text.specs.Tokens.{word_token, keyword_of};

use crate::token::{Keyword, Token};
use boki_types::BinOp;
use lb_base::{Memory, Words};
use std::alloc::Global;

/// The reserved word that a text is, but for `and` and `or`.
#[tactic(auto, unfolding(crate::specs::Tokens::keyword_of))]
fn keyword_of_text(text: &str) -> Option<Keyword>
    ensures { result ≡ keyword_of text.now }
{
    match text {
        "let" => Some(Keyword::Let),
        "read" => Some(Keyword::Read),
        "write" => Some(Keyword::Write),
        "return" => Some(Keyword::Return),
        "end" => Some(Keyword::End),
        "if" => Some(Keyword::If),
        "else" => Some(Keyword::Else),
        "while" => Some(Keyword::While),
        "not" => Some(Keyword::Not),
        "none" => Some(Keyword::Nothing),
        "text" => Some(Keyword::TextOf),
        "len" => Some(Keyword::Len),
        "function" => Some(Keyword::Function),
        "spawn" => Some(Keyword::Spawn),
        "join" => Some(Keyword::Join),
        "push" => Some(Keyword::Push),
        "pop" => Some(Keyword::Pop),
        "begin" => Some(Keyword::Begin),
        "commit" => Some(Keyword::Commit),
        _ => None,
    }
}

/// The token of a word of letters, digits and `_`.
#[tactic(auto, unfolding(crate::specs::Tokens::word_token))]
pub(crate) fn token_of_word(alloc: Global, text: &str) -> Result<Token, Memory>
    ensures { IfOk result (λ token. token ≡ word_token text.now) }
{
    if text == "and" {
        Ok(Token::Op(BinOp::And))
    } else if text == "or" {
        Ok(Token::Op(BinOp::Or))
    } else {
        match keyword_of_text(text) {
            Some(key) => Ok(Token::Keyword(key)),
            None => Ok(Token::Name(Words::from_text(alloc, text)?)),
        }
    }
}
