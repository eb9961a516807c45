//! The tokens of a line that are still to be read.

ghost use Rattle.std.specs.Prelude.{◌≡◌, ◌↔◌, [], ◌∷◌, ◌++◌, length, OnOk, IsTrue, MatchOption};
ghost use Rattle.line_text.specs.Stream.{take_punctuation, punctuation_at, punctuation_code, same_punctuation, keyword_at};

use crate::token::{Keyword, Punctuation, Token};
use lb_base::Memory;
use std::alloc::Global;
use std::collections::VecDeque;
use std::marker::Model;

/// The tokens of a line that are still to be read, which contracts see as their list.
#[derive(Debug, Drop)]
pub struct Tokens {
    rest: VecDeque<Token>,
}

impl Model for Tokens {
    ghost use Rattle.std.specs.Prelude.{List};
    ghost use Rattle.line_text.specs.declared.token.Token.{Token};

    ghost Value = { List Token };

    ghost view = { λ t. t.rest.items };
}

impl Tokens {
    /// No tokens.
    pub fn new(alloc: Global) -> Tokens
        ensures { result ≡ [] }
    {
        Tokens {
            rest: VecDeque::new(alloc),
        }
    }

    /// Adds a token at the end. After `Memory` the token is dropped, and nothing is said of the others.
    pub fn push(&mut self, token: Token) -> Result<(), Memory>
        ensures { OnOk result (self.new ≡ self.old ++ token ∷ []) }
    {
        self.rest.push_back(token)?;
        Ok(())
    }

    /// Takes the first token, or answers None where there is none.
    pub fn take(&mut self) -> Option<Token>
        ensures { MatchOption result ((self.old ≡ []) × (self.new ≡ [])) (λ token. self.old ≡ token ∷ self.new) }
    {
        self.rest.pop_front()
    }

    /// How many tokens are left.
    pub fn len(&self) -> usize
        ensures { result ≡ length self.now }
    {
        self.rest.len()
    }

    /// Whether none is left.
    pub fn is_empty(&self) -> bool
        ensures { IsTrue result ↔ (self.now ≡ []) }
    {
        self.rest.is_empty()
    }

    /// The mark that stands first, where a mark does.
    pub fn mark(&self) -> Option<Punctuation>
        ensures { result ≡ punctuation_at self.now }
    {
        match self.rest.front() {
            Some(Token::Punctuation(mark)) => Some(*mark),
            _ => None,
        }
    }

    /// The reserved word that stands first, where one does.
    pub fn key(&self) -> Option<Keyword>
        ensures { result ≡ keyword_at self.now }
    {
        match self.rest.front() {
            Some(Token::Keyword(key)) => Some(*key),
            _ => None,
        }
    }

    /// Takes the first token where it is that mark, and says whether it was.
    pub fn takes(&mut self, mark: Punctuation) -> bool
        ensures { (result, self.new) ≡ take_punctuation mark self.old }
    {
        if let Some(first) = self.mark() {
            if is_same(first, mark) {
                let _ = self.rest.pop_front();
                return true;
            }
        }
        false
    }
}

fn code_of(mark: Punctuation) -> u8
    ensures { result ≡ punctuation_code mark }
{
    match mark {
        Punctuation::Open => 0,
        Punctuation::Close => 1,
        Punctuation::Comma => 2,
        Punctuation::Assign => 3,
    }
}

fn is_same(a: Punctuation, b: Punctuation) -> bool
    ensures { result ≡ same_punctuation a b }
{
    code_of(a) == code_of(b)
}
