//! What an expression meets first.

ghost use Rattle.std.specs.Prelude.{◌≡◌};
ghost use Rattle.script_lang.specs.Expressions.{lookahead_of};

use line_text::{Punctuation, Tokens};

/// Whether an expression goes on at a token: a closing parenthesis may close one of its own; a comma, `=` and the end end it.
#[derive(Clone, Copy, Debug, PartialEq, Eq)]
pub enum Lookahead {
    Close,
    Stop,
    Other,
}

/// What stands first, as far as it ends an expression.
pub(crate) fn lookahead_token(tokens: &Tokens) -> Lookahead
    ensures { result ≡ lookahead_of tokens.now }
{
    match tokens.mark() {
        Some(Punctuation::Close) => Lookahead::Close,
        Some(Punctuation::Comma) => Lookahead::Stop,
        Some(Punctuation::Assign) => Lookahead::Stop,
        Some(Punctuation::Open) => Lookahead::Other,
        None => {
            if tokens.is_empty() {
                Lookahead::Stop
            } else {
                Lookahead::Other
            }
        }
    }
}
