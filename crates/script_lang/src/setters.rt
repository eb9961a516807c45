//! What stands behind `let V =`.

ghost use Rattle.std.specs.Prelude.{◌≡◌};
ghost use Rattle.script_lang.specs.Statements.{setter_of, setter_at};

use line_text::{Keyword, Tokens};

/// How a variable is set.
#[derive(Clone, Copy, Debug, PartialEq, Eq)]
pub enum Setter {
    /// By an expression alone.
    Value,
    Read,
    Spawn,
    Join,
    Pop,
    Commit,
}

fn setter_of_key(key: Option<Keyword>) -> Setter
    ensures { result ≡ setter_of key }
{
    match key {
        Some(Keyword::Read) => Setter::Read,
        Some(Keyword::Spawn) => Setter::Spawn,
        Some(Keyword::Join) => Setter::Join,
        Some(Keyword::Pop) => Setter::Pop,
        Some(Keyword::Commit) => Setter::Commit,
        _ => Setter::Value,
    }
}

/// Takes the word that says how a variable is set, where one does.
pub(crate) fn take_setter(tokens: &mut Tokens) -> Setter
    ensures { (result, tokens.new) ≡ setter_at tokens.old }
{
    let setter = setter_of_key(tokens.key());
    match setter {
        Setter::Value => {}
        Setter::Read | Setter::Spawn | Setter::Join | Setter::Pop | Setter::Commit => {
            let _ = tokens.take();
        }
    }
    setter
}
