//! How the types of this crate are printed.

ghost use Rattle.std.specs.Prelude.{◌≡◌, ◌∷◌, Some, IfOk, encode_utf8};
ghost use Rattle.std.specs.Fmt.{WritesOnOk};
ghost use Rattle.lb_base.specs.Print.{value_text, mode_text, trap_text, outcome_text, path_text};
ghost use Rattle.lb_base.specs.Quoted.{quoted, escaped};

use crate::memory::Memory;
use crate::path::Path;
use crate::value::{Mode, Outcome, TrapKind, Value};
use crate::words::Words;
use std::alloc::Global;
use std::fmt;

/// A text that is displayed as a quoted text: between `"`, with `\"`, `\\` and `\n` for the three characters that are
/// always escaped.
#[derive(Clone, Copy, Debug)]
pub struct Quoted<'a>(pub &'a str);

impl<'a> fmt::Display for Quoted<'a> {
    ghost output = { λ q. Some (quoted q.0.now) };

    fn fmt<W: fmt::Write>(&self, f: &mut fmt::Formatter<W>) -> fmt::Result {
        f.write_str("\"")?;
        'chars: for c in self.0.chars() {
            write_escaped(c, f)?;
        }
        f.write_str("\"")
    }
}

fn write_escaped<W: fmt::Write>(c: char, f: &mut fmt::Formatter<W>) -> fmt::Result
    ensures { WritesOnOk W.write_str_gives f.old result (escaped (encode_utf8 c)) f.new }
{
    if c == '"' {
        f.write_str("\\\"")
    } else if c == '\\' {
        f.write_str("\\\\")
    } else if c == '\n' {
        f.write_str("\\n")
    } else {
        f.write_char(c)
    }
}

impl fmt::Display for Value {
    ghost output = { λ v. Some (value_text v) };

    fn fmt<W: fmt::Write>(&self, f: &mut fmt::Formatter<W>) -> fmt::Result {
        match self {
            Value::Int(n) => write!(f, "{n}"),
            Value::Text(text) => fmt::Display::fmt(&Quoted(text.as_str()), f),
            Value::Nothing => f.write_str("none"),
        }
    }
}

impl fmt::Display for Mode {
    ghost output = { λ m. Some (mode_text m) };

    fn fmt<W: fmt::Write>(&self, f: &mut fmt::Formatter<W>) -> fmt::Result {
        match self {
            Mode::R => f.write_str("R"),
            Mode::W => f.write_str("W"),
            Mode::T => f.write_str("T"),
        }
    }
}

impl fmt::Display for TrapKind {
    ghost output = { λ k. Some (trap_text k) };

    fn fmt<W: fmt::Write>(&self, f: &mut fmt::Formatter<W>) -> fmt::Result {
        match self {
            TrapKind::Overflow => f.write_str("overflow"),
            TrapKind::Divide => f.write_str("divide"),
            TrapKind::Loop => f.write_str("loop"),
            TrapKind::Key => f.write_str("key"),
            TrapKind::Join => f.write_str("join"),
            TrapKind::Txn => f.write_str("txn"),
            TrapKind::Text => f.write_str("text"),
            TrapKind::Kind => f.write_str("kind"),
            TrapKind::Spawn => f.write_str("spawn"),
        }
    }
}

impl fmt::Display for Outcome {
    ghost output = { λ o. Some (outcome_text o) };

    fn fmt<W: fmt::Write>(&self, f: &mut fmt::Formatter<W>) -> fmt::Result {
        match self {
            Outcome::Good(value) => write!(f, "value {value}"),
            Outcome::Trap(kind) => write!(f, "trap {kind}"),
        }
    }
}

impl fmt::Display for Path {
    ghost output = { λ p. Some (path_text p) };

    fn fmt<W: fmt::Write>(&self, f: &mut fmt::Formatter<W>) -> fmt::Result {
        let (first, rest) = self.split();
        write!(f, "{first}")?;
        'numbers: for n in rest {
            write!(f, ".{n}")?;
        }
        Ok(())
    }
}

/// The one spelling of a text as a quoted text, which `read_quoted` reads again, or `Memory`.
pub fn print_quoted(alloc: Global, text: &str) -> Result<Words, Memory>
    ensures { IfOk result (λ w. w ≡ quoted text.now) }
{
    Ok(Words::from_string(Quoted(text).to_string(alloc)?))
}

/// The text of a value: an integer, a quoted text, or `none`.
pub fn print_value(alloc: Global, value: &Value) -> Result<Words, Memory>
    ensures { IfOk result (λ w. w ≡ value_text value.now) }
{
    Ok(Words::from_string(value.to_string(alloc)?))
}

/// The text of a result: `value V`, or `trap KIND`.
pub fn print_outcome(alloc: Global, outcome: &Outcome) -> Result<Words, Memory>
    ensures { IfOk result (λ w. w ≡ outcome_text outcome.now) }
{
    Ok(Words::from_string(outcome.to_string(alloc)?))
}

/// The text of a path: its numbers, with dots between them.
pub fn print_path(alloc: Global, path: Path) -> Result<Words, Memory>
    ensures { IfOk result (λ w. w ≡ path_text path) }
{
    Ok(Words::from_string(path.to_string(alloc)?))
}
