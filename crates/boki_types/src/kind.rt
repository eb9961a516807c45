//! The kinds of refusal of a text.

ghost use Rattle.std.specs.Prelude.{◌≡◌, Some};
ghost use Rattle.boki_types.specs.Kinds.{kind_text};

use std::fmt;
use std::fmt::{Display, Formatter};

/// Why a text is refused.
#[derive(Clone, Copy, Debug, PartialEq, Eq)]
pub enum Kind {
    /// The text has more bytes than the limit.
    Length,
    /// A line's number is above the limit.
    Lines,
    /// A line isn't UTF-8.
    Utf8,
    /// The last line has no line feed.
    Truncated,
    /// A line isn't in the grammar at its place.
    Syntax,
    /// A number, text, name or count is outside its limits.
    Range,
    /// The stored record doesn't fit its line.
    Record,
    /// Nesting or operands are past the limits.
    Deep,
    /// More events than the limit.
    Events,
    /// The text stops too early.
    End,
    /// A name is given twice, or isn't known.
    Name,
    /// The number of arguments isn't the function's.
    Arity,
    /// The turn, or the record, isn't one that the scripts allow.
    Illegal,
    /// The form isn't built yet.
    NotBuilt,
}

impl Kind {
    /// The kind's name, in lower case, as a refusal prints it.
    pub fn as_str(self) -> &'static str
        ensures { result.now ≡ kind_text self }
    {
        match self {
            Kind::Length => "length",
            Kind::Lines => "lines",
            Kind::Utf8 => "utf8",
            Kind::Truncated => "truncated",
            Kind::Syntax => "syntax",
            Kind::Range => "range",
            Kind::Record => "record",
            Kind::Deep => "deep",
            Kind::Events => "events",
            Kind::End => "end",
            Kind::Name => "name",
            Kind::Arity => "arity",
            Kind::Illegal => "illegal",
            Kind::NotBuilt => "notbuilt",
        }
    }
}

impl Display for Kind {
    ghost output = { λ k. Some (kind_text k) };

    fn fmt<W: fmt::Write>(&self, f: &mut Formatter<W>) -> fmt::Result {
        f.write_str(self.as_str())
    }
}
