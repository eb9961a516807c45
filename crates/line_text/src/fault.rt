//! Why a text is refused.

ghost use Rattle.std.specs.Prelude.{◌≡◌};
ghost use Rattle.line_text.specs.declared.fault.TextFault.TheVariants.{Memory as NoMemory};
ghost use Rattle.line_text.specs.declared.fault.LineFault.TheVariants as line_faults;
ghost use Rattle.line_text.specs.Faults.{fault_at_line, first_fault};

use boki_types::Kind;
use lb_base::Memory;
use std::error::Error;
use std::fmt;
use std::fmt::{Display, Formatter};

/// Why a text can't be read: this line is refused, for this reason; or there was no room in memory.
///
/// The line is 0 where the text as a whole is too long.
#[derive(Clone, Copy, Debug, PartialEq, Eq)]
pub enum TextFault {
    Refused { line: u64, kind: Kind },
    Memory,
}

impl Display for TextFault {
    fn fmt<W: fmt::Write>(&self, f: &mut Formatter<W>) -> fmt::Result {
        match self {
            TextFault::Refused { line, kind } => write!(f, "line {line} is refused: {kind}"),
            TextFault::Memory => f.write_str("out of memory"),
        }
    }
}

impl Error for TextFault {}

impl From<Memory> for TextFault {
    ghost from_gives = { λ _ e. e ≡ NoMemory };

    fn from(_e: Memory) -> TextFault {
        TextFault::Memory
    }
}

/// Why a line is refused; or there was no room in memory.
#[derive(Clone, Copy, Debug, PartialEq, Eq)]
pub enum LineFault {
    Refused(Kind),
    Memory,
}

impl From<Memory> for LineFault {
    ghost from_gives = { λ _ e. e ≡ line_faults.Memory };

    fn from(_e: Memory) -> LineFault {
        LineFault::Memory
    }
}

/// The fault of a text whose line with this number has a fault.
pub fn fault_on_line(line: u64, fault: LineFault) -> TextFault
    ensures { result ≡ fault_at_line line fault }
{
    match fault {
        LineFault::Refused(kind) => TextFault::Refused { line, kind },
        LineFault::Memory => TextFault::Memory,
    }
}

/// The first fault of a text's lines, where the line with this number may have one: what stands in `fault` wins, since it is of a
/// line before.
pub fn earlier_fault(
    fault: Option<(u64, Kind)>,
    number: u64,
    found: Option<Kind>,
) -> Option<(u64, Kind)>
    ensures { result ≡ first_fault fault number found }
{
    match fault {
        Some(fault) => Some(fault),
        None => match found {
            Some(kind) => Some((number, kind)),
            None => None,
        },
    }
}
