//! How a call of the program ends.

ghost use Rattle.std.specs.Prelude.{◌≡◌};
ghost use Rattle.call_base.specs.Due.{status_code};

use boki_types::Kind;

/// How a call of the program ends.
#[derive(Clone, Copy, Debug, PartialEq, Eq)]
pub enum Status {
    /// All was read, run and written.
    Done,
    /// The text was refused, and the line that says so was written.
    Refused {
        /// The refused line, from 1; 0 where the text is refused as a whole.
        line: u64,
        /// Why it is refused.
        kind: Kind,
    },
    /// The words aren't accepted, and the usage line was written.
    Usage,
    /// The source failed.
    ReadFault,
    /// The sink failed.
    WriteFault,
    /// Memory ran out.
    Memory,
}

impl Status {
    /// The exit status of the process, from 0 to 5.
    pub fn code(self) -> u8
        ensures { result ≡ status_code self }
    {
        match self {
            Status::Done => 0,
            Status::Refused { line: _, kind: _ } => 1,
            Status::Usage => 2,
            Status::ReadFault => 3,
            Status::WriteFault => 4,
            Status::Memory => 5,
        }
    }
}
