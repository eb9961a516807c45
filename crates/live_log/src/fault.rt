//! Why a call on a live log has no answer.
use lb_base::Seqnum;
use std::error::Error;
use std::fmt;

/// Why a log was not opened, or an engine not caught up.
#[derive(Clone, Copy, Debug, PartialEq, Eq)]
pub enum LiveFault {
    /// The door refused.
    Refused,
    /// There was no room in memory.
    Memory,
}

impl fmt::Display for LiveFault {
    fn fmt<W: fmt::Write>(&self, f: &mut fmt::Formatter<W>) -> fmt::Result {
        match self {
            LiveFault::Refused => f.write_str("the door refused"),
            LiveFault::Memory => f.write_str("out of memory"),
        }
    }
}

impl Error for LiveFault {}

/// Why a worker of a live log did no further line.
#[derive(Clone, Copy, Debug, PartialEq, Eq)]
pub enum Stop {
    /// It did all of its lines.
    Ran,
    /// Its door refused.
    Refused,
    /// An append got this seqnum, which isn't above the position that its engine had before it.
    Behind(Seqnum),
    /// There was no room in memory.
    Memory,
}
