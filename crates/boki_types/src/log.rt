//! What the calls of the log answer, and what an invocation calls.

use lb_base::{List, Path, Seqnum, Value, Words};

/// Where an appended record stands: its shard, from 1, and its number there, from 1.
#[derive(Clone, Copy, Debug, PartialEq, Eq)]
pub struct Sent {
    pub shard: u32,
    pub local: u64,
}

/// What became of a record that an engine's view covers: it is live, or another had its place. Both carry its own seqnum.
#[derive(Clone, Copy, Debug, PartialEq, Eq)]
pub enum Settle {
    Placed(Seqnum),
    Taken(Seqnum),
}

/// What a cut of the metalog did: it made the entry of this number, from 1, or there was nothing new.
#[derive(Clone, Copy, Debug, PartialEq, Eq)]
pub enum Cut {
    Entry(u64),
    Same,
}

/// What an invocation calls.
#[derive(Clone, Debug, Drop, PartialEq, Eq)]
pub struct Call {
    pub function: Words,
    pub args: List<Value>,
}

/// What the end of a switch answers: a record was sent, no switch is pending, or this invocation, the least such, must end
/// first.
#[derive(Clone, Copy, Debug, PartialEq, Eq)]
pub enum Ending {
    Sent(Sent),
    Idle,
    Unfinished(Path),
}
