//! What a script asks, and what it is answered.

use lb_base::{List, Outcome, Value, Words};

/// What a script asks of its runtime.
#[derive(Drop)]
pub enum Op {
    Read {
        key: Words,
    },
    Write {
        key: Words,
        value: Value,
    },
    /// A child, by its ordinal from 1, that calls the function of this number.
    Spawn {
        ordinal: u32,
        function: u32,
        args: List<Value>,
    },
    Join {
        ordinal: u32,
    },
    Push {
        queue: Words,
        value: Value,
    },
    Pop {
        queue: Words,
    },
    Begin {
        names: List<Words>,
    },
    /// The names that the transaction read, and what it writes.
    Commit {
        names: List<Words>,
        writes: List<(Words, Value)>,
    },
    ReadGroup {
        keys: List<Words>,
    },
}

/// Where a script stands: at an operation, or at its end.
#[derive(Drop)]
pub enum Ask {
    Op(Op),
    Done(Outcome),
}

/// The answer of an operation.
#[derive(Drop)]
pub enum Answer {
    /// Of a write and a push.
    Done,
    /// Of a read and a pop; nothing where there was none.
    Value(Value),
    /// Of a spawn: the ordinal asked.
    Spawned(u32),
    /// Of a join: the child's result.
    Joined(Outcome),
    /// Of a begin and a read of several objects: a value for each name asked.
    Values(List<Value>),
    /// Of a commit: whether it succeeded.
    Committed(bool),
}
