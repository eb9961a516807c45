//! What a state keeps of a queue, a store name and an invocation.

use crate::kept_frame::KeptFrame;
use lb_base::{List, Outcome, Path, Value, Words};

/// A queue: all values that were pushed since it became known, of which the first `front` were popped.
#[derive(Drop)]
pub(crate) struct Queue {
    pub(crate) values: List<Value>,
    pub(crate) front: usize,
}

/// The value of a store name, and the number of the commit that wrote it.
#[derive(Drop)]
pub(crate) struct Stored {
    pub(crate) value: Value,
    pub(crate) commit: u64,
}

/// A known invocation.
#[derive(Drop)]
pub(crate) struct KnownInvocation {
    /// Where its script stands; nothing once it has ended, and where the program has no such function of so many arguments.
    pub(crate) frame: Option<KeptFrame>,
    /// Its result, once it has ended.
    pub(crate) result: Option<Outcome>,
    /// How many commits had succeeded at the begin of its open transaction.
    pub(crate) begun: Option<u64>,
}

/// What a change of the state replaced, so that it can be undone.
#[derive(Drop)]
pub(crate) enum Change {
    /// The object had this value, or none.
    Object(Words, Option<Value>),
    /// The queue became known.
    Opened(Words),
    /// A value was put at the queue's end.
    Pushed(Words),
    /// The queue's front was taken.
    Popped(Words),
    /// The store name had this value, or none.
    Name(Words, Option<Stored>),
    /// So many commits had succeeded.
    Commits(u64),
    /// The path had this invocation, or none.
    Child(Path, Option<KnownInvocation>),
}
