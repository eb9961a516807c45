//! What the object store is told, and what it answers.

use lb_base::{List, Path, Seqnum, Value, Words};

/// The name of a stored write: the invocation's path, and the place of the write in its step log.
#[derive(Clone, Copy, Debug, PartialEq, Eq)]
pub struct Name {
    pub path: Path,
    pub place: u64,
}

/// A live logged write that a sweep passes: its object, its seqnum, its name, and its value where the record holds it.
#[derive(Clone, Debug, Drop, PartialEq, Eq)]
pub struct Settled {
    pub key: Words,
    pub seq: Seqnum,
    pub name: Name,
    pub here: Option<Value>,
}

/// What storing a value under a name answers; `Gone` where the cursor is below the floor.
#[derive(Clone, Copy, Debug, PartialEq, Eq)]
pub enum Named {
    Done,
    Gone,
}

/// What a free write answers; `Late` where a later read of the object was fenced, `Gone` where the cursor is below the
/// floor.
#[derive(Clone, Copy, Debug, PartialEq, Eq)]
pub enum Put {
    Done,
    Late,
    Gone,
}

/// What a fenced read answers.
#[derive(Clone, Debug, Drop, PartialEq, Eq)]
pub enum Fenced {
    Found(Value),
    Missing,
    Gone,
}

/// What a read of an object answers, with nothing where there is none; `Gone` where the position is below the floor.
#[derive(Clone, Debug, Drop, PartialEq, Eq)]
pub enum Answered {
    Value(Value),
    Gone,
}

/// What a read of several objects answers: a value for each, or `Gone` where the position is below the floor.
#[derive(Clone, Debug, Drop, PartialEq, Eq)]
pub enum GroupAnswer {
    Values(List<Value>),
    Gone,
}
