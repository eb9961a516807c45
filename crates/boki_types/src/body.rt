//! What a record of the log says.

use lb_base::{List, Mode, Outcome, Path, Value, Words};

/// What a record of the log says.
///
/// A *step record* is one of an invocation's own steps: all variants with a path but `Submit`. Its `index` is 1 for `Init`
/// (which is not stored), the number of the operation, from 1, for an operation, and the number of operations plus 1 for
/// `Finish`.
#[derive(Drop)]
pub enum Body {
    /// A request, a path of one number, and the function that it calls.
    Submit {
        path: Path,
        function: Words,
        args: List<Value>,
    },
    /// An invocation begins.
    Init {
        path: Path,
    },
    /// A marker: the invocation reads the object at this record.
    Read {
        path: Path,
        index: u64,
        key: Words,
    },
    /// A write of an object. The value is stored under the name (path, place), or stands here.
    Write {
        path: Path,
        index: u64,
        place: u64,
        key: Words,
        value: Option<Value>,
    },
    /// A child, numbered from 1 among the children of its parent, and the function that it calls.
    Spawn {
        path: Path,
        index: u64,
        ordinal: u64,
        function: Words,
        args: List<Value>,
    },
    /// The invocation takes the result of its child.
    Join {
        path: Path,
        index: u64,
        ordinal: u64,
    },
    /// A value is put at the end of a queue.
    Push {
        path: Path,
        index: u64,
        queue: Words,
        value: Value,
    },
    /// The first value of a queue is taken, where there is one.
    Pop {
        path: Path,
        index: u64,
        queue: Words,
    },
    /// A transaction begins and reads these store names.
    TxnBegin {
        path: Path,
        index: u64,
        names: List<Words>,
    },
    /// The transaction that began at the seqnum `begin` ends: it read `names` and writes `writes`.
    TxnCommit {
        path: Path,
        index: u64,
        begin: u64,
        names: List<Words>,
        writes: List<(Words, Value)>,
    },
    /// An invocation ends with a result.
    Finish {
        path: Path,
        index: u64,
        outcome: Outcome,
    },
    /// A switch of the book to the mode `R` or `W` begins.
    SwitchBegin {
        target: Mode,
    },
    /// The pending switch ends.
    SwitchEnd,
    /// Values that only invocations with an Init below the seqnum `w` need may be dropped.
    Trim {
        w: u64,
    },
    /// The records of the user tag `number` at or below `upto` are hidden from reads by that tag.
    TrimTag {
        number: u64,
        upto: u64,
    },
    /// A user's bytes.
    User {
        bytes: List<u8>,
    },
    /// A marker: the invocation reads all these objects at this record.
    ReadGroup {
        path: Path,
        index: u64,
        keys: List<Words>,
    },
}
