//! The events of a plan.

use lb_base::{List, Mode, Path, Seqnum, Tag, Value, Words};

/// An event of a plan. Engines, shards, replicas and attempts are numbered from 1; a local number counts a shard's records
/// from 1; a function is named by its number in the program, from 0.
#[derive(Drop)]
pub enum Event {
    /// The engine appends a request's call.
    Submit {
        engine: u32,
        request: u32,
        function: u32,
        args: List<Value>,
    },
    /// The replica, from 2, copies up to `n` further records of its shard.
    Copy {
        shard: u32,
        replica: u32,
        n: u64,
    },
    /// The metalog orders what every replica has.
    Cut,
    /// The engine reads the log to its end.
    Catch {
        engine: u32,
    },
    /// A cut, and then every engine catches up.
    Sync,
    /// The engine loses its view, its caches and its attempts.
    Restart {
        engine: u32,
    },
    /// A new attempt of an invocation.
    Start {
        attempt: u32,
        path: Path,
        engine: u32,
    },
    /// One step of an attempt.
    Step {
        attempt: u32,
    },
    /// The attempt runs no more.
    Kill {
        attempt: u32,
    },
    /// The attempt forgets the record that it waits for.
    Lose {
        attempt: u32,
    },
    /// The store call of the attempt's next step is made, and its answer lost.
    Miss {
        attempt: u32,
    },
    /// A switch of the book to another mode, `R` or `W`, begins.
    Switch {
        engine: u32,
        target: Mode,
    },
    /// The pending switch ends, where all invocations that began before it have.
    EndSwitch {
        engine: u32,
    },
    /// The engine appends the floor that it can vouch for.
    Trim {
        engine: u32,
    },
    /// The object store drops what lies below the engine's floor.
    Sweep {
        engine: u32,
    },
    /// A user's record.
    Append {
        engine: u32,
        tags: List<Tag>,
        text: Words,
    },
    /// A user's record under the condition that so many live records have its first tag.
    Cond {
        engine: u32,
        place: u64,
        tags: List<Tag>,
        text: Words,
    },
    /// The least record of the tag at or above a seqnum.
    Next {
        engine: u32,
        tag: Tag,
        from: Seqnum,
    },
    /// The greatest record of the tag at or below a seqnum.
    Prev {
        engine: u32,
        tag: Tag,
        upto: Seqnum,
    },
    /// The last record of the tag.
    Tail {
        engine: u32,
        tag: Tag,
    },
    /// The records of the tag up to a seqnum are hidden.
    TrimTag {
        engine: u32,
        tag: Tag,
        upto: Seqnum,
    },
    /// What became of an appended record.
    Settled {
        engine: u32,
        shard: u32,
        local: u64,
    },
    /// Sets auxiliary data of a record on one engine.
    SetAux {
        engine: u32,
        seq: Seqnum,
        text: Words,
    },
    /// Gives the auxiliary data of a record.
    GetAux {
        engine: u32,
        seq: Seqnum,
    },
    /// Reseeds the objects that disturb the run.
    Seed {
        n: u64,
    },
}
