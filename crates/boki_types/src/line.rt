//! The answers of events, and of steps.

use crate::log::Sent;
use lb_base::{List, Mode, Outcome, Path, Seqnum, Value, Words};

/// How an attempt stands: it runs, its invocation was over, the store no longer had what it needed, or it was killed.
#[derive(Clone, Copy, Debug, PartialEq, Eq)]
pub enum Life {
    Running,
    Over,
    Stopped,
    Killed,
}

/// What a lost store call did: a value was stored under its name, a version was put in, fences were raised, nothing; or the
/// attempt doesn't run.
#[derive(Clone, Copy, Debug, PartialEq, Eq)]
pub enum Miss {
    Store,
    Put,
    Fence,
    Nothing,
    Idle,
}

/// What one step of an attempt did.
#[derive(Drop)]
pub enum StepLine {
    Idle,
    Over(Outcome),
    WaitsCall,
    WaitsRecord,
    WaitsJoin(Path),
    StoppedGone,
    AdoptInit(Seqnum, Mode),
    AdoptRead(Seqnum, Words, Value),
    AdoptWrite(Seqnum, Words),
    AdoptSpawn(Seqnum, Path),
    AdoptJoin(Seqnum, Path, Outcome),
    AdoptPush(Seqnum, Words),
    AdoptPop(Seqnum, Words, Value),
    AdoptBegin(Seqnum, List<(Words, Value)>),
    AdoptCommit(Seqnum, bool),
    SendInit(Sent),
    SendFinish(Sent, Outcome),
    SendRead(Sent, Words),
    /// The value is there exactly where the record holds it.
    SendWrite(Sent, Words, Option<Value>),
    SendJoin(Sent, Path),
    /// The child's path, the number of its function, and its arguments.
    SendSpawn(Sent, Path, u32, List<Value>),
    SendPush(Sent, Words, Value),
    SendPop(Sent, Words),
    SendBegin(Sent, List<Words>),
    SendCommit(Sent, List<(Words, Value)>),
    Read(Words, Value),
    /// A version was put in: its object, value, cursor and number at that cursor, from 1.
    Put(Words, Value, Seqnum, u64),
    Late(Words),
    Store(Words, Value),
    ReadAll(List<(Words, Value)>),
    SendReadAll(Sent, List<Words>),
    AdoptReadAll(Seqnum, List<(Words, Value)>),
}

/// The answer of an event.
#[derive(Drop)]
pub enum Line {
    Sent(Sent),
    Copied(u64),
    /// The entry's number, and the length of the ordered list.
    Cut(u64, u64),
    Same,
    At(u64),
    Sync(u64),
    /// How many attempts were killed.
    Restarted(u32),
    Started,
    Ignored,
    Step(StepLine),
    Killed,
    Idle,
    Lost,
    Nothing,
    Missed(Miss),
    /// `none`
    Absent,
    Unfinished(Path),
    Trimmed(Sent, Seqnum),
    /// The object store's floor, and how many values it holds.
    Floor(Seqnum, u64),
    Found(Seqnum, Words),
    Placed(Seqnum),
    Taken(Seqnum),
    Waits,
    Set,
    Aux(Words),
    Seeded,
}

/// What one step of a worker on the live log did; a record that is sent has its seqnum at once.
#[derive(Drop)]
pub enum FlowLine {
    Over(Outcome),
    WaitsCall,
    WaitsJoin(Path),
    AdoptInit(Seqnum, Mode),
    AdoptWrite(Seqnum, Words),
    AdoptSpawn(Seqnum, Path),
    AdoptJoin(Seqnum, Path, Outcome),
    SendInit(Seqnum),
    SendFinish(Seqnum, Outcome),
    SendWrite(Seqnum, Words, Value),
    SendSpawn(Seqnum, Path, u32, List<Value>),
    SendJoin(Seqnum, Path),
    Read(Words, Value),
}
