//! What workers were answered.

use lb_base::{List, Record, Seqnum};

/// What a line was answered. The last number of a read is the position: how many records of the list it saw.
#[derive(Clone, Copy, Debug, PartialEq, Eq)]
pub enum LiveAnswer {
    /// The record stands at this seqnum.
    Append(Seqnum),
    /// The seqnum that was asked for, or None where there is none.
    Next(Option<Seqnum>, u64),
    /// The seqnum that was asked for, or None where there is none.
    Prev(Option<Seqnum>, u64),
    /// How many records there are.
    Count(u64, u64),
}

/// The list in the end, each record with the number of the worker that appended it, and the answers of each worker, from worker 1
/// on.
#[derive(Debug, Drop)]
pub struct LiveRan {
    pub list: List<(u32, Record)>,
    pub answers: List<List<LiveAnswer>>,
}
