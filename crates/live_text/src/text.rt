//! What a live text spells.

use lb_base::{List, Seqnum, Tag, Words};

/// What a worker does in one line.
#[derive(Debug, Drop, PartialEq, Eq)]
pub enum LiveOp {
    /// It appends a record with these tags that holds the text.
    Append(List<Tag>, Words),
    /// It asks for the first live record of a tag at or behind a seqnum.
    Next(Tag, Seqnum),
    /// It asks for the last live record of a tag at or before a seqnum.
    Prev(Tag, Seqnum),
    /// It asks how many live records a tag has.
    Count(Tag),
}

/// How many workers there are, and what they do, in the order of the text: each line with the number of its worker, from 1.
#[derive(Debug, Drop)]
pub struct LiveText {
    pub workers: u32,
    pub lines: List<(u32, LiveOp)>,
}
