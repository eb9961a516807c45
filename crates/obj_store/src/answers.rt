//! What a read of an object is told, and what it answers.

use boki_types::Name;
use lb_base::{Seqnum, Value};

/// The last live logged write of an object in the range of a read: its seqnum, its name, and its value where the record holds it.
#[derive(Clone, Copy, Debug)]
pub struct Logged<'a> {
    pub seq: Seqnum,
    pub name: Name,
    pub here: Option<&'a Value>,
}

/// What a free read answers; `Gone` where the cursor is below the floor.
#[derive(Clone, Copy, Debug)]
pub enum Read<'a> {
    Found(&'a Value),
    Missing,
    Gone,
}
