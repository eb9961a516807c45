//! Plans.

use crate::event::Event;
use crate::program::Program;
use lb_base::{List, Mode, Value, Words};

/// The sizes of a cluster, its first mode, `R` or `W`, and the number of the first engine that spells short writes with
/// their value, where there is one.
#[derive(Clone, Copy, Debug, PartialEq, Eq)]
pub struct Setup {
    pub shards: u32,
    pub replicas: u32,
    pub engines: u32,
    pub mode: Mode,
    pub newer: Option<u32>,
}

/// An event, or events that are done so often.
#[derive(Drop)]
pub enum Item {
    One(Event),
    Repeat(u32, List<Event>),
}

/// What a run begins with, and what happens in it.
#[derive(Drop)]
pub struct Plan {
    pub setup: Setup,
    pub objects: List<(Words, Value)>,
    pub program: Program,
    pub items: List<Item>,
}
