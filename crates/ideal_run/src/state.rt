//! The state: maps of objects, queues, store names and invocations, and the log by which a turn is undone.

ghost use Rattle.std.specs.Prelude.{◌≡◌};
ghost use Rattle.ideal_run.specs.Kept.{maps_of, empty};

use crate::kept::{Change, KnownInvocation, Queue, Stored};
use lb_base::{Path, Value, Words};
use std::alloc::Global;
use std::collections::BTreeMap;

/// The maps of the failure-free execution, and what the turn that runs has replaced in them, the newest last.
#[derive(Drop)]
pub(crate) struct State {
    pub(crate) alloc: Global,
    pub(crate) objects: BTreeMap<Words, Value>,
    pub(crate) queues: BTreeMap<Words, Queue>,
    pub(crate) names: BTreeMap<Words, Stored>,
    /// How many commits have succeeded.
    pub(crate) commits: u64,
    pub(crate) invocations: BTreeMap<Path, KnownInvocation>,
    pub(crate) log: Vec<Change>,
}

impl State {
    /// The state without objects, queues, names and invocations.
    pub(crate) fn new(alloc: Global) -> State
        ensures { maps_of result ≡ empty }
    {
        State {
            alloc,
            objects: BTreeMap::new(alloc),
            queues: BTreeMap::new(alloc),
            names: BTreeMap::new(alloc),
            commits: 0,
            invocations: BTreeMap::new(alloc),
            log: Vec::new(alloc),
        }
    }
}
