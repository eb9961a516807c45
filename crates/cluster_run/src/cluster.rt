//! The cluster, and the events that happen to it.
ghost use Rattle.std.specs.Prelude.{◌≡◌, IsTrue, IfOk, IsErr};
ghost use Rattle.boki_model.specs.Plans.{is_event, is_plan};
ghost use Rattle.cluster_run.specs.Clusters.{IsOfPlan, IsOpened, DoesEvent, CatchesAllUp, MarksOnMemory};

use crate::applying::apply;
use boki_flow::{Attempt, Parts};
use boki_types::{Event, Line, Plan};
use book_api::{Book, Gate};
use cluster_events::{catch_all, new_parts};
use indexmap::IndexMap;
use lb_base::Memory;
use std::alloc::Global;
use std::marker::Model;
use std::thread::Threads;

/// A cluster, by what its plan's head says and what has happened in it.
///
/// A call that finds no memory in the middle of an event marks the cluster, and a marked cluster answers `Memory` to everything.
#[derive(Drop)]
pub struct Cluster {
    pub(crate) alloc: Global,
    pub(crate) parts: Parts,
    /// The attempts by their numbers, in the order in which they were started.
    pub(crate) attempts: IndexMap<u32, Attempt>,
    pub(crate) marked: bool,
}

impl Model for Cluster {
    ghost use Rattle.cluster_run.specs.Clusters.{ClusterState, IsSoundCluster};

    ghost Value = { ClusterState };

    ghost view = { λ c.
        record { parts = c.parts; attempts = c.attempts.entries; marked = c.marked } };

    ghost invariant = { λ c. IsSoundCluster
        (record { parts = c.parts; attempts = c.attempts.entries; marked = c.marked }) };
}

impl Cluster {
    /// A new cluster of a plan, in which nothing has happened.
    pub fn new(alloc: Global, plan: &Plan) -> Result<Cluster, Memory>
        requires { IsTrue (is_plan plan.now) }
        ensures { IfOk result (IsOpened plan.now) }
    {
        Ok(Cluster {
            alloc,
            parts: new_parts(alloc, plan)?,
            attempts: IndexMap::new(alloc),
            marked: false,
        })
    }

    /// An event that the plan can have happens, and its line is told. A `sync` hands the gate to the book.
    ///
    /// After `Memory` the cluster is marked.
    pub fn event<R: Threads + Sync, G: Gate + Sync>(
        &mut self,
        rt: &R,
        plan: &Plan,
        event: &Event,
        gate: &G,
    ) -> Result<Line, Memory>
        requires valid { IsTrue (is_event plan.now.setup plan.now.program.functions event.now) }
        requires plan { IsOfPlan plan.now self.old }
        ensures done { IfOk result (DoesEvent plan.now.setup plan.now.program.functions event.now
            self.old self.new) }
        ensures plan { IsOfPlan plan.now self.new }
        ensures marks { MarksOnMemory self.old self.new result }
    {
        if self.marked {
            return Err(Memory);
        }
        self.marked = true;
        let line = apply(
            self.alloc,
            rt,
            &plan.program,
            &mut self.parts,
            &mut self.attempts,
            event,
            gate,
        )?;
        self.marked = false;
        Ok(line)
    }

    /// Catches every engine up, and tells the length of the log. After `Memory` the cluster is marked.
    pub fn catch_all<R: Threads + Sync, G: Gate + Sync>(
        &mut self,
        rt: &R,
        gate: &G,
    ) -> Result<u64, Memory>
        ensures done { IfOk result (CatchesAllUp self.old self.new) }
        ensures marks { MarksOnMemory self.old self.new result }
    {
        if self.marked {
            return Err(Memory);
        }
        self.marked = true;
        let length = catch_all(rt, &mut self.parts, gate)?;
        self.marked = false;
        Ok(length)
    }

    /// The book.
    pub fn book(&self) -> &Book
        ensures { result.now ≡ self.now.parts.book }
    {
        &self.parts.book
    }
}
