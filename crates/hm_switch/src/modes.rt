//! The book's mode, and how it changed.
ghost use Rattle.std.specs.Prelude.{◌≡◌, [], ℕ, List, Option, None, OnOk};
ghost use Rattle.lb_base.specs.declared.value.Mode.{Mode};
ghost use Rattle.boki_types.specs.declared.body.Body.{Body};
ghost use Rattle.boki_model.specs.Live.{Live};
ghost use Rattle.boki_model.specs.Modes.{mode_after, same_mode, modes};
ghost use Rattle.boki_machine.specs.Step.{records_below};
ghost use Rattle.hm_switch.specs.declared.marks.Mark.TheVariants as said;
ghost use Rattle.hm_switch.specs.Lives.{AreLives};
ghost use Rattle.hm_switch.specs.Modes.{AreModes, ModesGoOn, ModesEnd, pending_in};

use crate::change::{Change, Pending};
use crate::lives::Lives;
use lb_base::{Memory, Mode};
use std::alloc::Global;

/// The modes of some records: the current one and the pending switch, and each change of the mode that invocations begin in.
#[derive(Drop)]
pub(crate) struct Modes {
    pub(crate) current: Mode,
    pub(crate) pending: Option<Pending>,
    pub(crate) changes: Vec<Change>,
}

impl Modes {
    /// Those of no records.
    pub(crate) fn new(alloc: Global, first: Mode) -> Modes
        ensures { AreModes first [] result.current result.pending result.changes.items }
    {
        Modes {
            current: first,
            pending: None,
            changes: Vec::new(alloc),
        }
    }

    /// Forgets all.
    pub(crate) fn clear(&mut self, first: Mode)
        ensures { AreModes first [] self.new.current self.new.pending self.new.changes.items }
    {
        self.current = first;
        self.pending = None;
        self.changes.clear();
    }

    /// A SwitchBegin comes.
    pub(crate) fn begin(&mut self, seq: u64, target: Mode) -> Result<(), Memory>
        ensures { OnOk result (ModesGoOn seq (said.SwitchBegin target) self.old.current self.old.pending self.old.changes.items
            self.new.current self.new.pending self.new.changes.items) }
    {
        if self.pending.is_some() {
            return Ok(());
        }
        if same(target, self.current) {
            return Ok(());
        }
        self.changes.push(Change { seq, mode: Mode::T })?;
        self.pending = Some(Pending { target, begun: seq });
        Ok(())
    }

    /// A SwitchEnd comes, behind records of these invocations.
    pub(crate) fn end(&mut self, seq: u64, lives: &Lives) -> Result<(), Memory>
        ensures { OnOk result (ModesEnd seq lives.now.phases.entries lives.now.opened.entries
            self.old.current self.old.pending self.old.changes.items
            self.new.current self.new.pending self.new.changes.items) }
    {
        let Some(pending) = self.pending else {
            return Ok(());
        };
        if !lives.all_ended(pending.begun) {
            return Ok(());
        }
        self.changes.push(Change {
            seq,
            mode: pending.target,
        })?;
        self.current = pending.target;
        self.pending = None;
        Ok(())
    }

    /// The mode of an invocation that begins at a seqnum.
    pub(crate) fn at(&self, first: Mode, seq: u64) -> Mode
        ensures { (records : List (Live Body)) → AreModes first records self.now.current self.now.pending self.now.changes.items
            → result ≡ mode_after first (records_below seq records) }
    {
        let below = self.changes.partition_point(|change| change.seq < seq);
        if below == 0 {
            return first;
        }
        self.changes[below - 1].mode
    }
}

// Whether two modes are the same.
fn same(mode: Mode, other: Mode) -> bool
    ensures { result ≡ same_mode mode other }
{
    match (mode, other) {
        (Mode::R, Mode::R) | (Mode::W, Mode::W) | (Mode::T, Mode::T) => true,
        _ => false,
    }
}
