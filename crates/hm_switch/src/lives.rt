//! Which invocations are open, and since when.
ghost use Rattle.std.specs.Prelude.{◌≡◌, [], ℕ, List, Some, None, cond, nat_lt, OnOk};
ghost use Rattle.boki_types.specs.declared.body.Body.{Body};
ghost use Rattle.boki_types.specs.declared.body.Body.TheVariants as body;
ghost use Rattle.boki_model.specs.Live.{Live};
ghost use Rattle.boki_model.specs.Modes.{least_open, all_ended, lesser_path};
ghost use Rattle.boki_model.specs.Floor.{first_open, counted_trim};
ghost use Rattle.hm_switch.specs.declared.marks.Mark.TheVariants as said;
ghost use Rattle.hm_switch.specs.Lives.{AreLives, GoOn, since_in};

use crate::phase::Phase;
use lb_base::{Memory, Path};
use std::alloc::Global;
use std::collections::{BTreeMap, HashMap};

/// The invocations of some records: where each stands, and the open ones by the seqnums of their Inits.
#[derive(Drop)]
pub(crate) struct Lives {
    pub(crate) phases: HashMap<Path, Phase>,
    pub(crate) opened: BTreeMap<u64, Path>,
}

impl Lives {
    /// Those of no records.
    pub(crate) fn new(alloc: Global) -> Lives
        ensures { AreLives [] result.phases.entries result.opened.entries }
    {
        Lives {
            phases: HashMap::new(alloc),
            opened: BTreeMap::new(alloc),
        }
    }

    /// Forgets all.
    pub(crate) fn clear(&mut self)
        ensures { AreLives [] self.new.phases.entries self.new.opened.entries }
    {
        self.phases.clear();
        self.opened.clear();
    }

    /// An Init comes.
    pub(crate) fn begin(&mut self, seq: u64, path: Path) -> Result<(), Memory>
        ensures { OnOk result (GoOn seq (said.Init path) self.old.phases.entries self.old.opened.entries
            self.new.phases.entries self.new.opened.entries) }
    {
        if self.phases.contains_key(&path) {
            return Ok(());
        }
        self.phases.insert(path, Phase::Open(seq))?;
        self.opened.insert(seq, path)?;
        Ok(())
    }

    /// A Finish comes.
    pub(crate) fn end(&mut self, path: Path) -> Result<(), Memory>
        ensures { OnOk result ((seq : ℕ) → GoOn seq (said.Finish path) self.old.phases.entries self.old.opened.entries
            self.new.phases.entries self.new.opened.entries) }
    {
        let phase = self.phases.insert(path, Phase::Ended)?;
        match open_since(phase) {
            Some(begun) => {
                self.opened.remove(&begun);
                Ok(())
            }
            None => Ok(()),
        }
    }

    /// The seqnum of the first Init of an open invocation.
    pub(crate) fn first_open(&self) -> Option<u64>
        ensures { (records : List (Live Body)) → AreLives records self.now.phases.entries self.now.opened.entries
            → result ≡ first_open records records }
    {
        match self.opened.first_key_value() {
            Some((seq, _)) => Some(*seq),
            None => None,
        }
    }

    /// Whether no invocation is open that began below a seqnum.
    pub(crate) fn all_ended(&self, below: u64) -> bool
        ensures { (records : List (Live Body)) → AreLives records self.now.phases.entries self.now.opened.entries
            → result ≡ all_ended below records }
    {
        match self.first_open() {
            Some(seq) => seq >= below,
            None => true,
        }
    }

    /// What a Trim of a bound at a seqnum counts, behind the records: its bound, or 0.
    pub(crate) fn counted(&self, seq: u64, bound: u64) -> u64
        ensures { (records : List (Live Body)) → AreLives records self.now.phases.entries self.now.opened.entries
            → result ≡ counted_trim (body.Trim bound) seq records }
    {
        if bound > seq {
            return 0;
        }
        if self.all_ended(bound) {
            return bound;
        }
        0
    }

    /// The least path of those open invocations that began below a seqnum.
    pub(crate) fn least_open(&self, below: u64) -> Option<Path>
        ensures { (records : List (Live Body)) → AreLives records self.now.phases.entries self.now.opened.entries
            → result ≡ least_open below records }
    {
        let mut least = None;
        for (seq, path) in self.opened.iter() {
            least = least_with(*seq, *path, below, least);
        }
        least
    }
}

// Since when an invocation is open, where it is.
fn open_since(phase: Option<Phase>) -> Option<u64>
    ensures { result ≡ since_in phase }
{
    match phase {
        Some(Phase::Open(begun)) => Some(begun),
        _ => None,
    }
}

// The least path, with one more that began at a seqnum.
fn least_with(seq: u64, path: Path, below: u64, least: Option<Path>) -> Option<Path>
    ensures { result ≡ lesser_path (cond (nat_lt seq below) (Some path) None) least }
{
    if seq >= below {
        return least;
    }
    match least {
        Some(other) if other < path => Some(other),
        _ => Some(path),
    }
}
