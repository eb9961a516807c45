//! Turns, and the report of a run.

use crate::plan::Plan;
use lb_base::{List, Outcome, Path, Value, Words};

/// A turn of the failure-free execution.
#[derive(Drop)]
pub enum Turn {
    /// The request becomes known, with the function of this number.
    Submit {
        request: u32,
        function: u32,
        args: List<Value>,
    },
    /// The invocation runs its next `n` operations.
    Go {
        path: Path,
        n: u64,
    },
    /// The invocation's script is done.
    End {
        path: Path,
    },
}

/// What a run has come to: its turns in order, the results by path, and the objects, queues and store names by name.
#[derive(Drop)]
pub struct Report {
    pub turns: List<Turn>,
    pub results: List<(Path, Outcome)>,
    pub objects: List<(Words, Value)>,
    pub queues: List<(Words, List<Value>)>,
    pub stores: List<(Words, Value)>,
}

/// The text of a plan's head with turns: a plan without events, and each turn with the number of its line, from 1.
#[derive(Drop)]
pub struct TurnText {
    pub plan: Plan,
    pub turns: List<(u64, Turn)>,
}
