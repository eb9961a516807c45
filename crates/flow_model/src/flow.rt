//! The plain data of live flow: its text, and what its workers came to.

use boki_types::{FlowLine, Program};
use lb_base::{List, Path, Record, Value, Words};

/// A text of `flow`: how many workers there are, the objects and functions, and what is called and run. A call has the request,
/// the number of the function and the arguments; a run has the worker, the invocation and the number of steps.
#[derive(Drop)]
pub struct FlowText {
    pub workers: u32,
    pub objects: List<(Words, Value)>,
    pub program: Program,
    pub calls: List<(u32, u32, List<Value>)>,
    pub runs: List<(u32, Path, u64)>,
}

/// A step: its line, and how many records of the list it saw.
#[derive(Drop)]
pub struct FlowStep {
    pub line: FlowLine,
    pub at: u64,
}

/// A run: a new attempt of an invocation, and its steps in order.
#[derive(Drop)]
pub struct FlowRun {
    pub worker: u32,
    pub path: Path,
    pub steps: List<FlowStep>,
}

/// What the workers came to: the list, each record with the worker that sent it, and the runs, those of a worker in order.
#[derive(Drop)]
pub struct FlowRan {
    pub list: List<(u32, Record)>,
    pub runs: List<FlowRun>,
}
