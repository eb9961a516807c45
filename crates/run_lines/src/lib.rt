//! The lines of a run: what each event answers, and what each step of an attempt did, as text. They are added to a buffer that
//! the caller keeps from line to line.
#![tactic(auto)]

mod adopted;
mod listing;
mod sent;
mod step;
mod whole;

pub use boki_types::{Line, Miss, StepLine};
pub use step::push_step_line;
pub use whole::{print_line, push_line};
