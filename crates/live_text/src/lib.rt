//! Live texts: what workers do on a log that they share, read from a text; what they were answered, as a text; and which answers
//! are right for which text.
//!
//! The order of the appends of several workers is free, so a live text has many outputs. `specs/Outputs.antt` says which.
#![tactic(auto)]

mod answers;
mod draft;
mod ops;
mod output;
mod parsing;
mod records;
mod text;

pub use answers::{LiveAnswer, LiveRan};
pub use output::print_ran;
pub use parsing::parse_live;
pub use records::record_of;
pub use text::{LiveOp, LiveText};
