//! Attempts of invocations: what one step does, by the records that the attempt's engine sees.
//!
//! [`Parts`] are what attempts run on, a book, an object store and the caches of each engine; an [`Attempt`] runs on one engine of
//! them. The functions follow the step table one by one.
#![tactic(auto)]

mod adopting;
mod answering;
mod asking;
mod attempt;
mod caches;
mod cases;
mod init;
mod missing;
mod taking;

pub use attempt::Attempt;
pub use boki_types::{Life, Miss, StepLine};
pub use flow_parts::Parts;
