//! Definitions of the log, the store, scripts and plans, in `specs/`, and their first laws: functions with an empty body, each
//! of which has its law as its contract.
#![tactic(auto)]

pub mod limits;
pub mod log_laws;
pub mod map_laws;
pub mod order_laws;
pub mod tag_classes;
pub mod tag_laws;
pub mod write_laws;
