//! The texts of plans and turns: what a text means, where and why it is refused, and how plans, events and reports are printed.
//! Beside them stands the generator of plans.
#![tactic(auto)]

mod bodies;
mod drafts;
mod entries;
mod events;
mod generator;
mod heads;
pub mod laws;
mod naming;
mod parsing;
mod plan_text;
mod printing;
mod records;
mod report;
pub mod text;
mod turns;
mod validity;
mod verb;

pub use boki_types::{Event, Item, Kind, Plan, Report, Setup, Turn, TurnText};
pub use generator::make_plan;
pub use line_text::TextFault as PlanFault;
pub use parsing::{parse_plan, parse_turns};
pub use plan_text::print_plan;
pub use printing::print_event;
pub use report::{print_report, print_turn};
pub use validity::valid;
