//! The plain data types of all layers: what a record says, what a script is and asks, what a plan does, and what the
//! program answers. They have no logic but [`Program::find`] and [`Program::arity`]. The crates above declare what acts on
//! them, and re-export those that belong to their calls.
#![tactic(auto)]

mod body;
mod event;
mod expr;
mod kind;
mod line;
mod log;
mod operation;
mod plan;
mod program;
mod store;
mod turn;

pub use body::Body;
pub use event::Event;
pub use expr::{BinOp, Expr};
pub use kind::Kind;
pub use line::{FlowLine, Life, Line, Miss, StepLine};
pub use log::{Call, Cut, Ending, Sent, Settle};
pub use operation::{Answer, Ask, Op};
pub use plan::{Item, Plan, Setup};
pub use program::{Function, Program, Stmt};
pub use store::{Answered, Fenced, GroupAnswer, Name, Named, Put, Settled};
pub use turn::{Report, Turn, TurnText};
