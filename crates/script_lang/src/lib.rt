//! The texts of functions: what a text means as a program, where and why it is refused, and how a function is printed.
#![tactic(auto)]

mod blocks;
mod draft;
mod elements;
mod expressions;
mod first;
pub mod laws;
mod names;
mod parsing;
mod parts;
mod printing;
mod setters;
mod stack;
mod statements;
pub mod text;

pub use boki_types::{BinOp, Expr, Function, Kind, Program, Stmt};
pub use line_text::TextFault as ScriptFault;
pub use parsing::parse_functions;
pub use printing::print_function;
