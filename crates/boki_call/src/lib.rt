//! The call of the program: its words are read once, and the body of their command answers.
#![tactic(auto)]

mod answering;

pub use answering::call;
pub use call_base::Status;
pub use nemesis::Nemesis;
