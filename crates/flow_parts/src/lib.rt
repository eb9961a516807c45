//! What attempts run on: the book, the object store, and what each engine keeps of queues, transactions and switches.
#![tactic(auto)]

mod parts;

pub use parts::Parts;
