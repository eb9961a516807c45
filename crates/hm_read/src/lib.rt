//! Log-free reads: an attempt of mode R reads objects at its cursor, and appends nothing.
//!
//! Such a read answers the last write up to the cursor, of the values that the object store keeps and of the logged writes that the
//! engine sees. The last logged write of an object is found by the seqnums of the object's tag, from the cursor down.
#![tactic(auto)]

mod last;
pub mod laws;
mod reading;

pub use last::{LastWrite, last_write, logged_of};
pub use obj_store::{Answered, GroupAnswer};
pub use reading::{copy_of, read_group_r, read_r};
