//! What attempts do with the object store: free reads, free writes, the values of logged writes, and the fenced reads of markers.
#![tactic(auto)]

mod marked;
mod reading;
mod taking;
mod writing;

pub use marked::{adopt_group, adopt_read};
pub use reading::{free_read, free_read_group, pairs_of};
pub use taking::take_answer;
pub use writing::{free_write, store_value};
