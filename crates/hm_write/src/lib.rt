//! Log-free writes, logged writes and markers.
//!
//! An attempt of mode W puts a write into the object store as a version at its cursor, and appends nothing, where no later read of
//! the object was fenced. A read of such an attempt is a marker in the log: it answers the last write below the marker, and raises
//! the object's fence to it, so that no version comes in below it any more. In modes R and T, and where it comes too late in mode W,
//! a write is logged: its value is stored under its name first, or stands in its record.
#![tactic(auto)]

mod marked;
mod sending;
mod storing;

pub use book_api::Sent;
pub use marked::{read_group_marked, read_marked};
pub use obj_store::{Answered, GroupAnswer, Name, Named, Put};
pub use sending::{mark_group, mark_read, send_write};
pub use storing::{put_w, store_write};
