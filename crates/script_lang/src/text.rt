//! What every text with functions in it is read with, above `line_text`: functions line by line, calls, and the second pass over
//! names.

pub use crate::blocks::Blocks;
pub use crate::draft::{Draft, Stage};
pub use crate::names::{call_fault, first_name_fault};
pub use crate::statements::read_call;
