//! What every text with the head of a plan, with events or with turns is read and printed with, above `line_text` and
//! `script_lang::text`.

pub use crate::entries::{function_number, read_entry_of_word};
pub use crate::events::{Entry, read_engine, read_request};
pub use crate::heads::{Expected, Head};
pub use crate::naming::first_fault_of;
pub use crate::plan_text::{head_string, name_value_lines};
pub use crate::printing::{call_string, function_name, tags_string, values_string};
pub use crate::report::{bare_turn_string, turn_string};
