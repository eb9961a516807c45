//! What every text of lines is read with: lines, tokens, values, fields and lists, and the faults of a text.
#![tactic(auto)]

mod checked;
mod dotted;
mod elements;
mod fault;
mod fields;
mod lexing;
mod lines;
mod lists;
mod spans;
mod splits;
mod tags;
mod token;
mod tokens;
mod words;

pub use boki_types::Kind;
pub use checked::{Checked, check_both, checked_at_end, in_range, valid_or_fault};
pub use dotted::{read_path, read_sent};
pub use elements::{Element, FieldGrammar, read_name, read_numeral, read_text, read_value};
pub use fault::{LineFault, TextFault, earlier_fault, fault_on_line};
pub use fields::{read_mode, read_short_text, read_tag, read_u32_in, read_u64, read_u64_in};
pub use lines::{LexedLine, as_text, fault_of_unended_line, lex_text_line, read_line, split_line};
pub use lists::{CommaList, at_most_eight_items, read_comma_list, read_paren_list};
pub use splits::{split_bytes, split_text};
pub use tags::read_tags;
pub use token::{Keyword, Punctuation, Token};
pub use tokens::Tokens;
