//! Records as bytes: the one spelling of each body, and the body that bytes spell.
#![tactic(auto)]

mod decoding;
mod elements;
mod encoding;
mod fault;
mod kinds;
mod laws;
mod lists;
mod looking;
mod names;
mod pieces;
mod spellings;
mod tags;
mod trim;
mod values;

pub use boki_types::Body;
pub use decoding::decode;
pub use encoding::encode;
pub use fault::{DecodeFault, EncodeFault};
pub use laws::{one_spelling, read_is_spelled, spelled_is_read};
pub use looking::{BodyKind, kind_of_bytes, step_of_bytes};
pub use tags::{call_tag, key_tag, step_tag, tags_of};
pub use trim::trim_tag_of;
