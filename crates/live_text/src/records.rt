//! The record that a line appends.

ghost use Rattle.std.specs.Prelude.{◌≡◌, IfOk};
ghost use Rattle.live_text.specs.Outputs.{user_record};

use lb_base::{List, Memory, Record, Tag, Words};
use std::alloc::Global;

/// A record with these tags and no condition, that holds a text.
pub fn record_of(alloc: Global, tags: &[Tag], text: &Words) -> Result<Record, Memory>
    ensures { IfOk result (λ r. r ≡ user_record tags.now text.now) }
{
    Ok(Record {
        tags: List::from_slice(alloc, tags)?,
        cond: None,
        bytes: List::from_slice(alloc, text.as_bytes())?,
    })
}
