//! The records of the published list.
ghost use Rattle.std.specs.Prelude.{◌≡◌, IfOk};

use lb_base::{List, Memory, Record};
use std::alloc::Global;

/// A record, with the number of the engine that appended it.
pub(crate) type Appended = (u32, Record);

/// A copy of a record, or `Memory`.
pub(crate) fn copy_of(alloc: Global, item: &Appended) -> Result<Appended, Memory>
    ensures { IfOk result (λ copy. copy ≡ item.now) }
{
    let rec = &item.1;
    let tags = List::from_slice(alloc, rec.tags.as_slice())?;
    let bytes = List::from_slice(alloc, rec.bytes.as_slice())?;
    let cond = rec.cond;
    Ok((item.0, Record { tags, cond, bytes }))
}
