//! Laws of what a store keeps, and of which records count for what it stands for.

ghost use Rattle.obj_store.specs.Laws.{OneBelow, NoneSettled, RecordsBelow};

/// Of a key at most one write below the floor is kept, its base: each version that is kept is at or above the floor.
pub fn one_write_below()
    ensures { OneBelow }
{}

/// No value under the name of a settled write is kept.
pub fn no_settled_name()
    ensures { NoneSettled }
{}

/// A store that stands for another with some live records does so with all that have the same ones below the floor.
pub fn records_below_count()
    ensures { RecordsBelow }
{}
