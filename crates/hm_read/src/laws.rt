//! When a store is kept with the records: each function has an empty body, and a law as its contract.
ghost use Rattle.hm_read.specs.Laws.{UnchangedStands, UnchangedIsKept, HoldingIsKept};

/// A store that is unchanged, as after `Memory`, stands for what it stood for.
pub fn unchanged_stands()
    ensures { UnchangedStands }
{}

/// And it is kept.
pub fn unchanged_is_kept()
    ensures { UnchangedIsKept }
{}

/// What stands for the store of a machine that holds the invariant is kept.
pub fn holding_is_kept()
    ensures { HoldingIsKept }
{}
