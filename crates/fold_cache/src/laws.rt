//! Laws, each a function with an empty body.
ghost use Rattle.fold_cache.specs.Bodies.{FoundAreRecorded};

/// What stands at a place of a tag is the live record with its seqnum.
pub fn found_are_recorded()
    ensures { FoundAreRecorded }
{}
