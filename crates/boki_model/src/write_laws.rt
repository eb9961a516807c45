//! Laws of writes and their positions.

ghost use Rattle.boki_model.specs.WriteLaws.{PositionsAreUnique, LastWritesStay};

/// No two writes of a key have one position, where versions are numbered and seqnums fall.
pub fn positions_are_unique()
    ensures { PositionsAreUnique }
{}

/// A further version changes no last write of another key, and of its own key none at or below its position.
pub fn last_writes_stay()
    ensures { LastWritesStay }
{}
