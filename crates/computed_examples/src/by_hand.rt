//! Examples that no plan has: turns that can't be done, and tags by their numbers.

ghost use Rattle.computed_examples.specs.ByHand.{IllegalTurns, KnownTags};

/// Turns that the failure-free execution can't do: a request that is known, an invocation that isn't, more operations than
/// the script has, an end before the script is done, an operation behind the end, and a join of a child without a result.
pub fn illegal_turns()
    ensures { IllegalTurns }
{}

/// The tags of an object, of a request's call and of a grandchild's call.
pub fn known_tags()
    ensures { KnownTags }
{}
