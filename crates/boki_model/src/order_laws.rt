//! Laws of the one order: seqnums, and the locations of records in their shards.

ghost use Rattle.boki_model.specs.OrderLaws.{NewestFirstIsInOrder, LocationsTellSeqnums, AppendsKeepTheOrder, LengthIsTotal, CutsKeepLocations, LocationsAreOfLengths};

/// The newest-first list is the ordered list: entry by entry, and in each the shards by ascending number.
pub fn newest_first_is_in_order<A>()
    ensures { NewestFirstIsInOrder A }
{}

/// An append to a shard changes no location of an ordered record.
pub fn appends_keep_the_order<A>()
    ensures { AppendsKeepTheOrder A }
{}

/// Where vectors grow and the shards have what the last one counts, the location of a record's seqnum is the record's,
/// the seqnum of a seqnum's location is this one, and the ordered list has at a seqnum the record at its location.
pub fn locations_tell_seqnums<A>()
    ensures { LocationsTellSeqnums A }
{}

/// The ordered list has as many records as the last vector counts.
pub fn length_is_total<A>()
    ensures { LengthIsTotal A }
{}

/// A further vector keeps each location, and adds just the records between the last counts and its own.
pub fn cuts_keep_locations<A>()
    ensures { CutsKeepLocations A }
{}

/// Locations depend on the numbers of records alone.
pub fn locations_are_of_lengths<A, B>()
    ensures { LocationsAreOfLengths A B }
{}
