//! Laws of the log: what an append leaves as it was, and where live records stand.

ghost use Rattle.boki_model.specs.LogLaws.{SeqnumsFall, EarlierReadsStay, PrefixIsSeen, PlacesStay, NewPlaceIsCount, PlacesAreAscending};

/// Seqnums of live records are from 1 to the length of the log, and fall from the newest on.
pub fn seqnums_fall<A>()
    ensures { SeqnumsFall A }
{}

/// An appended record changes no earlier read.
pub fn earlier_reads_stay<A>()
    ensures { EarlierReadsStay A }
{}

/// The live records of a prefix of the log are what is seen up to its length.
pub fn prefix_is_seen<A>()
    ensures { PrefixIsSeen A }
{}

/// What stands at a place of a tag stays there.
pub fn places_stay<A>()
    ensures { PlacesStay A }
{}

/// A new live record of a tag stands behind those that the tag had.
pub fn new_place_is_count<A>()
    ensures { NewPlaceIsCount A }
{}

/// The record at a place of a tag is the one that stands there in the tag's ascending list.
pub fn places_are_ascending<A>()
    ensures { PlacesAreAscending A }
{}
