//! The rule over the published list: it is a prefix of one history, and begins with what each has seen.
ghost use Rattle.std.specs.Prelude.{None};
ghost use Rattle.live_log.specs.ListRule.{ListRuleHolds, SeesState, joined_view};

use crate::history::SeenPrefix;
use crate::published_list::PublishedList;
use atomic_table::{Join, Split};
use crossbeam_utils::rule::{Outcome, Protocol};

/// What a reader or the writer knows: the prefix of the history that was seen last. No value of it is made.
pub(crate) type LastSeen = Option<SeenPrefix>;

/// The rule over the published list.
pub(crate) struct ListRule;

impl Protocol<PublishedList, LastSeen> for ListRule {
    ghost holds = { ListRuleHolds };

    ghost first = { None };
}

/// An access to the list, by a reader that takes it or by the writer that publishes it.
pub(crate) struct ListAccess;

impl Outcome<PublishedList, LastSeen> for ListAccess {
    ghost then = { SeesState };
}

/// A new reader takes in from the writer which history it is.
pub(crate) struct NewReader;

impl Split<LastSeen> for NewReader {
    ghost left = { λ v. v };

    ghost right = { λ v. v };
}

impl Join<LastSeen> for NewReader {
    ghost both = { joined_view };

    ghost spent = { None };
}
