//! The rule of the history of a log, and the step that adds to it.
use crate::appended::Appended;
use logbook::{Gain, Plain, Play, Rule};

/// The rule of the history: its word is its length.
pub(crate) struct HistoryRule;

impl Rule<Appended, u64> for HistoryRule {
    ghost use Rattle.std.specs.Prelude.{[]};
    ghost use base.Fml.{ftrue};
    ghost use Rattle.live_log.specs.History.{HeadIsLength};

    ghost holds = { λ cells log. HeadIsLength cells log };

    ghost first = { [] };

    ghost hinted = { λ n log. Unit {0} };

    ghost shows = { λ log. [] };

    ghost keeps = { λ names log. ftrue };

    ghost moves = { λ ask before after answer. Unit {0} };
}

/// Callers gain nothing by a step.
pub(crate) struct NoGain;

impl Gain<Appended, u64> for NoGain {
    ghost use base.Fml.{ftrue};

    ghost after = { λ names about answer. ftrue };
}

/// A step that adds a record.
pub(crate) struct AddRecord;

impl Play<Appended, u64> for AddRecord {
    ghost use Rattle.live_log.specs.History.{Adds};

    ghost then = { Adds };
}

impl Plain<Appended, Appended, u64> for AddRecord {
    ghost use Rattle.std.specs.Prelude.{None};

    ghost ask = { λ item. item };

    ghost state = { λ item. None };
}
