//! The history of a published list as its writer has it, and prefixes of it that were seen.
ghost use Rattle.std.specs.Prelude.{◌≡◌, ◌+◌, ◌==◌, ◌<◌, ◌≤◌, ◌⊎◌, ◌++◌, ◌∷◌, ◌↔◌, [], length, true, false, IfSome};
ghost use mathlib.Core.List.{IsPrefix};
ghost use Rattle.live_log.specs.History.{head_of, with_record};

use crate::appended::Appended;
use crate::history_rule::{AddRecord, HistoryRule, NoGain};
use logbook::{Offer, Seen, Start, Word};
use std::marker::Model;

/// A prefix of a history that was seen. It lasts, and can be copied.
#[derive(Drop)]
pub(crate) struct SeenPrefix {
    count: u64,
    seen: Seen<Appended, u64, HistoryRule>,
}

impl Model for SeenPrefix {
    ghost use Rattle.std.specs.Prelude.{◌≡◌, length};
    ghost use Rattle.live_log.specs.History.{HistoryPrefix};

    ghost Value = { HistoryPrefix };

    ghost view = { λ f. record { book = f.seen.book; log = f.seen.log } };

    ghost invariant = { λ f. f.count ≡ length f.seen.log };
}

/// A history, by all of it that was added here.
#[derive(Drop)]
pub(crate) struct History {
    // The word that counts the history.
    head: Word<Appended, u64, HistoryRule>,
    prefix: SeenPrefix,
}

impl Model for History {
    ghost use Rattle.std.specs.Prelude.{◌≡◌};
    ghost use Rattle.live_log.specs.History.{HistoryPrefix, head_of};

    ghost Value = { HistoryPrefix };

    ghost view = { λ h. h.prefix };

    ghost invariant = { λ h. h.head ≡ head_of h.prefix.book };
}

impl SeenPrefix {
    /// How many records it has.
    pub(crate) fn len(&self) -> u64
        ensures { result ≡ length self.now.log }
    {
        self.count
    }

    /// A copy.
    pub(crate) fn copy(&self) -> SeenPrefix
        ensures { result ≡ self.now }
    {
        SeenPrefix {
            count: self.count,
            seen: self.seen.again(),
        }
    }

    /// Whether it is no longer than the other: then it is a prefix of the other, and else the other is one of it.
    pub(crate) fn is_prefix_of(&self, other: &SeenPrefix) -> bool
        requires { self.now.book ≡ other.now.book }
        ensures begins { result ≡ true → IsPrefix self.now.log other.now.log }
        ensures begun { result ≡ false → IsPrefix other.now.log self.now.log × (length other.now.log < length self.now.log) }
    {
        let mut both = self.seen.again();
        both.learn(&other.seen);
        self.count <= other.count
    }

    /// Afterwards it has what both had.
    pub(crate) fn learn(&mut self, other: &SeenPrefix)
        requires { self.old.book ≡ other.now.book }
        ensures book { self.new.book ≡ self.old.book }
        ensures longer { IsPrefix self.old.log self.new.log × IsPrefix other.now.log self.new.log }
    {
        if self.is_prefix_of(other) {
            *self = other.copy();
        }
    }

    // With one record more, if the history has no others than these.
    fn extended(
        &self,
        head: &Word<Appended, u64, HistoryRule>,
        item: &Appended,
        met: &SeenPrefix,
    ) -> Option<SeenPrefix>
        requires head { head.now ≡ head_of self.now.book }
        requires met { met.now.book ≡ self.now.book }
        ensures { IfSome result (λ f. (f ≡ with_record self.now item.now) × IsPrefix met.now.log self.now.log) }
    {
        let count = self.count;
        if count == u64::MAX {
            return None;
        }
        let mut seen = self.seen.again();
        seen.learn(&met.seen);
        let mut offer: Offer<Appended, u64, HistoryRule, NoGain> = seen.plain::<
            NoGain,
            Appended,
            AddRecord,
        >(item);
        let mut pen = seen.no_pen();
        let found = head.compare_exchange::<AddRecord, NoGain>(
            count,
            count + 1,
            &mut seen,
            &mut offer,
            &mut pen,
        );
        if found != count {
            return None;
        }
        Some(SeenPrefix {
            count: count + 1,
            seen,
        })
    }
}

impl History {
    /// An empty history. It takes no memory.
    pub(crate) fn new() -> History
        ensures { result.log ≡ [] }
    {
        let (seen, mut first, _second) = Seen::open(Start::alone(), 0, 0);
        History {
            head: Word::tracked(0, &mut first),
            prefix: SeenPrefix { count: 0, seen },
        }
    }

    /// All of it.
    pub(crate) fn prefix(&self) -> &SeenPrefix
        ensures { result.now ≡ self.now }
    {
        &self.prefix
    }

    /// Adds a record, if nothing else was added to the history. Then what anyone has met of it is a prefix of what it was.
    pub(crate) fn add(&mut self, item: &Appended, met: &SeenPrefix) -> bool
        requires { met.now.book ≡ self.old.book }
        ensures added { result ≡ true → (self.new ≡ with_record self.old item.now) × IsPrefix met.now.log self.old.log }
        ensures kept { result ≡ false → self.new ≡ self.old }
    {
        let Some(prefix) = self.prefix.extended(&self.head, item, met) else {
            return false;
        };
        self.prefix = prefix;
        true
    }
}
