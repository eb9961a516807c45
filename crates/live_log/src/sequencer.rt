//! What the lock guards: the writer, and the ledgers of all appends.
ghost use Rattle.std.specs.Prelude.{◌≡◌, ◌+◌, ◌<◌, ◌≤◌, ◌++◌, ◌∷◌, [], length, ℕ, vec_len, vec_capacity, IfOk, OnErr};
ghost use mathlib.Core.List.{IsPrefix};
ghost use Rattle.live_log.specs.Engines.{records_in};
ghost use Rattle.live_log.specs.AppendCounts.{number_of, count_of, parts_of, total_at};

use crate::append_counts::{AppendCounts, AppendRight};
use crate::appended::Appended;
use crate::hall::{Hall, Place};
use crate::naming::Naming;
use lb_base::{List, Memory, Record};
use std::marker::Model;
use std::sync::Wait;

/// The indexes in the list of an engine's own appends, from 0, and its right to append.
#[derive(Drop)]
pub(crate) struct OwnAppends<J: Naming> {
    pub indexes: Vec<u64>,
    pub right: AppendRight<J>,
}

/// Puts the appends of all engines in one order. Contracts see it as the published list.
pub(crate) struct Sequencer<J: Naming> {
    hall: Hall,
    counts: AppendCounts<J>,
}

impl<J: Naming> Model for Sequencer<J> {
    ghost use Rattle.std.specs.Prelude.{◌≡◌, ◌≤◌, ℕ, List};
    ghost use Rattle.live_log.specs.Appended.{Appended};
    ghost use Rattle.live_log.specs.AppendCounts.{total_at};
    ghost use Rattle.live_log.specs.Engines.{records_in};
    ghost use Rattle.live_log.specs.Closing.{EachByEngine};

    ghost Value = { List Appended };

    ghost view = { λ d. d.hall.log };

    ghost invariant = { λ d. (d.hall.book ≡ J.book) × ((n : ℕ) → 1 ≤ n → n ≤ 16 → total_at d.counts n ≡ records_in n d.hall.log) × EachByEngine J.engines d.hall.log };
}

impl<J: Naming> Sequencer<J> {
    ghost use Rattle.live_log.specs.Closing.{EachByEngine};

    pub(crate) fn new(hall: Hall, counts: AppendCounts<J>) -> Sequencer<J>
        requires book { hall.book ≡ J.book }
        requires empty { hall.log ≡ [] }
        requires counts { (n : ℕ) → total_at counts n ≡ 0 }
        ensures { result ≡ [] }
    {
        Sequencer { hall, counts }
    }

    /// Publishes a record, and lets the engine learn of it. After `Memory` nothing has changed but what may wait for ever.
    pub(crate) fn append<R: Wait>(
        &mut self,
        rt: &R,
        who: u32,
        place: &mut Place,
        own: &mut OwnAppends<J>,
        rec: Record,
    ) -> Result<u64, Memory>
        requires place { place.old.book ≡ J.book }
        requires room { vec_len own.old.indexes < vec_capacity own.old.indexes }
        requires right { (parts_of own.old.right ≡ 1) × (number_of own.old.right ≡ who) × (who ≤ J.engines) }
        ensures ok { IfOk result (λ n. (self.new ≡ self.old ++ (who, rec) ∷ []) × (n ≡ length self.new) × IsPrefix place.old.known self.old × (place.new ≡ record place.old { known = self.new }) × (own.new.indexes.items ≡ own.old.indexes.items ++ length self.old ∷ []) × (count_of own.new.right ≡ count_of own.old.right + 1)) }
        ensures err { OnErr result ((self.new ≡ self.old) × (own.new ≡ own.old) × (place.new ≡ place.old)) }
        ensures book { place.new.book ≡ place.old.book }
        ensures right { (parts_of own.new.right ≡ 1) × (number_of own.new.right ≡ who) }
    {
        let index = self.hall.len();
        self.hall.publish(rt, (who, rec), place)?;
        self.counts.add(&mut own.right);
        own.indexes.push_reserved(index);
        Ok(self.hall.len())
    }

    /// Lets an engine learn what is published, and answers how much it then knows.
    pub(crate) fn inform(&mut self, place: &mut Place) -> u64
        requires { place.old.book ≡ J.book }
        ensures list { self.new ≡ self.old }
        ensures answer { result ≡ length place.new.known }
        ensures same { place.new ≡ record place.old { known = place.new.known } }
        ensures learned { IsPrefix place.old.known place.new.known × IsPrefix self.old place.new.known }
    {
        place.learn(self.hall.prefix());
        place.known_len()
    }

    /// Waits for the readers, and gives the list with the ledgers.
    pub(crate) fn take<R: Wait>(self, rt: &R) -> (List<Appended>, AppendCounts<J>)
        ensures list { result.0 ≡ self }
        ensures counts { (n : ℕ) → 1 ≤ n → n ≤ 16 → total_at result.1 n ≡ records_in n self }
        ensures by { EachByEngine J.engines self }
    {
        let Sequencer { hall, counts } = self;
        (hall.take(rt), counts)
    }
}
