ghost use Rattle.std.specs.Prelude.{◌≡◌, ◌≤◌, ◌+◌, Some, [], OnErr, IfOk};
ghost use Rattle.boki_model.specs.Bodies as bodies;
ghost use Rattle.boki_model.specs.Reads.{tagged_seqnums};
ghost use Rattle.boki_machine.specs.Step.{records_below};
ghost use Rattle.book_api.specs.Books.{HasEngine};
ghost use Rattle.step_log.specs.Sound.{Sound, view, live_bodies};
ghost use Rattle.boki_queue.specs.QueueStates.{queue_at, popped_at, AreQueueFolds, IsQueueTold, IsPopTold, unkept_count};

use crate::shared::{Row, Window};
use crate::steps::Steps;
use crate::telling::{told_pop, told_values, uncounted_pop};
use aux_cache::Cache;
use book_api::Book;
use lb_base::{List, Memory, Seqnum, Value, Words};
use std::alloc::Global;
use std::collections::BTreeMap;
use std::marker::{Brand, Model};
use std::sync::ledger::{Blank, Ledger};

/// The states of a cache, at most.
const MOST_STATES: usize = 64;

/// States of queues, each behind a record of its queue: at most 64, the most recently used first, and none of more
/// than 4,096 values.
///
/// What is asked of a cache is answered from the newest state that it keeps below, and from the records above that. The
/// states that it keeps are to be those of the book's ordered list, as those of a new cache or a cleared one are, and
/// those that its calls keep. They may lie beyond what the engine sees. They stay so where newer records are ordered:
/// `queue_folds_stay` says it of lists of records, and no law says it of books.
///
/// The states share their values: the cache holds each value that it has read of a queue's pushes, once, until it is
/// cleared. No clause bounds that.
#[derive(Drop)]
pub struct QueueCache {
    alloc: Global,
    rows: Vec<Row>,
    numbers: BTreeMap<Words, usize>,
    entries: Cache<Window>,
}

impl Model for QueueCache {
    ghost use Rattle.std.specs.Prelude.{List};
    ghost use Rattle.fold_cache.specs.Kept.{KeptState};
    ghost use Rattle.boki_queue.specs.QueueStates.{QueueState};
    ghost use Rattle.boki_queue.specs.Shared.{kept_states, IsSound};

    ghost Value = { List (KeptState QueueState) };

    ghost view = { λ c. kept_states c.rows.items c.entries };

    ghost invariant = { λ c. IsSound c.rows.items c.entries };
}

impl QueueCache {
    /// A cache that keeps no state; or `Memory`.
    pub fn new(alloc: Global) -> Result<QueueCache, Memory>
        ensures { IfOk result (λ cache. cache ≡ []) }
    {
        Ok(QueueCache {
            alloc,
            rows: Vec::new(alloc),
            numbers: BTreeMap::new(alloc),
            entries: Cache::new(alloc, MOST_STATES)?,
        })
    }

    /// Drops each state. It takes no memory.
    pub fn clear(&mut self)
        ensures { self.new ≡ [] }
    {
        self.entries.clear();
        self.numbers.clear();
        self.rows.clear();
    }

    /// What a queue holds behind all its live records at or below a seqnum, the front first. The record with the seqnum is
    /// to be a live push or pop of the queue that the engine sees, in a sound book. The state there is then the one that
    /// was used most recently, if it has at most 4,096 values. After `Memory` the cache is as before.
    pub fn queue_at(
        &mut self,
        book: &Book,
        engine: u32,
        queue: &str,
        seq: Seqnum,
    ) -> Result<List<Value>, Memory>
        requires engine { HasEngine engine book.now }
        requires sound { Sound book.now }
        requires record { queue_at seq.0 (view book.now engine) ≡ Some queue.now }
        requires folds { AreQueueFolds self.old (live_bodies book.now) }
        ensures ok { IfOk result (IsQueueTold queue.now seq.0 (view book.now engine) self.old self.new) }
        ensures err { OnErr result (self.new ≡ self.old) }
        ensures folds { AreQueueFolds self.new (live_bodies book.now) }
    {
        let name = Words::from_text(self.alloc, queue)?;
        told_values::<Brand>(
            self.alloc,
            &mut self.rows,
            &mut self.numbers,
            &mut self.entries,
            book,
            engine,
            &name,
            seq,
            Blank::new(1),
        )
    }

    /// What the pop with a seqnum takes: the queue's front before it, or none. The record is to be a live pop of the queue
    /// that the engine sees, in a sound book. The state behind it is then the one that was used most recently, if it has at
    /// most 4,096 values. After `Memory` the cache is as before.
    ///
    /// A step is counted for each record of the queue's tag over which it goes back to a state that is kept: at most those
    /// above the newest record of the queue below the seqnum behind which a state is kept, or all where there is none. The
    /// same records are then gone over once more, uncounted; how often else records are looked at no clause says.
    pub fn pop_at<L: Ledger>(
        &mut self,
        book: &Book,
        engine: u32,
        queue: &str,
        seq: Seqnum,
        steps: &mut Steps<L>,
    ) -> Result<Value, Memory>
        requires engine { HasEngine engine book.now }
        requires sound { Sound book.now }
        requires record { popped_at seq.0 (view book.now engine) ≡ Some queue.now }
        requires folds { AreQueueFolds self.old (live_bodies book.now) }
        ensures ok { IfOk result (IsPopTold queue.now seq.0 (view book.now engine) self.old self.new) }
        ensures err { OnErr result (self.new ≡ self.old) }
        ensures folds { AreQueueFolds self.new (live_bodies book.now) }
        ensures cost { steps.new ≤ steps.old + unkept_count self.old queue.now
            (tagged_seqnums (bodies.key_tag 6 queue.now) (records_below seq.0 (view book.now engine))) }
    {
        told_pop(
            self.alloc,
            &mut self.rows,
            &mut self.numbers,
            &mut self.entries,
            book,
            engine,
            queue,
            seq,
            steps,
        )
    }

    /// What `pop_at` answers, with no counter of steps.
    pub fn pop_uncounted(
        &mut self,
        book: &Book,
        engine: u32,
        queue: &str,
        seq: Seqnum,
    ) -> Result<Value, Memory>
        requires engine { HasEngine engine book.now }
        requires sound { Sound book.now }
        requires record { popped_at seq.0 (view book.now engine) ≡ Some queue.now }
        requires folds { AreQueueFolds self.old (live_bodies book.now) }
        ensures ok { IfOk result (IsPopTold queue.now seq.0 (view book.now engine) self.old self.new) }
        ensures err { OnErr result (self.new ≡ self.old) }
        ensures folds { AreQueueFolds self.new (live_bodies book.now) }
    {
        let name = Words::from_text(self.alloc, queue)?;
        uncounted_pop::<Brand>(
            self.alloc,
            &mut self.rows,
            &mut self.numbers,
            &mut self.entries,
            book,
            engine,
            &name,
            seq,
            Blank::new(1),
        )
    }
}
