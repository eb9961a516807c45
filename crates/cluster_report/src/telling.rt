//! Results, queues and store names, as they are reported.
ghost use Rattle.std.specs.Prelude.{◌≡◌, ◌++◌, ◌∷◌, [], OnOk, IfOk};
ghost use Rattle.boki_txn.specs.Names.{with_values};

use crate::folds::Folds;
use crate::queue::Queue;
use lb_base::{List, Memory, Outcome, Path, Value, Words};
use std::alloc::Global;

impl Folds {
    /// The results, in the order of paths.
    pub(crate) fn all_results(&self) -> Result<List<(Path, Outcome)>, Memory>
        ensures { IfOk result (λ all. all ≡ self.now.results.entries) }
    {
        let mut all = List::new(self.alloc);
        for (path, outcome) in self.results.iter() {
            push_result(&mut all, *path, outcome)?;
        }
        Ok(all)
    }

    /// The queues, in the order of their names.
    pub(crate) fn all_queues(&self) -> Result<List<(Words, List<Value>)>, Memory>
        ensures { IfOk result (λ all. all ≡ self.now.queues.entries) }
    {
        let mut all = List::new(self.alloc);
        for (name, queue) in self.queues.iter() {
            push_queue(self.alloc, &mut all, name, queue)?;
        }
        Ok(all)
    }

    /// The store names, in their order.
    pub(crate) fn all_stores(&self) -> Result<List<(Words, Value)>, Memory>
        ensures { IfOk result (λ all. all ≡ with_values self.now.names) }
    {
        self.names.all(self.alloc)
    }
}

fn push_result(all: &mut List<(Path, Outcome)>, path: Path, outcome: &Outcome) -> Result<(), Memory>
    ensures { OnOk result (all.new ≡ all.old ++ (path, outcome.now) ∷ []) }
{
    let outcome = outcome.clone()?;
    all.push((path, outcome))
}

fn push_queue(
    alloc: Global,
    all: &mut List<(Words, List<Value>)>,
    name: &Words,
    queue: &Queue,
) -> Result<(), Memory>
    ensures { OnOk result (all.new ≡ all.old ++ (name.now, queue.now) ∷ []) }
{
    let name = name.clone()?;
    let values = queue.copied(alloc)?;
    all.push((name, values))
}
