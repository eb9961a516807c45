//! The values of a queue.
ghost use Rattle.std.specs.Prelude.{◌≡◌, ◌++◌, ◌∷◌, [], drop as drop_list, OnOk, IfOk};

use lb_base::{List, Memory, Value};
use std::alloc::Global;
use std::collections::VecDeque;
use std::marker::Model;

/// The values of a queue, its front first, which contracts see as their list.
#[derive(Drop)]
pub(crate) struct Queue {
    values: VecDeque<Value>,
}

impl Model for Queue {
    ghost use Rattle.std.specs.Prelude.{List};
    ghost use Rattle.lb_base.specs.declared.value.Value.{Value as Element};

    ghost Value = { List Element };

    ghost view = { λ q. q.values.items };
}

impl Queue {
    /// An empty queue.
    pub(crate) fn new(alloc: Global) -> Queue
        ensures { result ≡ [] }
    {
        Queue {
            values: VecDeque::new(alloc),
        }
    }

    /// A value at its end.
    pub(crate) fn push(&mut self, value: Value) -> Result<(), Memory>
        ensures { OnOk result (self.new ≡ self.old ++ value ∷ []) }
    {
        self.values.push_back(value)?;
        Ok(())
    }

    /// Its front is taken, where it has one.
    pub(crate) fn pop(&mut self)
        ensures { self.new ≡ drop_list 1 self.old }
    {
        self.values.pop_front();
    }

    /// A copy of its values.
    pub(crate) fn copied(&self, alloc: Global) -> Result<List<Value>, Memory>
        ensures { IfOk result (λ values. values ≡ self.now) }
    {
        let mut copies = List::new(alloc);
        for value in self.values.iter() {
            copies.push(value.clone()?)?;
        }
        Ok(copies)
    }
}
