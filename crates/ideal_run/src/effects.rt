//! What operations do to a state. Each effect is noted in the log, so that it can be undone without memory.

ghost use Rattle.std.specs.Prelude.{◌≡◌, ◌++◌, ◌∷◌, [], ◌+◌, ◌<◌, ℕ, List, OnOk, OnErr, IfOk, Option, Some, None, vec_len, vec_capacity, suc};
ghost use Rattle.boki_model.specs.Maps.{put, get};
ghost use Rattle.ideal_run.specs.Kept.{maps_of, queue_in, push_value, pop_front, front_value, may_commit, committed};
ghost use Rattle.ideal_run.specs.Changes.{maps_before};

use crate::kept::{Change, KnownInvocation, Queue, Stored};
use crate::state::State;
use lb_base::{List, Memory, Path, Value, Words};

impl State {
    /// Puts a value of an object in.
    pub(crate) fn put_object(&mut self, key: &Words, value: &Value) -> Result<(), Memory>
        ensures ok { OnOk result (maps_of self.new
            ≡ record (maps_of self.old) { objects = put key.now value.now self.old.objects.entries }) }
        ensures undo { maps_before self.new ≡ maps_before self.old }
    {
        let value = value.clone()?;
        let noted = key.clone()?;
        self.log.reserve(1)?;
        let old = self.objects.insert(key.clone()?, value)?;
        self.log.push_reserved(Change::Object(noted, old));
        Ok(())
    }

    /// Puts a value of a store name in, as that of the commit of this number.
    pub(crate) fn put_name(
        &mut self,
        name: &Words,
        value: &Value,
        commit: u64,
    ) -> Result<(), Memory>
        ensures ok { OnOk result (maps_of self.new
            ≡ record (maps_of self.old) {
              names = put name.now (record { value = value.now; commit = commit }) self.old.names.entries;
            }) }
        ensures undo { maps_before self.new ≡ maps_before self.old }
    {
        let value = value.clone()?;
        let noted = name.clone()?;
        self.log.reserve(1)?;
        let old = self.names.insert(name.clone()?, Stored { value, commit })?;
        self.log.push_reserved(Change::Name(noted, old));
        Ok(())
    }

    /// Counts a commit that succeeds.
    pub(crate) fn count_commit(&mut self) -> Result<(), Memory>
        ensures ok { OnOk result (maps_of self.new
            ≡ record (maps_of self.old) { commits = suc self.old.commits }) }
        ensures undo { maps_before self.new ≡ maps_before self.old }
    {
        let commits = self.commits.checked_add(1).ok_or(Memory)?;
        self.log.push(Change::Commits(self.commits))?;
        self.commits = commits;
        Ok(())
    }

    /// Makes an invocation known.
    pub(crate) fn add(&mut self, path: Path, known: KnownInvocation) -> Result<(), Memory>
        ensures ok { OnOk result (maps_of self.new
            ≡ record (maps_of self.old) { invocations = put path known self.old.invocations.entries }) }
        ensures undo { maps_before self.new ≡ maps_before self.old }
    {
        if self.log.reserve(1).is_err() {
            drop(known);
            return Err(Memory);
        }
        let old = self.invocations.insert(path, known)?;
        self.log.push_reserved(Change::Child(path, old));
        Ok(())
    }

    /// Makes a queue known that isn't.
    fn open(&mut self, name: Words, values: List<Value>) -> Result<(), Memory>
        requires { get name self.old.queues.entries ≡ None }
        ensures ok { OnOk result (maps_of self.new
            ≡ record (maps_of self.old) {
              queues = put name (record { values = values; front = 0 }) self.old.queues.entries;
            }) }
        ensures undo { maps_before self.new ≡ maps_before self.old }
    {
        let noted = name.clone()?;
        self.log.reserve(1)?;
        let queue = Queue { values, front: 0 };
        self.queues.insert(name, queue)?;
        self.log.push_reserved(Change::Opened(noted));
        Ok(())
    }

    /// Puts a value at the end of a queue, which becomes known.
    pub(crate) fn push(&mut self, name: &Words, value: &Value) -> Result<(), Memory>
        ensures ok { OnOk result (maps_of self.new
            ≡ record (maps_of self.old) {
              queues = put name.now (push_value (queue_in name.now self.old.queues.entries) value.now)
                  self.old.queues.entries;
            }) }
        ensures undo { maps_before self.new ≡ maps_before self.old }
    {
        let value = value.clone()?;
        let noted = name.clone()?;
        self.log.reserve(1)?;
        match self.queues.get_mut(name) {
            Some(queue) => {
                queue.values.push(value)?;
                self.log.push_reserved(Change::Pushed(noted));
                Ok(())
            }
            None => {
                let mut values = List::new(self.alloc);
                values.push(value)?;
                self.open(noted, values)
            }
        }
    }

    /// Takes the front of a queue, which becomes known, and answers it, or nothing where there is none.
    pub(crate) fn pop(&mut self, name: &Words) -> Result<Value, Memory>
        ensures value { IfOk result (λ v. v ≡ front_value (queue_in name.now self.old.queues.entries)) }
        ensures ok { OnOk result (maps_of self.new
            ≡ record (maps_of self.old) {
              queues = put name.now (pop_front (queue_in name.now self.old.queues.entries))
                  self.old.queues.entries;
            }) }
        ensures undo { maps_before self.new ≡ maps_before self.old }
    {
        let noted = name.clone()?;
        self.log.reserve(1)?;
        match self.queues.get_mut(name) {
            Some(queue) => {
                if queue.front >= queue.values.len() {
                    return Ok(Value::Nothing);
                }
                let value = queue.values.as_slice()[queue.front].clone()?;
                queue.front += 1;
                self.log.push_reserved(Change::Popped(noted));
                Ok(value)
            }
            None => {
                self.open(noted, List::new(self.alloc))?;
                Ok(Value::Nothing)
            }
        }
    }

    /// Commits a transaction where it succeeds, and tells whether it did.
    pub(crate) fn commit(
        &mut self,
        begun: Option<u64>,
        names: &[Words],
        writes: &[(Words, Value)],
    ) -> Result<bool, Memory>
        ensures succeeds { IfOk result (λ good.
            good ≡ may_commit begun names.now writes.now self.old.names.entries) }
        ensures ok { IfOk result (λ good. maps_of self.new ≡ committed good writes.now (maps_of self.old)) }
        ensures undo { maps_before self.new ≡ maps_before self.old }
    {
        if !self.may_commit(begun, names, writes) {
            return Ok(false);
        }
        self.count_commit()?;
        let commit = self.commits;
        'writes: for write in writes {
            self.put_name(&write.0, &write.1, commit)?;
        }
        Ok(true)
    }
}
