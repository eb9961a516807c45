//! The changes of a state. Each is noted in the log first, so that it can be undone without memory.

ghost use Rattle.std.specs.Prelude.{◌≡◌, ◌++◌, ◌∷◌, [], ◌+◌, List, ℕ, OnOk, OnErr, IfOk, IsTrue, Option, Some, None};
ghost use Rattle.std.specs.BTreeMap.{is_at};
ghost use Rattle.boki_model.specs.Maps.{key_order};
ghost use Rattle.ideal_run.specs.Kept.{maps_of};
ghost use Rattle.ideal_run.specs.Changes.{maps_before, undone, reverted, restored, changed_at, but_last, unpushed, unpopped};

use crate::kept::{Change, KnownInvocation, Queue, Stored};
use crate::state::State;
use lb_base::{List, Memory, Path, Value, Words};
use std::alloc::Global;
use std::collections::BTreeMap;
use std::mem;

/// Gives a key its old value back, or takes it out where it had none.
pub(crate) fn restore<K: Ord + Drop, V: Drop>(map: &mut BTreeMap<K, V>, key: &K, old: Option<V>)
    ensures { map.new.entries ≡ restored (is_at (K.cmp key.now)) old map.old.entries }
{
    match old {
        Some(value) => {
            if let Some(slot) = map.get_mut(key) {
                *slot = value;
            }
        }
        None => {
            map.remove(key);
        }
    }
}

/// Gives back the room that a list has no use for.
fn shrink(alloc: Global, list: &mut List<Value>)
    ensures { list.new ≡ list.old }
{
    let mut items = mem::replace(list, List::new(alloc)).into_vec();
    items.shrink_to_fit();
    *list = List::from_vec(items);
}

/// Takes the last value of a list off, and gives back the room that it no longer needs.
fn drop_last(alloc: Global, list: &mut List<Value>)
    ensures { list.new ≡ but_last list.old }
{
    list.pop();
    // At powers of two alone, so that this costs no more than the values that are taken off.
    if list.len().is_power_of_two() {
        shrink(alloc, list);
    }
}

/// Takes the last value of a queue off, where it is known.
fn unpush(alloc: Global, queues: &mut BTreeMap<Words, Queue>, name: &Words)
    ensures { queues.new.entries ≡ changed_at (is_at (key_order name.now)) unpushed queues.old.entries }
{
    if let Some(queue) = queues.get_mut(name) {
        drop_last(alloc, &mut queue.values);
    }
}

/// Puts the value back that was popped last, where the queue is known.
fn unpop(queues: &mut BTreeMap<Words, Queue>, name: &Words)
    ensures { queues.new.entries ≡ changed_at (is_at (key_order name.now)) unpopped queues.old.entries }
{
    if let Some(queue) = queues.get_mut(name) {
        queue.front = queue.front.saturating_sub(1);
    }
}

impl State {
    /// Undoes a change.
    fn revert(&mut self, change: Change)
        ensures maps { maps_of self.new ≡ reverted change (maps_of self.old) }
        ensures log { self.new.log.items ≡ self.old.log.items }
    {
        match change {
            Change::Object(key, old) => restore(&mut self.objects, &key, old),
            Change::Opened(name) => {
                self.queues.remove(&name);
            }
            Change::Pushed(name) => unpush(self.alloc, &mut self.queues, &name),
            Change::Popped(name) => unpop(&mut self.queues, &name),
            Change::Name(name, old) => restore(&mut self.names, &name, old),
            Change::Commits(commits) => self.commits = commits,
            Change::Child(path, old) => restore(&mut self.invocations, &path, old),
        }
    }

    /// Undoes all changes of the log, and gives back the room that they took.
    pub(crate) fn undo(&mut self)
        ensures maps { maps_of self.new ≡ maps_before self.old }
    {
        while let Some(change) = self.log.pop() {
            self.revert(change);
        }
        self.log.shrink_to_fit();
    }

    /// Keeps all changes of the log.
    pub(crate) fn keep(&mut self)
        ensures maps { maps_of self.new ≡ maps_of self.old }
        ensures undo { maps_before self.new ≡ maps_of self.old }
    {
        self.log.clear();
    }
}
