//! What a report tells of a state, and the state in which a plan opens.

ghost use Rattle.std.specs.Prelude.{◌≡◌, ◌++◌, ◌∷◌, [], ℕ, List, IfOk, OnOk};
ghost use Rattle.boki_model.specs.Maps.{put};
ghost use Rattle.boki_model.specs.MapLaws.{InOrder};
ghost use Rattle.boki_machine.specs.Ideal as ideal;
ghost use Rattle.boki_machine.specs.Reports.{add_outcome};
ghost use Rattle.ideal_run.specs.Kept.{Maps, empty, maps_of, unpopped_values};
ghost use Rattle.ideal_run.specs.Standing.{map_values};
ghost use Rattle.ideal_run.specs.Judged.{results_in};

use crate::kept::{KnownInvocation, Queue};
use crate::state::State;
use lb_base::{List, Memory, Outcome, Path, Value, Words};
use std::alloc::Global;

/// Adds a name and its value.
fn add_value(values: &mut List<(Words, Value)>, name: &Words, value: &Value) -> Result<(), Memory>
    ensures { OnOk result (values.new ≡ values.old ++ (name.now, value.now) ∷ []) }
{
    let name = name.clone()?;
    let value = value.clone()?;
    values.push((name, value))
}

/// The values of a queue that weren't popped.
fn left_in(alloc: Global, queue: &Queue) -> Result<List<Value>, Memory>
    ensures { IfOk result (λ vs. vs ≡ unpopped_values queue.now) }
{
    let mut left = List::new(alloc);
    let values = queue.values.as_slice();
    let front = queue.front.min(values.len());
    'values: for value in &values[front..] {
        left.push(value.clone()?)?;
    }
    Ok(left)
}

/// Adds a path and the result of its invocation, where it has one.
fn add_result(
    results: &mut List<(Path, Outcome)>,
    path: Path,
    known: &KnownInvocation,
) -> Result<(), Memory>
    ensures { OnOk result (results.new ≡ results.old ++ add_outcome path known.now.result []) }
{
    if let Some(outcome) = &known.result {
        results.push((path, outcome.clone()?))?;
    }
    Ok(())
}

impl State {
    /// Puts an object in with which a plan opens.
    fn open_object(&mut self, key: &Words, value: &Value) -> Result<(), Memory>
        ensures { OnOk result (maps_of self.new
            ≡ record (maps_of self.old) { objects = put key.now value.now self.old.objects.entries }) }
    {
        let value = value.clone()?;
        self.objects.insert(key.clone()?, value)?;
        Ok(())
    }

    /// The state with these objects, and nothing else; of two with one key the first counts.
    pub(crate) fn opening(alloc: Global, objects: &[(Words, Value)]) -> Result<State, Memory>
        ensures { IfOk result (λ s. maps_of s ≡ record empty { objects = ideal.put_objects objects.now }) }
    {
        let mut state = State::new(alloc);
        for index in (0..objects.len()).rev() {
            let object = &objects[index];
            state.open_object(&object.0, &object.1)?;
        }
        Ok(state)
    }

    /// The objects, in the order of their names.
    pub(crate) fn all_objects(&self) -> Result<List<(Words, Value)>, Memory>
        ensures { IfOk result (λ xs. xs ≡ self.now.objects.entries) }
    {
        let mut objects = List::new(self.alloc);
        for (name, value) in self.objects.iter() {
            add_value(&mut objects, name, value)?;
        }
        Ok(objects)
    }

    /// The store names with their values, in the order of the names.
    pub(crate) fn all_stored(&self) -> Result<List<(Words, Value)>, Memory>
        ensures { IfOk result (λ xs. xs ≡ map_values (λ s. s.value) self.now.names.entries) }
    {
        let mut stores = List::new(self.alloc);
        for (name, stored) in self.names.iter() {
            add_value(&mut stores, name, &stored.value)?;
        }
        Ok(stores)
    }

    /// The queues with the values that weren't popped, in the order of their names.
    pub(crate) fn all_queues(&self) -> Result<List<(Words, List<Value>)>, Memory>
        ensures { IfOk result (λ xs. xs ≡ map_values unpopped_values self.now.queues.entries) }
    {
        let mut queues = List::new(self.alloc);
        for (name, queue) in self.queues.iter() {
            let values = left_in(self.alloc, queue)?;
            queues.push((name.clone()?, values))?;
        }
        Ok(queues)
    }

    /// The results of the invocations that have ended, in the order of their paths.
    pub(crate) fn results(&self) -> Result<List<(Path, Outcome)>, Memory>
        ensures results { IfOk result (λ xs. xs ≡ results_in self.now.invocations.entries) }
        ensures order { InOrder self.now.invocations.entries }
    {
        let mut results = List::new(self.alloc);
        for (path, known) in self.invocations.iter() {
            add_result(&mut results, *path, known)?;
        }
        Ok(results)
    }
}
