//! The value of each object at the end.
ghost use Rattle.std.specs.Prelude.{◌≡◌, ◌++◌, [], suc, List, Some, OnOk, IfOk};
ghost use Rattle.std.specs.Option.{option_copied};
ghost use Rattle.boki_types.specs.declared.body.Body.{Body};
ghost use Rattle.boki_model.specs.Live.{Live};
ghost use Rattle.boki_model.specs.Writes.{Store, last_value_below};
ghost use Rattle.boki_machine.specs.Reports.{add_value};
ghost use Rattle.cluster_report.specs.Told.{IsLast, AreLast, CanTell, values_upto};

use crate::folds::Folds;
use hm_read::{LastWrite, logged_of};
use lb_base::{List, Memory, Seqnum, Value, Words};
use obj_store::{ObjStore, Read};
use std::alloc::Global;

impl Folds {
    /// The known objects that have a value, each with that of its last write up to a seqnum, in the order of keys.
    pub(crate) fn objects(
        &self,
        store: &ObjStore,
        last: Seqnum,
    ) -> Result<List<(Words, Value)>, Memory>
        ensures { IfOk result (λ values. (m : Store) (records : List (Live Body)) → CanTell last.0 store.now m records
            → AreLast last.0 records self.now.writes.entries
            → values ≡ values_upto last.0 m records self.now.writes.entries) }
    {
        let mut values = List::new(self.alloc);
        for (key, write) in self.writes.iter() {
            add_object(&mut values, store, key, write.as_ref(), last)?;
        }
        Ok(values)
    }
}

// Adds an object with its value, where it has one.
fn add_object(
    values: &mut List<(Words, Value)>,
    store: &ObjStore,
    key: &Words,
    write: Option<&LastWrite>,
    last: Seqnum,
) -> Result<(), Memory>
    ensures { OnOk result ((m : Store) (records : List (Live Body)) → CanTell last.0 store.now m records
        → IsLast last.0 records key.now (option_copied write.entry)
        → values.new ≡ values.old ++ add_value key.now (last_value_below key.now (suc last.0) 0 m records) []) }
{
    let logged = logged_of(write);
    match store.read_free(key.as_str(), last, logged.as_ref()) {
        Read::Found(value) => push(values, key, value),
        Read::Missing | Read::Gone => Ok(()),
    }
}

fn push(values: &mut List<(Words, Value)>, key: &Words, value: &Value) -> Result<(), Memory>
    ensures { OnOk result (values.new ≡ values.old ++ add_value key.now (Some value.now) []) }
{
    let key = key.clone()?;
    let value = value.clone()?;
    values.push((key, value))
}
