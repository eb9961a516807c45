//! Store names, each with its value and the commit that wrote it last.
ghost use Rattle.std.specs.Prelude.{◌≡◌, ◌++◌, ◌∷◌, [], length, map, OnOk, IfOk};
ghost use Rattle.std.specs.List.{list_any};
ghost use Rattle.boki_model.specs.Maps.{put};
ghost use Rattle.boki_model.specs.Folds.{written_names};
ghost use Rattle.boki_txn.specs.Names.{stored_name, put_writes, with_values, value_of, is_dirty as dirty, may_commit as good};

use lb_base::{List, Memory, Value, Words};
use std::alloc::Global;
use std::collections::BTreeMap;
use std::marker::Model;

/// The value of a store name, and the seqnum of the commit that wrote it.
#[derive(Clone, Drop)]
pub(crate) struct StoredName {
    pub(crate) value: Value,
    pub(crate) commit: u64,
}

/// The store names behind a record, each with its value and the seqnum of the commit that wrote it last.
#[derive(Drop)]
pub struct Names {
    map: BTreeMap<Words, StoredName>,
}

impl Model for Names {
    ghost use Rattle.std.specs.Prelude.{ℕ, List};
    ghost use Rattle.boki_txn.specs.declared.stored.StoredName.{StoredName as Entry};

    ghost Value = { List (List ℕ × Entry) };

    ghost view = { λ n. n.map.entries };
}

// Adds a name with its value.
fn push_value(all: &mut List<(Words, Value)>, name: &Words, value: &Value) -> Result<(), Memory>
    ensures { OnOk result (all.new ≡ all.old ++ (name.now, value.now) ∷ []) }
{
    let name = name.clone()?;
    let value = value.clone()?;
    all.push((name, value))
}

impl Names {
    /// No name.
    pub fn new(alloc: Global) -> Names
        ensures { result ≡ [] }
    {
        Names {
            map: BTreeMap::new(alloc),
        }
    }

    /// A copy.
    pub(crate) fn copy(&self) -> Result<Names, Memory>
        ensures { IfOk result (λ names. names ≡ self.now) }
    {
        let map = self.map.clone()?;
        Ok(Names { map })
    }

    /// How many names there are.
    pub(crate) fn len(&self) -> usize
        ensures { result ≡ length self.now }
    {
        self.map.len()
    }

    /// The value of a name, or none.
    pub(crate) fn value(&self, name: &Words) -> Result<Value, Memory>
        ensures { IfOk result (λ value. value ≡ value_of name.now self.now) }
    {
        match self.map.get(name) {
            Some(stored) => {
                let value = stored.value.clone()?;
                Ok(value)
            }
            None => Ok(Value::Nothing),
        }
    }

    /// The values of names, none where there is none.
    pub(crate) fn values(&self, alloc: Global, names: &[Words]) -> Result<List<Value>, Memory>
        ensures { IfOk result (λ values. values ≡ map (λ name. value_of name self.now) names.now) }
    {
        let mut values = List::new(alloc);
        'names: for name in names {
            values.push(self.value(name)?)?;
        }
        Ok(values)
    }

    /// Puts in the value of a name, as that of the commit with a seqnum.
    pub(crate) fn put(&mut self, name: &Words, value: &Value, commit: u64) -> Result<(), Memory>
        ensures { OnOk result (self.new ≡ put name.now (stored_name commit value.now) self.old) }
    {
        let value = value.clone()?;
        self.map
            .insert(name.clone()?, StoredName { value, commit })?;
        Ok(())
    }

    /// Puts in what a commit writes.
    pub fn put_writes(&mut self, writes: &[(Words, Value)], commit: u64) -> Result<(), Memory>
        ensures { OnOk result (self.new ≡ put_writes commit writes.now self.old) }
    {
        'writes: for write in writes {
            self.put(&write.0, &write.1, commit)?;
        }
        Ok(())
    }

    /// The names with their values, in the order of their bytes; or `Memory`.
    pub fn all(&self, alloc: Global) -> Result<List<(Words, Value)>, Memory>
        ensures { IfOk result (λ all. all ≡ with_values self.now) }
    {
        let mut all = List::new(alloc);
        for (name, stored) in self.map.iter() {
            push_value(&mut all, name, &stored.value)?;
        }
        Ok(all)
    }

    // Whether a commit behind the begin wrote a name.
    fn is_dirty(&self, begin: u64, name: &Words) -> bool
        ensures { result ≡ dirty begin self.now name.now }
    {
        match self.map.get(name) {
            Some(stored) => begin < stored.commit,
            None => false,
        }
    }

    // Whether a commit behind the begin wrote one of the names.
    fn any_is_dirty(&self, begin: u64, names: &[Words]) -> bool
        ensures { result ≡ list_any (dirty begin self.now) names.now }
    {
        'names: for name in names {
            if self.is_dirty(begin, name) {
                return true;
            }
        }
        false
    }

    // The same for the names that are written.
    fn any_write_is_dirty(&self, begin: u64, writes: &[(Words, Value)]) -> bool
        ensures { result ≡ list_any (dirty begin self.now) (written_names writes.now) }
    {
        'writes: for write in writes {
            if self.is_dirty(begin, &write.0) {
                return true;
            }
        }
        false
    }

    /// Whether a commit succeeds: no commit behind its begin wrote a name that it read or writes.
    pub fn may_commit(&self, begin: u64, read: &[Words], writes: &[(Words, Value)]) -> bool
        ensures { result ≡ good begin read.now writes.now self.now }
    {
        !self.any_is_dirty(begin, read) && !self.any_write_is_dirty(begin, writes)
    }
}
