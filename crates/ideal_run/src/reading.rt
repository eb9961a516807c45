//! What a state tells.

ghost use Rattle.std.specs.Prelude.{◌≡◌, ◌||◌, not, nat_lt, map, drop, ℕ, List, option_copied, IfOk};
ghost use Rattle.std.specs.List.{list_any};
ghost use Rattle.boki_model.specs.Maps.{get};
ghost use Rattle.boki_model.specs.Folds.{written_names};
ghost use Rattle.ideal_run.specs.Kept.{object_in, name_in, commit_of, is_dirty, may_commit};

use crate::kept::KnownInvocation;
use crate::state::State;
use lb_base::{List, Memory, Path, Value, Words};

impl State {
    /// A known invocation.
    pub(crate) fn known(&self, path: Path) -> Option<&KnownInvocation>
        ensures { option_copied result ≡ get path self.now.invocations.entries }
    {
        self.invocations.get(&path)
    }

    /// The value of an object, or nothing where there is none.
    pub(crate) fn object(&self, key: &Words) -> Result<Value, Memory>
        ensures { IfOk result (λ v. v ≡ object_in self.now.objects.entries key.now) }
    {
        match self.objects.get(key) {
            Some(value) => Ok(value.clone()?),
            None => Ok(Value::Nothing),
        }
    }

    /// The values of objects, nothing where there is none.
    pub(crate) fn values(&self, keys: &[Words]) -> Result<List<Value>, Memory>
        ensures { IfOk result (λ vs. vs ≡ map (object_in self.now.objects.entries) keys.now) }
    {
        let mut values = List::new(self.alloc);
        'keys: for key in keys {
            values.push(self.object(key)?)?;
        }
        Ok(values)
    }

    /// The value of a store name, or nothing where there is none.
    fn stored(&self, name: &Words) -> Result<Value, Memory>
        ensures { IfOk result (λ v. v ≡ name_in self.now.names.entries name.now) }
    {
        match self.names.get(name) {
            Some(stored) => Ok(stored.value.clone()?),
            None => Ok(Value::Nothing),
        }
    }

    /// The values of store names, nothing where there is none.
    pub(crate) fn stored_values(&self, names: &[Words]) -> Result<List<Value>, Memory>
        ensures { IfOk result (λ vs. vs ≡ map (name_in self.now.names.entries) names.now) }
    {
        let mut values = List::new(self.alloc);
        'names: for name in names {
            values.push(self.stored(name)?)?;
        }
        Ok(values)
    }

    /// Whether a commit behind the begin wrote a store name.
    fn is_dirty(&self, begun: u64, name: &Words) -> bool
        ensures { result ≡ is_dirty begun self.now.names.entries name.now }
    {
        match self.names.get(name) {
            Some(stored) => begun < stored.commit,
            None => false,
        }
    }

    /// Whether a commit behind the begin wrote one of the names.
    fn any_is_dirty(&self, begun: u64, names: &[Words]) -> bool
        ensures { result ≡ list_any (is_dirty begun self.now.names.entries) names.now }
    {
        'names: for name in names {
            if self.is_dirty(begun, name) {
                return true;
            }
        }
        false
    }

    /// Whether a commit behind the begin wrote one of the names that are written.
    fn any_write_is_dirty(&self, begun: u64, writes: &[(Words, Value)]) -> bool
        ensures { result ≡ list_any (is_dirty begun self.now.names.entries) (written_names writes.now) }
    {
        'writes: for write in writes {
            if self.is_dirty(begun, &write.0) {
                return true;
            }
        }
        false
    }

    /// Whether a commit succeeds: its transaction is open, and no commit behind its begin wrote a name that it read or writes.
    pub(crate) fn may_commit(
        &self,
        begun: Option<u64>,
        names: &[Words],
        writes: &[(Words, Value)],
    ) -> bool
        ensures { result ≡ may_commit begun names.now writes.now self.now.names.entries }
    {
        match begun {
            Some(begun) => {
                !self.any_is_dirty(begun, names) && !self.any_write_is_dirty(begun, writes)
            }
            None => false,
        }
    }
}
