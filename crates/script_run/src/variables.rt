//! Variables: values by name, in the order of the names' bytes. A variable that isn't there is none.

ghost use Rattle.std.specs.Prelude.{◌≡◌, OnOk, OnErr, IfOk};
ghost use Rattle.boki_model.specs.Maps.{put as put_of};
ghost use Rattle.boki_model.specs.Values.{variable_value};
ghost use Rattle.script_run.specs.VariableIndex.{variable_index};

use lb_base::{Memory, Value, Words};
use std::cmp::Ordering;

/// The value of a variable.
pub(crate) fn look_up(name: &Words, variables: &[(Words, Value)]) -> Result<Value, Memory>
    ensures { IfOk result (λ value. value ≡ variable_value name.now variables.now) }
{
    'names: for (known, value) in variables {
        if name == known {
            return Ok(value.clone()?);
        }
    }
    Ok(Value::Nothing)
}

/// The index of a variable, from 0, or Err with the index at which it is to be put in.
fn index_of(name: &Words, variables: &[(Words, Value)]) -> Result<usize, usize>
    ensures { result ≡ variable_index name.now variables.now }
{
    let mut at = 0;
    'names: for (known, _) in variables {
        match name.cmp(known) {
            Ordering::Less => return Err(at),
            Ordering::Equal => return Ok(at),
            Ordering::Greater => at += 1,
        }
    }
    Err(at)
}

/// Sets a variable. After `Memory` the variables are as before.
pub(crate) fn put(
    variables: &mut Vec<(Words, Value)>,
    name: &Words,
    value: Value,
) -> Result<(), Memory>
    ensures ok { OnOk result (variables.new.items ≡ put_of name.now value variables.old.items) }
    ensures err { OnErr result (variables.new.items ≡ variables.old.items) }
{
    match index_of(name, variables.as_slice()) {
        Ok(at) => {
            variables[at].1 = value;
            Ok(())
        }
        Err(at) => {
            variables.insert(at, (name.clone()?, value))?;
            Ok(())
        }
    }
}
