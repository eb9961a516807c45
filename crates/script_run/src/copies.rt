//! Copies that are told to be the same value.

ghost use Rattle.std.specs.Prelude.{◌≡◌, IfOk};
ghost use Rattle.script_run.specs.Standing.{local_state_of};

use crate::state::{Block, State};
use boki_types::{Ask, Op};
use lb_base::{List, Memory, Outcome, Value, Words};
use std::alloc::{AllocError, Global};

/// Copies of values.
fn copy_values(list: &List<Value>) -> Result<List<Value>, AllocError>
    ensures { IfOk result (λ copy. copy ≡ list.now) }
{
    list.clone()
}

/// Copies of names.
pub(crate) fn copy_names(list: &List<Words>) -> Result<List<Words>, AllocError>
    ensures { IfOk result (λ copy. copy ≡ list.now) }
{
    list.clone()
}

/// Copies of names with values.
fn copy_writes(list: &List<(Words, Value)>) -> Result<List<(Words, Value)>, AllocError>
    ensures { IfOk result (λ copy. copy ≡ list.now) }
{
    list.clone()
}

/// A copy of a variable.
fn copy_variable(variable: &(Words, Value)) -> Result<(Words, Value), Memory>
    ensures { IfOk result (λ copy. copy ≡ variable.now) }
{
    let name = variable.0.clone()?;
    Ok((name, variable.1.clone()?))
}

/// Copies of variables.
fn copy_variables(
    alloc: Global,
    variables: &[(Words, Value)],
) -> Result<Vec<(Words, Value)>, Memory>
    ensures { IfOk result (λ copy. copy.items ≡ variables.now) }
{
    let mut copies = Vec::new(alloc);
    'variables: for variable in variables {
        copies.push(copy_variable(variable)?)?;
    }
    Ok(copies)
}

/// Copies of open blocks.
fn copy_blocks(alloc: Global, blocks: &[Block]) -> Result<Vec<Block>, Memory>
    ensures { IfOk result (λ copy. copy.items ≡ blocks.now) }
{
    Ok(Vec::from_slice(alloc, blocks)?)
}

/// A copy of the names of an open transaction.
fn copy_transaction(names: &Option<List<Words>>) -> Result<Option<List<Words>>, Memory>
    ensures { IfOk result (λ copy. copy ≡ names.now) }
{
    match names {
        Some(names) => Ok(Some(copy_names(names)?)),
        None => Ok(None),
    }
}

/// A copy of what a script has made.
pub(crate) fn copy_state(alloc: Global, state: &State) -> Result<State, Memory>
    ensures { IfOk result (λ copy. local_state_of copy ≡ local_state_of state.now) }
{
    Ok(State {
        variables: copy_variables(alloc, state.variables.as_slice())?,
        blocks: copy_blocks(alloc, state.blocks.as_slice())?,
        spawned: state.spawned,
        transaction: copy_transaction(&state.transaction)?,
    })
}

/// A copy of an operation.
pub(crate) fn copy_operation(operation: &Op) -> Result<Op, Memory>
    ensures { IfOk result (λ copy. copy ≡ operation.now) }
{
    match operation {
        Op::Read { key } => Ok(Op::Read { key: key.clone()? }),
        Op::Write { key, value } => {
            let key = key.clone()?;
            let value = value.clone()?;
            Ok(Op::Write { key, value })
        }
        Op::Spawn {
            ordinal,
            function,
            args,
        } => Ok(Op::Spawn {
            ordinal: *ordinal,
            function: *function,
            args: copy_values(args)?,
        }),
        Op::Join { ordinal } => Ok(Op::Join { ordinal: *ordinal }),
        Op::Push { queue, value } => {
            let queue = queue.clone()?;
            let value = value.clone()?;
            Ok(Op::Push { queue, value })
        }
        Op::Pop { queue } => Ok(Op::Pop {
            queue: queue.clone()?,
        }),
        Op::Begin { names } => Ok(Op::Begin {
            names: copy_names(names)?,
        }),
        Op::Commit { names, writes } => {
            let names = copy_names(names)?;
            let writes = copy_writes(writes)?;
            Ok(Op::Commit { names, writes })
        }
        Op::ReadGroup { keys } => Ok(Op::ReadGroup {
            keys: copy_names(keys)?,
        }),
    }
}

/// A copy of what is asked.
pub(crate) fn copy_ask(ask: &Ask) -> Result<Ask, Memory>
    ensures { IfOk result (λ copy. copy ≡ ask.now) }
{
    match ask {
        Ask::Op(operation) => Ok(Ask::Op(copy_operation(operation)?)),
        Ask::Done(Outcome::Good(value)) => Ok(Ask::Done(Outcome::Good(value.clone()?))),
        Ask::Done(Outcome::Trap(kind)) => Ok(Ask::Done(Outcome::Trap(*kind))),
    }
}
