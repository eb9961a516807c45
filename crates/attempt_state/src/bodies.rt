//! The records that are sent for what a script asks.
ghost use Rattle.std.specs.Prelude.{◌≡◌, ◌+◌, ◌<◌, ◌^◌, suc, length, IfOk, option_map};
ghost use Rattle.std.specs.Option.{option_copied};
ghost use Rattle.boki_types.specs.declared.body.Body.TheVariants as b;
ghost use Rattle.boki_types.specs.declared.operation.Ask.TheVariants as k;
ghost use Rattle.boki_machine.specs.Step.{function_name};
ghost use Rattle.script_ranges.specs.Sends.{body_of_ask};
ghost use Rattle.attempt_state.specs.Progresses.{begin_of};

use crate::copies::{copy_names, copy_optional, copy_outcome, copy_values, copy_writes};
use crate::progress::Progress;
use boki_types::{Ask, Body, Function, Op, Program};
use lb_base::{List, Memory, Outcome, Value, Words};
use std::alloc::Global;

/// The body of the record that an attempt sends for what its script asks. Of a write it has the value that is to stand in the
/// record, if any. The index of the attempt's next operation is to have 64 bits.
pub fn body_of(
    alloc: Global,
    program: &Program,
    at: &Progress,
    ask: &Ask,
    here: Option<&Value>,
) -> Result<Body, Memory>
    requires { at.now.answered + 1 < 2 ^ 64 }
    ensures { IfOk result (λ body. body ≡ body_of_ask program.now.functions at.now.path (suc at.now.answered) at.now.place (option_copied here.entry) (begin_of at.now.transaction) ask.now) }
{
    match ask {
        Ask::Op(Op::Read { key }) => read(at, key),
        Ask::Op(Op::ReadGroup { keys }) => read_group(at, keys),
        Ask::Op(Op::Write { key, .. }) => write(at, key, here),
        Ask::Op(
            Op::Spawn {
                ordinal,
                function,
                args,
            },
        ) => spawn(alloc, program, at, *ordinal, *function, args),
        Ask::Op(Op::Join { ordinal }) => Ok(Body::Join {
            path: at.path,
            index: at.index(),
            ordinal: *ordinal as u64,
        }),
        Ask::Op(Op::Push { queue, value }) => push(at, queue, value),
        Ask::Op(Op::Pop { queue }) => pop(at, queue),
        Ask::Op(Op::Begin { names }) => begin(at, names),
        Ask::Op(Op::Commit { names, writes }) => commit(at, names, writes),
        Ask::Done(outcome) => finish(at, outcome),
    }
}

fn read(at: &Progress, key: &Words) -> Result<Body, Memory>
    requires { at.now.answered + 1 < 2 ^ 64 }
    ensures { IfOk result (λ body. body ≡ b.Read at.now.path (suc at.now.answered) key.now) }
{
    let key = key.clone()?;
    Ok(Body::Read {
        path: at.path,
        index: at.index(),
        key,
    })
}

fn read_group(at: &Progress, keys: &List<Words>) -> Result<Body, Memory>
    requires { at.now.answered + 1 < 2 ^ 64 }
    ensures { IfOk result (λ body. body ≡ b.ReadGroup at.now.path (suc at.now.answered) keys.now) }
{
    let keys = copy_names(keys)?;
    Ok(Body::ReadGroup {
        path: at.path,
        index: at.index(),
        keys,
    })
}

fn write(at: &Progress, key: &Words, here: Option<&Value>) -> Result<Body, Memory>
    requires { at.now.answered + 1 < 2 ^ 64 }
    ensures { IfOk result (λ body. body ≡ b.Write at.now.path (suc at.now.answered) at.now.place key.now (option_copied here.entry)) }
{
    let key = key.clone()?;
    let value = copy_optional(here)?;
    Ok(Body::Write {
        path: at.path,
        index: at.index(),
        place: at.place,
        key,
        value,
    })
}

fn spawn(
    alloc: Global,
    program: &Program,
    at: &Progress,
    ordinal: u32,
    function: u32,
    args: &List<Value>,
) -> Result<Body, Memory>
    requires { at.now.answered + 1 < 2 ^ 64 }
    ensures { IfOk result (λ body. body ≡ b.Spawn at.now.path (suc at.now.answered) ordinal (function_name function program.now.functions) args.now) }
{
    let name = name_of(alloc, program, function)?;
    let args = copy_values(args)?;
    Ok(Body::Spawn {
        path: at.path,
        index: at.index(),
        ordinal: ordinal as u64,
        function: name,
        args,
    })
}

/// The name of the function of a number, from 0; of none that the program has, no bytes.
fn name_of(alloc: Global, program: &Program, function: u32) -> Result<Words, Memory>
    ensures { IfOk result (λ name. name ≡ function_name function program.now.functions) }
{
    match program.functions.as_slice().get(function as usize) {
        Some(function) => copy_name(function),
        None => Ok(Words::new(alloc)),
    }
}

fn copy_name(function: &Function) -> Result<Words, Memory>
    ensures { IfOk result (λ name. name ≡ function.now.name) }
{
    Ok(function.name.clone()?)
}

fn push(at: &Progress, queue: &Words, value: &Value) -> Result<Body, Memory>
    requires { at.now.answered + 1 < 2 ^ 64 }
    ensures { IfOk result (λ body. body ≡ b.Push at.now.path (suc at.now.answered) queue.now value.now) }
{
    let queue = queue.clone()?;
    let value = value.clone()?;
    Ok(Body::Push {
        path: at.path,
        index: at.index(),
        queue,
        value,
    })
}

fn pop(at: &Progress, queue: &Words) -> Result<Body, Memory>
    requires { at.now.answered + 1 < 2 ^ 64 }
    ensures { IfOk result (λ body. body ≡ b.Pop at.now.path (suc at.now.answered) queue.now) }
{
    let queue = queue.clone()?;
    Ok(Body::Pop {
        path: at.path,
        index: at.index(),
        queue,
    })
}

fn begin(at: &Progress, names: &List<Words>) -> Result<Body, Memory>
    requires { at.now.answered + 1 < 2 ^ 64 }
    ensures { IfOk result (λ body. body ≡ b.TxnBegin at.now.path (suc at.now.answered) names.now) }
{
    let names = copy_names(names)?;
    Ok(Body::TxnBegin {
        path: at.path,
        index: at.index(),
        names,
    })
}

fn commit(at: &Progress, names: &List<Words>, writes: &List<(Words, Value)>) -> Result<Body, Memory>
    requires { at.now.answered + 1 < 2 ^ 64 }
    ensures { IfOk result (λ body. body ≡ b.TxnCommit at.now.path (suc at.now.answered) (begin_of at.now.transaction) names.now writes.now) }
{
    let names = copy_names(names)?;
    let writes = copy_writes(writes)?;
    Ok(Body::TxnCommit {
        path: at.path,
        index: at.index(),
        begin: at.begin(),
        names,
        writes,
    })
}

fn finish(at: &Progress, outcome: &Outcome) -> Result<Body, Memory>
    requires { at.now.answered + 1 < 2 ^ 64 }
    ensures { IfOk result (λ body. body ≡ b.Finish at.now.path (suc at.now.answered) outcome.now) }
{
    let outcome = copy_outcome(outcome)?;
    Ok(Body::Finish {
        path: at.path,
        index: at.index(),
        outcome,
    })
}
