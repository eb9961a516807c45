//! Lines that ask an operation. All of a line's expressions are worked out first; then comes the first name that isn't one,
//! and then what the operation itself forbids.

ghost use Rattle.std.specs.Prelude.{◌<◌, ◌^◌, length, IfOk};
ghost use Rattle.script_run.specs.Computes.{Computes};
ghost use Rattle.script_run.specs.Asking.{name_and_value_of, pushed_of, spawned_of, joined_of, begun_of, committed_of, operation_of, AsksOperation, HasSmallOrdinal};

use crate::copies::copy_names;
use crate::eval::eval;
use crate::fault::EvalFault;
use crate::names::{eval_all, name_at, name_of, names_at, writes_at};
use crate::state::State;
use boki_model::limits::ORDINALS_BELOW;
use boki_types::{Expr, Op, Program, Stmt};
use lb_base::{List, TrapKind, Value, Words};
use std::alloc::Global;

/// The length of the longest paths, whose scripts spawn nothing.
const DEEPEST: u8 = 4;

/// A name, and a value, of which the name is judged once both are worked out.
fn name_and_value(
    alloc: Global,
    x: &Expr,
    y: &Expr,
    variables: &[(Words, Value)],
) -> Result<(Words, Value), EvalFault>
    ensures { Computes (name_and_value_of x.now y.now variables.now) result }
{
    let name = eval(alloc, x, variables)?;
    let value = eval(alloc, y, variables)?;
    let name = name_of(name)?;
    Ok((name, value))
}

/// What a push asks: a value that isn't none.
fn pushed(queue: Words, value: Value) -> Result<Op, EvalFault>
    ensures gives { Computes (pushed_of queue value) result }
    ensures small { IfOk result HasSmallOrdinal }
{
    match value {
        Value::Nothing => Err(EvalFault::Trap(TrapKind::Kind)),
        Value::Int(n) => Ok(Op::Push {
            queue,
            value: Value::Int(n),
        }),
        Value::Text(text) => Ok(Op::Push {
            queue,
            value: Value::Text(text),
        }),
    }
}

/// What a spawn asks: the next child. Scripts at the greatest depth have none, and the others at most 4,095.
fn spawned(
    program: &Program,
    depth: u8,
    function: &Words,
    args: List<Value>,
    spawned: u32,
) -> Result<Op, EvalFault>
    requires few { spawned < 4096 }
    requires functions { length program.now.functions < 2 ^ 32 }
    ensures gives { Computes (spawned_of program.now.functions depth function.now spawned args) result }
    ensures small { IfOk result HasSmallOrdinal }
{
    let ordinal = spawned + 1;
    if depth == DEEPEST || ordinal == ORDINALS_BELOW {
        return Err(EvalFault::Trap(TrapKind::Spawn));
    }
    let function = program.find(function.as_str()).unwrap_or(0);
    Ok(Op::Spawn {
        ordinal,
        function,
        args,
    })
}

/// What a join asks: a child that was spawned.
fn joined(value: &Value, spawned: u32) -> Result<Op, EvalFault>
    ensures gives { Computes (joined_of spawned value.now) result }
    ensures small { IfOk result HasSmallOrdinal }
{
    match value {
        Value::Int(n) => {
            if 1 <= *n && *n <= i64::from(spawned) {
                Ok(Op::Join { ordinal: *n as u32 })
            } else {
                Err(EvalFault::Trap(TrapKind::Join))
            }
        }
        Value::Text(_) => Err(EvalFault::Trap(TrapKind::Join)),
        Value::Nothing => Err(EvalFault::Trap(TrapKind::Join)),
    }
}

/// What a begin asks, where no transaction is open.
fn begun(names: List<Words>, transaction: &Option<List<Words>>) -> Result<Op, EvalFault>
    ensures gives { Computes (begun_of transaction.now names) result }
    ensures small { IfOk result HasSmallOrdinal }
{
    match transaction {
        None => Ok(Op::Begin { names }),
        Some(_) => Err(EvalFault::Trap(TrapKind::Txn)),
    }
}

/// What a commit asks, where a transaction is open.
fn committed(
    writes: List<(Words, Value)>,
    transaction: &Option<List<Words>>,
) -> Result<Op, EvalFault>
    ensures gives { Computes (committed_of transaction.now writes) result }
    ensures small { IfOk result HasSmallOrdinal }
{
    match transaction {
        None => Err(EvalFault::Trap(TrapKind::Txn)),
        Some(names) => {
            let names = copy_names(names)?;
            Ok(Op::Commit { names, writes })
        }
    }
}

/// What a line asks that asks an operation, or its trap.
pub(crate) fn operation(
    alloc: Global,
    program: &Program,
    depth: u8,
    line: &Stmt,
    state: &State,
) -> Result<Op, EvalFault>
    requires functions { length program.now.functions < 2 ^ 32 }
    requires asks { AsksOperation line.now }
    ensures gives { Computes (operation_of program.now.functions depth line.now state.now.variables.items state.now.spawned state.now.transaction) result }
    ensures small { IfOk result HasSmallOrdinal }
{
    let variables = state.variables.as_slice();
    match line {
        Stmt::Read(_, x) => {
            let key = name_at(alloc, x, variables)?;
            Ok(Op::Read { key })
        }
        Stmt::Write(x, y) => {
            let (key, value) = name_and_value(alloc, x, y, variables)?;
            Ok(Op::Write { key, value })
        }
        Stmt::Spawn(_, function, xs) => {
            let args = eval_all(alloc, xs.as_slice(), variables)?;
            spawned(program, depth, function, args, state.spawned)
        }
        Stmt::Join(_, x) => {
            let value = eval(alloc, x, variables)?;
            joined(&value, state.spawned)
        }
        Stmt::Push(x, y) => {
            let (queue, value) = name_and_value(alloc, x, y, variables)?;
            pushed(queue, value)
        }
        Stmt::Pop(_, x) => {
            let queue = name_at(alloc, x, variables)?;
            Ok(Op::Pop { queue })
        }
        Stmt::Begin(pairs) => {
            let names = names_at(alloc, pairs.as_slice(), variables)?;
            begun(names, &state.transaction)
        }
        Stmt::Commit(_, pairs) => {
            let writes = writes_at(alloc, pairs.as_slice(), variables)?;
            committed(writes, &state.transaction)
        }
        Stmt::ReadAll(pairs) => {
            let keys = names_at(alloc, pairs.as_slice(), variables)?;
            Ok(Op::ReadGroup { keys })
        }
        _ => unreachable!(),
    }
}
