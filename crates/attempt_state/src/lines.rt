//! The lines of steps that send a record.
ghost use Rattle.std.specs.Prelude.{◌≡◌, Some, IfOk};
ghost use Rattle.std.specs.Option.{option_copied};
ghost use Rattle.lb_base.specs.Path.{child_path};
ghost use Rattle.boki_types.specs.declared.line.StepLine.TheVariants as line;
ghost use Rattle.boki_types.specs.declared.operation.Op.TheVariants as o;
ghost use Rattle.boki_model.specs.Bodies as bodies;
ghost use Rattle.machine_laws.specs.Children.{HasPath};
ghost use Rattle.attempt_state.specs.Sending.{AskHasPath, line_of_ask, located_line};

use crate::copies::{copy_names, copy_optional, copy_outcome, copy_values, copy_writes};
use boki_types::{Ask, Op, Sent, StepLine};
use lb_base::{List, Memory, Path, Value, Words};

/// The line of a record that is sent for what a script asks, at a place; of a write with the value that stands in the record, if
/// any. A child has to have a path.
pub fn send_line(path: Path, ask: &Ask, here: Option<&Value>, at: Sent) -> Result<StepLine, Memory>
    requires { AskHasPath path ask.now }
    ensures { IfOk result (λ line. line ≡ line_of_ask path (option_copied here.entry) at ask.now) }
{
    match ask {
        Ask::Op(Op::Read { key }) => Ok(StepLine::SendRead(at, key.clone()?)),
        Ask::Op(Op::ReadGroup { keys }) => Ok(StepLine::SendReadAll(at, copy_names(keys)?)),
        Ask::Op(Op::Write { key, .. }) => write_line(key, here, at),
        Ask::Op(
            Op::Spawn {
                ordinal,
                function,
                args,
            },
        ) => spawn_line(path, *ordinal, *function, args, at),
        Ask::Op(Op::Join { ordinal }) => Ok(StepLine::SendJoin(at, child(path, *ordinal))),
        Ask::Op(Op::Push { queue, value }) => push_line(queue, value, at),
        Ask::Op(Op::Pop { queue }) => Ok(StepLine::SendPop(at, queue.clone()?)),
        Ask::Op(Op::Begin { names }) => Ok(StepLine::SendBegin(at, copy_names(names)?)),
        Ask::Op(Op::Commit { writes, .. }) => Ok(StepLine::SendCommit(at, copy_writes(writes)?)),
        Ask::Done(outcome) => Ok(StepLine::SendFinish(at, copy_outcome(outcome)?)),
    }
}

fn write_line(key: &Words, here: Option<&Value>, at: Sent) -> Result<StepLine, Memory>
    ensures { IfOk result (λ l. l ≡ line.SendWrite at key.now (option_copied here.entry)) }
{
    let key = key.clone()?;
    let value = copy_optional(here)?;
    Ok(StepLine::SendWrite(at, key, value))
}

fn push_line(queue: &Words, value: &Value, at: Sent) -> Result<StepLine, Memory>
    ensures { IfOk result (λ l. l ≡ line.SendPush at queue.now value.now) }
{
    let queue = queue.clone()?;
    let value = value.clone()?;
    Ok(StepLine::SendPush(at, queue, value))
}

fn spawn_line(
    path: Path,
    ordinal: u32,
    function: u32,
    args: &List<Value>,
    at: Sent,
) -> Result<StepLine, Memory>
    requires { child_path path ordinal ≡ Some (bodies.child path ordinal) }
    ensures { IfOk result (λ l. l ≡ line.SendSpawn at (bodies.child path ordinal) function args.now) }
{
    let args = copy_values(args)?;
    Ok(StepLine::SendSpawn(at, child(path, ordinal), function, args))
}

/// The path of a child that has one.
pub fn child(path: Path, ordinal: u32) -> Path
    requires { child_path path ordinal ≡ Some (bodies.child path ordinal) }
    ensures { result ≡ bodies.child path ordinal }
{
    path.child(ordinal).unwrap()
}

/// A line of a record that is sent, with another place.
pub fn located(line: StepLine, at: Sent) -> StepLine
    ensures { result ≡ located_line at line }
{
    match line {
        StepLine::SendRead(_, key) => StepLine::SendRead(at, key),
        StepLine::SendWrite(_, key, value) => StepLine::SendWrite(at, key, value),
        StepLine::SendSpawn(_, path, function, args) => {
            StepLine::SendSpawn(at, path, function, args)
        }
        StepLine::SendJoin(_, path) => StepLine::SendJoin(at, path),
        StepLine::SendPush(_, queue, value) => StepLine::SendPush(at, queue, value),
        StepLine::SendPop(_, queue) => StepLine::SendPop(at, queue),
        StepLine::SendBegin(_, names) => StepLine::SendBegin(at, names),
        StepLine::SendCommit(_, writes) => StepLine::SendCommit(at, writes),
        StepLine::SendReadAll(_, keys) => StepLine::SendReadAll(at, keys),
        StepLine::SendFinish(_, outcome) => StepLine::SendFinish(at, outcome),
        other => other,
    }
}
