//! Answers: what they set, by the line that asked.

ghost use Rattle.std.specs.Prelude.{◌≡◌, ◌↔◌, List, IfOk, OnOk, IsTrue, Some, option_and_then};
ghost use Rattle.std.specs.Option.{option_copied};
ghost use Rattle.boki_types.specs.declared.program.Stmt.{Stmt};
ghost use Rattle.boki_types.specs.declared.operation.Answer.{Answer};
ghost use Rattle.boki_model.specs.Script as script;
ghost use Rattle.script_run.specs.Standing.{state_of, target_of};
ghost use Rattle.script_run.specs.Asking.{HasSmallOrdinal};
ghost use Rattle.script_run.specs.Answering.{IsOfKind, put_each, variable_of, pairs_of, put_one, put_pairs, received};

use crate::conditions::truth;
use crate::copies::copy_names;
use crate::state::State;
use crate::variables::put;
use boki_types::{Answer, Expr, Op, Stmt};
use lb_base::{Memory, Outcome, TrapKind, Value, Words};

/// Sets variables in turn.
pub(crate) fn set_each(
    variables: &mut Vec<(Words, Value)>,
    names: &[Words],
    values: &[Value],
) -> Result<(), Memory>
    ensures { OnOk result (variables.new.items ≡ put_each names.now values.now variables.old.items) }
{
    'pairs: for (name, value) in names.iter().zip(values) {
        put(variables, name, value.clone()?)?;
    }
    Ok(())
}

/// Sets the variables of a begin or a read of several objects in turn.
fn set_named(
    variables: &mut Vec<(Words, Value)>,
    pairs: &[(Words, Expr)],
    values: &[Value],
) -> Result<(), Memory>
    ensures { OnOk result (variables.new.items ≡ put_each (script.pair_names pairs.now) values.now variables.old.items) }
{
    'pairs: for (pair, value) in pairs.iter().zip(values) {
        put(variables, &pair.0, value.clone()?)?;
    }
    Ok(())
}

/// The one variable of a line that asks, where it has one.
fn variable(line: &Stmt) -> Option<&Words>
    ensures { option_copied result ≡ variable_of line.now }
{
    match line {
        Stmt::Read(name, _) => Some(name),
        Stmt::Spawn(name, _, _) => Some(name),
        Stmt::Join(name, _) => Some(name),
        Stmt::Pop(name, _) => Some(name),
        Stmt::Commit(name, _) => Some(name),
        _ => None,
    }
}

/// Sets the one variable of a line that asks, where it has one.
fn set_one(
    variables: &mut Vec<(Words, Value)>,
    line: Option<&Stmt>,
    value: Value,
) -> Result<(), Memory>
    ensures { OnOk result (variables.new.items ≡ put_one (option_and_then variable_of (option_copied line.entry)) value variables.old.items) }
{
    match line {
        Some(line) => match variable(line) {
            Some(name) => put(variables, name, value),
            None => Ok(()),
        },
        None => Ok(()),
    }
}

/// Sets the variables of a line that asks several values, where it does.
fn set_several(
    variables: &mut Vec<(Words, Value)>,
    line: Option<&Stmt>,
    values: &[Value],
) -> Result<(), Memory>
    ensures { OnOk result (variables.new.items ≡ put_pairs (option_and_then pairs_of (option_copied line.entry)) values.now variables.old.items) }
{
    match line {
        Some(Stmt::Begin(pairs)) => set_named(variables, pairs.as_slice(), values),
        Some(Stmt::ReadAll(pairs)) => set_named(variables, pairs.as_slice(), values),
        _ => Ok(()),
    }
}

/// Takes the values of a begin or a read of several objects. A begin opens a transaction.
fn receive_values(
    operation: &Op,
    line: Option<&Stmt>,
    values: &[Value],
    state: &mut State,
) -> Result<(), Memory>
    requires { IsOfKind operation.now (Answer.Values values.now) }
    ensures { OnOk result ((lines : List Stmt) → script.apply_answer operation.now (target_of (option_copied line.entry)) (Answer.Values values.now) (state_of lines state.old) ≡ Some (Ok (state_of lines state.new))) }
{
    set_several(&mut state.variables, line, values)?;
    if let Op::Begin { names } = operation {
        state.transaction = Some(copy_names(names)?);
    }
    Ok(())
}

/// Takes the answer of an operation. Gives the trap of a join whose child trapped.
pub(crate) fn receive(
    operation: &Op,
    line: Option<&Stmt>,
    answer: Answer,
    state: &mut State,
) -> Result<Option<TrapKind>, Memory>
    requires kind { IsOfKind operation.now answer }
    requires small { HasSmallOrdinal operation.now }
    ensures { IfOk result (λ why. (lines : List Stmt) → script.apply_answer operation.now (target_of (option_copied line.entry)) answer (state_of lines state.old) ≡ Some (received why (state_of lines state.new))) }
{
    match answer {
        Answer::Done => Ok(None),
        Answer::Value(value) => {
            set_one(&mut state.variables, line, value)?;
            Ok(None)
        }
        Answer::Spawned(ordinal) => {
            set_one(&mut state.variables, line, Value::Int(i64::from(ordinal)))?;
            state.spawned = ordinal;
            Ok(None)
        }
        Answer::Joined(Outcome::Good(value)) => {
            set_one(&mut state.variables, line, value)?;
            Ok(None)
        }
        Answer::Joined(Outcome::Trap(_)) => Ok(Some(TrapKind::Join)),
        Answer::Values(values) => {
            receive_values(operation, line, values.as_slice(), state)?;
            Ok(None)
        }
        Answer::Committed(good) => {
            set_one(&mut state.variables, line, truth(good))?;
            state.transaction = None;
            Ok(None)
        }
    }
}

/// Whether an answer is of the kind of an operation.
pub(crate) fn is_of_kind(operation: &Op, answer: &Answer) -> bool
    ensures { IsTrue result ↔ IsOfKind operation.now answer.now }
{
    match operation {
        Op::Read { .. } => matches!(answer, Answer::Value(_)),
        Op::Write { .. } => matches!(answer, Answer::Done),
        Op::Spawn { ordinal, .. } => match answer {
            Answer::Spawned(given) => *given == *ordinal,
            _ => false,
        },
        Op::Join { .. } => matches!(answer, Answer::Joined(_)),
        Op::Push { .. } => matches!(answer, Answer::Done),
        Op::Pop { .. } => matches!(answer, Answer::Value(_)),
        Op::Begin { names } => match answer {
            Answer::Values(values) => values.len() == names.len(),
            _ => false,
        },
        Op::Commit { .. } => matches!(answer, Answer::Committed(_)),
        Op::ReadGroup { keys } => match answer {
            Answer::Values(values) => values.len() == keys.len(),
            _ => false,
        },
    }
}
