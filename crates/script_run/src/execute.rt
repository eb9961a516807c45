//! One line: what it changes, and where the script goes from it.

ghost use Rattle.std.specs.Prelude.{◌≡◌, ◌<◌, ◌^◌, ◌+◌, ℕ, List, length, drop, cond, Some, slice_get, IfOk, OnOk, MatchOption, option_and_then, [], ◌∷◌, ◌++◌};
ghost use Rattle.std.specs.Option.{option_copied};
ghost use Rattle.script_run.specs.declared.state.Block.{Block as OpenBlock};
ghost use Rattle.lb_base.specs.declared.value.Outcome.TheVariants.{Good};
ghost use Rattle.boki_types.specs.declared.program.Stmt.{Stmt};
ghost use Rattle.boki_types.specs.declared.program.Stmt.TheVariants as statement;
ghost use Rattle.boki_types.specs.declared.operation.Ask.{Ask};
ghost use Rattle.boki_model.specs.Values.{eval as eval_of};
ghost use Rattle.boki_model.specs.Script as script;
ghost use Rattle.script_run.specs.Standing.{state_of, while_of};
ghost use Rattle.script_run.specs.Asking.{AsksOperation};
ghost use Rattle.script_run.specs.Flows.{HasFlow, AsksSmallOrdinal, Enters, flow_of};

use crate::eval::eval;
use crate::fault::EvalFault;
use crate::names::test;
use crate::operations::operation;
use crate::state::{Block, State, replace};
use crate::variables::put;
use boki_types::{Ask, Expr, Program, Stmt};
use lb_base::{Memory, Outcome, Words};
use std::alloc::Global;

/// Where a script goes from a line.
#[derive(Clone, Copy, Debug)]
pub(crate) enum Flow {
    /// To the next line.
    Next,
    /// Behind the `end` of the block, or behind its `else`.
    Skip,
    /// Into the body of the loop whose `while` is the line of this number.
    Enter(usize),
    /// Nowhere: it asks, or is done.
    Stop,
}

/// Sets a variable.
fn set(alloc: Global, name: &Words, x: &Expr, state: &mut State) -> Result<Flow, EvalFault>
    ensures leads { (lines : List Stmt) (at : ℕ) (ask : Ask) → HasFlow (script.then_flow (eval_of x.now state.old.variables.items) (λ v. script.Next (script.set_variable name.now v (state_of lines state.old)))) lines at ask (state_of lines state.new) result }
    ensures enters { (count : ℕ) → IfOk result (Enters count) }
{
    let value = eval(alloc, x, state.variables.as_slice())?;
    put(&mut state.variables, name, value)?;
    Ok(Flow::Next)
}

/// Opens a branch where a test holds.
fn branch(alloc: Global, x: &Expr, state: &mut State) -> Result<Flow, EvalFault>
    ensures leads { (lines : List Stmt) (at : ℕ) (ask : Ask) → HasFlow (script.test_condition x.now (state_of lines state.old) (λ b. cond b (script.Next (script.push_block script.Branch (state_of lines state.old))) (script.Skip (state_of lines state.old)))) lines at ask (state_of lines state.new) result }
    ensures enters { (count : ℕ) → IfOk result (Enters count) }
{
    if test(alloc, x, state.variables.as_slice())? {
        state.blocks.push(Block::Branch)?;
        Ok(Flow::Next)
    } else {
        Ok(Flow::Skip)
    }
}

/// Opens the loop of a line where its test holds.
fn enter_loop(alloc: Global, x: &Expr, at: usize, state: &mut State) -> Result<Flow, EvalFault>
    ensures leads { (lines : List Stmt) (ask : Ask) → slice_get lines at ≡ Some (statement.While x.now) → HasFlow (script.test_condition x.now (state_of lines state.old) (λ b. cond b (script.Enter (drop (at + 1) lines) (script.push_block (script.Loop x.now (drop (at + 1) lines)) (state_of lines state.old))) (script.Skip (state_of lines state.old)))) lines at ask (state_of lines state.new) result }
    ensures enters { (count : ℕ) → at < count → IfOk result (Enters count) }
{
    if test(alloc, x, state.variables.as_slice())? {
        state.blocks.push(Block::Loop(at))?;
        Ok(Flow::Enter(at))
    } else {
        Ok(Flow::Skip)
    }
}

/// Closes the innermost block, where one is open.
fn close(state: &mut State)
    ensures { (lines : List Stmt) → state_of lines state.new ≡ script.pop_block (state_of lines state.old) }
{
    let _closed = state.blocks.pop();
}

/// The innermost block.
fn innermost(blocks: &[Block]) -> Option<Block>
    ensures { MatchOption result (blocks.now ≡ []) (λ block. (front : List OpenBlock) × (blocks.now ≡ front ++ block ∷ [])) }
{
    blocks.last().copied()
}

/// The condition of a `while`.
fn while_test(line: &Stmt) -> Option<&Expr>
    ensures { option_copied result ≡ while_of line.now }
{
    match line {
        Stmt::While(x) => Some(x),
        _ => None,
    }
}

/// The condition of the `while` of this number, where there is one.
fn loop_test(lines: &[Stmt], at: usize) -> Option<&Expr>
    ensures { option_copied result ≡ option_and_then while_of (slice_get lines.now at) }
{
    match lines.get(at) {
        Some(line) => while_test(line),
        None => None,
    }
}

/// Ends a loop's turn: the loop tests its condition again, and is closed where that fails.
fn repeat_loop(
    alloc: Global,
    x: &Expr,
    loop_at: usize,
    state: &mut State,
) -> Result<Flow, EvalFault>
    ensures leads { (lines : List Stmt) (at : ℕ) (ask : Ask) → HasFlow (script.test_condition x.now (state_of lines state.old) (λ b. cond b (script.Enter (drop (loop_at + 1) lines) (state_of lines state.old)) (script.Next (script.pop_block (state_of lines state.old))))) lines at ask (state_of lines state.new) result }
    ensures enters { (count : ℕ) → loop_at < count → IfOk result (Enters count) }
{
    if test(alloc, x, state.variables.as_slice())? {
        Ok(Flow::Enter(loop_at))
    } else {
        close(state);
        Ok(Flow::Next)
    }
}

/// Ends the innermost block.
fn end_block(alloc: Global, lines: &[Stmt], state: &mut State) -> Result<Flow, EvalFault>
    ensures leads { (at : ℕ) (ask : Ask) → HasFlow (script.end_block (state_of lines.now state.old).blocks (state_of lines.now state.old)) lines.now at ask (state_of lines.now state.new) result }
    ensures enters { IfOk result (Enters (length lines.now)) }
{
    match innermost(state.blocks.as_slice()) {
        None => Ok(Flow::Next),
        Some(Block::Branch) => {
            close(state);
            Ok(Flow::Next)
        }
        Some(Block::Loop(at)) => match loop_test(lines, at) {
            Some(x) => repeat_loop(alloc, x, at, state),
            None => {
                close(state);
                Ok(Flow::Next)
            }
        },
    }
}

/// Ends the script with a value.
fn return_value(alloc: Global, x: &Expr, state: &State, ask: &mut Ask) -> Result<Flow, EvalFault>
    ensures leads { (lines : List Stmt) (at : ℕ) → HasFlow (script.then_flow (eval_of x.now state.now.variables.items) (λ v. script.Stop (script.AtEnd (Good v)))) lines at ask.new (state_of lines state.now) result }
    ensures small { OnOk result (AsksSmallOrdinal ask.new) }
    ensures enters { (count : ℕ) → IfOk result (Enters count) }
{
    let value = eval(alloc, x, state.variables.as_slice())?;
    replace(ask, Ask::Done(Outcome::Good(value)));
    Ok(Flow::Stop)
}

/// Stops at a line that asks an operation.
fn ask_operation(
    alloc: Global,
    program: &Program,
    depth: u8,
    line: &Stmt,
    state: &State,
    ask: &mut Ask,
) -> Result<Flow, EvalFault>
    requires functions { length program.now.functions < 2 ^ 32 }
    requires asks { AsksOperation line.now }
    ensures leads { (lines : List Stmt) (at : ℕ) → slice_get lines at ≡ Some line.now → HasFlow (script.execute program.now.functions depth line.now (drop (at + 1) lines) (state_of lines state.now)) lines at ask.new (state_of lines state.now) result }
    ensures small { OnOk result (AsksSmallOrdinal ask.new) }
    ensures enters { (count : ℕ) → IfOk result (Enters count) }
{
    let asked = operation(alloc, program, depth, line, state)?;
    replace(ask, Ask::Op(asked));
    Ok(Flow::Stop)
}

/// Does one line. Where it asks or ends the script, `ask` says so.
fn execute(
    alloc: Global,
    program: &Program,
    depth: u8,
    lines: &[Stmt],
    at: usize,
    state: &mut State,
    ask: &mut Ask,
) -> Result<Flow, EvalFault>
    requires functions { length program.now.functions < 2 ^ 32 }
    requires within { at < length lines.now }
    requires small { AsksSmallOrdinal ask.old }
    ensures leads { (line : Stmt) → slice_get lines.now at ≡ Some line → HasFlow (script.execute program.now.functions depth line (drop (at + 1) lines.now) (state_of lines.now state.old)) lines.now at ask.new (state_of lines.now state.new) result }
    ensures small { OnOk result (AsksSmallOrdinal ask.new) }
    ensures enters { IfOk result (Enters (length lines.now)) }
{
    match &lines[at] {
        Stmt::Let(name, x) => set(alloc, name, x, state),
        Stmt::If(x) => branch(alloc, x, state),
        Stmt::Else => {
            close(state);
            Ok(Flow::Skip)
        }
        Stmt::While(x) => enter_loop(alloc, x, at, state),
        Stmt::End => end_block(alloc, lines, state),
        Stmt::Return(x) => return_value(alloc, x, state, ask),
        line => ask_operation(alloc, program, depth, line, state, ask),
    }
}

/// Does one line, where a trap ends the script.
pub(crate) fn step(
    alloc: Global,
    program: &Program,
    depth: u8,
    lines: &[Stmt],
    at: usize,
    state: &mut State,
    ask: &mut Ask,
) -> Result<Flow, Memory>
    requires functions { length program.now.functions < 2 ^ 32 }
    requires within { at < length lines.now }
    requires small { AsksSmallOrdinal ask.old }
    ensures leads { IfOk result (λ flow. (line : Stmt) → slice_get lines.now at ≡ Some line → script.execute program.now.functions depth line (drop (at + 1) lines.now) (state_of lines.now state.old) ≡ flow_of lines.now at ask.new (state_of lines.now state.new) flow) }
    ensures small { OnOk result (AsksSmallOrdinal ask.new) }
    ensures enters { IfOk result (Enters (length lines.now)) }
{
    match execute(alloc, program, depth, lines, at, state, ask) {
        Ok(flow) => Ok(flow),
        Err(EvalFault::Trap(kind)) => {
            replace(ask, Ask::Done(Outcome::Trap(kind)));
            Ok(Flow::Stop)
        }
        Err(EvalFault::Memory) => Err(Memory),
    }
}
