//! A frame: a script that runs, from one operation to the next.

ghost use Rattle.std.specs.Prelude.{◌≡◌, ◌↔◌, ◌<◌, ◌^◌, ℕ, List, [], ◌∷◌, length, Some, slice_get, IsTrue, IfOk, OnOk, OnErr};
ghost use Rattle.std.specs.Option.{option_copied};
ghost use Rattle.lb_base.specs.declared.value.Value.{Value};
ghost use Rattle.boki_types.specs.declared.operation.Answer.{Answer};
ghost use Rattle.boki_types.specs.declared.program.Stmt.{Stmt};
ghost use Rattle.boki_types.specs.declared.program.Function.{Function};
ghost use Rattle.boki_types.specs.Finding.{arity, function_at};
ghost use Rattle.boki_model.specs.Script as script;
ghost use Rattle.script_run.specs.Answering.{Takes};
ghost use Rattle.script_run.specs.Frames.{FrameStandsFor, lines_of as lines_of_function};
ghost use Rattle.script_run.specs.Standing.{state_of};

use crate::answers::{is_of_kind, receive, set_each};
use crate::copies::{copy_ask, copy_state};
use crate::run::run;
use crate::state::State;
use boki_types::{Answer, Ask, Program, Stmt};
use lb_base::{Memory, Outcome, Value, Words};
use std::alloc::Global;
use std::marker::Model;

/// A script that runs: it stands at the operation that it asks, or at its end.
///
/// A frame stands for a function of a program, its arguments, its depth and the answers given so far. The calls that take a
/// program need one equal to that from which the frame was made. They need fewer than 2^32 functions, as every program that is
/// read from a text has.
#[derive(Drop)]
pub struct Frame {
    function: u32,
    depth: u8,
    /// The number of the line that asks, from 0.
    at: usize,
    ask: Ask,
    state: State,
}

impl Model for Frame {
    ghost use Rattle.std.specs.Prelude.{◌<◌, ◌+◌, ◌^◌};
    ghost use Rattle.script_run.specs.Frames.{FrameState};
    ghost use Rattle.script_run.specs.Flows.{AsksSmallOrdinal};
    ghost use Rattle.script_run.specs.Standing.{local_state_of};

    ghost Value = { FrameState };

    ghost view = { λ f. record { function = f.function; depth = f.depth; at = f.at; ask = f.ask; made = local_state_of f.state } };

    ghost invariant = { λ f. AsksSmallOrdinal f.ask × (f.at + 1 < 2 ^ 64) };
}

impl Frame {
    /// Starts a function of a program, and runs it to its first operation or to its end.
    ///
    /// It needs the number of a function, from 0, and as many arguments as the function has parameters. The depth is the length
    /// of the invocation's path, from 1 to 4; a script at depth 4 traps where it spawns. After `Memory` there is no frame.
    pub fn new(
        alloc: Global,
        program: &Program,
        function: u32,
        args: &[Value],
        depth: u8,
    ) -> Result<Frame, Memory>
        requires few { length program.now.functions < 2 ^ 32 }
        requires known { function < length program.now.functions }
        requires fits { arity function program.now.functions ≡ length args.now }
        ensures { IfOk result (FrameStandsFor program.now.functions function args.now depth []) }
    {
        let called = &program.functions.as_slice()[function as usize];
        let mut state = opening(alloc, called.params.as_slice(), args)?;
        let mut ask = Ask::Done(Outcome::Good(Value::Nothing));
        let lines = called.lines.as_slice();
        let at = run(alloc, program, depth, lines, 0, &mut state, &mut ask)?;
        Ok(Frame {
            function,
            depth,
            at,
            ask,
            state,
        })
    }

    /// What the script asks, or its result. It takes no memory.
    pub fn ask(&self) -> &Ask
        ensures same { result.now ≡ self.now.ask }
        ensures asked { (functions : List Function) (function : ℕ) (args : List Value) (depth : ℕ) (answers : List Answer) → FrameStandsFor functions function args depth answers self.now → script.next_ask functions function args depth answers ≡ Some result.now }
    {
        &self.ask
    }

    /// Whether an operation is asked and the answer is of its kind, as `give` needs. It takes no memory.
    pub fn takes(&self, answer: &Answer) -> bool
        ensures { IsTrue result ↔ Takes self.now.ask answer.now }
    {
        match &self.ask {
            Ask::Op(operation) => is_of_kind(operation, answer),
            Ask::Done(_) => false,
        }
    }

    /// Hands the script the answer of the operation that it asks, and runs it on from there, to its next operation or to its
    /// end.
    ///
    /// It needs that an operation is asked and that the answer is of its kind: of a spawn the ordinal asked, and of a begin and
    /// a read of several objects one value for each name. Done is of a write and a push, a value of a read and a pop, a result
    /// of a join, and whether it succeeded of a commit. After `Memory` the frame is as before.
    pub fn give(&mut self, alloc: Global, program: &Program, answer: Answer) -> Result<(), Memory>
        requires few { length program.now.functions < 2 ^ 32 }
        requires takes { Takes self.old.ask answer }
        ensures ok { OnOk result ((function : ℕ) (args : List Value) (depth : ℕ) (answers : List Answer) → FrameStandsFor program.now.functions function args depth answers self.old → FrameStandsFor program.now.functions function args depth (answer ∷ answers) self.new) }
        ensures err { OnErr result (self.new ≡ self.old) }
    {
        *self = self.after(alloc, program, answer)?;
        Ok(())
    }

    /// The frame that stands behind an answer.
    fn after(&self, alloc: Global, program: &Program, answer: Answer) -> Result<Frame, Memory>
        requires few { length program.now.functions < 2 ^ 32 }
        requires takes { Takes self.now.ask answer }
        ensures { IfOk result (λ next. (function : ℕ) (args : List Value) (depth : ℕ) (answers : List Answer) → FrameStandsFor program.now.functions function args depth answers self.now → FrameStandsFor program.now.functions function args depth (answer ∷ answers) next) }
    {
        let Ask::Op(operation) = &self.ask else {
            unreachable!()
        };
        let lines = lines_of(program, self.function);
        let mut state = copy_state(alloc, &self.state)?;
        match receive(operation, line_at(lines, self.at), answer, &mut state)? {
            Some(kind) => Ok(Frame {
                function: self.function,
                depth: self.depth,
                at: self.at,
                ask: Ask::Done(Outcome::Trap(kind)),
                state,
            }),
            None => {
                let mut ask = Ask::Done(Outcome::Good(Value::Nothing));
                let start = self.at + 1;
                let at = run(
                    alloc, program, self.depth, lines, start, &mut state, &mut ask,
                )?;
                Ok(Frame {
                    function: self.function,
                    depth: self.depth,
                    at,
                    ask,
                    state,
                })
            }
        }
    }

    /// A copy that stands where this one does.
    pub fn copy(&self, alloc: Global) -> Result<Frame, Memory>
        ensures { IfOk result (λ copy. copy ≡ self.now) }
    {
        let ask = copy_ask(&self.ask)?;
        let state = copy_state(alloc, &self.state)?;
        Ok(Frame {
            function: self.function,
            depth: self.depth,
            at: self.at,
            ask,
            state,
        })
    }
}

/// What a script has made at its start: its parameters have the arguments.
fn opening(alloc: Global, params: &[Words], args: &[Value]) -> Result<State, Memory>
    ensures { IfOk result (λ state. (lines : List Stmt) → state_of lines state ≡ script.initial_state params.now args.now) }
{
    let mut variables = Vec::new(alloc);
    set_each(&mut variables, params, args)?;
    Ok(State {
        variables,
        blocks: Vec::new(alloc),
        spawned: 0,
        transaction: None,
    })
}

/// The line of a number, from 0.
fn line_at(lines: &[Stmt], at: usize) -> Option<&Stmt>
    ensures { option_copied result ≡ slice_get lines.now at }
{
    lines.get(at)
}

/// The lines of a function. A number that no function has gives none.
fn lines_of(program: &Program, function: u32) -> &[Stmt]
    ensures { result.now ≡ lines_of_function (function_at function program.now.functions) }
{
    match program.functions.as_slice().get(function as usize) {
        Some(function) => function.lines.as_slice(),
        None => &[],
    }
}
