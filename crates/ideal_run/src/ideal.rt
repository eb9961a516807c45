//! The failure-free execution, turn by turn.

ghost use Rattle.std.specs.Prelude.{◌≡◌, ◌<◌, ◌^◌, ℕ, List, [], ◌++◌, ◌∷◌, length, None, option_copied, IfOk, IfErr, OnOk, OnErr};
ghost use Rattle.boki_types.specs.declared.program.Function.{Function};
ghost use Rattle.boki_types.specs.declared.turn.Turn.{Turn};
ghost use Rattle.boki_machine.specs.Ideal as ideal;
ghost use Rattle.boki_machine.specs.Reports.{ideal_report};
ghost use Rattle.ideal_run.specs.declared.fault.TurnFault.TheVariants as fault;
ghost use Rattle.ideal_run.specs.Turned.{HasRequest};
ghost use Rattle.ideal_run.specs.Kept.{maps_of};
ghost use Rattle.ideal_run.specs.Judged.{StandsFor, IsDone, IsUndefined, IsReportOf, IsAsked};
ghost use Rattle.ideal_run.specs.Faults.{OnIllegal};

use crate::copies::{copy_turn, copy_turns};
use crate::fault::TurnFault;
use crate::state::State;
use boki_types::{Ask, Plan, Program, Report, Turn};
use lb_base::{List, Memory, Path};
use std::alloc::Global;
use std::marker::Model;

/// The failure-free execution of turns: objects, queues and store names, the known invocations, and the turns done so far.
///
/// It stands for a state of the definitions and those turns. The calls that take a program need one equal to that of its plan,
/// with fewer than 2^32 functions, as every program that is read from a text has.
#[derive(Drop)]
pub struct Ideal {
    state: State,
    turns: Vec<Turn>,
}

impl Model for Ideal {
    ghost use Rattle.ideal_run.specs.Kept.{IdealState, maps_of};

    ghost Value = { IdealState };

    ghost view = { λ a. record { maps = maps_of a.state; turns = a.turns.items } };
}

/// The report of turns that led to a state.
fn report_with(state: &State, turns: List<Turn>) -> Result<Report, Memory>
    ensures { IfOk result (IsReportOf (record { maps = maps_of state.now; turns = turns })) }
{
    Ok(Report {
        turns,
        results: state.results()?,
        objects: state.all_objects()?,
        queues: state.all_queues()?,
        stores: state.all_stored()?,
    })
}

impl Ideal {
    /// The state in which a plan opens: its objects, and no queue, store name, invocation or turn. Or `Memory`.
    pub fn new(alloc: Global, plan: &Plan) -> Result<Ideal, Memory>
        ensures { IfOk result
            (StandsFor plan.now.program.functions [] (ideal.initial_ideal plan.now.objects)) }
    {
        Ok(Ideal {
            state: State::opening(alloc, plan.objects.as_slice())?,
            turns: Vec::new(alloc),
        })
    }

    /// Does a turn, whole or not at all. Illegal comes exactly where the turn isn't defined: a submit of a known request; a go
    /// of a path that isn't known or has a result, of more operations than its script has, or of a join whose child has no
    /// result; an end of such a path, or of a script that isn't done.
    ///
    /// It needs, in a submit, a request from 1 to 1,048,575. After Illegal and after `Memory` nothing is changed. An invocation's
    /// frame is copied once a turn, and what the turn replaces is noted, so that it is put back without memory. Of the room that this
    /// took little stays; no clause says how much.
    pub fn turn(&mut self, program: &Program, turn: &Turn) -> Result<(), TurnFault>
        requires few { length program.now.functions < 2 ^ 32 }
        requires request { HasRequest turn.now }
        ensures ok { OnOk result (IsDone program.now.functions turn.now self.old self.new) }
        ensures illegal { OnIllegal result (IsUndefined program.now.functions turn.now self.old) }
        ensures err { OnErr result (self.new ≡ self.old) }
    {
        let copy = copy_turn(turn)?;
        self.take_turn(program, copy)
    }

    /// Does a turn that is handed over, as [`turn`](Ideal::turn) does, and without a copy of it. After an error it is dropped.
    pub fn take_turn(&mut self, program: &Program, turn: Turn) -> Result<(), TurnFault>
        requires few { length program.now.functions < 2 ^ 32 }
        requires request { HasRequest turn }
        ensures ok { OnOk result (IsDone program.now.functions turn self.old self.new) }
        ensures illegal { OnIllegal result (IsUndefined program.now.functions turn self.old) }
        ensures err { OnErr result (self.new ≡ self.old) }
    {
        if self.turns.reserve(1).is_err() {
            drop(turn);
            return Err(TurnFault::Memory);
        }
        match self.state.turn(program, &turn) {
            Ok(()) => {
                self.turns.push_reserved(turn);
                Ok(())
            }
            Err(fault) => {
                drop(turn);
                Err(fault)
            }
        }
    }

    /// The turns, the results by path, and the objects, queues and store names by name; or `Memory`.
    pub fn report(&self) -> Result<Report, Memory>
        ensures { IfOk result (IsReportOf self.now) }
    {
        let turns = copy_turns(self.state.alloc, self.turns.as_slice())?;
        report_with(&self.state, turns)
    }

    /// The report, as [`report`](Ideal::report) gives it, with the turns themselves and no copies; or `Memory`.
    pub fn into_report(self) -> Result<Report, Memory>
        ensures { IfOk result (IsReportOf self) }
    {
        let Ideal { state, turns } = self;
        let report = report_with(&state, List::from_vec(turns));
        drop(state);
        report
    }

    /// What an invocation asks next, or how its script ended: nothing where the path isn't known, has a result, or calls no
    /// function of the program with so many arguments. It takes no memory.
    pub fn asked(&self, path: Path) -> Option<&Ask>
        ensures { IsAsked self.now path (option_copied result) }
    {
        self.state.asked(path)
    }
}
