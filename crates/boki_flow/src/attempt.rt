ghost use Rattle.std.specs.Prelude.{◌≡◌, List, IsOk, IfOk, OnErr};
ghost use Rattle.boki_types.specs.declared.plan.Setup.{Setup};
ghost use Rattle.boki_types.specs.declared.program.Function.{Function};
ghost use Rattle.boki_model.specs.Writes.{Store};
ghost use Rattle.boki_machine.specs.Attempt as machine;
ghost use Rattle.boki_machine.specs.Attempt.{new_attempt};
ghost use Rattle.boki_machine.specs.Step.{after_kill, after_lose, is_running};
ghost use Rattle.attempt_state.specs.Progresses.{awaits_record};
ghost use Rattle.attempt_state.specs.Attempts.{AttemptStandsFor};
ghost use Rattle.flow_parts.specs.Parts.{IsCutShort};
ghost use Rattle.boki_flow.specs.Flow.{FlowStandsFor, CanFlow, move_of, missed_of, IsMoved, IsMissed};

use crate::cases::step_attempt;
use crate::missing::miss_attempt;
use attempt_state::AttemptState;
use boki_types::{Life, Miss, Program, StepLine};
use flow_parts::Parts;
use lb_base::{Memory, Path};
use std::alloc::Global;
use std::marker::Model;

/// One try to run an invocation, on one engine.
///
/// All calls of `step` and `miss` on one attempt need equal programs, and parts that stand for a
/// machine's book and store.
#[derive(Drop)]
pub struct Attempt {
    state: AttemptState,
}

impl Model for Attempt {
    ghost use Rattle.attempt_state.specs.declared.state.AttemptState.{AttemptState as State};

    ghost Value = { State };

    ghost view = { λ a. a.state };
}

impl Attempt {
    /// A new attempt of an invocation, on any engine. It takes no memory.
    pub fn new(path: Path, engine: u32) -> Result<Attempt, Memory>
        ensures made { IsOk result }
        ensures stands { IfOk result (λ a. (functions : List Function)
            → AttemptStandsFor functions (new_attempt path engine) a) }
    {
        Ok(Attempt {
            state: AttemptState::new(path, engine),
        })
    }

    /// How it stands.
    pub fn life(&self) -> Life
        ensures { result ≡ self.now.progress.life }
    {
        self.state.progress.life
    }

    /// The engine that it runs on.
    pub fn engine(&self) -> u32
        ensures { result ≡ self.now.progress.engine }
    {
        self.state.progress.engine
    }

    /// Kills it where it runs, and answers whether it ran. It takes no memory.
    pub fn kill(&mut self) -> bool
        ensures answer { result ≡ is_running self.old.progress.life }
        ensures after { (functions : List Function) (a : machine.Attempt)
            → AttemptStandsFor functions a self.old
            → AttemptStandsFor functions (after_kill a) self.new }
    {
        self.state.kill()
    }

    /// Where it runs and waits for a record that it has sent, it forgets that, and whether it did
    /// is the answer. It takes no memory.
    pub fn lose(&mut self) -> bool
        ensures answer { result ≡ awaits_record self.old.progress }
        ensures after { (functions : List Function) (a : machine.Attempt)
            → AttemptStandsFor functions a self.old
            → AttemptStandsFor functions (after_lose a) self.new }
    {
        self.state.lose()
    }

    /// Does one step, and tells what it did: the move of the step table, for each store and attempt
    /// that the parts and this attempt stand for.
    ///
    /// After `Memory` the attempt and the book are as before. The object store is as before, or as
    /// the step would have left it, and the caches still keep folds of the book's records.
    pub fn step(
        &mut self,
        alloc: Global,
        parts: &mut Parts,
        program: &Program,
    ) -> Result<StepLine, Memory>
        requires { CanFlow program.now.functions parts.old self.old }
        ensures ok { IfOk result (λ line. (setup : Setup) (store : Store) (a : machine.Attempt)
            → FlowStandsFor setup program.now.functions store a parts.old self.old
            → IsMoved setup program.now.functions a.engine
            (move_of setup program.now.functions store a parts.old)
            parts.old parts.new self.new line) }
        ensures err { OnErr result (self.new ≡ self.old) }
        ensures cut { OnErr result ((setup : Setup) (store : Store) (a : machine.Attempt)
            → FlowStandsFor setup program.now.functions store a parts.old self.old
            → IsCutShort setup store (move_of setup program.now.functions store a parts.old).store
            parts.old parts.new) }
    {
        step_attempt(alloc, program, parts, &mut self.state)
    }

    /// Makes the store call of the attempt's next step, and loses its answer: the attempt stays as
    /// it is. It tells what was done.
    ///
    /// After `Memory` the book is as before, and the object store as before or as the call would
    /// have left it.
    pub fn miss(
        &mut self,
        alloc: Global,
        parts: &mut Parts,
        program: &Program,
    ) -> Result<Miss, Memory>
        requires { CanFlow program.now.functions parts.old self.old }
        ensures ok { IfOk result (λ what. (setup : Setup) (store : Store) (a : machine.Attempt)
            → FlowStandsFor setup program.now.functions store a parts.old self.old
            → IsMissed setup (missed_of setup program.now.functions store a parts.old)
            parts.old parts.new what) }
        ensures same { self.new ≡ self.old }
        ensures cut { OnErr result ((setup : Setup) (store : Store) (a : machine.Attempt)
            → FlowStandsFor setup program.now.functions store a parts.old self.old
            → IsCutShort setup store (missed_of setup program.now.functions store a parts.old).store
            parts.old parts.new) }
    {
        miss_attempt(alloc, parts, &self.state)
    }
}
