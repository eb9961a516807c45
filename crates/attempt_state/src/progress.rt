//! Where an attempt stands, but for its script.

ghost use Rattle.std.specs.Prelude.{◌≡◌, ◌+◌, ◌<◌, ◌^◌, suc, IfOk};
ghost use Rattle.boki_machine.specs.Attempt.{new_attempt};
ghost use Rattle.boki_machine.specs.Step.{is_running};
ghost use Rattle.attempt_state.specs.Progresses.{progress_of, adopted_progress, answered_progress, killed_progress, lost_progress, awaits_record, begin_of};

use boki_types::{Life, Name};
use lb_base::{Memory, Mode, Path, Seqnum};

/// Where an attempt stands, but for its script.
///
/// Its mode is fixed once it has adopted its Init, and its place is 0 before. The cursor is the seqnum of the last step record that
/// it adopted, and the place is how many it has adopted. Seqnums and places have 64 bits.
#[derive(Clone, Copy)]
pub struct Progress {
    pub path: Path,
    /// The engine that it runs on, from 1.
    pub engine: u32,
    pub life: Life,
    pub mode: Mode,
    /// How many answers its script has had.
    pub answered: u64,
    pub cursor: Seqnum,
    pub place: u64,
    /// How many free writes it has made since its cursor.
    pub free_writes: u64,
    /// It has sent a record and waits for what becomes of it.
    pub waiting: bool,
    /// The value of its next write is stored.
    pub stored: bool,
    /// Its next write is late.
    pub late: bool,
    /// The begin of its open transaction.
    pub transaction: Option<Seqnum>,
}

impl Progress {
    /// That of a new attempt of an invocation.
    pub fn new(path: Path, engine: u32) -> Progress
        ensures { result ≡ progress_of (new_attempt path engine) }
    {
        Progress {
            path,
            engine,
            life: Life::Running,
            mode: Mode::R,
            answered: 0,
            cursor: Seqnum(0),
            place: 0,
            free_writes: 0,
            waiting: false,
            stored: false,
            late: false,
            transaction: None,
        }
    }

    /// Behind the adoption of the record at a seqnum at its place.
    pub fn adopted(self, seq: Seqnum) -> Result<Progress, Memory>
        ensures { IfOk result (λ p. p ≡ adopted_progress seq.0 self) }
    {
        let Some(place) = self.place.checked_add(1) else {
            return Err(Memory);
        };
        let waiting = false;
        Ok(Progress {
            cursor: seq,
            waiting,
            place,
            free_writes: 0,
            stored: false,
            late: false,
            ..self
        })
    }

    /// Behind one more answer. The index of its next operation is to have 64 bits, and that of the one behind it then has them too.
    pub fn with_answer(self) -> Result<Progress, Memory>
        requires { self.answered + 1 < 2 ^ 64 }
        ensures answered { IfOk result (λ p. p ≡ answered_progress self) }
        ensures room { IfOk result (λ p. p.answered + 1 < 2 ^ 64) }
    {
        let answered = self.answered + 1;
        if answered == u64::MAX {
            return Err(Memory);
        }
        Ok(Progress { answered, ..self })
    }

    /// Whether it runs.
    pub fn is_running(&self) -> bool
        ensures { result ≡ is_running self.now.life }
    {
        matches!(self.life, Life::Running)
    }

    /// Where it runs it is killed, and whether it ran is the answer.
    pub fn kill(&mut self) -> bool
        ensures answer { result ≡ is_running self.old.life }
        ensures after { self.new ≡ killed_progress self.old }
    {
        let runs = self.is_running();
        if runs {
            self.life = Life::Killed;
        }
        runs
    }

    /// Where it runs and waits for a record it forgets that, and whether it did is the answer.
    pub fn lose(&mut self) -> bool
        ensures answer { result ≡ awaits_record self.old }
        ensures after { self.new ≡ lost_progress self.old }
    {
        let can = self.is_running() && self.waiting;
        if can {
            self.waiting = false;
        }
        can
    }

    /// The index of its next operation, from 1. It is to have 64 bits.
    pub fn index(&self) -> u64
        requires { self.now.answered + 1 < 2 ^ 64 }
        ensures { result ≡ suc self.now.answered }
    {
        self.answered + 1
    }

    /// The seqnum of the begin of its open transaction, or 0 where none is open.
    pub fn begin(&self) -> u64
        ensures { result ≡ begin_of self.now.transaction }
    {
        match self.transaction {
            Some(seq) => seq.0,
            None => 0,
        }
    }

    /// The name of its next write.
    pub fn write_name(&self) -> Name
        ensures path { result.path ≡ self.now.path }
        ensures place { result.place ≡ self.now.place }
    {
        Name {
            path: self.path,
            place: self.place,
        }
    }
}
