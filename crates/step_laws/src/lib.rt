//! What a step of an attempt needs, apart from any code: of the records that its engine sees, of the store, and of the attempt
//! itself. It doesn't say how these came about; a cluster has it from the invariant of its machine, which every event keeps. Each
//! function here has an empty body, and a law as its contract; the definitions are in `specs/`.
#![tactic(auto)]

ghost use Rattle.step_laws.specs.CanStep.{AttemptsCanStep};
ghost use Rattle.step_laws.specs.Kept.{InitialMachineIsKept, EventsKeepMachine, ReachedAreKept};

/// Of any machine that a cluster keeps, each attempt can be stepped.
pub fn attempts_can_step()
    ensures { AttemptsCanStep }
{}

/// A cluster keeps the machine at its opening.
pub fn initial_machine_is_kept()
    ensures { InitialMachineIsKept }
{}

/// And so behind every event that a plan can have, where its text is text and the numbers that its record takes have 64 bits.
pub fn events_keep_machine()
    ensures { EventsKeepMachine }
{}

/// Each machine that such events reach from the initial machine of a plan is kept, where there are fewer than 2^64 of them.
pub fn reached_are_kept()
    ensures { ReachedAreKept }
{}
