//! Runs with nemeses, apart from any code: what a run of a plan writes and does where objects that are handed
//! in add events of their own, and that it is exactly once whatever they do. Each function here has an empty
//! body, and a law as its contract; the definitions are in `specs/`.
#![tactic(auto)]

mod rows;

ghost use Rattle.run_with.specs.Laws.{RunsArePerformed, PerformedMayHappen, PerformedAreFew, RunsAreExact, PlainRuns, LawsStay, AskedInTurn, StandardAreValid};

pub use rows::{answers, doubled, killed, refused, reseeded};

/// A run with nemeses is the machine's run of the events that were done, those of the nemeses between those
/// of the plan.
pub fn runs_are_performed()
    ensures { RunsArePerformed }
{}

/// Each event that was done is one that the plan can have.
pub fn performed_may_happen()
    ensures { PerformedMayHappen }
{}

/// At most as many events are done as if each nemesis gave one behind each event of the plan.
pub fn performed_are_few()
    ensures { PerformedAreFew }
{}

/// **Exactly once, whatever the nemeses do**: the failure-free execution of the turns is defined, and its
/// results, objects, queues and store names are those of the machine's report; and the six other laws of machines
/// behind events hold too: duplicates agree, decided answers stay, the log is economic, ended invocations are left
/// alone, invocations of mode R and of mode W never run beside each other, and the store holds each thing once.
pub fn runs_are_exact()
    ensures { RunsAreExact }
{}

/// With no nemeses a run is that of the plan alone.
pub fn plain_runs()
    ensures { PlainRuns }
{}

/// A nemesis keeps its number and its law, and one that was dropped doesn't come back.
pub fn laws_stay()
    ensures { LawsStay }
{}

/// Behind an event of the plan each nemesis that is kept is asked once, in order.
pub fn asked_in_turn()
    ensures { AskedInTurn }
{}

/// The killer, the doubler and the loser give no event that is ignored.
pub fn standard_are_valid()
    ensures { StandardAreValid }
{}
