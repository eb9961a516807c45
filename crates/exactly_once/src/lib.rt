//! The main theorem, apart from any code: whatever happens, each invocation has effects as if it had run once. Each function
//! here has an empty body, and a law as its contract. `specs/Theorem` has the theorem, which is `exactly_once`,
//! `specs/FurtherLaws` the other laws of a log and of a machine, and `specs/Induction` the invariant by which all of them
//! are proved. `docs/PROOF.md` tells how the proof goes.
#![tactic(auto)]

ghost use Rattle.exactly_once.specs.FurtherLaws.LogEconomy.{EndedAreEconomic};
ghost use Rattle.exactly_once.specs.FurtherLaws.EndedInvocations.{EndedHaveNoEffect};
ghost use Rattle.exactly_once.specs.Induction.QuietEvents.{QuietEventsKeepInvariant};
ghost use Rattle.exactly_once.specs.Induction.EventKeeps.{EventsKeepInvariant};
ghost use Rattle.exactly_once.specs.Theorem.ExactlyOnce.{EventsAreExact, ExactlyOnce};
ghost use Rattle.exactly_once.specs.FurtherLaws.ModesAndFloors.{ModesExclude, FloorsPass};
ghost use Rattle.exactly_once.specs.FurtherLaws.StoreBound.{HeldOnce};
ghost use Rattle.exactly_once.specs.Induction.MicroSteps.{MicroStepsKeepInvariant};
ghost use Rattle.exactly_once.specs.FurtherLaws.DecidedAnswers.{DecidedAnswersStay};
ghost use Rattle.exactly_once.specs.FurtherLaws.AnyEvents.{AfterEvents, DuplicatesAgree};
ghost use Rattle.exactly_once.specs.Induction.StepKeeps.{MissesKeepInvariant, MovesKeepInvariant};
ghost use Rattle.exactly_once.specs.Induction.NamedValue.{StoringKeepsInvariant};
ghost use Rattle.exactly_once.specs.Induction.OpeningHolds.{OpeningHolds, HoldingIsReported};
ghost use Rattle.exactly_once.specs.Induction.OrderedRecord.{OrderingKeepsInvariant};
ghost use Rattle.exactly_once.specs.Induction.ReportsAgree.{ReportsAgree};
ghost use Rattle.exactly_once.specs.Induction.SoundLogsRun.{SoundRuns};
ghost use Rattle.exactly_once.specs.FurtherLaws.StepRecords.{StepsInOrder};
ghost use Rattle.exactly_once.specs.Induction.VersionKeeps.{DecidedReadsStay, PuttingKeepsInvariant};

/// Of two invocations, one of mode R and one of mode W, the one whose Init comes first has ended before the other begins.
pub fn modes_exclude()
    ensures { ModesExclude }
{}

/// Each invocation that began below the floor has ended.
pub fn floors_pass()
    ensures { FloorsPass }
{}

/// The failure-free execution of a sound log's turns is defined, and comes to what the log and the store say.
pub fn sound_runs()
    ensures { SoundRuns }
{}

/// The live step records of an invocation have the places 0, 1, .. in ascending seqnums.
pub fn steps_in_order()
    ensures { StepsInOrder }
{}

/// The report of a machine with a sound log is that of the failure-free execution of its turns.
pub fn reports_agree()
    ensures { ReportsAgree }
{}

/// The small changes that events are made of keep the invariant.
pub fn micro_steps_keep_invariant()
    ensures { MicroStepsKeepInvariant }
{}

/// Ordering a record that was sent keeps the invariant.
pub fn ordering_keeps_invariant()
    ensures { OrderingKeepsInvariant }
{}

/// The invariant holds at the opening.
pub fn opening_holds()
    ensures { OpeningHolds }
{}

/// Where the invariant holds, the machine's report is that of the failure-free execution of its turns.
pub fn holding_is_reported()
    ensures { HoldingIsReported }
{}

/// Storing the value of an asked write under its name keeps the invariant.
pub fn storing_keeps_invariant()
    ensures { StoringKeepsInvariant }
{}

/// Events that send and order nothing keep the invariant.
pub fn quiet_events_keep_invariant()
    ensures { QuietEventsKeepInvariant }
{}

/// Putting in the version of an attempt's next free write keeps the invariant.
pub fn putting_keeps_invariant()
    ensures { PuttingKeepsInvariant }
{}

/// A step of an attempt keeps the invariant, and leaves the attempt where the records put it.
pub fn moves_keep_invariant()
    ensures { MovesKeepInvariant }
{}

/// The store call of a step whose answer is lost keeps the invariant.
pub fn misses_keep_invariant()
    ensures { MissesKeepInvariant }
{}

/// Every event that a plan can have keeps the invariant of the machine.
pub fn events_keep_invariant()
    ensures { EventsKeepInvariant }
{}

/// **Exactly once, for any events in any number**: from the opening, the failure-free execution of the turns is defined, and its
/// results, objects, queues and store names are those of the machine's report.
pub fn events_are_exact()
    ensures { EventsAreExact }
{}

/// **Exactly once**, for every plan.
pub fn exactly_once()
    ensures { ExactlyOnce }
{}

/// Duplicates agree: whatever happened, the answers of each attempt are the first ones that its invocation has decided.
pub fn duplicates_agree()
    ensures { AfterEvents DuplicatesAgree }
{}

/// Ended invocations are left alone: once an invocation has its Finish, no step of an attempt of it, and no store call whose
/// answer is lost, changes a version, the fence of a key, the floor or a named value, but for a value that stands in its record
/// too; no step record of it that was sent becomes live; its Finish is its last live step record, also where one cut orders
/// others behind it; and only such attempts are told that the store has dropped something.
pub fn ended_have_no_effect()
    ensures { AfterEvents EndedHaveNoEffect }
{}

/// Economy of the log: an invocation that has ended has two step records, and one for each operation that isn't free. In mode T
/// none is free, in mode R reads of objects are, and in mode W writes are, but for those that were late.
pub fn ended_are_economic()
    ensures { AfterEvents EndedAreEconomic }
{}

/// What the store holds: each key, version and name once, no version below the floor, and no named value whose write lies below
/// the floor; so of an invocation with its Finish below the floor no named value at all.
pub fn held_once()
    ensures { AfterEvents HeldOnce }
{}

/// Decided answers stay: an event that puts in a version orders nothing, and changes no answer that an invocation has decided,
/// but for the value of a marker, its last step record, that no attempt has adopted.
pub fn decided_answers_stay()
    ensures { AfterEvents DecidedAnswersStay }
{}

/// Decided reads stay: a version put in at an old position changes no decided answer but that of a marker that nobody has
/// adopted.
pub fn decided_reads_stay()
    ensures { DecidedReadsStay }
{}
