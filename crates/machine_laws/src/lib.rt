//! Laws of the machine that the runtime's code needs, apart from any code: what it owes to the calls of the layers
//! below where it runs a step, and what spares it a search. Each function here has an empty body, and a law as its
//! contract; the definitions are in `specs/`. Each law is of any machine that holds the invariant, `MachineHolds` of
//! `exactly_once`, but those on texts, which have an invariant of their own, and those of any events that a plan can
//! have (`AfterEvents`).
#![tactic(auto)]

ghost use Rattle.std.specs.Prelude.{ℕ};
ghost use Rattle.boki_types.specs.declared.body.Body.{Body};
ghost use Rattle.exactly_once.specs.FurtherLaws.AnyEvents.{AfterEvents};
ghost use Rattle.machine_laws.specs.Adopts.{AdoptsItsAsk};
ghost use Rattle.machine_laws.specs.Attempts.{FoundAreAmong, FloorIsWithin};
ghost use Rattle.machine_laws.specs.Children.{ChildrenHavePaths};
ghost use Rattle.machine_laws.specs.Ends.{LastIsTagged, HoldingEndsLast};
ghost use Rattle.machine_laws.specs.Kept.{HoldingKeepsWrites, EventsKeepWrites};
ghost use Rattle.machine_laws.specs.Laws.{WhereHolding};
ghost use Rattle.machine_laws.specs.Open.{OpenAreAbove};
ghost use Rattle.machine_laws.specs.Own.{HoldingAreWellFormed};
ghost use Rattle.machine_laws.specs.Scripts.{DecidedAreScripts};
ghost use Rattle.machine_laws.specs.Settled.{SettledIsBelow};
ghost use Rattle.machine_laws.specs.Texts.{OpeningIsText, EventsKeepTexts, EnginesSeeTexts};
ghost use Rattle.machine_laws.specs.Trims.{OpeningIsChosen, EventsKeepChosen, ChosenCount, EveryTrimCounts};
ghost use Rattle.machine_laws.specs.Views.{ViewsReadTheWhole, RunningSeeTheirCursor};

/// An attempt that is found under a number is one of the machine's.
pub fn found_are_among()
    ensures { FoundAreAmong }
{}

/// The store's floor is at most the newest seqnum.
pub fn floor_is_within()
    ensures { FloorIsWithin }
{}

/// A child that a script spawns or joins has a path.
pub fn children_have_paths()
    ensures { ChildrenHavePaths }
{}

/// Each record that was ever sent carries the tags of what it says, and has its paths in range.
pub fn holding_are_own()
    ensures { HoldingAreWellFormed }
{}

/// A read of an object by what an engine sees, at a position that it covers, answers what it would over the whole
/// list.
pub fn views_read_the_whole()
    ensures { ViewsReadTheWhole }
{}

/// An attempt that runs has its cursor up to its engine's position.
pub fn running_see_their_cursor()
    ensures { RunningSeeTheirCursor }
{}

/// An attempt adopts what it asks: a record at its place with the index of its next operation is of that operation,
/// field by field, and what it answers is of the operation's kind, so that the attempt's frame takes it.
pub fn adopts_its_ask()
    ensures { AdoptsItsAsk }
{}

/// An attempt whose next write has the name of a live logged write has its cursor below that write; so where the name
/// is settled, below the floor, as the store needs to be sure of.
pub fn settled_is_below()
    ensures { SettledIsBelow }
{}

/// Each live logged write has its value, in its record or under its name, and no two have one name.
pub fn holding_keeps_writes()
    ensures { HoldingKeepsWrites }
{}

/// And so behind every event that a plan can have.
pub fn events_keep_writes()
    ensures { EventsKeepWrites }
{}

/// The newest record of a tag is the one at the tag's last place.
pub fn last_is_tagged()
    ensures { LastIsTagged Body }
{}

/// A Finish is the last live step record of its path, so the result of a path is that in the last record of its step
/// tag.
pub fn holding_ends_last()
    ensures { HoldingEndsLast }
{}

/// The step records of an invocation that hasn't ended lie at or above the store's floor.
pub fn open_are_above()
    ensures { OpenAreAbove }
{}

/// At the opening all that users wrote is text.
pub fn opening_is_text()
    ensures { OpeningIsText }
{}

/// Every event keeps what users wrote text, where its own text is one.
pub fn events_keep_texts()
    ensures { EventsKeepTexts }
{}

/// What an engine answers of users' records and of auxiliary data is text.
pub fn engines_see_texts()
    ensures { EnginesSeeTexts }
{}

/// **Decided answers are the script's.** Each answers the operation that the invocation's script asks after the answers
/// before it, and is of its kind. Each live step record of the invocation has as its index the number of answers
/// decided before it, plus 1, and is of what the script asks after them.
pub fn decided_are_scripts()
    ensures { AfterEvents DecidedAreScripts }
{}

/// The same, wherever the invariant holds.
pub fn holding_decide_scripts()
    ensures { WhereHolding DecidedAreScripts }
{}

/// At the opening there is no Trim.
pub fn opening_is_chosen()
    ensures { OpeningIsChosen }
{}

/// Every event keeps it that the bound of each Trim was chosen by an engine's view.
pub fn events_keep_chosen()
    ensures { EventsKeepChosen }
{}

/// So each Trim counts, in the whole list and in what an engine sees: the floor is the greatest of their bounds.
pub fn chosen_count()
    ensures { ChosenCount }
{}

/// **Every Trim counts**, wherever it was ordered, in the machine after any events that a plan can have.
pub fn trims_count()
    ensures { AfterEvents EveryTrimCounts }
{}
