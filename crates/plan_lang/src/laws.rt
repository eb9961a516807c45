//! What holds of the texts of plans.

ghost use Rattle.std.specs.Prelude.{◌≡◌, ◌≤◌, ℕ, List, length, Some, None, Ok, option_and_then, true};
ghost use Rattle.boki_types.specs.declared.event.Event.{Event};
ghost use Rattle.boki_types.specs.declared.plan.Plan.{Plan};
ghost use Rattle.boki_types.specs.declared.plan.Setup.{Setup};
ghost use Rattle.boki_types.specs.declared.program.Function.{Function};
ghost use Rattle.boki_types.specs.declared.turn.Turn.{Turn};
ghost use Rattle.boki_types.specs.declared.turn.TurnText.{TurnText};
ghost use Rattle.boki_model.specs.Plans.{is_setup, is_program, is_event, is_plan};
ghost use Rattle.line_text.specs.declared.checked.Checked.TheVariants.{Valid};
ghost use Rattle.line_text.specs.declared.token.Token.{Token};
ghost use Rattle.line_text.specs.Tokens.{tokens_in};
ghost use Rattle.plan_lang.specs.declared.events.Entry.{Entry};
ghost use Rattle.plan_lang.specs.declared.turns.TurnEntry.{TurnEntry};
ghost use Rattle.plan_lang.specs.Events.{entry_of};
ghost use Rattle.plan_lang.specs.Printed.{event_text, plan_text, turn_text};
ghost use Rattle.line_text.specs.Texts.{line_count};
ghost use Rattle.plan_lang.specs.Texts.{plan_of};
ghost use Rattle.plan_lang.specs.TurnTexts.{is_turn, turns_text, with_canonical_lines};
ghost use Rattle.plan_lang.specs.Turns.{turn_of, turns_of};
ghost use Rattle.plan_lang.specs.Typed.{is_typed};

/// An event that is read below a setup and functions, and whose call has no fault, is one that a plan with these can have.
pub fn parsed_event_is_valid()
    ensures { (setup : Setup) (fs : List Function) (ts : List Token) (x : Entry) → entry_of setup fs ts ≡ Some (Valid x) → x.fault ≡ None → is_event setup fs x.event ≡ true }
{}

/// The plan that a text spells is within all limits, and its names and numbers of arguments are right.
pub fn parsed_plan_is_valid()
    ensures { (text : List ℕ) (plan : Plan) → plan_of text ≡ Ok plan → is_plan plan ≡ true }
{}

/// The printed line of an event that a plan with this setup and these functions can have is read again as this event.
pub fn printed_event_parses_back()
    ensures { (setup : Setup) (fs : List Function) (x : Event) → is_setup setup ≡ true → is_program (record { functions = fs }) ≡ true → is_event setup fs x ≡ true → option_and_then (entry_of setup fs) (tokens_in (event_text fs x)) ≡ Some (Valid (record { event = x; fault = None })) }
{}

/// An event whose printed line is read below a setup and functions, and whose call has no fault there, is one that a plan with these can have.
pub fn event_parsed_back_is_valid()
    ensures { (setup : Setup) (fs : List Function) (e : Event) (x : Entry) → is_program (record { functions = fs }) ≡ true → is_typed e ≡ true → option_and_then (entry_of setup fs) (tokens_in (event_text fs e)) ≡ Some (Valid x) → x.fault ≡ None → is_event setup fs e ≡ true }
{}

/// The canonical text of a plan that a text spells is read again as this plan, where it is within the limits of a text.
pub fn printed_plan_parses_back()
    ensures { (text : List ℕ) (plan : Plan) → plan_of text ≡ Ok plan → length (plan_text plan) ≤ 1048576 → line_count (plan_text plan) ≤ 65536 → plan_of (plan_text plan) ≡ Ok plan }
{}

/// The printed line of a turn that a text with these functions can have is read again as this turn.
pub fn printed_turn_parses_back()
    ensures { (fs : List Function) (x : Turn) → is_program (record { functions = fs }) ≡ true → is_turn fs x ≡ true → option_and_then (turn_of fs) (tokens_in (turn_text fs x)) ≡ Some (Valid (record { turn = x; fault = None })) }
{}

/// A turn that is read below functions, and whose call has no fault, is one that a text with these functions can have.
pub fn parsed_turn_is_valid()
    ensures { (fs : List Function) (ts : List Token) (x : TurnEntry) → turn_of fs ts ≡ Some (Valid x) → x.fault ≡ None → is_turn fs x.turn ≡ true }
{}

/// The canonical text of turns that a text spells is read again as these turns, each with the number of its line there, where it is within the limits of a text.
pub fn printed_turns_parse_back()
    ensures { (text : List ℕ) (t : TurnText) → turns_of text ≡ Ok t → length (turns_text t) ≤ 16777216 → line_count (turns_text t) ≤ 300000 → turns_of (turns_text t) ≡ Ok (with_canonical_lines t) }
{}
