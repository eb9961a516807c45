//! What holds of the JSON form of reports.

ghost use Rattle.std.specs.Prelude.{◌≡◌, ◌++◌, ℕ, List, codes};
ghost use Rattle.boki_types.specs.declared.program.Function.{Function};
ghost use Rattle.boki_types.specs.declared.turn.Turn.{Turn};
ghost use Rattle.plan_lang.specs.Printed.{bare_turn_text, turn_text};
ghost use Rattle.serde_json.specs.Data.{Data, no_members};
ghost use Rattle.report_json.specs.Json.{with_members, IsInOrder};

/// A turn's line is the word `turn` with a space, and then what its JSON form keeps.
pub fn turn_begins_with_its_word()
    ensures { (fs : List Function) (t : Turn)
        → turn_text fs t ≡ codes "turn " ++ bare_turn_text fs t }
{}

/// The names of an object that is filled stand in the order of their bytes, each once.
pub fn names_are_in_order()
    ensures { (ps : List (List ℕ × Data)) → IsInOrder (with_members no_members ps) }
{}
