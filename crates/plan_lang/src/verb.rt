//! Words of events.

ghost use Rattle.std.specs.Prelude.{◌≡◌};
ghost use Rattle.plan_lang.specs.Events.{verb_of as word_of};

/// The word of an event that calls no function.
#[derive(Clone, Copy, Debug, PartialEq, Eq)]
pub enum Verb {
    Copy,
    Cut,
    Catch,
    Sync,
    Restart,
    Start,
    Step,
    Kill,
    Lose,
    Miss,
    Switch,
    EndSwitch,
    Trim,
    Sweep,
    Append,
    Cond,
    Next,
    Prev,
    Tail,
    TrimTag,
    Settled,
    SetAux,
    GetAux,
    Seed,
}

/// The word that a text is.
#[tactic(auto, unfolding(crate::specs::Events::verb_of))]
pub(crate) fn verb_of_text(text: &str) -> Option<Verb>
    ensures { result ≡ word_of text.now }
{
    match text {
        "copy" => Some(Verb::Copy),
        "cut" => Some(Verb::Cut),
        "catch" => Some(Verb::Catch),
        "sync" => Some(Verb::Sync),
        "restart" => Some(Verb::Restart),
        "start" => Some(Verb::Start),
        "step" => Some(Verb::Step),
        "kill" => Some(Verb::Kill),
        "lose" => Some(Verb::Lose),
        "miss" => Some(Verb::Miss),
        "switch" => Some(Verb::Switch),
        "endswitch" => Some(Verb::EndSwitch),
        "trim" => Some(Verb::Trim),
        "sweep" => Some(Verb::Sweep),
        "append" => Some(Verb::Append),
        "cond" => Some(Verb::Cond),
        "next" => Some(Verb::Next),
        "prev" => Some(Verb::Prev),
        "tail" => Some(Verb::Tail),
        "trimtag" => Some(Verb::TrimTag),
        "settled" => Some(Verb::Settled),
        "setaux" => Some(Verb::SetAux),
        "getaux" => Some(Verb::GetAux),
        "seed" => Some(Verb::Seed),
        _ => None,
    }
}
