//! What a run printed is judged to its report. Each function here has an empty body, and a law as its contract.

ghost use Rattle.judge_call.specs.Laws.{JudgeAgrees, JudgeAgreesAlone};

/// **Judging agrees**: the head of a plan with the turns that its run printed, with any nemeses, is judged `Done` with the very
/// report of that run, where it is within the limits of a text of turns.
pub fn judge_agrees()
    ensures { JudgeAgrees }
{}

/// The same of a run without nemeses, where no more is needed than that the text is within its limits.
pub fn judge_agrees_alone()
    ensures { JudgeAgreesAlone }
{}
