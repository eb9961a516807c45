//! What was read of a text so far.

ghost use Rattle.std.specs.Prelude.{◌≡◌, ◌^◌, ◌<◌, length};
ghost use Rattle.line_text.specs.Faults.{LineGives};
ghost use Rattle.plan_lang.specs.Texts.{plan_line, empty_plan_draft};
ghost use Rattle.line_text.specs.Texts.{read_text_line};
ghost use Rattle.plan_lang.specs.Turns.{turn_draft_line, with_turn, empty_turn_draft};

use crate::bodies::PlanBody;
use crate::heads::Head;
use crate::turns::{TurnEntry, read_turn};
use boki_types::{Kind, Turn};
use lb_base::List;
use line_text::{Checked, LexedLine, LineFault, Tokens, earlier_fault, lex_text_line};
use std::alloc::Global;

/// What was read of a plan.
#[derive(Drop)]
pub struct PlanDraft {
    pub head: Head,
    pub body: PlanBody,
}

/// What was read of a text of turns: the head, each turn with its line, and the first call that is wrong, by its line.
#[derive(Drop)]
pub struct TurnDraft {
    pub head: Head,
    pub turns: List<(u64, Turn)>,
    pub fault: Option<(u64, Kind)>,
}

impl PlanDraft {
    /// Nothing read yet.
    pub(crate) fn new(alloc: Global) -> PlanDraft
        ensures { result ≡ empty_plan_draft }
    {
        PlanDraft {
            head: Head::new(alloc),
            body: PlanBody::new(alloc),
        }
    }

    /// With a line that isn't skipped, of these tokens and with this number.
    fn add_tokens(self, alloc: Global, number: u64, tokens: Tokens) -> Result<PlanDraft, LineFault>
        requires { length self.head.draft.functions < 2 ^ 32 }
        ensures { LineGives result (plan_line number tokens self) }
    {
        let PlanDraft { head, body } = self;
        if head.has_ended() {
            let functions = head.draft.functions.as_slice();
            match body.add_line(alloc, &head.setup, functions, number, tokens) {
                Ok(body) => Ok(PlanDraft { head, body }),
                Err(fault) => {
                    drop(head);
                    Err(fault)
                }
            }
        } else {
            match head.add_line(alloc, "events", number, tokens) {
                Ok(head) => Ok(PlanDraft { head, body }),
                Err(fault) => {
                    drop(body);
                    Err(fault)
                }
            }
        }
    }

    /// With a line of the text, given without its line feed.
    pub(crate) fn add_line(
        self,
        alloc: Global,
        number: u64,
        line: &[u8],
    ) -> Result<PlanDraft, LineFault>
        requires { length self.head.draft.functions < 2 ^ 32 }
        ensures { LineGives result (read_text_line plan_line 65536 number line.now self) }
    {
        match lex_text_line(alloc, 65536, number, line) {
            Ok(LexedLine::Skipped) => Ok(self),
            Ok(LexedLine::Tokens(tokens)) => self.add_tokens(alloc, number, tokens),
            Ok(LexedLine::Invalid) => {
                drop(self);
                Err(LineFault::Refused(Kind::Syntax))
            }
            Err(fault) => {
                drop(self);
                Err(fault)
            }
        }
    }
}

impl TurnDraft {
    /// Nothing read yet.
    pub(crate) fn new(alloc: Global) -> TurnDraft
        ensures { result ≡ empty_turn_draft }
    {
        TurnDraft {
            head: Head::new(alloc),
            turns: List::new(alloc),
            fault: None,
        }
    }

    /// With the turn of a line, where it is one.
    fn add_turn(
        self,
        number: u64,
        found: Option<Checked<TurnEntry>>,
    ) -> Result<TurnDraft, LineFault>
        ensures { LineGives result (with_turn number self found) }
    {
        match found {
            None => {
                drop(self);
                Err(LineFault::Refused(Kind::Syntax))
            }
            Some(Checked::OutOfRange) => {
                drop(self);
                Err(LineFault::Refused(Kind::Range))
            }
            Some(Checked::TooDeep) => {
                drop(self);
                Err(LineFault::Refused(Kind::Deep))
            }
            Some(Checked::Valid(entry)) => {
                let TurnDraft {
                    head,
                    mut turns,
                    fault,
                } = self;
                let TurnEntry { turn, fault: found } = entry;
                turns.push((number, turn))?;
                let fault = earlier_fault(fault, number, found);
                Ok(TurnDraft { head, turns, fault })
            }
        }
    }

    /// With a line that isn't skipped, of these tokens and with this number.
    fn add_tokens(self, alloc: Global, number: u64, tokens: Tokens) -> Result<TurnDraft, LineFault>
        requires { length self.head.draft.functions < 2 ^ 32 }
        ensures { LineGives result (turn_draft_line number tokens self) }
    {
        if self.head.has_ended() {
            match read_turn(alloc, tokens, self.head.draft.functions.as_slice()) {
                Ok(found) => self.add_turn(number, found),
                Err(_) => {
                    drop(self);
                    Err(LineFault::Memory)
                }
            }
        } else {
            let TurnDraft { head, turns, fault } = self;
            match head.add_line(alloc, "turns", number, tokens) {
                Ok(head) => Ok(TurnDraft { head, turns, fault }),
                Err(fault) => {
                    drop(turns);
                    Err(fault)
                }
            }
        }
    }

    /// With a line of the text, given without its line feed.
    pub(crate) fn add_line(
        self,
        alloc: Global,
        number: u64,
        line: &[u8],
    ) -> Result<TurnDraft, LineFault>
        requires { length self.head.draft.functions < 2 ^ 32 }
        ensures { LineGives result (read_text_line turn_draft_line 300000 number line.now self) }
    {
        match lex_text_line(alloc, 300000, number, line) {
            Ok(LexedLine::Skipped) => Ok(self),
            Ok(LexedLine::Tokens(tokens)) => self.add_tokens(alloc, number, tokens),
            Ok(LexedLine::Invalid) => {
                drop(self);
                Err(LineFault::Refused(Kind::Syntax))
            }
            Err(fault) => {
                drop(self);
                Err(fault)
            }
        }
    }
}
