//! The texts of plans and of turns.

ghost use Rattle.std.specs.Prelude.{◌≡◌, ◌^◌, ◌<◌, length};
ghost use Rattle.line_text.specs.Faults.{Gives, AddGives};
ghost use Rattle.line_text.specs.Texts.{read_text_line};
ghost use Rattle.plan_lang.specs.Texts.{plan_line, head_fault, plan_of_parts, plan_or_fault, plan_at_end, plan_of};
ghost use Rattle.plan_lang.specs.Turns.{turn_draft_line, turns_or_fault, turns_at_end, turns_of};

use crate::bodies::PlanBody;
use crate::drafts::{PlanDraft, TurnDraft};
use crate::heads::Head;
use crate::naming::first_fault_of;
use boki_types::{Item, Kind, Plan, Program, Turn, TurnText};
use lb_base::List;
use line_text::{TextFault as PlanFault, fault_of_unended_line, fault_on_line, split_line};
use std::alloc::Global;

/// The most bytes of a plan's text.
const MOST_PLAN: usize = 1048576;
/// The most bytes of a text of turns.
const MOST_TURNS: usize = 16777216;

fn add_plan_line(
    alloc: Global,
    draft: PlanDraft,
    number: u64,
    line: &[u8],
) -> Result<PlanDraft, PlanFault>
    requires { length draft.head.draft.functions < 2 ^ 32 }
    ensures { AddGives result number (read_text_line plan_line 65536 number line.now draft) }
{
    match draft.add_line(alloc, number, line) {
        Ok(draft) => Ok(draft),
        Err(fault) => Err(fault_on_line(number, fault)),
    }
}

/// The plan of a head and items.
fn plan_of_head(head: Head, items: List<Item>) -> Plan
    ensures { result ≡ plan_of_parts head items }
{
    let Head {
        expected: _,
        setup,
        objects,
        lines: _,
        draft,
    } = head;
    Plan {
        setup,
        objects,
        program: Program {
            functions: draft.functions,
        },
        items,
    }
}

/// The plan of a head and items, where the second pass finds nothing.
fn plan_or_name_fault(
    alloc: Global,
    head: Head,
    items: List<Item>,
    fault: Option<(u64, Kind)>,
) -> Result<Plan, PlanFault>
    ensures { Gives result (plan_or_fault head items (head_fault head fault)) }
{
    match first_fault_of(alloc, &head, fault) {
        Ok(None) => Ok(plan_of_head(head, items)),
        Ok(Some((line, kind))) => {
            drop((head, items));
            Err(PlanFault::Refused { line, kind })
        }
        Err(_) => {
            drop((head, items));
            Err(PlanFault::Memory)
        }
    }
}

/// The plan of lines that were read to the end of their text, behind the line before this number.
fn finish_plan(alloc: Global, number: u64, draft: PlanDraft) -> Result<Plan, PlanFault>
    ensures { Gives result (plan_at_end number draft) }
{
    let PlanDraft { head, body } = draft;
    let PlanBody {
        items,
        count: _,
        block,
        fault,
    } = body;
    if head.has_ended() && block.is_none() {
        plan_or_name_fault(alloc, head, items, fault)
    } else {
        drop((head, items));
        Err(PlanFault::Refused {
            line: number,
            kind: Kind::End,
        })
    }
}

/// The plan that a text spells.
///
/// A text of more than 1,048,576 bytes is refused with line 0 and `Length`. Else it is refused with the number of the first line
/// that has a fault, and the first kind that applies to the line: `Lines`, it stands behind line 65,536; `Utf8`, it isn't UTF-8;
/// `Truncated`, it is the last and has no line feed; `Syntax`, it isn't in the grammar at its place; `Range`, a number, text, name
/// or count is out of range; `Deep`, the limits of nesting or of operands are passed; `Events`, more than 200,000 events are
/// counted, which for a repeat is found at its `end`. Where no line has such a fault, `End` comes where the text stops before
/// `events`, in a function or in a repeat, with the number behind the last line. Else names and numbers of arguments are looked at,
/// from the first line again: `Name`, a function, an object or a parameter is given twice, a function isn't known, or a variable is
/// neither a parameter nor set by a line above in its function; `Arity`, a call has another number of arguments than the function.
pub fn parse_plan(alloc: Global, bytes: &[u8]) -> Result<Plan, PlanFault>
    ensures { Gives result (plan_of bytes.now) }
{
    if bytes.len() > MOST_PLAN {
        return Err(PlanFault::Refused {
            line: 0,
            kind: Kind::Length,
        });
    }
    let mut draft = PlanDraft::new(alloc);
    let mut rest = bytes;
    let mut number = 1;
    'lines: while let Some((line, after)) = split_line(rest) {
        draft = add_plan_line(alloc, draft, number, line)?;
        number += 1;
        rest = after;
    }
    if !rest.is_empty() {
        return Err(PlanFault::Refused {
            line: number,
            kind: fault_of_unended_line(65536, number, rest),
        });
    }
    finish_plan(alloc, number, draft)
}

fn add_turn_line(
    alloc: Global,
    draft: TurnDraft,
    number: u64,
    line: &[u8],
) -> Result<TurnDraft, PlanFault>
    requires { length draft.head.draft.functions < 2 ^ 32 }
    ensures { AddGives result number (read_text_line turn_draft_line 300000 number line.now draft) }
{
    match draft.add_line(alloc, number, line) {
        Ok(draft) => Ok(draft),
        Err(fault) => Err(fault_on_line(number, fault)),
    }
}

/// The turns behind a head, where the second pass finds nothing.
fn turns_or_name_fault(
    alloc: Global,
    head: Head,
    turns: List<(u64, Turn)>,
    fault: Option<(u64, Kind)>,
) -> Result<TurnText, PlanFault>
    ensures { Gives result (turns_or_fault head turns (head_fault head fault)) }
{
    match first_fault_of(alloc, &head, fault) {
        Ok(None) => Ok(TurnText {
            plan: plan_of_head(head, List::new(alloc)),
            turns,
        }),
        Ok(Some((line, kind))) => {
            drop((head, turns));
            Err(PlanFault::Refused { line, kind })
        }
        Err(_) => {
            drop((head, turns));
            Err(PlanFault::Memory)
        }
    }
}

/// The turns of lines that were read to the end of their text, behind the line before this number.
fn finish_turns(alloc: Global, number: u64, draft: TurnDraft) -> Result<TurnText, PlanFault>
    ensures { Gives result (turns_at_end number draft) }
{
    let TurnDraft { head, turns, fault } = draft;
    if head.has_ended() {
        turns_or_name_fault(alloc, head, turns, fault)
    } else {
        drop((head, turns));
        Err(PlanFault::Refused {
            line: number,
            kind: Kind::End,
        })
    }
}

/// The turns and the plan's head that a text spells; the plan has no events, and each turn has the number of its line, from 1.
///
/// The text is the head of a plan's text, a line `turns`, and a line for each turn: `turn submit Q F(VALUE, ..)`, `turn go P N` or
/// `turn end P`. It is refused as [`parse_plan`] says, with a limit of 16,777,216 bytes and 300,000 lines, and without the kind
/// `Events`; the number of operations of a turn is from 0 to 200,000.
pub fn parse_turns(alloc: Global, bytes: &[u8]) -> Result<TurnText, PlanFault>
    ensures { Gives result (turns_of bytes.now) }
{
    if bytes.len() > MOST_TURNS {
        return Err(PlanFault::Refused {
            line: 0,
            kind: Kind::Length,
        });
    }
    let mut draft = TurnDraft::new(alloc);
    let mut rest = bytes;
    let mut number = 1;
    'lines: while let Some((line, after)) = split_line(rest) {
        draft = add_turn_line(alloc, draft, number, line)?;
        number += 1;
        rest = after;
    }
    if !rest.is_empty() {
        return Err(PlanFault::Refused {
            line: number,
            kind: fault_of_unended_line(300000, number, rest),
        });
    }
    finish_turns(alloc, number, draft)
}
