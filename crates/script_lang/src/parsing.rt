//! The text of functions.

ghost use Rattle.std.specs.Prelude.{◌≡◌, ◌≤◌, IfOk, IsTrue};
ghost use Rattle.boki_model.specs.Plans.{is_program};
ghost use Rattle.line_text.specs.Lines.{lexed_line};
ghost use Rattle.script_lang.specs.Functions.{take_line};
ghost use Rattle.line_text.specs.Faults.{Gives, AddGives};
ghost use Rattle.script_lang.specs.Texts.{program_of, program_at_end};

use crate::draft::{Draft, Stage};
use crate::names::first_name_fault;
use boki_types::{Kind, Program};
use line_text::{TextFault as ScriptFault, fault_on_line, read_line, split_text};
use std::alloc::Global;

/// The draft with a line of a text.
fn add_text(alloc: Global, draft: Draft, number: u64, line: &str) -> Result<Draft, ScriptFault>
    ensures { AddGives result number (take_line number (lexed_line line.now) draft) }
{
    let Ok(line) = read_line(alloc, line) else {
        drop(draft);
        return Err(ScriptFault::Memory);
    };
    match draft.take_line(alloc, number, line) {
        Ok(draft) => Ok(draft),
        Err(fault) => Err(fault_on_line(number, fault)),
    }
}

/// The program of functions that were read to the end of their text, behind the line before this number.
fn finish_draft(alloc: Global, number: u64, draft: Draft) -> Result<Program, ScriptFault>
    ensures { Gives result (program_at_end number draft.functions draft.line_numbers draft.stage) }
{
    let Draft {
        functions,
        line_numbers,
        stage,
    } = draft;
    match stage {
        Stage::Inside(_, _, _) => Err(ScriptFault::Refused {
            line: number,
            kind: Kind::End,
        }),
        Stage::Between => match first_name_fault(
            alloc,
            functions.as_slice(),
            line_numbers.as_slice(),
        )? {
            Some((line, kind)) => Err(ScriptFault::Refused { line, kind }),
            None => Ok(Program { functions }),
        },
    }
}

/// The program that a text spells, line by line.
fn read_functions(alloc: Global, text: &str, first: u64) -> Result<Program, ScriptFault>
    requires { first ≤ 300000 }
    ensures { Gives result (program_of first text.now) }
{
    let mut draft = Draft::new(alloc);
    let mut rest = text;
    let mut number = first;
    'lines: while let Some((line, after)) = split_text(rest, b'\n') {
        draft = add_text(alloc, draft, number, line)?;
        number += 1;
        rest = after;
    }
    if !rest.is_empty() {
        return Err(ScriptFault::Refused {
            line: number,
            kind: Kind::Truncated,
        });
    }
    finish_draft(alloc, number, draft)
}

/// The program that a text spells; `first` is the number of the text's first line. The program is within all limits, its blocks
/// are closed, and its names and numbers of arguments are right.
///
/// It needs a `first` from 1 to 300,000. A text is refused with the number of the first line that has a fault, and the first kind
/// that applies to the whole line: `Truncated`, the last line has no line feed; `Syntax`, the line isn't in the grammar at its
/// place; `Range`, a number, text, name or count is out of range; `Deep`, the limits of nesting or of operands are passed. Where no
/// line has such a fault, `End` comes where the text stops in a function, with the number behind the last line. Else names and
/// numbers of arguments are looked at, from the first line again: `Name`, a function or a parameter is given twice, or a function
/// isn't known, or a variable is neither a parameter nor set by a line above; `Arity`, a call has another number of arguments than
/// the function.
pub fn parse_functions(alloc: Global, text: &str, first: u64) -> Result<Program, ScriptFault>
    requires from { 1 ≤ first }
    requires to { first ≤ 300000 }
    ensures exact { Gives result (program_of first text.now) }
    ensures program { IfOk result (λ p. IsTrue (is_program p)) }
{
    read_functions(alloc, text, first)
}
