//! The text of a run with nemeses, line by line: what each event of the plan answered, and what was added behind it. Lines are
//! added to a buffer that the caller keeps from line to line.
#![tactic(auto)]

ghost use Rattle.std.specs.Prelude.{◌≡◌, [], IfOk, OnErr, OnOk};
ghost use Rattle.std.specs.String.{string_bytes};
ghost use Rattle.run_lines.specs.Lines.{Appends};
ghost use Rattle.output_lines.specs.Outputs.{output_text, ignored_text};
ghost use Rattle.run_with.specs.Runs.{Planned, Added};

use boki_types::{Event, Line, Program};
use lb_base::{Memory, Words};
use plan_lang::print_event;
use run_lines::push_line;
use std::alloc::Global;

/// Takes all out of a buffer after an error.
fn clear_on_err(out: &mut String, pushed: Result<(), Memory>) -> Result<(), Memory>
    ensures same { result ≡ pushed }
    ensures ok { OnOk result (string_bytes out.new ≡ string_bytes out.old) }
    ensures err { OnErr result (string_bytes out.new ≡ []) }
{
    if pushed.is_err() {
        out.clear();
    }
    pushed
}

fn push_planned_parts(
    out: &mut String,
    n: u64,
    line: &Line,
    program: &Program,
) -> Result<(), Memory>
    ensures { OnOk result (Appends out.old (output_text program.now.functions (Planned n line.now)) out.new) }
{
    write!(out, "{n} ")?;
    push_line(out, line, program)?;
    Ok(out.push_str("\n")?)
}

fn push_added_parts(
    alloc: Global,
    out: &mut String,
    n: u64,
    place: u32,
    event: &Event,
    line: &Line,
    program: &Program,
) -> Result<(), Memory>
    ensures { OnOk result (Appends out.old (output_text program.now.functions (Added n place event.now line.now)) out.new) }
{
    let event = print_event(alloc, event, program)?;
    write!(out, "{n}+{place} {event}: ")?;
    push_line(out, line, program)?;
    Ok(out.push_str("\n")?)
}

fn push_ignored_parts(out: &mut String, n: u64, place: u32) -> Result<(), Memory>
    ensures { OnOk result (Appends out.old (ignored_text n place) out.new) }
{
    Ok(write!(out, "{n}+{place} ignored\n")?)
}

/// Adds the line `N LINE` of the plan's event with the number N, with its line feed.
///
/// After `Memory` the buffer is empty.
pub fn push_planned(out: &mut String, n: u64, line: &Line, program: &Program) -> Result<(), Memory>
    ensures ok { OnOk result (Appends out.old (output_text program.now.functions (Planned n line.now)) out.new) }
    ensures err { OnErr result (string_bytes out.new ≡ []) }
{
    let pushed = push_planned_parts(out, n, line, program);
    clear_on_err(out, pushed)
}

/// Adds the line `N+I EVENT: LINE` of an event that the nemesis with the place I gave behind the event N, with its line feed.
///
/// After `Memory` the buffer is empty.
pub fn push_added(
    alloc: Global,
    out: &mut String,
    n: u64,
    place: u32,
    event: &Event,
    line: &Line,
    program: &Program,
) -> Result<(), Memory>
    ensures ok { OnOk result (Appends out.old (output_text program.now.functions (Added n place event.now line.now)) out.new) }
    ensures err { OnErr result (string_bytes out.new ≡ []) }
{
    let pushed = push_added_parts(alloc, out, n, place, event, line, program);
    clear_on_err(out, pushed)
}

/// Adds the line `N+I ignored` of an event that the nemesis with the place I gave and that the plan can't have, with its line
/// feed.
///
/// After `Memory` the buffer is empty.
pub fn push_ignored(out: &mut String, n: u64, place: u32) -> Result<(), Memory>
    ensures ok { OnOk result (Appends out.old (ignored_text n place) out.new) }
    ensures err { OnErr result (string_bytes out.new ≡ []) }
{
    let pushed = push_ignored_parts(out, n, place);
    clear_on_err(out, pushed)
}

/// The line that [`push_planned`] adds.
pub fn print_planned(alloc: Global, n: u64, line: &Line, program: &Program) -> Result<Words, Memory>
    ensures { IfOk result (λ w. w ≡ output_text program.now.functions (Planned n line.now)) }
{
    let mut out = String::new(alloc);
    push_planned(&mut out, n, line, program)?;
    Ok(Words::from_string(out))
}

/// The line that [`push_added`] adds.
pub fn print_added(
    alloc: Global,
    n: u64,
    place: u32,
    event: &Event,
    line: &Line,
    program: &Program,
) -> Result<Words, Memory>
    ensures { IfOk result (λ w. w ≡ output_text program.now.functions (Added n place event.now line.now)) }
{
    let mut out = String::new(alloc);
    push_added(alloc, &mut out, n, place, event, line, program)?;
    Ok(Words::from_string(out))
}

/// The line that [`push_ignored`] adds.
pub fn print_ignored(alloc: Global, n: u64, place: u32) -> Result<Words, Memory>
    ensures { IfOk result (λ w. w ≡ ignored_text n place) }
{
    let mut out = String::new(alloc);
    push_ignored(&mut out, n, place)?;
    Ok(Words::from_string(out))
}
