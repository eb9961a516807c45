//! The text of turns and reports.

ghost use Rattle.std.specs.Prelude.{◌≡◌, ◌++◌, IfOk, codes, flat_map};
ghost use Rattle.std.specs.String.{string_bytes};
ghost use Rattle.plan_lang.specs.Printed.{bare_turn_text, turn_text, turn_line, result_line, queue_line, name_value_line, report_text};

use crate::plan_text::name_value_lines;
use crate::printing::{call_string, values_string};
use boki_types::{Function, Program, Report, Turn};
use lb_base::{List, Memory, Outcome, Path, Quoted, Value, Words};
use std::alloc::Global;

/// A turn of a run of these functions, without the word `turn` before it. A function that isn't there is printed without a name.
pub fn bare_turn_string(
    alloc: Global,
    functions: &[Function],
    turn: &Turn,
) -> Result<String, Memory>
    ensures { IfOk result (λ s. string_bytes s ≡ bare_turn_text functions.now turn.now) }
{
    match turn {
        Turn::Submit {
            request,
            function,
            args,
        } => {
            let request = *request;
            let call = call_string(alloc, functions, *function, args.as_slice())?;
            Ok(format!(in alloc; "submit {request} {call}")?)
        }
        Turn::Go { path, n } => {
            let path = *path;
            let n = *n;
            Ok(format!(in alloc; "go {path} {n}")?)
        }
        Turn::End { path } => {
            let path = *path;
            Ok(format!(in alloc; "end {path}")?)
        }
    }
}

/// A turn of a run of these functions, with the word `turn` before it, as [`bare_turn_string`] has it.
pub fn turn_string(alloc: Global, functions: &[Function], turn: &Turn) -> Result<String, Memory>
    ensures { IfOk result (λ s. string_bytes s ≡ turn_text functions.now turn.now) }
{
    let turn = bare_turn_string(alloc, functions, turn)?;
    Ok(format!(in alloc; "turn {turn}")?)
}

/// The line of a turn of a run of this program, from the word `turn` on and without its line feed. A function that the program
/// doesn't have is printed without a name.
pub fn print_turn(alloc: Global, turn: &Turn, program: &Program) -> Result<Words, Memory>
    ensures { IfOk result (λ w. w ≡ turn_text program.now.functions turn.now) }
{
    let text = turn_string(alloc, program.functions.as_slice(), turn)?;
    Ok(Words::from_string(text))
}

fn turns_string(alloc: Global, functions: &[Function], turns: &[Turn]) -> Result<String, Memory>
    ensures { IfOk result (λ s. string_bytes s ≡ flat_map (turn_line functions.now) turns.now) }
{
    let mut out = String::new(alloc);
    'turns: for turn in turns {
        let text = turn_string(alloc, functions, turn)?;
        let line = format!(in alloc; "{text}\n")?;
        out.push_str(line.as_str())?;
    }
    Ok(out)
}

fn results_string(alloc: Global, results: &[(Path, Outcome)]) -> Result<String, Memory>
    ensures { IfOk result (λ s. string_bytes s ≡ flat_map result_line results.now) }
{
    let mut out = String::new(alloc);
    'results: for found in results {
        let path = found.0;
        let outcome = &found.1;
        let line = format!(in alloc; "result {path} {outcome}\n")?;
        out.push_str(line.as_str())?;
    }
    Ok(out)
}

fn queues_string(alloc: Global, queues: &[(Words, List<Value>)]) -> Result<String, Memory>
    ensures { IfOk result (λ s. string_bytes s ≡ flat_map queue_line queues.now) }
{
    let mut out = String::new(alloc);
    'queues: for queue in queues {
        let name = Quoted(queue.0.as_str());
        let values = values_string(alloc, queue.1.as_slice())?;
        let line = format!(in alloc; "queue {name} [{values}]\n")?;
        out.push_str(line.as_str())?;
    }
    Ok(out)
}

/// The text of a report of a run of this program: the line `report`, the turns, the results, the objects, the queues, the store
/// names, and the line `end`.
pub fn print_report(alloc: Global, report: &Report, program: &Program) -> Result<Words, Memory>
    ensures { IfOk result (λ w. w ≡ report_text program.now.functions report.now) }
{
    let functions = program.functions.as_slice();
    let turns = turns_string(alloc, functions, report.turns.as_slice())?;
    let results = results_string(alloc, report.results.as_slice())?;
    let objects = name_value_lines(alloc, "object ", report.objects.as_slice())?;
    let queues = queues_string(alloc, report.queues.as_slice())?;
    let stores = name_value_lines(alloc, "store ", report.stores.as_slice())?;
    let text = format!(in alloc; "report\n{turns}{results}{objects}{queues}{stores}end\n")?;
    Ok(Words::from_string(text))
}
