//! The canonical text of plans.

ghost use Rattle.std.specs.Prelude.{◌≡◌, ◌++◌, IfOk, codes, flat_map};
ghost use Rattle.std.specs.String.{string_bytes};
ghost use Rattle.script_lang.specs.Printed.{function_text};
ghost use Rattle.plan_lang.specs.Printed.{repeat_line, item_text, newer_text, setup_text, name_value_line, head_text, plan_text};

use crate::printing::event_string;
use boki_types::{Event, Function, Item, Plan, Setup};
use lb_base::{Memory, Quoted, Value, Words};
use script_lang::print_function;
use std::alloc::Global;

/// The lines of the events of a repeat.
fn repeat_lines_string(
    alloc: Global,
    functions: &[Function],
    events: &[Event],
) -> Result<String, Memory>
    ensures { IfOk result (λ s. string_bytes s ≡ flat_map (repeat_line functions.now) events.now) }
{
    let mut out = String::new(alloc);
    'events: for event in events {
        let text = event_string(alloc, functions, event)?;
        let line = format!(in alloc; "  {text}\n")?;
        out.push_str(line.as_str())?;
    }
    Ok(out)
}

/// The lines of an item.
fn item_string(alloc: Global, functions: &[Function], item: &Item) -> Result<String, Memory>
    ensures { IfOk result (λ s. string_bytes s ≡ item_text functions.now item.now) }
{
    match item {
        Item::One(event) => {
            let text = event_string(alloc, functions, event)?;
            Ok(format!(in alloc; "{text}\n")?)
        }
        Item::Repeat(times, events) => {
            let times = *times;
            let lines = repeat_lines_string(alloc, functions, events.as_slice())?;
            Ok(format!(in alloc; "repeat {times}\n{lines}end\n")?)
        }
    }
}

/// The lines of items.
fn items_string(alloc: Global, functions: &[Function], items: &[Item]) -> Result<String, Memory>
    ensures { IfOk result (λ s. string_bytes s ≡ flat_map (item_text functions.now) items.now) }
{
    let mut out = String::new(alloc);
    'items: for item in items {
        let text = item_string(alloc, functions, item)?;
        out.push_str(text.as_str())?;
    }
    Ok(out)
}

/// The lines of names with their values, each behind a word, which is to have a space behind it.
pub fn name_value_lines(
    alloc: Global,
    word: &str,
    pairs: &[(Words, Value)],
) -> Result<String, Memory>
    ensures { IfOk result (λ s. string_bytes s ≡ flat_map (name_value_line word.now) pairs.now) }
{
    let mut out = String::new(alloc);
    'pairs: for pair in pairs {
        let name = Quoted(pair.0.as_str());
        let value = &pair.1;
        let line = format!(in alloc; "{word}{name} {value}\n")?;
        out.push_str(line.as_str())?;
    }
    Ok(out)
}

/// The lines of functions.
fn functions_string(alloc: Global, functions: &[Function]) -> Result<String, Memory>
    ensures { IfOk result (λ s. string_bytes s ≡ flat_map function_text functions.now) }
{
    let mut out = String::new(alloc);
    'functions: for function in functions {
        let text = print_function(alloc, function)?;
        out.push_str(text.as_str())?;
    }
    Ok(out)
}

/// The fifth number of a setup, where there is one.
fn newer_string(alloc: Global, newer: Option<u32>) -> Result<String, Memory>
    ensures { IfOk result (λ s. string_bytes s ≡ newer_text newer) }
{
    match newer {
        Some(n) => Ok(format!(in alloc; " {n}")?),
        None => Ok(String::new(alloc)),
    }
}

fn setup_string(alloc: Global, setup: &Setup) -> Result<String, Memory>
    ensures { IfOk result (λ s. string_bytes s ≡ setup_text setup.now) }
{
    let shards = setup.shards;
    let replicas = setup.replicas;
    let engines = setup.engines;
    let mode = setup.mode;
    let newer = newer_string(alloc, setup.newer)?;
    Ok(format!(in alloc; "setup {shards} {replicas} {engines} {mode}{newer}\n")?)
}

/// The head of a plan without the line that ends it: the setup, the objects and the functions.
pub fn head_string(alloc: Global, plan: &Plan) -> Result<String, Memory>
    ensures { IfOk result (λ s. string_bytes s ≡ head_text plan.now) }
{
    let setup = setup_string(alloc, &plan.setup)?;
    let objects = name_value_lines(alloc, "object ", plan.objects.as_slice())?;
    let functions = functions_string(alloc, plan.program.functions.as_slice())?;
    Ok(format!(in alloc; "{setup}{objects}{functions}")?)
}

/// The canonical text of a plan, which [`parse_plan`](crate::parse_plan) reads: one space between words, `, ` after a comma but
/// none after a comma between tags, two spaces for each block that is open, and no other line than those that the plan needs.
pub fn print_plan(alloc: Global, plan: &Plan) -> Result<Words, Memory>
    ensures { IfOk result (λ w. w ≡ plan_text plan.now) }
{
    let head = head_string(alloc, plan)?;
    let functions = plan.program.functions.as_slice();
    let items = items_string(alloc, functions, plan.items.as_slice())?;
    let text = format!(in alloc; "{head}events\n{items}")?;
    Ok(Words::from_string(text))
}
