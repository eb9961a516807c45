//! The canonical text of events and plans.

ghost use Rattle.std.specs.Prelude.{◌≡◌, ◌++◌, IfOk, OnOk, flat_map, option_copied, slice_get};
ghost use Rattle.std.specs.String.{string_bytes};
ghost use Rattle.lb_base.specs.Print.{value_text};
ghost use Rattle.boki_types.specs.Finding.{function_at};
ghost use Rattle.script_lang.specs.Printed.{comma_joined, comma_before};
ghost use Rattle.plan_lang.specs.Printed.{function_name_at, call_text, behind_tag, tags_text, one_number_text, two_number_text, three_number_text, submit_text, start_text, switch_text, append_text, cond_text, settled_text, set_aux_text, event_text};

use boki_types::{Event, Function, Program};
use lb_base::{Memory, Mode, Path, Quoted, Tag, Value, Words};
use std::alloc::Global;

fn function_in(functions: &[Function], number: usize) -> Option<&Function>
    ensures { option_copied result ≡ slice_get functions.now number }
{
    functions.get(number)
}

/// The function of a number.
pub(crate) fn function_of(functions: &[Function], number: u32) -> Option<&Function>
    ensures { option_copied result ≡ function_at number functions.now }
{
    function_in(functions, number as usize)
}

/// The name of a function, by its number; it is empty where there is no such function.
pub fn function_name(functions: &[Function], number: u32) -> &str
    ensures { result.now ≡ function_name_at functions.now number }
{
    match function_of(functions, number) {
        Some(function) => function.name.as_str(),
        None => "",
    }
}

/// Adds a text, with a comma before it where it isn't the first.
fn push_with_comma(out: &mut String, first: bool, text: &str) -> Result<(), Memory>
    ensures { OnOk result (string_bytes out.new ≡ string_bytes out.old ++ comma_before first text.now) }
{
    if first {
        out.push_str(text)?;
    } else {
        out.push_str(", ")?;
        out.push_str(text)?;
    }
    Ok(())
}

/// Values, with `, ` between them.
pub fn values_string(alloc: Global, values: &[Value]) -> Result<String, Memory>
    ensures { IfOk result (λ s. string_bytes s ≡ comma_joined value_text values.now) }
{
    let mut out = String::new(alloc);
    let mut first = true;
    'values: for value in values {
        let text = value.to_string(alloc)?;
        push_with_comma(&mut out, first, text.as_str())?;
        first = false;
    }
    Ok(out)
}

/// A call `F(VALUE, ..)` of a function, by its number. A function that isn't there is printed without a name.
pub fn call_string(
    alloc: Global,
    functions: &[Function],
    function: u32,
    args: &[Value],
) -> Result<String, Memory>
    ensures { IfOk result (λ s. string_bytes s ≡ call_text functions.now function args.now) }
{
    let name = function_name(functions, function);
    let args = values_string(alloc, args)?;
    Ok(format!(in alloc; "{name}({args})")?)
}

/// Tags, each behind a comma.
fn behind_tags(alloc: Global, tags: &[Tag]) -> Result<String, Memory>
    ensures { IfOk result (λ s. string_bytes s ≡ flat_map behind_tag tags.now) }
{
    let mut out = String::new(alloc);
    'tags: for tag in tags {
        let n = tag.0;
        let text = format!(in alloc; ",{n}")?;
        out.push_str(text.as_str())?;
    }
    Ok(out)
}

/// Tags, with commas between them and no space.
pub fn tags_string(alloc: Global, tags: &[Tag]) -> Result<String, Memory>
    ensures { IfOk result (λ s. string_bytes s ≡ tags_text tags.now) }
{
    match tags {
        [] => Ok(String::new(alloc)),
        [first, rest @ ..] => {
            let first = first.0;
            let rest = behind_tags(alloc, rest)?;
            Ok(format!(in alloc; "{first}{rest}")?)
        }
    }
}

/// A number behind a word, which has a space behind it.
fn one_number_string(alloc: Global, word: &str, n: u64) -> Result<String, Memory>
    ensures { IfOk result (λ s. string_bytes s ≡ one_number_text word.now n) }
{
    Ok(format!(in alloc; "{word}{n}")?)
}

fn two_number_string(alloc: Global, word: &str, n: u64, m: u64) -> Result<String, Memory>
    ensures { IfOk result (λ s. string_bytes s ≡ two_number_text word.now n m) }
{
    Ok(format!(in alloc; "{word}{n} {m}")?)
}

fn three_number_string(alloc: Global, word: &str, n: u64, m: u64, k: u64) -> Result<String, Memory>
    ensures { IfOk result (λ s. string_bytes s ≡ three_number_text word.now n m k) }
{
    Ok(format!(in alloc; "{word}{n} {m} {k}")?)
}

fn submit_string(
    alloc: Global,
    functions: &[Function],
    engine: u32,
    request: u32,
    function: u32,
    args: &[Value],
) -> Result<String, Memory>
    ensures { IfOk result (λ s. string_bytes s ≡ submit_text functions.now engine request function args.now) }
{
    let call = call_string(alloc, functions, function, args)?;
    Ok(format!(in alloc; "submit {engine} {request} {call}")?)
}

fn start_string(alloc: Global, attempt: u32, path: Path, engine: u32) -> Result<String, Memory>
    ensures { IfOk result (λ s. string_bytes s ≡ start_text attempt path engine) }
{
    Ok(format!(in alloc; "start {attempt} {path} {engine}")?)
}

fn switch_string(alloc: Global, engine: u32, target: Mode) -> Result<String, Memory>
    ensures { IfOk result (λ s. string_bytes s ≡ switch_text engine target) }
{
    Ok(format!(in alloc; "switch {engine} {target}")?)
}

fn append_string(alloc: Global, engine: u32, tags: &[Tag], text: &Words) -> Result<String, Memory>
    ensures { IfOk result (λ s. string_bytes s ≡ append_text engine tags.now text.now) }
{
    let tags = tags_string(alloc, tags)?;
    let text = Quoted(text.as_str());
    Ok(format!(in alloc; "append {engine} {tags} {text}")?)
}

fn cond_string(
    alloc: Global,
    engine: u32,
    place: u64,
    tags: &[Tag],
    text: &Words,
) -> Result<String, Memory>
    ensures { IfOk result (λ s. string_bytes s ≡ cond_text engine place tags.now text.now) }
{
    let tags = tags_string(alloc, tags)?;
    let text = Quoted(text.as_str());
    Ok(format!(in alloc; "cond {engine} {place} {tags} {text}")?)
}

fn settled_string(alloc: Global, engine: u32, shard: u32, local: u64) -> Result<String, Memory>
    ensures { IfOk result (λ s. string_bytes s ≡ settled_text engine shard local) }
{
    Ok(format!(in alloc; "settled {engine} {shard}.{local}")?)
}

fn set_aux_string(alloc: Global, engine: u32, seq: u64, text: &Words) -> Result<String, Memory>
    ensures { IfOk result (λ s. string_bytes s ≡ set_aux_text engine seq text.now) }
{
    let text = Quoted(text.as_str());
    Ok(format!(in alloc; "setaux {engine} {seq} {text}")?)
}

/// An event, without what stands before it on its line.
pub(crate) fn event_string(
    alloc: Global,
    functions: &[Function],
    event: &Event,
) -> Result<String, Memory>
    ensures { IfOk result (λ s. string_bytes s ≡ event_text functions.now event.now) }
{
    match event {
        Event::Submit {
            engine,
            request,
            function,
            args,
        } => submit_string(
            alloc,
            functions,
            *engine,
            *request,
            *function,
            args.as_slice(),
        ),
        Event::Copy { shard, replica, n } => three_number_string(
            alloc,
            "copy ",
            u64::from(*shard),
            u64::from(*replica),
            *n,
        ),
        Event::Cut => Ok(String::from_str(alloc, "cut")?),
        Event::Catch { engine } => one_number_string(alloc, "catch ", u64::from(*engine)),
        Event::Sync => Ok(String::from_str(alloc, "sync")?),
        Event::Restart { engine } => one_number_string(alloc, "restart ", u64::from(*engine)),
        Event::Start {
            attempt,
            path,
            engine,
        } => start_string(alloc, *attempt, *path, *engine),
        Event::Step { attempt } => one_number_string(alloc, "step ", u64::from(*attempt)),
        Event::Kill { attempt } => one_number_string(alloc, "kill ", u64::from(*attempt)),
        Event::Lose { attempt } => one_number_string(alloc, "lose ", u64::from(*attempt)),
        Event::Miss { attempt } => one_number_string(alloc, "miss ", u64::from(*attempt)),
        Event::Switch { engine, target } => switch_string(alloc, *engine, *target),
        Event::EndSwitch { engine } => one_number_string(alloc, "endswitch ", u64::from(*engine)),
        Event::Trim { engine } => one_number_string(alloc, "trim ", u64::from(*engine)),
        Event::Sweep { engine } => one_number_string(alloc, "sweep ", u64::from(*engine)),
        Event::Append { engine, tags, text } => {
            append_string(alloc, *engine, tags.as_slice(), text)
        }
        Event::Cond {
            engine,
            place,
            tags,
            text,
        } => cond_string(alloc, *engine, *place, tags.as_slice(), text),
        Event::Next { engine, tag, from } => {
            three_number_string(alloc, "next ", u64::from(*engine), tag.0, from.0)
        }
        Event::Prev { engine, tag, upto } => {
            three_number_string(alloc, "prev ", u64::from(*engine), tag.0, upto.0)
        }
        Event::Tail { engine, tag } => two_number_string(alloc, "tail ", u64::from(*engine), tag.0),
        Event::TrimTag { engine, tag, upto } => {
            three_number_string(alloc, "trimtag ", u64::from(*engine), tag.0, upto.0)
        }
        Event::Settled {
            engine,
            shard,
            local,
        } => settled_string(alloc, *engine, *shard, *local),
        Event::SetAux { engine, seq, text } => set_aux_string(alloc, *engine, seq.0, text),
        Event::GetAux { engine, seq } => {
            two_number_string(alloc, "getaux ", u64::from(*engine), seq.0)
        }
        Event::Seed { n } => one_number_string(alloc, "seed ", *n),
    }
}

/// The line of an event of a plan with this program, without its line feed. A function that the program doesn't have is printed
/// without a name.
pub fn print_event(alloc: Global, event: &Event, program: &Program) -> Result<Words, Memory>
    ensures { IfOk result (λ w. w ≡ event_text program.now.functions event.now) }
{
    let text = event_string(alloc, program.functions.as_slice(), event)?;
    Ok(Words::from_string(text))
}
