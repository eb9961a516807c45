//! The event of a line, by its word.

ghost use Rattle.std.specs.Prelude.{◌≡◌, ◌^◌, ◌<◌, IfOk, length};
ghost use Rattle.boki_types.specs.Finding.{find};
ghost use Rattle.line_text.specs.Checks.{map_checked};
ghost use Rattle.plan_lang.specs.Events.{function_number_of, submit_entry, submit_of, entry_without_call, entry_of_event, event_of_verb, event_of_verb_if, entry_of_word};

use crate::events::{
    AttemptForm, EngineForm, Entry, TagForm, read_attempt_event, read_copy, read_engine,
    read_engine_event, read_request, read_start, read_switch, read_tag_event,
};
use crate::records::{
    read_append, read_cond, read_get_aux, read_seed, read_set_aux, read_settled, read_tail,
};
use crate::verb::{Verb, verb_of_text};
use boki_types::{Event, Function, Setup};
use lb_base::{List, Memory, Value, Words};
use line_text::{Checked, Tokens, check_both, checked_at_end};
use script_lang::text::{call_fault, read_call};
use std::alloc::Global;

/// The number of the first function of a name, from 0.
fn find_function(functions: &[Function], name: &str) -> Option<u32>
    requires { length functions.now < 2 ^ 32 }
    ensures { result ≡ find name.now functions.now }
{
    let mut number = 0;
    'functions: for function in functions {
        if name == function.name.as_str() {
            return Some(number);
        }
        number += 1;
    }
    None
}

/// The number of the first function of a name, from 0; 0 where no function has it. It needs fewer than 2^32 functions.
pub fn function_number(functions: &[Function], name: &str) -> u32
    requires { length functions.now < 2 ^ 32 }
    ensures { result ≡ function_number_of functions.now name.now }
{
    find_function(functions, name).unwrap_or(0)
}

/// The event of a call, with what is wrong with the call.
fn submit(functions: &[Function], engine: u32, request: u32, call: (Words, List<Value>)) -> Entry
    requires { length functions.now < 2 ^ 32 }
    ensures { result ≡ submit_entry functions.now ((engine, request), call) }
{
    let (name, args) = call;
    let function = function_number(functions, name.as_str());
    let fault = call_fault(functions, name.as_str(), args.len());
    Entry {
        event: Event::Submit {
            engine,
            request,
            function,
            args,
        },
        fault,
    }
}

/// `E Q F(VALUE, ..)`, behind the word.
fn read_submit(
    alloc: Global,
    tokens: &mut Tokens,
    setup: &Setup,
    functions: &[Function],
) -> Result<Option<Checked<Entry>>, Memory>
    requires { length functions.now < 2 ^ 32 }
    ensures { IfOk result (λ found. found ≡ submit_of setup.now functions.now tokens.old) }
{
    let Some(engine) = read_engine(tokens, setup) else {
        return Ok(None);
    };
    let Some(request) = read_request(tokens) else {
        return Ok(None);
    };
    let Some(call) = read_call(alloc, tokens)? else {
        return Ok(None);
    };
    let entry = match check_both(check_both(engine, request), call) {
        Checked::Valid(((engine, request), call)) => {
            Checked::Valid(submit(functions, engine, request, call))
        }
        Checked::OutOfRange => Checked::OutOfRange,
        Checked::TooDeep => Checked::TooDeep,
    };
    Ok(checked_at_end(tokens, entry))
}

/// The event behind a word.
fn read_event_of_verb(
    alloc: Global,
    tokens: &mut Tokens,
    setup: &Setup,
    verb: Verb,
) -> Result<Option<Checked<Event>>, Memory>
    ensures { IfOk result (λ found. found ≡ event_of_verb setup.now verb tokens.old) }
{
    match verb {
        Verb::Copy => Ok(read_copy(tokens, setup)),
        Verb::Cut => Ok(checked_at_end(tokens, Checked::Valid(Event::Cut))),
        Verb::Catch => Ok(read_engine_event(tokens, setup, EngineForm::Catch)),
        Verb::Sync => Ok(checked_at_end(tokens, Checked::Valid(Event::Sync))),
        Verb::Restart => Ok(read_engine_event(tokens, setup, EngineForm::Restart)),
        Verb::Start => read_start(alloc, tokens, setup),
        Verb::Step => Ok(read_attempt_event(tokens, AttemptForm::Step)),
        Verb::Kill => Ok(read_attempt_event(tokens, AttemptForm::Kill)),
        Verb::Lose => Ok(read_attempt_event(tokens, AttemptForm::Lose)),
        Verb::Miss => Ok(read_attempt_event(tokens, AttemptForm::Miss)),
        Verb::Switch => Ok(read_switch(tokens, setup)),
        Verb::EndSwitch => Ok(read_engine_event(tokens, setup, EngineForm::EndSwitch)),
        Verb::Trim => Ok(read_engine_event(tokens, setup, EngineForm::Trim)),
        Verb::Sweep => Ok(read_engine_event(tokens, setup, EngineForm::Sweep)),
        Verb::Append => read_append(alloc, tokens, setup),
        Verb::Cond => read_cond(alloc, tokens, setup),
        Verb::Next => Ok(read_tag_event(tokens, setup, TagForm::Next)),
        Verb::Prev => Ok(read_tag_event(tokens, setup, TagForm::Prev)),
        Verb::Tail => Ok(read_tail(tokens, setup)),
        Verb::TrimTag => Ok(read_tag_event(tokens, setup, TagForm::TrimTag)),
        Verb::Settled => read_settled(alloc, tokens, setup),
        Verb::SetAux => Ok(read_set_aux(tokens, setup)),
        Verb::GetAux => Ok(read_get_aux(tokens, setup)),
        Verb::Seed => Ok(read_seed(tokens)),
    }
}

/// An event that calls no function.
fn entry_of_plain_event(event: Option<Checked<Event>>) -> Option<Checked<Entry>>
    ensures { result ≡ entry_of_event event }
{
    match event {
        Some(Checked::Valid(event)) => Some(Checked::Valid(Entry { event, fault: None })),
        Some(Checked::OutOfRange) => Some(Checked::OutOfRange),
        Some(Checked::TooDeep) => Some(Checked::TooDeep),
        None => None,
    }
}

/// The event behind the word that a line of events begins with, below a setup and functions, with what is wrong with its call; None
/// where it is none. It needs fewer than 2^32 functions.
pub fn read_entry_of_word(
    alloc: Global,
    tokens: &mut Tokens,
    setup: &Setup,
    functions: &[Function],
    word: &str,
) -> Result<Option<Checked<Entry>>, Memory>
    requires { length functions.now < 2 ^ 32 }
    ensures { IfOk result (λ found. found ≡ entry_of_word setup.now functions.now word.now tokens.old) }
{
    if word == "submit" {
        return read_submit(alloc, tokens, setup, functions);
    }
    match verb_of_text(word) {
        Some(verb) => Ok(entry_of_plain_event(read_event_of_verb(alloc, tokens, setup, verb)?)),
        None => Ok(None),
    }
}
