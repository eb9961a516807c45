//! The event of a line.

ghost use Rattle.std.specs.Prelude.{◌≡◌, IfOk};
ghost use Rattle.line_text.specs.Stream.{found_before};
ghost use Rattle.line_text.specs.Checks.{map_checked};
ghost use Rattle.plan_lang.specs.Events.{make_engine_event, make_attempt_event, make_tag_event, engine_at, attempt_at, request_at, engine_event_of, attempt_event_of, tag_event_of, copy_of, start_of, switch_of};

use boki_types::{Event, Kind, Setup};
use lb_base::{Memory, Seqnum, Tag};
use line_text::{
    Checked, Tokens, check_both, checked_at_end, read_mode, read_path, read_tag, read_u32_in,
    read_u64,
};
use std::alloc::Global;

/// An event of an engine alone.
#[derive(Clone, Copy, Debug, PartialEq, Eq)]
pub enum EngineForm {
    Catch,
    Restart,
    EndSwitch,
    Trim,
    Sweep,
}

/// An event of an attempt alone.
#[derive(Clone, Copy, Debug, PartialEq, Eq)]
pub enum AttemptForm {
    Step,
    Kill,
    Lose,
    Miss,
}

/// An event of an engine, a tag and a seqnum.
#[derive(Clone, Copy, Debug, PartialEq, Eq)]
pub enum TagForm {
    Next,
    Prev,
    TrimTag,
}

/// An event, and what is wrong with the function that it calls.
#[derive(Drop)]
pub struct Entry {
    pub event: Event,
    pub fault: Option<Kind>,
}

fn engine_event(form: EngineForm, engine: Checked<u32>) -> Checked<Event>
    ensures { result ≡ map_checked (make_engine_event form) engine }
{
    match engine {
        Checked::Valid(engine) => match form {
            EngineForm::Catch => Checked::Valid(Event::Catch { engine }),
            EngineForm::Restart => Checked::Valid(Event::Restart { engine }),
            EngineForm::EndSwitch => Checked::Valid(Event::EndSwitch { engine }),
            EngineForm::Trim => Checked::Valid(Event::Trim { engine }),
            EngineForm::Sweep => Checked::Valid(Event::Sweep { engine }),
        },
        Checked::OutOfRange => Checked::OutOfRange,
        Checked::TooDeep => Checked::TooDeep,
    }
}

fn attempt_event(form: AttemptForm, attempt: Checked<u32>) -> Checked<Event>
    ensures { result ≡ map_checked (make_attempt_event form) attempt }
{
    match attempt {
        Checked::Valid(attempt) => match form {
            AttemptForm::Step => Checked::Valid(Event::Step { attempt }),
            AttemptForm::Kill => Checked::Valid(Event::Kill { attempt }),
            AttemptForm::Lose => Checked::Valid(Event::Lose { attempt }),
            AttemptForm::Miss => Checked::Valid(Event::Miss { attempt }),
        },
        Checked::OutOfRange => Checked::OutOfRange,
        Checked::TooDeep => Checked::TooDeep,
    }
}

fn tag_event(form: TagForm, parts: Checked<((u32, Tag), u64)>) -> Checked<Event>
    ensures { result ≡ map_checked (λ p. make_tag_event form p.0.0 p.0.1 p.1) parts }
{
    match parts {
        Checked::Valid(((engine, tag), n)) => match form {
            TagForm::Next => Checked::Valid(Event::Next {
                engine,
                tag,
                from: Seqnum(n),
            }),
            TagForm::Prev => Checked::Valid(Event::Prev {
                engine,
                tag,
                upto: Seqnum(n),
            }),
            TagForm::TrimTag => Checked::Valid(Event::TrimTag {
                engine,
                tag,
                upto: Seqnum(n),
            }),
        },
        Checked::OutOfRange => Checked::OutOfRange,
        Checked::TooDeep => Checked::TooDeep,
    }
}

/// The engine's number that stands first, from 1 to the number of engines of a setup; None where no numeral does.
pub fn read_engine(tokens: &mut Tokens, setup: &Setup) -> Option<Checked<u32>>
    ensures { found_before tokens.new result ≡ engine_at setup.now tokens.old }
{
    read_u32_in(tokens, 1, setup.engines)
}

fn read_attempt(tokens: &mut Tokens) -> Option<Checked<u32>>
    ensures { found_before tokens.new result ≡ attempt_at tokens.old }
{
    read_u32_in(tokens, 1, 4096)
}

/// The request's number that stands first, from 1 to 1,048,575; None where no numeral does.
pub fn read_request(tokens: &mut Tokens) -> Option<Checked<u32>>
    ensures { found_before tokens.new result ≡ request_at tokens.old }
{
    read_u32_in(tokens, 1, 1048575)
}

/// `E`, behind the word.
pub(crate) fn read_engine_event(
    tokens: &mut Tokens,
    setup: &Setup,
    form: EngineForm,
) -> Option<Checked<Event>>
    ensures { result ≡ engine_event_of (make_engine_event form) setup.now tokens.old }
{
    match read_engine(tokens, setup) {
        Some(engine) => checked_at_end(tokens, engine_event(form, engine)),
        None => None,
    }
}

/// `A`, behind the word.
pub(crate) fn read_attempt_event(tokens: &mut Tokens, form: AttemptForm) -> Option<Checked<Event>>
    ensures { result ≡ attempt_event_of (make_attempt_event form) tokens.old }
{
    match read_attempt(tokens) {
        Some(attempt) => checked_at_end(tokens, attempt_event(form, attempt)),
        None => None,
    }
}

/// `E T N`, behind the word.
pub(crate) fn read_tag_event(
    tokens: &mut Tokens,
    setup: &Setup,
    form: TagForm,
) -> Option<Checked<Event>>
    ensures { result ≡ tag_event_of (make_tag_event form) setup.now tokens.old }
{
    let Some(engine) = read_engine(tokens, setup) else {
        return None;
    };
    let Some(tag) = read_tag(tokens) else {
        return None;
    };
    match read_u64(tokens) {
        Some(n) => checked_at_end(
            tokens,
            tag_event(form, check_both(check_both(engine, tag), n)),
        ),
        None => None,
    }
}

/// `S R N`, behind the word.
pub(crate) fn read_copy(tokens: &mut Tokens, setup: &Setup) -> Option<Checked<Event>>
    ensures { result ≡ copy_of setup.now tokens.old }
{
    let Some(shard) = read_u32_in(tokens, 1, setup.shards) else {
        return None;
    };
    let Some(replica) = read_u32_in(tokens, 2, setup.replicas) else {
        return None;
    };
    let Some(n) = read_u64(tokens) else {
        return None;
    };
    let event = match check_both(check_both(shard, replica), n) {
        Checked::Valid(((shard, replica), n)) => Checked::Valid(Event::Copy { shard, replica, n }),
        Checked::OutOfRange => Checked::OutOfRange,
        Checked::TooDeep => Checked::TooDeep,
    };
    checked_at_end(tokens, event)
}

/// `A P E`, behind the word.
pub(crate) fn read_start(
    alloc: Global,
    tokens: &mut Tokens,
    setup: &Setup,
) -> Result<Option<Checked<Event>>, Memory>
    ensures { IfOk result (λ found. found ≡ start_of setup.now tokens.old) }
{
    let Some(attempt) = read_attempt(tokens) else {
        return Ok(None);
    };
    let Some(path) = read_path(alloc, tokens)? else {
        return Ok(None);
    };
    let Some(engine) = read_engine(tokens, setup) else {
        return Ok(None);
    };
    let event = match check_both(check_both(attempt, path), engine) {
        Checked::Valid(((attempt, path), engine)) => Checked::Valid(Event::Start {
            attempt,
            path,
            engine,
        }),
        Checked::OutOfRange => Checked::OutOfRange,
        Checked::TooDeep => Checked::TooDeep,
    };
    Ok(checked_at_end(tokens, event))
}

/// `E M`, behind the word.
pub(crate) fn read_switch(tokens: &mut Tokens, setup: &Setup) -> Option<Checked<Event>>
    ensures { result ≡ switch_of setup.now tokens.old }
{
    let Some(engine) = read_engine(tokens, setup) else {
        return None;
    };
    let Some(target) = read_mode(tokens) else {
        return None;
    };
    let event = match engine {
        Checked::Valid(engine) => Checked::Valid(Event::Switch { engine, target }),
        Checked::OutOfRange => Checked::OutOfRange,
        Checked::TooDeep => Checked::TooDeep,
    };
    checked_at_end(tokens, event)
}
