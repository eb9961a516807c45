//! The events of user records, tags and auxiliary data.

ghost use Rattle.std.specs.Prelude.{◌≡◌, IfOk};
ghost use Rattle.plan_lang.specs.Events.{append_of, cond_of, tail_of, settled_of, set_aux_of, get_aux_of, seed_of};

use crate::events::read_engine;
use boki_types::{Event, Setup};
use lb_base::{Memory, Seqnum};
use line_text::{
    Checked, Tokens, check_both, checked_at_end, read_sent, read_short_text, read_tag, read_tags,
    read_u64,
};
use std::alloc::Global;

/// `E TAGS TEXT`, behind the word.
pub(crate) fn read_append(
    alloc: Global,
    tokens: &mut Tokens,
    setup: &Setup,
) -> Result<Option<Checked<Event>>, Memory>
    ensures { IfOk result (λ found. found ≡ append_of setup.now tokens.old) }
{
    let Some(engine) = read_engine(tokens, setup) else {
        return Ok(None);
    };
    let Some(tags) = read_tags(alloc, tokens)? else {
        return Ok(None);
    };
    let Some(text) = read_short_text(tokens) else {
        return Ok(None);
    };
    let event = match check_both(check_both(engine, tags), text) {
        Checked::Valid(((engine, tags), text)) => Checked::Valid(Event::Append {
            engine,
            tags,
            text,
        }),
        Checked::OutOfRange => Checked::OutOfRange,
        Checked::TooDeep => Checked::TooDeep,
    };
    Ok(checked_at_end(tokens, event))
}

/// `E N TAGS TEXT`, behind the word.
pub(crate) fn read_cond(
    alloc: Global,
    tokens: &mut Tokens,
    setup: &Setup,
) -> Result<Option<Checked<Event>>, Memory>
    ensures { IfOk result (λ found. found ≡ cond_of setup.now tokens.old) }
{
    let Some(engine) = read_engine(tokens, setup) else {
        return Ok(None);
    };
    let Some(place) = read_u64(tokens) else {
        return Ok(None);
    };
    let Some(tags) = read_tags(alloc, tokens)? else {
        return Ok(None);
    };
    let Some(text) = read_short_text(tokens) else {
        return Ok(None);
    };
    let event = match check_both(check_both(engine, place), check_both(tags, text)) {
        Checked::Valid(((engine, place), (tags, text))) => Checked::Valid(Event::Cond {
            engine,
            place,
            tags,
            text,
        }),
        Checked::OutOfRange => Checked::OutOfRange,
        Checked::TooDeep => Checked::TooDeep,
    };
    Ok(checked_at_end(tokens, event))
}

/// `E T`, behind the word.
pub(crate) fn read_tail(tokens: &mut Tokens, setup: &Setup) -> Option<Checked<Event>>
    ensures { result ≡ tail_of setup.now tokens.old }
{
    let Some(engine) = read_engine(tokens, setup) else {
        return None;
    };
    let Some(tag) = read_tag(tokens) else {
        return None;
    };
    let event = match check_both(engine, tag) {
        Checked::Valid((engine, tag)) => Checked::Valid(Event::Tail { engine, tag }),
        Checked::OutOfRange => Checked::OutOfRange,
        Checked::TooDeep => Checked::TooDeep,
    };
    checked_at_end(tokens, event)
}

/// `E S.L`, behind the word.
pub(crate) fn read_settled(
    alloc: Global,
    tokens: &mut Tokens,
    setup: &Setup,
) -> Result<Option<Checked<Event>>, Memory>
    ensures { IfOk result (λ found. found ≡ settled_of setup.now tokens.old) }
{
    let Some(engine) = read_engine(tokens, setup) else {
        return Ok(None);
    };
    let Some(sent) = read_sent(alloc, tokens, setup.shards)? else {
        return Ok(None);
    };
    let event = match check_both(engine, sent) {
        Checked::Valid((engine, (shard, local))) => Checked::Valid(Event::Settled {
            engine,
            shard,
            local,
        }),
        Checked::OutOfRange => Checked::OutOfRange,
        Checked::TooDeep => Checked::TooDeep,
    };
    Ok(checked_at_end(tokens, event))
}

/// `E N TEXT`, behind the word.
pub(crate) fn read_set_aux(tokens: &mut Tokens, setup: &Setup) -> Option<Checked<Event>>
    ensures { result ≡ set_aux_of setup.now tokens.old }
{
    let Some(engine) = read_engine(tokens, setup) else {
        return None;
    };
    let Some(seq) = read_u64(tokens) else {
        return None;
    };
    let Some(text) = read_short_text(tokens) else {
        return None;
    };
    let event = match check_both(check_both(engine, seq), text) {
        Checked::Valid(((engine, seq), text)) => Checked::Valid(Event::SetAux {
            engine,
            seq: Seqnum(seq),
            text,
        }),
        Checked::OutOfRange => Checked::OutOfRange,
        Checked::TooDeep => Checked::TooDeep,
    };
    checked_at_end(tokens, event)
}

/// `E N`, behind the word.
pub(crate) fn read_get_aux(tokens: &mut Tokens, setup: &Setup) -> Option<Checked<Event>>
    ensures { result ≡ get_aux_of setup.now tokens.old }
{
    let Some(engine) = read_engine(tokens, setup) else {
        return None;
    };
    let Some(seq) = read_u64(tokens) else {
        return None;
    };
    let event = match check_both(engine, seq) {
        Checked::Valid((engine, seq)) => Checked::Valid(Event::GetAux {
            engine,
            seq: Seqnum(seq),
        }),
        Checked::OutOfRange => Checked::OutOfRange,
        Checked::TooDeep => Checked::TooDeep,
    };
    checked_at_end(tokens, event)
}

/// `N`, behind the word.
pub(crate) fn read_seed(tokens: &mut Tokens) -> Option<Checked<Event>>
    ensures { result ≡ seed_of tokens.old }
{
    match read_u64(tokens) {
        Some(n) => {
            let event = match n {
                Checked::Valid(n) => Checked::Valid(Event::Seed { n }),
                Checked::OutOfRange => Checked::OutOfRange,
                Checked::TooDeep => Checked::TooDeep,
            };
            checked_at_end(tokens, event)
        }
        None => None,
    }
}
