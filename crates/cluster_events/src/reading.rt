//! Reads by user tags, what became of records, and auxiliary data.
ghost use Rattle.std.specs.Prelude.{◌≡◌, IfOk};
ghost use Rattle.std.specs.Option.{option_copied};
ghost use Rattle.std.specs.Str.{IsUtf8};
ghost use Rattle.boki_types.specs.declared.event.Event.TheVariants as event;
ghost use Rattle.boki_machine.specs.Machine.{user_text};
ghost use Rattle.step_log.specs.Sound.{body_of};
ghost use Rattle.cluster_events.specs.Lines.{line_of_settle, line_of_set, line_of_aux, line_found, text_in, HasText, HasUtf8};
ghost use Rattle.cluster_events.specs.Machines.{CanDoAny, DoesEventAny};

use boki_types::{Body, Line, Sent, Settle};
use book_api::Book;
use flow_parts::Parts;
use lb_base::{List, Memory, Seqnum, Tag, Words};
use rec_codec::{DecodeFault, decode};
use std::alloc::Global;

/// The least record of a tag from a seqnum on.
pub fn next(
    alloc: Global,
    parts: &Parts,
    engine: u32,
    tag: Tag,
    from: Seqnum,
) -> Result<Line, Memory>
    requires { CanDoAny (event.Next engine tag from) parts.now }
    ensures { IfOk result (DoesEventAny (event.Next engine tag from) parts.now parts.now) }
{
    found(alloc, &parts.book, parts.book.read_next(engine, tag, from))
}

/// The greatest record of a tag up to a seqnum.
pub fn prev(
    alloc: Global,
    parts: &Parts,
    engine: u32,
    tag: Tag,
    upto: Seqnum,
) -> Result<Line, Memory>
    requires { CanDoAny (event.Prev engine tag upto) parts.now }
    ensures { IfOk result (DoesEventAny (event.Prev engine tag upto) parts.now parts.now) }
{
    found(alloc, &parts.book, parts.book.read_prev(engine, tag, upto))
}

/// The last record of a tag.
pub fn tail(alloc: Global, parts: &Parts, engine: u32, tag: Tag) -> Result<Line, Memory>
    requires { CanDoAny (event.Tail engine tag) parts.now }
    ensures { IfOk result (DoesEventAny (event.Tail engine tag) parts.now parts.now) }
{
    found(alloc, &parts.book, parts.book.check_tail(engine, tag))
}

// What a read found, with the user's text.
fn found(alloc: Global, book: &Book, seq: Option<Seqnum>) -> Result<Line, Memory>
    ensures { IfOk result (λ line. HasText book.now seq → line ≡ line_found book.now seq) }
{
    match seq {
        Some(seq) => Ok(Line::Found(seq, text_at(alloc, book, seq)?)),
        None => Ok(Line::Absent),
    }
}

// The user's text of the record at a seqnum.
fn text_at(alloc: Global, book: &Book, seq: Seqnum) -> Result<Words, Memory>
    ensures { IfOk result (λ text. IsUtf8 (text_in book.now seq) → text ≡ text_in book.now seq) }
{
    match book.record(seq) {
        Some(rec) => text_of_record(alloc, rec.bytes.as_slice()),
        None => Ok(Words::new(alloc)),
    }
}

// The user's text that a record's bytes say.
fn text_of_record(alloc: Global, bytes: &[u8]) -> Result<Words, Memory>
    ensures { IfOk result (λ text. IsUtf8 (user_text (body_of bytes.now)) → text ≡ user_text (body_of bytes.now)) }
{
    match decode(alloc, bytes) {
        Ok(body) => text_of_body(alloc, body),
        Err(DecodeFault::Bad(_)) => Ok(Words::new(alloc)),
        Err(DecodeFault::Memory) => Err(Memory),
    }
}

// The user's text of a body.
fn text_of_body(alloc: Global, body: Body) -> Result<Words, Memory>
    ensures { IfOk result (λ text. IsUtf8 (user_text body) → text ≡ user_text body) }
{
    match body {
        Body::User { bytes } => text_of(alloc, &bytes),
        _ => Ok(Words::new(alloc)),
    }
}

// Bytes that are text, as text.
fn text_of(alloc: Global, bytes: &List<u8>) -> Result<Words, Memory>
    ensures { IfOk result (λ text. IsUtf8 bytes.now → text ≡ bytes.now) }
{
    match std::str::from_utf8(bytes.as_slice()) {
        Ok(text) => Words::from_text(alloc, text),
        Err(_) => Ok(Words::new(alloc)),
    }
}

/// What became of a record.
pub fn settled(parts: &Parts, engine: u32, shard: u32, local: u64) -> Line
    requires { CanDoAny (event.Settled engine shard local) parts.now }
    ensures { DoesEventAny (event.Settled engine shard local) parts.now parts.now result }
{
    settle_line(parts.book.settled(engine, Sent { shard, local }))
}

// The line of what became of a record.
fn settle_line(settle: Option<Settle>) -> Line
    ensures { result ≡ line_of_settle settle }
{
    match settle {
        Some(Settle::Placed(seq)) => Line::Placed(seq),
        Some(Settle::Taken(seq)) => Line::Taken(seq),
        None => Line::Waits,
    }
}

/// Auxiliary data is set.
pub fn set_aux(parts: &mut Parts, engine: u32, seq: Seqnum, text: &Words) -> Result<Line, Memory>
    requires { CanDoAny (event.SetAux engine seq text.now) parts.old }
    ensures { IfOk result (DoesEventAny (event.SetAux engine seq text.now) parts.old parts.new) }
{
    let set = parts.book.set_aux(engine, seq, text.as_bytes())?;
    Ok(set_line(set))
}

// The line of auxiliary data that was set.
fn set_line(set: bool) -> Line
    ensures { result ≡ line_of_set set }
{
    if set { Line::Set } else { Line::Absent }
}

/// Auxiliary data is given, and is then the one most recently used.
pub fn aux(alloc: Global, parts: &mut Parts, engine: u32, seq: Seqnum) -> Result<Line, Memory>
    requires { CanDoAny (event.GetAux engine seq) parts.old }
    ensures { IfOk result (DoesEventAny (event.GetAux engine seq) parts.old parts.new) }
{
    let line = aux_line(alloc, parts.book.aux(engine, seq))?;
    parts.book.get_aux(engine, seq);
    Ok(line)
}

// The line of auxiliary data.
fn aux_line(alloc: Global, bytes: Option<&List<u8>>) -> Result<Line, Memory>
    ensures { IfOk result (λ line. HasUtf8 (option_copied bytes.entry) → line ≡ line_of_aux (option_copied bytes.entry)) }
{
    match bytes {
        Some(bytes) => Ok(Line::Aux(text_of(alloc, bytes)?)),
        None => Ok(Line::Absent),
    }
}
