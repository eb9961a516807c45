//! Events that send a record, but for those of attempts.
ghost use Rattle.std.specs.Prelude.{◌≡◌, IfOk, IsTrue};
ghost use Rattle.boki_types.specs.declared.body.Body.TheVariants as body;
ghost use Rattle.boki_types.specs.declared.event.Event.TheVariants as event;
ghost use Rattle.boki_machine.specs.Step.{function_name};
ghost use Rattle.script_ranges.specs.Ranged.{are_bytes};
ghost use Rattle.cluster_events.specs.Lines.{line_of_ending};
ghost use Rattle.cluster_events.specs.Machines.{CanDo, CanDoAny, DoesEvent, DoesEventAny};

use crate::advancing::advance;
use boki_types::{Body, Ending, Function, Line, Program};
use flow_parts::Parts;
use hm_switch::begin;
use lb_base::{Cond, List, Memory, Mode, Path, Seqnum, Tag, Value, Words};
use rec_codec::call_tag;
use std::alloc::Global;
use step_log::{send_body, send_user};

/// A client's call of a function.
pub fn submit(
    alloc: Global,
    program: &Program,
    parts: &mut Parts,
    engine: u32,
    request: u32,
    function: u32,
    args: &List<Value>,
) -> Result<Line, Memory>
    requires { CanDo program.now.functions (event.Submit engine request function args.now) parts.old }
    ensures { IfOk result (DoesEvent program.now.functions (event.Submit engine request function args.now) parts.old parts.new) }
{
    let path = Path::request(request).unwrap();
    let cond = Cond {
        tag: call_tag(&path),
        place: 0,
    };
    let body = submit_body(alloc, program, path, function, args)?;
    let sent = send_body(alloc, &mut parts.book, engine, Some(cond), &body);
    drop(body);
    Ok(Line::Sent(sent?))
}

// The body of a client's call.
fn submit_body(
    alloc: Global,
    program: &Program,
    path: Path,
    function: u32,
    args: &List<Value>,
) -> Result<Body, Memory>
    ensures { IfOk result (λ it. it ≡ body.Submit path (function_name function program.now.functions) args.now) }
{
    let name = name_of(alloc, program, function)?;
    let args = args.clone()?;
    Ok(Body::Submit {
        path,
        function: name,
        args,
    })
}

// The name of the program's function with a number.
fn name_of(alloc: Global, program: &Program, function: u32) -> Result<Words, Memory>
    ensures { IfOk result (λ name. name ≡ function_name function program.now.functions) }
{
    match program.functions.as_slice().get(function as usize) {
        Some(function) => copy_name(function),
        None => Ok(Words::new(alloc)),
    }
}

// A copy of the name of a function.
fn copy_name(function: &Function) -> Result<Words, Memory>
    ensures { IfOk result (λ name. name ≡ function.now.name) }
{
    Ok(function.name.clone()?)
}

/// A switch begins.
pub fn switch(alloc: Global, parts: &mut Parts, engine: u32, target: Mode) -> Result<Line, Memory>
    requires { CanDoAny (event.Switch engine target) parts.old }
    ensures { IfOk result (DoesEventAny (event.Switch engine target) parts.old parts.new) }
{
    Ok(Line::Sent(begin(alloc, &mut parts.book, engine, target)?))
}

/// The pending switch ends, where it may.
pub fn end_switch(parts: &mut Parts, engine: u32) -> Result<Line, Memory>
    requires { CanDoAny (event.EndSwitch engine) parts.old }
    ensures { IfOk result (DoesEventAny (event.EndSwitch engine) parts.old parts.new) }
{
    advance(parts, engine)?;
    let view = &parts.switches[(engine - 1) as usize];
    let ending = view.end(&mut parts.book, engine)?;
    Ok(ending_line(ending))
}

// The line of the end of a switch.
fn ending_line(ending: Ending) -> Line
    ensures { result ≡ line_of_ending ending }
{
    match ending {
        Ending::Sent(sent) => Line::Sent(sent),
        Ending::Idle => Line::Absent,
        Ending::Unfinished(path) => Line::Unfinished(path),
    }
}

/// The engine says below which seqnum it sees no open invocation.
pub fn trim(parts: &mut Parts, engine: u32) -> Result<Line, Memory>
    requires { CanDoAny (event.Trim engine) parts.old }
    ensures { IfOk result (DoesEventAny (event.Trim engine) parts.old parts.new) }
{
    advance(parts, engine)?;
    // Positions are at most 2^63, and lengths have 64 bits.
    let _behind = parts.book.behind(engine);
    let _length = parts.book.length();
    let view = &parts.switches[(engine - 1) as usize];
    let (sent, bound) = view.trim(&mut parts.book, engine)?;
    Ok(Line::Trimmed(sent, bound))
}

/// A user's record.
pub fn append(
    alloc: Global,
    parts: &mut Parts,
    engine: u32,
    tags: &List<Tag>,
    text: &Words,
) -> Result<Line, Memory>
    requires { CanDoAny (event.Append engine tags.now text.now) parts.old }
    ensures { IfOk result (DoesEventAny (event.Append engine tags.now text.now) parts.old parts.new) }
{
    let bytes = text.as_bytes();
    note_bytes(bytes);
    let sent = send_user(alloc, &mut parts.book, engine, None, tags.as_slice(), bytes)?;
    Ok(Line::Sent(sent))
}

/// A user's record, under the condition that its first tag has so many live records.
pub fn cond(
    alloc: Global,
    parts: &mut Parts,
    engine: u32,
    place: u64,
    tags: &List<Tag>,
    text: &Words,
) -> Result<Line, Memory>
    requires { CanDoAny (event.Cond engine place tags.now text.now) parts.old }
    ensures { IfOk result (DoesEventAny (event.Cond engine place tags.now text.now) parts.old parts.new) }
{
    let tag = tags.as_slice()[0];
    let condition = Some(Cond { tag, place });
    let bytes = text.as_bytes();
    note_bytes(bytes);
    let sent = send_user(
        alloc,
        &mut parts.book,
        engine,
        condition,
        tags.as_slice(),
        bytes,
    )?;
    Ok(Line::Sent(sent))
}

// Bytes are bytes: it tells the proofs so, and does nothing.
fn note_bytes(bytes: &[u8])
    ensures { IsTrue (are_bytes bytes.now) }
{
    let _count = bytes.len();
}

/// The records of a user tag up to a seqnum are hidden.
pub fn trim_tag(
    alloc: Global,
    parts: &mut Parts,
    engine: u32,
    tag: Tag,
    upto: Seqnum,
) -> Result<Line, Memory>
    requires { CanDoAny (event.TrimTag engine tag upto) parts.old }
    ensures { IfOk result (DoesEventAny (event.TrimTag engine tag upto) parts.old parts.new) }
{
    let body = Body::TrimTag {
        number: tag.0,
        upto: upto.0,
    };
    let sent = send_body(alloc, &mut parts.book, engine, None, &body);
    drop(body);
    Ok(Line::Sent(sent?))
}
