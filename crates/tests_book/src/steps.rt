//! The step log of one invocation: its call, two begins of which the second is dead, and its end.
ghost use Rattle.std.specs.Prelude.{◌≡◌, ◌≤◌, ◌<◌, length, IfOk};
ghost use Rattle.book_api.specs.Books.{HasEngine};
ghost use Rattle.step_log.specs.Sound.{Sound};
ghost use Rattle.tests_book.specs.Engines.{HasEngines, EnginesStay};

use crate::common::{order, show};
use book_api::Book;
use lb_base::{Memory, Outcome, Path, Seqnum, Tag, Value};
use rec_codec::{Body, BodyKind, decode, read_is_spelled};
use std::alloc::Global;
use std::test::Fail;
use step_log::{at, finish_of, kind_at, last_finish, resolve, send, send_body, send_user, step_at};

// The call of `f` under the path 1, the begin, and the end at the step index 3 with the value 5.
const CALL: [u8; 11] = [1, 1, 1, 0, 0, 0, 1, 0, 1, b'f', 0];

const BEGIN: [u8; 7] = [1, 2, 1, 0, 0, 0, 1];

const END: [u8; 25] = [
    1, 11, 1, 0, 0, 0, 1, 0, 0, 0, 0, 0, 0, 0, 3, 0, 1, 0, 0, 0, 0, 0, 0, 0, 5,
];

// A sound book of two engines that has no record.
fn sound_book(alloc: Global) -> Result<Book, Memory>
    ensures engines { IfOk result (HasEngines 2) }
    ensures sound { IfOk result Sound }
{
    Book::new(alloc, 2, 1, 2)
}

// Sends the body that bytes spell, without a condition.
fn send_call(alloc: Global, book: &mut Book, bytes: &[u8]) -> Result<(), Memory>
    requires { HasEngine 1 book.old }
    ensures engines { EnginesStay book.old book.new }
    ensures sound { Sound book.old → Sound book.new }
{
    let Ok(body) = decode(alloc, bytes) else {
        return Err(Memory);
    };
    read_is_spelled();
    let sent = send_body(alloc, book, 1, None, &body);
    drop(body);
    sent?;
    Ok(())
}

// Sends the body that bytes spell to a place of the path's step log.
fn send_step(
    alloc: Global,
    book: &mut Book,
    path: Path,
    place: u64,
    bytes: &[u8],
) -> Result<(), Memory>
    requires { HasEngine 1 book.old }
    ensures engines { EnginesStay book.old book.new }
    ensures sound { Sound book.old → Sound book.new }
{
    let Ok(body) = decode(alloc, bytes) else {
        return Err(Memory);
    };
    read_is_spelled();
    let sent = send(alloc, book, 1, path, place, &body);
    drop(body);
    sent?;
    Ok(())
}

// Orders what was sent, for the engine 1 to see it.
fn order_and_show(book: &mut Book) -> Result<(), Memory>
    requires { HasEngine 1 book.old }
    ensures engines { EnginesStay book.old book.new }
    ensures sound { Sound book.old → Sound book.new }
{
    book.cut()?;
    book.catch_up(1)?;
    Ok(())
}

// The whole invocation.
fn one_call(alloc: Global, book: &mut Book, path: Path) -> Result<(), Memory>
    requires { HasEngines 2 book.old }
    ensures engines { EnginesStay book.old book.new }
    ensures sound { Sound book.old → Sound book.new }
{
    send_call(alloc, book, &CALL)?;
    send_step(alloc, book, path, 0, &BEGIN)?;
    send_step(alloc, book, path, 0, &BEGIN)?;
    send_step(alloc, book, path, 1, &END)?;
    order_and_show(book)
}

fn path_one() -> Path {
    Path::request(1).unwrap()
}

// What stands at the first three places, by a look.
fn looks(alloc: Global, book: &mut Book) -> Result<[Option<(Path, u64)>; 3], Memory>
    requires engines { HasEngines 2 book.old }
    requires sound { Sound book.old }
{
    let path = path_one();
    one_call(alloc, book, path)?;
    Ok([
        step_at(book, 1, path, 0),
        step_at(book, 1, path, 1),
        step_at(book, 1, path, 2),
    ])
}

#[test]
fn a_look_tells_the_step(rt: HostRuntime) -> Result<(), Fail> {
    let mut book = sound_book(rt.alloc())?;
    let steps = looks(rt.alloc(), &mut book);
    drop(book);
    let path = path_one();
    assert_eq!(rt; steps?, [Some((path, 1)), Some((path, 3)), None]);
    Ok(())
}

fn kinds(alloc: Global, book: &mut Book) -> Result<[Option<BodyKind>; 3], Memory>
    requires engines { HasEngines 2 book.old }
    requires sound { Sound book.old }
{
    let path = path_one();
    one_call(alloc, book, path)?;
    Ok([
        kind_at(book, 1, path, 0),
        kind_at(book, 1, path, 1),
        kind_at(book, 2, path, 0),
    ])
}

#[test]
fn a_look_tells_the_kind(rt: HostRuntime) -> Result<(), Fail> {
    let mut book = sound_book(rt.alloc())?;
    let kinds = kinds(rt.alloc(), &mut book);
    drop(book);
    assert_eq!(rt;
        kinds?,
        [Some(BodyKind::Init), Some(BodyKind::Finish), None]
    );
    Ok(())
}

// The seqnum of the begin at a place, or 0 where no begin is there.
fn begin_at(alloc: Global, book: &Book, engine: u32, path: Path, place: u64) -> Result<u64, Memory>
    requires { HasEngine engine book.now }
{
    let found = at(alloc, book, engine, path, place)?;
    let seq = seq_of_begin(&found);
    drop(found);
    Ok(seq)
}

fn seq_of_begin(found: &Option<(Seqnum, Body)>) -> u64 {
    match found {
        Some((seq, Body::Init { .. })) => seq.0,
        _ => 0,
    }
}

fn begins(alloc: Global, book: &mut Book) -> Result<[u64; 3], Memory>
    requires { HasEngines 2 book.old }
{
    let path = path_one();
    one_call(alloc, book, path)?;
    let first = begin_at(alloc, book, 1, path, 0)?;
    let second = begin_at(alloc, book, 1, path, 1)?;
    let unseen = begin_at(alloc, book, 2, path, 0)?;
    Ok([first, second, unseen])
}

#[test]
fn the_live_record_stands_at_its_place(rt: HostRuntime) -> Result<(), Fail> {
    let mut book = sound_book(rt.alloc())?;
    let begins = begins(rt.alloc(), &mut book);
    drop(book);
    assert_eq!(rt; begins?, [2, 0, 0]);
    Ok(())
}

// The value of an outcome, or 0 where there is none.
fn value_in(outcome: &Option<Outcome>) -> i64 {
    match outcome {
        Some(Outcome::Good(Value::Int(value))) => *value,
        _ => 0,
    }
}

// The results that the engines 1 and 2 see, by the walk, and by the last record alone.
fn results(alloc: Global, book: &mut Book) -> Result<[i64; 3], Memory>
    requires engines { HasEngines 2 book.old }
    requires sound { Sound book.old }
{
    let path = path_one();
    one_call(alloc, book, path)?;
    let walked = finish_of(alloc, book, 1, path)?;
    let unseen = finish_of(alloc, book, 2, path)?;
    let last = last_finish(alloc, book, 1, path)?;
    let values = [value_in(&walked), value_in(&unseen), value_in(&last)];
    drop((walked, unseen, last));
    Ok(values)
}

#[test]
fn the_end_tells_the_result(rt: HostRuntime) -> Result<(), Fail> {
    let mut book = sound_book(rt.alloc())?;
    let values = results(rt.alloc(), &mut book);
    drop(book);
    assert_eq!(rt; values?, [5, 0, 5]);
    Ok(())
}

// Whether the engine sees a call of `f` without arguments.
fn calls_f(alloc: Global, book: &Book, engine: u32) -> Result<bool, Memory>
    requires engine { HasEngine engine book.now }
    requires sound { Sound book.now }
{
    let call = resolve(alloc, book, engine, path_one())?;
    let found = match &call {
        Some(call) => call.function.is("f") && call.args.is_empty(),
        None => false,
    };
    drop(call);
    Ok(found)
}

fn resolved(alloc: Global, book: &mut Book) -> Result<[bool; 2], Memory>
    requires engines { HasEngines 2 book.old }
    requires sound { Sound book.old }
{
    one_call(alloc, book, path_one())?;
    let seen = calls_f(alloc, book, 1)?;
    let unseen = calls_f(alloc, book, 2)?;
    Ok([seen, unseen])
}

#[test]
fn a_call_is_resolved(rt: HostRuntime) -> Result<(), Fail> {
    let mut book = sound_book(rt.alloc())?;
    let found = resolved(rt.alloc(), &mut book);
    drop(book);
    assert_eq!(rt; found?, [true, false]);
    Ok(())
}

// The user's record of the tag 5 that the engine 1 sees.
fn user_text(alloc: Global, book: &mut Book) -> Result<Option<Seqnum>, Memory>
    requires { HasEngines 2 book.old }
{
    send_user(alloc, book, 1, None, &[Tag(5)], b"text")?;
    order(book)?;
    show(book, 1)?;
    Ok(book.check_tail(1, Tag(5)))
}

// Whether the first record has the bytes of the text, as a user's record spells it.
fn spells_text(book: &Book) -> bool {
    match book.record(Seqnum(1)) {
        Some(rec) => rec.bytes.as_slice() == b"\x01\x10\x00\x04text".as_slice(),
        None => false,
    }
}

#[test]
fn a_users_text_is_sent(rt: HostRuntime) -> Result<(), Fail> {
    let mut book = sound_book(rt.alloc())?;
    let found = user_text(rt.alloc(), &mut book);
    let spelled = spells_text(&book);
    drop(book);
    assert_eq!(rt; found?, Some(Seqnum(1)));
    assert!(rt; spelled);
    Ok(())
}
