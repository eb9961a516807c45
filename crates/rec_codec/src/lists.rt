//! Readers of paths, and of lists behind their number.

ghost use Rattle.std.specs.Prelude.{◌≡◌, ◌+◌, ◌<◌, ◌≤◌, [], ◌∷◌, length, IfOk};
ghost use Rattle.rec_codec.specs.Answers.{ReadsAs, NeedsNoMemory, with_front, with_one};
ghost use Rattle.rec_codec.specs.Reading.{is_key, text_at, value_at, write_at, many_at, list_at, request_at, spawn_at, path_at};

use crate::elements::{count, part};
use crate::fault::Stop;
use crate::values::{key, value, write};
use lb_base::{List, Path, Value, Words};
use std::alloc::Global;

/// Takes the number of a request, as a path.
#[tactic(auto, unfolding(crate::specs::Reading::request_at))]
fn request(bytes: &mut &[u8]) -> Result<Path, Stop>
    ensures read { ReadsAs (λ x. (x, bytes.new.now)) result (with_one [] (request_at bytes.old.now)) }
    ensures one { IfOk result (λ path. length path ≡ 1) }
    ensures memory { NeedsNoMemory result }
{
    let (number, rest) = part(bytes)?;
    match Path::request(number) {
        Some(path) => {
            *bytes = rest;
            Ok(path)
        }
        None => Err(Stop::Left(bytes.len())),
    }
}

/// Takes the ordinal of a spawn, and adds it to a path.
#[tactic(auto, unfolding(crate::specs::Reading::spawn_at))]
fn spawn(path: Path, bytes: &mut &[u8]) -> Result<Path, Stop>
    requires { length path < 4 }
    ensures read { ReadsAs (λ x. (x, bytes.new.now)) result (with_one path (spawn_at bytes.old.now)) }
    ensures memory { NeedsNoMemory result }
{
    let (ordinal, rest) = part(bytes)?;
    match path.child(ordinal) {
        Some(longer) => {
            *bytes = rest;
            Ok(longer)
        }
        None => Err(Stop::Left(bytes.len())),
    }
}

/// Takes so many ordinals of spawns, and adds them to a path.
fn spawns(path: Path, count: u8, bytes: &mut &[u8]) -> Result<Path, Stop>
    requires { length path + count ≤ 4 }
    ensures read { ReadsAs (λ x. (x, bytes.new.now)) result (with_front path (many_at spawn_at count bytes.old.now)) }
    ensures memory { NeedsNoMemory result }
{
    let mut whole = path;
    for _ in 0..count {
        whole = spawn(whole, bytes)?;
    }
    Ok(whole)
}

/// Takes a path of at most so many numbers from the front of the bytes.
#[tactic(auto, unfolding(crate::specs::Reading::path_at))]
pub(crate) fn path(most: u8, bytes: &mut &[u8]) -> Result<Path, Stop>
    requires { most ≤ 4 }
    ensures read { ReadsAs (λ x. (x, bytes.new.now)) result (path_at most bytes.old.now) }
    ensures memory { NeedsNoMemory result }
{
    let (count, rest) = count(1, most, bytes)?;
    *bytes = rest;
    let request = request(bytes)?;
    spawns(request, count - 1, bytes)
}

/// So many values, one behind the other.
fn many_values(alloc: Global, count: u8, bytes: &[u8]) -> Result<(List<Value>, &[u8]), Stop>
    ensures { ReadsAs (λ x. (x.0, x.1.now)) result (many_at value_at count bytes.now) }
{
    let mut list = List::new(alloc);
    let mut rest = bytes;
    for _ in 0..count {
        let (value, after) = value(alloc, rest)?;
        list.push(value)?;
        rest = after;
    }
    Ok((list, rest))
}

/// At most eight values.
#[tactic(auto, unfolding(crate::specs::Reading::list_at))]
pub(crate) fn values(alloc: Global, bytes: &[u8]) -> Result<(List<Value>, &[u8]), Stop>
    ensures { ReadsAs (λ x. (x.0, x.1.now)) result (list_at 0 value_at bytes.now) }
{
    let (count, rest) = count(0, 8, bytes)?;
    many_values(alloc, count, rest)
}

/// So many names, one behind the other.
fn many_names(alloc: Global, count: u8, bytes: &[u8]) -> Result<(List<Words>, &[u8]), Stop>
    ensures { ReadsAs (λ x. (x.0, x.1.now)) result (many_at (text_at is_key) count bytes.now) }
{
    let mut list = List::new(alloc);
    let mut rest = bytes;
    for _ in 0..count {
        let (name, after) = key(alloc, rest)?;
        list.push(name)?;
        rest = after;
    }
    Ok((list, rest))
}

/// At most eight names, at least one.
#[tactic(auto, unfolding(crate::specs::Reading::list_at))]
pub(crate) fn names(alloc: Global, bytes: &[u8]) -> Result<(List<Words>, &[u8]), Stop>
    ensures { ReadsAs (λ x. (x.0, x.1.now)) result (list_at 1 (text_at is_key) bytes.now) }
{
    let (count, rest) = count(1, 8, bytes)?;
    many_names(alloc, count, rest)
}

/// So many writes, one behind the other.
fn many_writes(
    alloc: Global,
    count: u8,
    bytes: &[u8],
) -> Result<(List<(Words, Value)>, &[u8]), Stop>
    ensures { ReadsAs (λ x. (x.0, x.1.now)) result (many_at write_at count bytes.now) }
{
    let mut list = List::new(alloc);
    let mut rest = bytes;
    for _ in 0..count {
        let (item, after) = write(alloc, rest)?;
        list.push(item)?;
        rest = after;
    }
    Ok((list, rest))
}

/// At most eight writes.
#[tactic(auto, unfolding(crate::specs::Reading::list_at))]
pub(crate) fn writes(alloc: Global, bytes: &[u8]) -> Result<(List<(Words, Value)>, &[u8]), Stop>
    ensures { ReadsAs (λ x. (x.0, x.1.now)) result (list_at 0 write_at bytes.now) }
{
    let (count, rest) = count(0, 8, bytes)?;
    many_writes(alloc, count, rest)
}
