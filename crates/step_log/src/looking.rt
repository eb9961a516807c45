//! Looks at step logs and calls, as an engine sees them.
ghost use Rattle.std.specs.Prelude.{◌≡◌, ◌≤◌, ◌++◌, ◌∷◌, [], length, IfOk, IfSome, IsTrue, option_map};
ghost use Rattle.std.specs.Option.{option_and_then};
ghost use Rattle.lb_base.specs.Path.{IsPath, is_ordinal};
ghost use Rattle.boki_model.specs.Bodies as bodies;
ghost use Rattle.boki_model.specs.Bodies.{in_range, step_of};
ghost use Rattle.boki_model.specs.Reads.{nth};
ghost use Rattle.boki_machine.specs.Attempt.{call_of, call_in as called};
ghost use Rattle.book_api.specs.Books.{HasEngine};
ghost use Rattle.rec_codec.specs.Looking.{kind_of};
ghost use Rattle.rec_codec.specs.Reading.{read};
ghost use Rattle.step_log.specs.Sound.{Sound, body_of, view, seqnum_and_body};

use boki_types::Call;
use book_api::Book;
use lb_base::{Memory, Path, Seqnum, Tag};
use rec_codec::{
    Body, BodyKind, DecodeFault, call_tag, decode, kind_of_bytes, step_of_bytes, step_tag,
};
use std::alloc::Global;

/// The live record at a place of the path's step log, of those that the engine sees: its seqnum and its body; or None where there
/// is none.
pub fn at(
    alloc: Global,
    book: &Book,
    engine: u32,
    path: Path,
    place: u64,
) -> Result<Option<(Seqnum, Body)>, Memory>
    requires { HasEngine engine book.now }
    ensures { IfOk result (λ found. found ≡ option_map seqnum_and_body (nth (bodies.step_tag path) place (view book.now engine))) }
{
    placed(alloc, book, engine, step_tag(&path), place)
}

/// The path and the step index of the live record at a place of the path's step log, of those that the engine sees; or None where
/// there is none, or it is no step record. The book is to be sound. No body is made, so it takes no memory.
pub fn step_at(book: &Book, engine: u32, path: Path, place: u64) -> Option<(Path, u64)>
    requires engine { HasEngine engine book.now }
    requires sound { Sound book.now }
    ensures { result ≡ option_and_then (λ x. step_of x.holds) (nth (bodies.step_tag path) place (view book.now engine)) }
{
    let bytes = bytes_at(book, engine, step_tag(&path), place)?;
    step_of_bytes(bytes)
}

/// Of which kind the live record at a place of the path's step log is, of those that the engine sees; or None where there is
/// none. The book is to be sound. No body is made, so it takes no memory.
pub fn kind_at(book: &Book, engine: u32, path: Path, place: u64) -> Option<BodyKind>
    requires engine { HasEngine engine book.now }
    requires sound { Sound book.now }
    ensures { result ≡ option_map (λ x. kind_of x.holds) (nth (bodies.step_tag path) place (view book.now engine)) }
{
    let bytes = bytes_at(book, engine, step_tag(&path), place)?;
    kind_of_bytes(bytes)
}

/// What the path's invocation calls, of what the engine sees: the first live call of the path; or None where there is none. The
/// book is to be sound.
pub fn resolve(alloc: Global, book: &Book, engine: u32, path: Path) -> Result<Option<Call>, Memory>
    requires engine { HasEngine engine book.now }
    requires sound { Sound book.now }
    ensures { IfOk result (λ call. call ≡ call_of path (view book.now engine)) }
{
    match placed(alloc, book, engine, calls_of(&path), 0)? {
        Some((_, body)) => Ok(call_in(path, body)),
        None => Ok(None),
    }
}

// The live record at a place of a tag.
pub(crate) fn placed(
    alloc: Global,
    book: &Book,
    engine: u32,
    tag: Tag,
    place: u64,
) -> Result<Option<(Seqnum, Body)>, Memory>
    requires { HasEngine engine book.now }
    ensures found { IfOk result (λ found. found ≡ option_map seqnum_and_body (nth tag.0 place (view book.now engine))) }
    ensures range { Sound book.now → IfOk result (λ found. IfSome found (λ x. IsTrue (in_range x.1))) }
{
    let Some(seq) = book.nth(engine, tag, place) else {
        return Ok(None);
    };
    let Some(rec) = book.record(seq) else {
        return Ok(None);
    };
    let body = body_in(alloc, rec.bytes.as_slice())?;
    Ok(Some((seq, body)))
}

// The bytes of the live record at a place of a tag. In a sound book they spell what the record says.
pub(crate) fn bytes_at(book: &Book, engine: u32, tag: Tag, place: u64) -> Option<&[u8]>
    requires { HasEngine engine book.now }
    ensures says { option_map (λ bytes. body_of bytes.now) result ≡ option_map (λ x. x.holds) (nth tag.0 place (view book.now engine)) }
    ensures spells { Sound book.now → IfSome result (λ bytes. read bytes.now ≡ Ok (body_of bytes.now)) }
{
    let seq = book.nth(engine, tag, place)?;
    let rec = book.record(seq)?;
    Some(rec.bytes.as_slice())
}

// The body that bytes spell, or the end of a switch where they spell none.
pub(crate) fn body_in(alloc: Global, bytes: &[u8]) -> Result<Body, Memory>
    ensures { IfOk result (λ body. body ≡ body_of bytes.now) }
{
    match decode(alloc, bytes) {
        Ok(body) => Ok(body),
        Err(DecodeFault::Bad(_)) => Ok(Body::SwitchEnd),
        Err(DecodeFault::Memory) => Err(Memory),
    }
}

// What a body calls, where it is the path's call.
fn call_in(path: Path, body: Body) -> Option<Call>
    requires { IsTrue (in_range body) }
    ensures { result ≡ called path body }
{
    match body {
        Body::Submit {
            path: submitted,
            function,
            args,
        } => {
            if submitted == path {
                Some(Call { function, args })
            } else {
                None
            }
        }
        Body::Spawn {
            path: parent,
            ordinal,
            function,
            args,
            ..
        } => {
            if path == child(parent, ordinal) {
                Some(Call { function, args })
            } else {
                None
            }
        }
        _ => None,
    }
}

// The path of a spawn.
fn child(path: Path, ordinal: u64) -> Path
    requires depth { length path ≤ 3 }
    requires ordinal { IsTrue (is_ordinal ordinal) }
    ensures { result ≡ path ++ ordinal ∷ [] }
{
    path.child(ordinal as u32).unwrap()
}

// The tag of the path's calls.
fn calls_of(path: &Path) -> Tag
    ensures tag { result.0 ≡ bodies.call_tag path.now }
    ensures path { IsPath path.now }
{
    // A path has 1 to 4 numbers.
    let _depth = path.depth();
    call_tag(path)
}
