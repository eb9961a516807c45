//! What a record's bytes tell at a look, where they spell a body: it isn't made, and no memory is taken.
ghost use Rattle.std.specs.Prelude.{◌≡◌, ◌≤◌, drop, length};
ghost use Rattle.boki_types.specs.declared.body.Body.{Body};
ghost use Rattle.boki_model.specs.Bodies.{step_of};
ghost use Rattle.rec_codec.specs.Reading.{read};
ghost use Rattle.rec_codec.specs.Looking.{kind_of, kind_by_number, first_step, indexed_step, step_by_kind};

use crate::elements::word;
use crate::lists::path;
use lb_base::Path;

/// Of which kind a body is.
#[derive(Clone, Copy, Debug, PartialEq, Eq)]
pub enum BodyKind {
    Submit,
    Init,
    Read,
    Write,
    Spawn,
    Join,
    Push,
    Pop,
    TxnBegin,
    TxnCommit,
    Finish,
    SwitchBegin,
    SwitchEnd,
    Trim,
    TrimTag,
    User,
    ReadGroup,
}

/// The kind of the body that the bytes spell. Of bytes that spell none it tells nothing. It takes no memory.
pub fn kind_of_bytes(bytes: &[u8]) -> Option<BodyKind>
    ensures { (body : Body) → read bytes.now ≡ Ok body → result ≡ Some (kind_of body) }
{
    if bytes.len() < 2 {
        return None;
    }
    kind_of_number(bytes[1])
}

/// The path and the step index of the step record that the bytes spell, or None where the body is no step record. Of bytes that
/// spell no body it tells nothing. It takes no memory.
pub fn step_of_bytes(bytes: &[u8]) -> Option<(Path, u64)>
    ensures { (body : Body) → read bytes.now ≡ Ok body → result ≡ step_of body }
{
    if bytes.len() < 2 {
        return None;
    }
    step_by_number(bytes[1], &bytes[2..])
}

// The path and the step index that the fields of a body of a kind begin with.
fn step_by_number(number: u8, fields: &[u8]) -> Option<(Path, u64)>
    ensures { result ≡ step_by_kind (kind_by_number number) fields.now }
{
    match kind_of_number(number)? {
        BodyKind::Init => path_in(fields),
        BodyKind::Submit
        | BodyKind::SwitchBegin
        | BodyKind::SwitchEnd
        | BodyKind::Trim
        | BodyKind::TrimTag
        | BodyKind::User => None,
        _ => path_and_index(fields),
    }
}

// The path that the bytes begin with, as that of an Init, whose step index is 1.
fn path_in(bytes: &[u8]) -> Option<(Path, u64)>
    ensures { result ≡ first_step bytes.now }
{
    let mut rest = bytes;
    match path(4, &mut rest) {
        Ok(path) => Some((path, 1)),
        Err(_) => None,
    }
}

// The path and the step index that the bytes begin with.
fn path_and_index(bytes: &[u8]) -> Option<(Path, u64)>
    ensures { result ≡ indexed_step bytes.now }
{
    let mut rest = bytes;
    let Ok(path) = path(4, &mut rest) else {
        return None;
    };
    match word(rest) {
        Ok((index, _)) => Some((path, index)),
        Err(_) => None,
    }
}

// The kind of a number.
fn kind_of_number(number: u8) -> Option<BodyKind>
    ensures { result ≡ kind_by_number number }
{
    match number {
        1 => Some(BodyKind::Submit),
        2 => Some(BodyKind::Init),
        3 => Some(BodyKind::Read),
        4 => Some(BodyKind::Write),
        5 => Some(BodyKind::Spawn),
        6 => Some(BodyKind::Join),
        7 => Some(BodyKind::Push),
        8 => Some(BodyKind::Pop),
        9 => Some(BodyKind::TxnBegin),
        10 => Some(BodyKind::TxnCommit),
        11 => Some(BodyKind::Finish),
        12 => Some(BodyKind::SwitchBegin),
        13 => Some(BodyKind::SwitchEnd),
        14 => Some(BodyKind::Trim),
        15 => Some(BodyKind::TrimTag),
        16 => Some(BodyKind::User),
        17 => Some(BodyKind::ReadGroup),
        _ => None,
    }
}
