//! Bytes to bodies.

ghost use Rattle.std.specs.Prelude.{◌≡◌};
ghost use Rattle.rec_codec.specs.Answers.{ReadsAs, Decodes};
ghost use Rattle.rec_codec.specs.Reading.{format1_at, format2_at, body_at, read};

use crate::fault::{DecodeFault, Stop};
use crate::{Body, kinds};
use std::alloc::Global;

/// A body of format 1, from its kind on.
#[tactic(auto, unfolding(crate::specs::Reading::format1_at))]
fn format1(alloc: Global, bytes: &[u8]) -> Result<(Body, &[u8]), Stop>
    ensures { ReadsAs (λ x. (x.0, x.1.now)) result (format1_at bytes.now) }
{
    let [kind, rest @ ..] = bytes else {
        return Err(Stop::Left(0));
    };
    match *kind {
        1 => kinds::submit(alloc, rest),
        2 => kinds::init(rest),
        3 => kinds::read(alloc, rest),
        4 => kinds::named_write(alloc, rest),
        5 => kinds::spawn(alloc, rest),
        6 => kinds::join(rest),
        7 => kinds::push(alloc, rest),
        8 => kinds::pop(alloc, rest),
        9 => kinds::begin(alloc, rest),
        10 => kinds::commit(alloc, rest),
        11 => kinds::finish(alloc, rest),
        12 => kinds::switch(rest),
        13 => Ok((Body::SwitchEnd, rest)),
        14 => kinds::trim(rest),
        15 => kinds::trim_tag(rest),
        16 => kinds::user(alloc, rest),
        _ => Err(Stop::Left(bytes.len())),
    }
}

/// A body of format 2, from its kind on.
#[tactic(auto, unfolding(crate::specs::Reading::format2_at))]
fn format2(alloc: Global, bytes: &[u8]) -> Result<(Body, &[u8]), Stop>
    ensures { ReadsAs (λ x. (x.0, x.1.now)) result (format2_at bytes.now) }
{
    match bytes {
        [] => Err(Stop::Left(0)),
        [4, rest @ ..] => kinds::inline_write(alloc, rest),
        [17, rest @ ..] => kinds::group(alloc, rest),
        [_, ..] => Err(Stop::Left(bytes.len())),
    }
}

/// A body.
#[tactic(auto, unfolding(crate::specs::Reading::body_at))]
fn body(alloc: Global, bytes: &[u8]) -> Result<(Body, &[u8]), Stop>
    ensures { ReadsAs (λ x. (x.0, x.1.now)) result (body_at bytes.now) }
{
    match bytes {
        [] => Err(Stop::Left(0)),
        [1, rest @ ..] => format1(alloc, rest),
        [2, rest @ ..] => format2(alloc, rest),
        [_, ..] => Err(Stop::Left(bytes.len())),
    }
}

/// The body that bytes spell, all of them.
///
/// `Bad` comes exactly where they spell none, with the offset of the first element that isn't spelled, or of the first byte behind
/// a whole body.
pub fn decode(alloc: Global, bytes: &[u8]) -> Result<Body, DecodeFault>
    ensures { Decodes result (read bytes.now) }
{
    match body(alloc, bytes) {
        Ok((body, [])) => Ok(body),
        Ok((body, rest)) => {
            drop(body);
            Err(DecodeFault::Bad(bytes.len().saturating_sub(rest.len())))
        }
        Err(Stop::Left(left)) => Err(DecodeFault::Bad(bytes.len().saturating_sub(left))),
        Err(Stop::Memory) => Err(DecodeFault::Memory),
    }
}
