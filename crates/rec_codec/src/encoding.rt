//! Bodies to bytes.

ghost use Rattle.std.specs.Prelude.{◌≡◌, ◌<◌, ◌↔◌, Ok, Err, length, not, IsTrue, IfOk, OnOk};
ghost use Rattle.boki_model.specs.Bodies.{in_range};
ghost use Rattle.rec_codec.specs.Spelling.{spelled, has_texts, is_short};
ghost use Rattle.rec_codec.specs.Reading.{read as reading};

use crate::fault::EncodeFault;
use crate::{Body, spellings};
use lb_base::{List, Memory};
use std::alloc::Global;

/// The spelling of a body that isn't too long.
fn spell(alloc: Global, body: &Body) -> Result<List<u8>, Memory>
    requires range { IsTrue (in_range body.now) }
    requires short { IsTrue (is_short body.now) }
    ensures ok { IfOk result (λ out. out ≡ spelled body.now) }
    ensures utf8 { OnOk result (IsTrue (has_texts body.now)) }
{
    match body {
        Body::Submit {
            path,
            function,
            args,
        } => spellings::submit(alloc, path, function, args.as_slice()),
        Body::Init { path } => spellings::init(alloc, path),
        Body::Read { path, index, key } => spellings::read(alloc, path, *index, key),
        Body::Write {
            path,
            index,
            place,
            key,
            value: None,
        } => spellings::named_write(alloc, path, *index, *place, key),
        Body::Write {
            path,
            index,
            place,
            key,
            value: Some(value),
        } => spellings::inline_write(alloc, path, *index, *place, key, value),
        Body::Spawn {
            path,
            index,
            ordinal,
            function,
            args,
        } => spellings::spawn(alloc, path, *index, *ordinal, function, args.as_slice()),
        Body::Join {
            path,
            index,
            ordinal,
        } => spellings::join(alloc, path, *index, *ordinal),
        Body::Push {
            path,
            index,
            queue,
            value,
        } => spellings::push(alloc, path, *index, queue, value),
        Body::Pop { path, index, queue } => spellings::pop(alloc, path, *index, queue),
        Body::TxnBegin { path, index, names } => spellings::begin(
            alloc,
            path,
            *index,
            names.as_slice(),
        ),
        Body::TxnCommit {
            path,
            index,
            begin,
            names,
            writes,
        } => spellings::commit(
            alloc,
            path,
            *index,
            *begin,
            names.as_slice(),
            writes.as_slice(),
        ),
        Body::Finish {
            path,
            index,
            outcome,
        } => spellings::finish(alloc, path, *index, outcome),
        Body::SwitchBegin { target } => spellings::switch(alloc, *target),
        Body::SwitchEnd => spellings::switch_end(alloc),
        Body::Trim { w } => spellings::trim(alloc, *w),
        Body::TrimTag { number, upto } => spellings::trim_tag(alloc, *number, *upto),
        Body::User { bytes } => spellings::user(alloc, bytes.as_slice()),
        Body::ReadGroup { path, index, keys } => spellings::group(
            alloc,
            path,
            *index,
            keys.as_slice(),
        ),
    }
}

/// Whether a body's spelling has more than 4,096 bytes, as a user's alone can.
fn is_too_long(body: &Body) -> bool
    ensures { result ≡ not (is_short body.now) }
{
    match body {
        Body::User { bytes } => bytes.len() > 4_092,
        _ => false,
    }
}

/// The one spelling of a body, of at most 4,096 bytes.
///
/// It needs each field in its range, but for a user's bytes, of which there may be any number. `TooLong` comes exactly where the
/// spelling has more than 4,096 bytes: where a user's bytes are more than 4,092.
pub fn encode(alloc: Global, body: &Body) -> Result<List<u8>, EncodeFault>
    requires { IsTrue (in_range body.now) }
    ensures ok { IfOk result (λ bytes. bytes ≡ spelled body.now) }
    // What is encoded is decoded again.
    ensures again { OnOk result (reading (spelled body.now) ≡ Ok body.now) }
    ensures too_long { (result ≡ Err EncodeFault.TooLong) ↔ (4096 < length (spelled body.now)) }
{
    if is_too_long(body) {
        return Err(EncodeFault::TooLong);
    }
    Ok(spell(alloc, body)?)
}
