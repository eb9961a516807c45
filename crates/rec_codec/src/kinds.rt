//! Readers of the fields of each kind of body.

ghost use Rattle.std.specs.Prelude.{◌≡◌};
ghost use Rattle.rec_codec.specs.Answers.{ReadsAs};
ghost use Rattle.rec_codec.specs.Reading.{submit_at, init_at, read_at, named_write_at, inline_write_at, spawned_at, join_at, push_at, pop_at, begin_at, commit_at, finish_at, switch_at, trim_at, trim_tag_at, user_at, group_at};

use crate::Body;
use crate::elements::{index, ordinal, piece, tag, word};
use crate::fault::Stop;
use crate::lists::{names, path, values, writes};
use crate::values::{function, key, outcome, target, value};
use lb_base::List;
use std::alloc::Global;

/// The fields of a call.
#[tactic(auto, unfolding(crate::specs::Reading::submit_at))]
pub(crate) fn submit(alloc: Global, bytes: &[u8]) -> Result<(Body, &[u8]), Stop>
    ensures { ReadsAs (λ x. (x.0, x.1.now)) result (submit_at bytes.now) }
{
    let mut rest = bytes;
    let path = path(1, &mut rest)?;
    let (function, rest) = function(alloc, rest)?;
    let (args, rest) = values(alloc, rest)?;
    Ok((
        Body::Submit {
            path,
            function,
            args,
        },
        rest,
    ))
}

/// The fields of a begin.
#[tactic(auto, unfolding(crate::specs::Reading::init_at))]
pub(crate) fn init(bytes: &[u8]) -> Result<(Body, &[u8]), Stop>
    ensures { ReadsAs (λ x. (x.0, x.1.now)) result (init_at bytes.now) }
{
    let mut rest = bytes;
    let path = path(4, &mut rest)?;
    Ok((Body::Init { path }, rest))
}

/// The fields of a marker.
#[tactic(auto, unfolding(crate::specs::Reading::read_at))]
pub(crate) fn read(alloc: Global, bytes: &[u8]) -> Result<(Body, &[u8]), Stop>
    ensures { ReadsAs (λ x. (x.0, x.1.now)) result (read_at bytes.now) }
{
    let mut rest = bytes;
    let path = path(4, &mut rest)?;
    let (index, rest) = index(rest)?;
    let (key, rest) = key(alloc, rest)?;
    Ok((Body::Read { path, index, key }, rest))
}

/// The fields of a write whose value stands under its name.
#[tactic(auto, unfolding(crate::specs::Reading::named_write_at))]
pub(crate) fn named_write(alloc: Global, bytes: &[u8]) -> Result<(Body, &[u8]), Stop>
    ensures { ReadsAs (λ x. (x.0, x.1.now)) result (named_write_at bytes.now) }
{
    let mut rest = bytes;
    let path = path(4, &mut rest)?;
    let (index, rest) = index(rest)?;
    let (place, rest) = word(rest)?;
    let (key, rest) = key(alloc, rest)?;
    Ok((
        Body::Write {
            path,
            index,
            place,
            key,
            value: None,
        },
        rest,
    ))
}

/// The fields of a write with its value.
#[tactic(auto, unfolding(crate::specs::Reading::inline_write_at))]
pub(crate) fn inline_write(alloc: Global, bytes: &[u8]) -> Result<(Body, &[u8]), Stop>
    ensures { ReadsAs (λ x. (x.0, x.1.now)) result (inline_write_at bytes.now) }
{
    let mut rest = bytes;
    let path = path(4, &mut rest)?;
    let (index, rest) = index(rest)?;
    let (place, rest) = word(rest)?;
    let (key, rest) = key(alloc, rest)?;
    let (value, rest) = value(alloc, rest)?;
    Ok((
        Body::Write {
            path,
            index,
            place,
            key,
            value: Some(value),
        },
        rest,
    ))
}

/// The fields of a spawn.
#[tactic(auto, unfolding(crate::specs::Reading::spawned_at))]
pub(crate) fn spawn(alloc: Global, bytes: &[u8]) -> Result<(Body, &[u8]), Stop>
    ensures { ReadsAs (λ x. (x.0, x.1.now)) result (spawned_at bytes.now) }
{
    let mut rest = bytes;
    let path = path(3, &mut rest)?;
    let (index, rest) = index(rest)?;
    let (ordinal, rest) = ordinal(rest)?;
    let (function, rest) = function(alloc, rest)?;
    let (args, rest) = values(alloc, rest)?;
    Ok((
        Body::Spawn {
            path,
            index,
            ordinal,
            function,
            args,
        },
        rest,
    ))
}

/// The fields of a join.
#[tactic(auto, unfolding(crate::specs::Reading::join_at))]
pub(crate) fn join(bytes: &[u8]) -> Result<(Body, &[u8]), Stop>
    ensures { ReadsAs (λ x. (x.0, x.1.now)) result (join_at bytes.now) }
{
    let mut rest = bytes;
    let path = path(4, &mut rest)?;
    let (index, rest) = index(rest)?;
    let (ordinal, rest) = ordinal(rest)?;
    Ok((
        Body::Join {
            path,
            index,
            ordinal,
        },
        rest,
    ))
}

/// The fields of a push.
#[tactic(auto, unfolding(crate::specs::Reading::push_at))]
pub(crate) fn push(alloc: Global, bytes: &[u8]) -> Result<(Body, &[u8]), Stop>
    ensures { ReadsAs (λ x. (x.0, x.1.now)) result (push_at bytes.now) }
{
    let mut rest = bytes;
    let path = path(4, &mut rest)?;
    let (index, rest) = index(rest)?;
    let (queue, rest) = key(alloc, rest)?;
    let (value, rest) = value(alloc, rest)?;
    Ok((
        Body::Push {
            path,
            index,
            queue,
            value,
        },
        rest,
    ))
}

/// The fields of a pop.
#[tactic(auto, unfolding(crate::specs::Reading::pop_at))]
pub(crate) fn pop(alloc: Global, bytes: &[u8]) -> Result<(Body, &[u8]), Stop>
    ensures { ReadsAs (λ x. (x.0, x.1.now)) result (pop_at bytes.now) }
{
    let mut rest = bytes;
    let path = path(4, &mut rest)?;
    let (index, rest) = index(rest)?;
    let (queue, rest) = key(alloc, rest)?;
    Ok((Body::Pop { path, index, queue }, rest))
}

/// The fields of the begin of a transaction.
#[tactic(auto, unfolding(crate::specs::Reading::begin_at))]
pub(crate) fn begin(alloc: Global, bytes: &[u8]) -> Result<(Body, &[u8]), Stop>
    ensures { ReadsAs (λ x. (x.0, x.1.now)) result (begin_at bytes.now) }
{
    let mut rest = bytes;
    let path = path(4, &mut rest)?;
    let (index, rest) = index(rest)?;
    let (names, rest) = names(alloc, rest)?;
    Ok((Body::TxnBegin { path, index, names }, rest))
}

/// The fields of the end of a transaction.
#[tactic(auto, unfolding(crate::specs::Reading::commit_at))]
pub(crate) fn commit(alloc: Global, bytes: &[u8]) -> Result<(Body, &[u8]), Stop>
    ensures { ReadsAs (λ x. (x.0, x.1.now)) result (commit_at bytes.now) }
{
    let mut rest = bytes;
    let path = path(4, &mut rest)?;
    let (index, rest) = index(rest)?;
    let (begin, rest) = word(rest)?;
    let (names, rest) = names(alloc, rest)?;
    let (writes, rest) = writes(alloc, rest)?;
    Ok((
        Body::TxnCommit {
            path,
            index,
            begin,
            names,
            writes,
        },
        rest,
    ))
}

/// The fields of an end.
#[tactic(auto, unfolding(crate::specs::Reading::finish_at))]
pub(crate) fn finish(alloc: Global, bytes: &[u8]) -> Result<(Body, &[u8]), Stop>
    ensures { ReadsAs (λ x. (x.0, x.1.now)) result (finish_at bytes.now) }
{
    let mut rest = bytes;
    let path = path(4, &mut rest)?;
    let (index, rest) = index(rest)?;
    let (outcome, rest) = outcome(alloc, rest)?;
    Ok((
        Body::Finish {
            path,
            index,
            outcome,
        },
        rest,
    ))
}

/// The field of the begin of a switch.
#[tactic(auto, unfolding(crate::specs::Reading::switch_at))]
pub(crate) fn switch(bytes: &[u8]) -> Result<(Body, &[u8]), Stop>
    ensures { ReadsAs (λ x. (x.0, x.1.now)) result (switch_at bytes.now) }
{
    let (target, rest) = target(bytes)?;
    Ok((Body::SwitchBegin { target }, rest))
}

/// The field of a floor.
#[tactic(auto, unfolding(crate::specs::Reading::trim_at))]
pub(crate) fn trim(bytes: &[u8]) -> Result<(Body, &[u8]), Stop>
    ensures { ReadsAs (λ x. (x.0, x.1.now)) result (trim_at bytes.now) }
{
    let (w, rest) = word(bytes)?;
    Ok((Body::Trim { w }, rest))
}

/// The fields of a trimmed tag.
#[tactic(auto, unfolding(crate::specs::Reading::trim_tag_at))]
pub(crate) fn trim_tag(bytes: &[u8]) -> Result<(Body, &[u8]), Stop>
    ensures { ReadsAs (λ x. (x.0, x.1.now)) result (trim_tag_at bytes.now) }
{
    let (number, rest) = tag(bytes)?;
    let (upto, rest) = word(rest)?;
    Ok((Body::TrimTag { number, upto }, rest))
}

/// The fields of a marker of several objects.
#[tactic(auto, unfolding(crate::specs::Reading::group_at))]
pub(crate) fn group(alloc: Global, bytes: &[u8]) -> Result<(Body, &[u8]), Stop>
    ensures { ReadsAs (λ x. (x.0, x.1.now)) result (group_at bytes.now) }
{
    let mut rest = bytes;
    let path = path(4, &mut rest)?;
    let (index, rest) = index(rest)?;
    let (keys, rest) = names(alloc, rest)?;
    Ok((Body::ReadGroup { path, index, keys }, rest))
}

/// A user's bytes, of which there are at most 4,092.
#[tactic(auto, unfolding(crate::specs::Reading::user_at, crate::specs::Reading::text_at))]
pub(crate) fn user(alloc: Global, bytes: &[u8]) -> Result<(Body, &[u8]), Stop>
    ensures { ReadsAs (λ x. (x.0, x.1.now)) result (user_at bytes.now) }
{
    let (piece, rest) = piece(bytes)?;
    if piece.len() > 4_092 {
        return Err(Stop::Left(bytes.len()));
    }
    let bytes = List::from_slice(alloc, piece)?;
    Ok((Body::User { bytes }, rest))
}
