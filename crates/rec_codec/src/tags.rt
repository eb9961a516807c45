//! The tags of a record, by what it says.

ghost use Rattle.std.specs.Prelude.{◌≡◌, ◌+◌, ◌*◌, ◌^◌, ◌<◌, ◌≤◌, ◌%◌, ◌++◌, ◌∷◌, [], length, slice_index, IsTrue, IfOk};
ghost use Rattle.lb_base.specs.Path.{is_ordinal};
ghost use Rattle.boki_model.specs.Bodies as bodies;
ghost use Rattle.boki_model.specs.Bodies.{in_range};

use crate::Body;
use boki_model::tag_classes::{
    CALL_CLASS, LIFE_CLASS, MODE_CLASS, OBJECT_CLASS, QUEUE_CLASS, STEP_CLASS, TRANSACTION_CLASS,
    TRIM_CLASS, TRIMMED_TAG_CLASS,
};
use lb_base::{List, Memory, Path, Tag};
use std::alloc::Global;

/// The hash of a name, below 2^56: FNV-1a of 64 bits, without its highest byte.
fn name_hash_of(name: &str) -> u64
    ensures { result ≡ bodies.name_hash name.now }
{
    let mut hash: u64 = 14_695_981_039_346_656_037;
    for byte in name.as_bytes() {
        hash = (hash ^ u64::from(*byte)).wrapping_mul(1_099_511_628_211);
    }
    hash % 72_057_594_037_927_936
}

/// The tag of a class and a number below 2^56.
fn tag_of(class: u8, number: u64) -> Tag
    requires { number < 2 ^ 56 }
    ensures { result ≡ bodies.tag_of class number }
{
    Tag(u64::from(class) * 72_057_594_037_927_936 + number)
}

/// The tag of a name, of the class of objects or of queues.
///
/// It takes any class and any name, and no memory. Names may share a tag.
pub fn key_tag(class: u8, name: &str) -> Tag
    ensures { result ≡ bodies.tag_of class (bodies.name_hash name.now) }
{
    tag_of(class, name_hash_of(name))
}

/// The number of a path's request.
fn request(path: &Path) -> u64
    ensures value { result ≡ slice_index path.now 0 }
    ensures bound { result < 2 ^ 20 }
{
    u64::from(path.parts()[0])
}

/// The ordinal at an index of a path, from 1, or 0 behind its end.
fn ordinal(path: &Path, at: usize) -> u64
    requires { 1 ≤ at }
    ensures value { result ≡ slice_index path.now at }
    ensures bound { result < 2 ^ 12 }
{
    let parts = path.parts();
    if at < parts.len() {
        u64::from(parts[at])
    } else {
        0
    }
}

/// A path as a number.
fn path_number(path: &Path) -> u64
    ensures value { result ≡ bodies.path_number path.now }
    ensures bound { result < 2 ^ 56 }
{
    request(path) * 68_719_476_736
        + ordinal(path, 1) * 16_777_216
        + ordinal(path, 2) * 4_096
        + ordinal(path, 3)
}

/// The tag of an invocation's call. It takes no memory.
pub fn call_tag(path: &Path) -> Tag
    ensures { result ≡ bodies.tag_of 1 (bodies.path_number path.now) }
{
    tag_of(CALL_CLASS, path_number(path))
}

/// The tag of an invocation's steps. It takes no memory.
pub fn step_tag(path: &Path) -> Tag
    ensures { result ≡ bodies.tag_of 2 (bodies.path_number path.now) }
{
    tag_of(STEP_CLASS, path_number(path))
}

/// The path of a spawn.
fn child(path: &Path, ordinal: u64) -> Path
    requires depth { length path.now ≤ 3 }
    requires ordinal { IsTrue (is_ordinal ordinal) }
    ensures { result ≡ path.now ++ ordinal ∷ [] }
{
    path.child(ordinal as u32).unwrap()
}

/// The tags of a body, in the order in which a record has them. A user's body tells none, and gives no tag.
///
/// It needs each field in its range.
pub fn tags_of(alloc: Global, body: &Body) -> Result<List<Tag>, Memory>
    requires { IsTrue (in_range body.now) }
    ensures { IfOk result (λ tags. tags ≡ bodies.tags_of body.now) }
{
    match body {
        Body::Submit { path, .. } => List::from_slice(alloc, &[call_tag(path)]),
        Body::Init { path } => List::from_slice(alloc, &[step_tag(path), tag_of(LIFE_CLASS, 0)]),
        Body::Read { path, .. } => List::from_slice(alloc, &[step_tag(path)]),
        Body::Write { path, key, .. } => {
            List::from_slice(
                alloc,
                &[step_tag(path), key_tag(OBJECT_CLASS, key.as_str())],
            )
        }
        Body::Spawn { path, ordinal, .. } => {
            let child = child(path, *ordinal);
            List::from_slice(alloc, &[step_tag(path), call_tag(&child)])
        }
        Body::Join { path, .. } => List::from_slice(alloc, &[step_tag(path)]),
        Body::Push { path, queue, .. } => {
            List::from_slice(
                alloc,
                &[step_tag(path), key_tag(QUEUE_CLASS, queue.as_str())],
            )
        }
        Body::Pop { path, queue, .. } => {
            List::from_slice(
                alloc,
                &[step_tag(path), key_tag(QUEUE_CLASS, queue.as_str())],
            )
        }
        Body::TxnBegin { path, .. } => List::from_slice(alloc, &[step_tag(path)]),
        Body::TxnCommit { path, .. } => {
            List::from_slice(alloc, &[step_tag(path), tag_of(TRANSACTION_CLASS, 0)])
        }
        Body::Finish { path, .. } => List::from_slice(
            alloc,
            &[step_tag(path), tag_of(LIFE_CLASS, 0)],
        ),
        Body::SwitchBegin { .. } => List::from_slice(alloc, &[tag_of(MODE_CLASS, 0)]),
        Body::SwitchEnd => List::from_slice(alloc, &[tag_of(MODE_CLASS, 0)]),
        Body::Trim { .. } => List::from_slice(alloc, &[tag_of(TRIM_CLASS, 0)]),
        Body::TrimTag { number, .. } => List::from_slice(
            alloc,
            &[tag_of(TRIMMED_TAG_CLASS, *number)],
        ),
        Body::User { .. } => Ok(List::new(alloc)),
        Body::ReadGroup { path, .. } => List::from_slice(alloc, &[step_tag(path)]),
    }
}
