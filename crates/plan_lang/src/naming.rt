//! The second pass: names and numbers of arguments.

ghost use Rattle.std.specs.Prelude.{◌≡◌, [], get_or, IfOk};
ghost use Rattle.script_lang.specs.Names.{name_fault};
ghost use Rattle.plan_lang.specs.Heads.{objects_fault};
ghost use Rattle.plan_lang.specs.Texts.{head_fault};

use crate::heads::Head;
use boki_types::Kind;
use lb_base::{Memory, Value, Words};
use script_lang::text::first_name_fault;
use std::alloc::Global;
use std::collections::HashSet;

/// The number at a place, or 0 where there is none.
fn line_number_at(lines: &[u64], at: usize) -> u64
    ensures { result ≡ get_or lines.now at 0 }
{
    match lines.get(at) {
        Some(number) => *number,
        None => 0,
    }
}

/// The first object whose name an object above it has, with the number of its line.
fn first_object_fault(
    alloc: Global,
    objects: &[(Words, Value)],
    lines: &[u64],
) -> Result<Option<(u64, Kind)>, Memory>
    ensures { IfOk result (λ fault. fault ≡ objects_fault [] objects.now lines.now 0) }
{
    let mut seen: HashSet<&str> = HashSet::new(alloc);
    'objects: for i in 0..objects.len() {
        let name = objects[i].0.as_str();
        let added = seen.insert(name)?;
        if !added {
            return Ok(Some((line_number_at(lines, i), Kind::Name)));
        }
    }
    Ok(None)
}

/// What the second pass over a text finds first: an object whose name one above it has, or else what `first_name_fault` finds in
/// the functions, or else `rest`, the first fault of what stands behind the head.
pub fn first_fault_of(
    alloc: Global,
    head: &Head,
    rest: Option<(u64, Kind)>,
) -> Result<Option<(u64, Kind)>, Memory>
    ensures { IfOk result (λ fault. fault ≡ head_fault head.now rest) }
{
    let objects = head.objects.as_slice();
    if let Some(fault) = first_object_fault(alloc, objects, head.lines.as_slice())? {
        return Ok(Some(fault));
    }
    let functions = head.draft.functions.as_slice();
    match first_name_fault(alloc, functions, head.draft.line_numbers.as_slice())? {
        Some(fault) => Ok(Some(fault)),
        None => Ok(rest),
    }
}
