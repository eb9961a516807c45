//! Which words ask for a run, and which of the nemeses that are handed in are kept.

ghost use Rattle.std.specs.Prelude.{◌≡◌, ◌≤◌, map, string_bytes, vec_len, IfOk};
ghost use Rattle.command_line.specs.Words.{request};
ghost use Rattle.nemesis_types.specs.Kept.{numbered_nemesis};
ghost use Rattle.run_call.specs.Words.{is_handed as is_among, kept_of, run_asked as asked_of_run};

use command_line::{Request, With, request_of};
use lb_base::Memory;
use nemesis::{Kept, Nemesis, keep_all, keep_one};
use std::alloc::Global;

fn run_asked(request: Option<Request>) -> Option<(Option<With>, bool)>
    ensures { result ≡ asked_of_run request }
{
    match request {
        Some(Request::Run { with, json }) => Some((with, json)),
        _ => None,
    }
}

/// The nemeses that the words name, and whether they ask for JSON, where they ask for a run.
pub(crate) fn read_words(
    alloc: Global,
    words: &[String],
) -> Result<Option<(Option<With>, bool)>, Memory>
    ensures { IfOk result (λ a. a ≡ asked_of_run (request (map string_bytes words.now))) }
{
    Ok(run_asked(request_of(alloc, words)?))
}

/// Whether the nemeses that are named are among so many.
pub(crate) fn is_handed(with: Option<With>, count: usize) -> bool
    ensures { result ≡ is_among count with }
{
    match with {
        Some(With::One(number)) => number as usize <= count,
        _ => true,
    }
}

/// Keeps the nemeses that are named, and drops the others.
///
/// After `Memory` all are dropped.
pub(crate) fn keep(
    alloc: Global,
    with: Option<With>,
    nemeses: Vec<Box<dyn Nemesis + Send>>,
) -> Result<Vec<Kept>, Memory>
    requires few { vec_len nemeses ≤ 16 }
    ensures { IfOk result (λ kept. map (λ b. numbered_nemesis b.0 (automaton b.1)) kept.items ≡ kept_of with (map (λ b. automaton b) nemeses.items)) }
{
    match with {
        None => Ok(Vec::new(alloc)),
        Some(With::All) => keep_all(alloc, nemeses),
        Some(With::One(number)) => keep_one(alloc, nemeses, number),
    }
}
