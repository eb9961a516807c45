//! Which words ask for the generator's plan or for its run.

ghost use Rattle.std.specs.Prelude.{◌≡◌, ◌≤◌, map, string_bytes, IfOk, IfSome};
ghost use Rattle.command_line.specs.Words.{IsInRange};
ghost use Rattle.make_call.specs.Words.{asked, make_asked};

use command_line::{Request, request_of};
use lb_base::Memory;
use std::alloc::Global;

fn make_of(request: Option<Request>) -> Option<(u32, bool)>
    requires { IsInRange request }
    ensures value { result ≡ make_asked request }
    ensures range { IfSome result (λ a. (1 ≤ a.0) × (a.0 ≤ 4000)) }
{
    match request {
        Some(Request::Make { transfers, plan }) => Some((transfers, plan)),
        _ => None,
    }
}

/// How many transfers the words ask for, from 1 to 4,000, and whether they ask for the plan.
pub(crate) fn read_words(alloc: Global, words: &[String]) -> Result<Option<(u32, bool)>, Memory>
    ensures value { IfOk result (λ a. a ≡ asked (map string_bytes words.now)) }
    ensures range { IfOk result (λ o. IfSome o (λ a. (1 ≤ a.0) × (a.0 ≤ 4000))) }
{
    Ok(make_of(request_of(alloc, words)?))
}
