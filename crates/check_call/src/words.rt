//! Which words ask for a check.

ghost use Rattle.std.specs.Prelude.{◌≡◌, map, string_bytes, IfOk};
ghost use Rattle.check_call.specs.Words.{asks_check, is_check};

use command_line::{Request, request_of};
use lb_base::Memory;
use std::alloc::Global;

fn asks_check(request: Option<Request>) -> bool
    ensures { result ≡ asks_check request }
{
    match request {
        Some(Request::Check) => true,
        _ => false,
    }
}

/// Whether the words are accepted and ask for a check.
pub fn accepts_check(alloc: Global, words: &[String]) -> Result<bool, Memory>
    ensures { IfOk result (λ b. b ≡ is_check (map string_bytes words.now)) }
{
    Ok(asks_check(request_of(alloc, words)?))
}
