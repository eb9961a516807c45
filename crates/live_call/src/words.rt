//! Which words ask to run a live text.

ghost use Rattle.std.specs.Prelude.{◌≡◌, map, string_bytes, IfOk};
ghost use Rattle.live_call.specs.Words.{asks_live, is_live};

use command_line::{Request, request_of};
use lb_base::Memory;
use std::alloc::Global;

fn asks_live(request: Option<Request>) -> bool
    ensures { result ≡ asks_live request }
{
    match request {
        Some(Request::Live) => true,
        _ => false,
    }
}

/// Whether the words are accepted and ask to run a live text.
pub fn accepts_live(alloc: Global, words: &[String]) -> Result<bool, Memory>
    ensures { IfOk result (λ b. b ≡ is_live (map string_bytes words.now)) }
{
    Ok(asks_live(request_of(alloc, words)?))
}
