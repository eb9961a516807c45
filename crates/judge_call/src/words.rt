//! Which words ask to judge turns.

ghost use Rattle.std.specs.Prelude.{◌≡◌, map, string_bytes, IfOk};
ghost use Rattle.judge_call.specs.Words.{asks_judge, is_judge};

use command_line::{Request, request_of};
use lb_base::Memory;
use std::alloc::Global;

fn asks_judge(request: Option<Request>) -> bool
    ensures { result ≡ asks_judge request }
{
    match request {
        Some(Request::Judge) => true,
        _ => false,
    }
}

/// Whether the words are accepted and ask to judge turns.
pub fn accepts_judge(alloc: Global, words: &[String]) -> Result<bool, Memory>
    ensures { IfOk result (λ b. b ≡ is_judge (map string_bytes words.now)) }
{
    Ok(asks_judge(request_of(alloc, words)?))
}
