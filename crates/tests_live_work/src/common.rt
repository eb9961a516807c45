//! What the tests share.

ghost use Rattle.std.specs.Prelude.{◌≤◌, IfOk};

use lb_base::{Memory, Words};
use live_text::{LiveRan, LiveText, parse_live, print_ran};
use std::alloc::Global;

/// One worker that appends, looks, appends again and looks twice.
pub(crate) const ONE_WORKER: &str =
    "live 1\n1 append 7 \"a\"\n1 prev 7 99\n1 append 7 \"b\"\n1 count 7\n1 next 8 1\n";

/// What it comes to.
pub(crate) const ONE_WORKER_OUTPUT: &str =
    "list\n1 1 7 \"a\"\n2 1 7 \"b\"\nworker 1\nappend 1\nprev 1 at 1\nappend 2\ncount 2 at 2\nnext none at 2\nend\n";

/// The live text that a text spells.
pub(crate) fn text_of(alloc: Global, text: &str) -> Result<LiveText, Memory>
    ensures { IfOk result (λ t. (1 ≤ t.workers) × (t.workers ≤ 16)) }
{
    match parse_live(alloc, text.as_bytes()) {
        Ok(text) => Ok(text),
        Err(_) => Err(Memory),
    }
}

/// The text of a list and answers.
pub(crate) fn printed(alloc: Global, ran: Result<LiveRan, Memory>) -> Result<Words, Memory> {
    print_ran(alloc, &ran?)
}
