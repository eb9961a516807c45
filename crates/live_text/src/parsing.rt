//! The live text that bytes spell.

ghost use Rattle.std.specs.Prelude.{◌≡◌, ◌≤◌, Some, IfOk};
ghost use Rattle.line_text.specs.Faults.{Gives};
ghost use Rattle.live_text.specs.Reading.{text_at_end, live_text_of};

use crate::draft::LiveDraft;
use crate::text::LiveText;
use boki_types::Kind;
use line_text::{TextFault, fault_of_unended_line, split_line};
use std::alloc::Global;

/// The most bytes of a live text.
const MOST_BYTES: usize = 1048576;

/// The live text of lines that were read to the end of their text, behind the line before this number.
fn finish(number: u64, draft: LiveDraft) -> Result<LiveText, TextFault>
    ensures text { Gives result (text_at_end number draft) }
    ensures workers { IfOk result (λ t. Some t.workers ≡ draft.workers) }
{
    let LiveDraft { workers, lines } = draft;
    match workers {
        Some(workers) => Ok(LiveText { workers, lines }),
        None => Err(TextFault::Refused {
            line: number,
            kind: Kind::End,
        }),
    }
}

/// The live text that a text spells: the line `live W`, with a number of workers from 1 to 16, and then lines `I OP` with the number
/// of a worker and one of `append TAGS TEXT`, `next T N`, `prev T N` and `count T`.
///
/// A text of more than 1,048,576 bytes is refused with line 0 and `Length`. Else it is refused with the number of the first line
/// that has a fault, and the first kind that applies to the line: `Lines`, it stands behind line 65,536; `Utf8`, it isn't UTF-8;
/// `Truncated`, it is the last and has no line feed; `Syntax`, it isn't in the grammar at its place; `Range`, a number, a text or
/// the number of tags is out of range. Where no line has a fault, `End` comes where there is no line `live W`, with the number
/// behind the last line.
pub fn parse_live(alloc: Global, bytes: &[u8]) -> Result<LiveText, TextFault>
    ensures text { Gives result (live_text_of bytes.now) }
    ensures workers { IfOk result (λ t. (1 ≤ t.workers) × (t.workers ≤ 16)) }
{
    if bytes.len() > MOST_BYTES {
        return Err(TextFault::Refused {
            line: 0,
            kind: Kind::Length,
        });
    }
    let mut draft = LiveDraft::new(alloc);
    let mut rest = bytes;
    let mut number = 1;
    'lines: while let Some((line, after)) = split_line(rest) {
        draft.add_numbered_line(alloc, number, line)?;
        number += 1;
        rest = after;
    }
    if !rest.is_empty() {
        return Err(TextFault::Refused {
            line: number,
            kind: fault_of_unended_line(65536, number, rest),
        });
    }
    finish(number, draft)
}
