//! What an event answers.

ghost use Rattle.std.specs.Prelude.{◌≡◌, [], IfOk, OnErr, OnOk, codes};
ghost use Rattle.std.specs.Fmt.{decimal};
ghost use Rattle.std.specs.String.{string_bytes};
ghost use Rattle.lb_base.specs.Quoted.{quoted};
ghost use Rattle.script_lang.specs.Printed.{◌&◌};
ghost use Rattle.run_lines.specs.Lines.{Appends, sent_text, miss_text, answer_text};

use crate::step::{push_path, push_step, push_words};
use boki_types::{Function, Line, Miss, Program, Sent};
use lb_base::{Memory, Quoted, Seqnum, Words};
use std::alloc::Global;

/// A number behind a word, which has a space behind it.
fn push_number(out: &mut String, word: &str, n: u64) -> Result<(), Memory>
    ensures { OnOk result (Appends out.old (word.now & decimal n) out.new) }
{
    Ok(write!(out, "{word}{n}")?)
}

fn push_cut(out: &mut String, entry: u64, length: u64) -> Result<(), Memory>
    ensures { OnOk result (Appends out.old (codes "cut " & decimal entry & codes " " & decimal length) out.new) }
{
    Ok(write!(out, "cut {entry} {length}")?)
}

fn push_sent(out: &mut String, at: Sent) -> Result<(), Memory>
    ensures { OnOk result (Appends out.old (codes "sent " & sent_text at) out.new) }
{
    let shard = at.shard;
    let local = at.local;
    Ok(write!(out, "sent {shard}.{local}")?)
}

fn push_trimmed(out: &mut String, at: Sent, floor: Seqnum) -> Result<(), Memory>
    ensures { OnOk result (Appends out.old (codes "sent " & sent_text at & codes " trim " & decimal floor.0) out.new) }
{
    push_sent(out, at)?;
    push_number(out, " trim ", floor.0)
}

fn push_floor(out: &mut String, floor: Seqnum, held: u64) -> Result<(), Memory>
    ensures { OnOk result (Appends out.old (codes "floor " & decimal floor.0 & codes " held " & decimal held) out.new) }
{
    let floor = floor.0;
    Ok(write!(out, "floor {floor} held {held}")?)
}

fn push_quoted(out: &mut String, text: &Words) -> Result<(), Memory>
    ensures { OnOk result (Appends out.old (quoted text.now) out.new) }
{
    let text = Quoted(text.as_str());
    Ok(write!(out, "{text}")?)
}

fn push_found(out: &mut String, seq: Seqnum, text: &Words) -> Result<(), Memory>
    ensures { OnOk result (Appends out.old (decimal seq.0 & codes " " & quoted text.now) out.new) }
{
    let seq = seq.0;
    let text = Quoted(text.as_str());
    Ok(write!(out, "{seq} {text}")?)
}

fn push_miss(out: &mut String, miss: Miss) -> Result<(), Memory>
    ensures { OnOk result (Appends out.old (miss_text miss) out.new) }
{
    match miss {
        Miss::Store => push_words(out, "missed store"),
        Miss::Put => push_words(out, "missed put"),
        Miss::Fence => push_words(out, "missed fence"),
        Miss::Nothing => push_words(out, "missed nothing"),
        Miss::Idle => push_words(out, "idle"),
    }
}

/// Adds what an event answers.
fn push_answer(out: &mut String, functions: &[Function], line: &Line) -> Result<(), Memory>
    ensures { OnOk result (Appends out.old (answer_text functions.now line.now) out.new) }
{
    match line {
        Line::Sent(at) => push_sent(out, *at),
        Line::Copied(n) => push_number(out, "copied ", *n),
        Line::Cut(entry, length) => push_cut(out, *entry, *length),
        Line::Same => push_words(out, "same"),
        Line::At(position) => push_number(out, "at ", *position),
        Line::Sync(length) => push_number(out, "sync ", *length),
        Line::Restarted(n) => push_number(out, "restarted ", u64::from(*n)),
        Line::Started => push_words(out, "started"),
        Line::Ignored => push_words(out, "ignored"),
        Line::Step(step) => push_step(out, functions, step),
        Line::Killed => push_words(out, "killed"),
        Line::Idle => push_words(out, "idle"),
        Line::Lost => push_words(out, "lost"),
        Line::Nothing => push_words(out, "nothing"),
        Line::Missed(miss) => push_miss(out, *miss),
        Line::Absent => push_words(out, "none"),
        Line::Unfinished(path) => push_path(out, "unfinished ", *path),
        Line::Trimmed(at, floor) => push_trimmed(out, *at, *floor),
        Line::Floor(floor, held) => push_floor(out, *floor, *held),
        Line::Found(seq, text) => push_found(out, *seq, text),
        Line::Placed(seq) => push_number(out, "placed ", seq.0),
        Line::Taken(seq) => push_number(out, "taken ", seq.0),
        Line::Waits => push_words(out, "waits"),
        Line::Set => push_words(out, "set"),
        Line::Aux(text) => push_quoted(out, text),
        Line::Seeded => push_words(out, "seeded"),
    }
}

/// Adds what an event answered to a buffer, without a line feed. A function that the program doesn't have is printed without a
/// name.
///
/// After `Memory` the buffer is empty.
pub fn push_line(out: &mut String, line: &Line, program: &Program) -> Result<(), Memory>
    ensures ok { OnOk result (Appends out.old (answer_text program.now.functions line.now) out.new) }
    ensures err { OnErr result (string_bytes out.new ≡ []) }
{
    let pushed = push_answer(out, program.functions.as_slice(), line);
    if pushed.is_err() {
        out.clear();
    }
    pushed
}

/// The text of what an event answered, without a line feed. A function that the program doesn't have is printed without a name.
pub fn print_line(alloc: Global, line: &Line, program: &Program) -> Result<Words, Memory>
    ensures { IfOk result (λ w. w ≡ answer_text program.now.functions line.now) }
{
    let mut out = String::new(alloc);
    push_line(&mut out, line, program)?;
    Ok(Words::from_string(out))
}
