//! The text of what a live text came to.

ghost use Rattle.std.specs.Prelude.{◌≡◌, ◌+◌, ◌<◌, ◌≤◌, ◌^◌, IfOk, OnOk, length};
ghost use Rattle.std.specs.Fmt.{decimal};
ghost use Rattle.live_text.specs.Printed.{Appends, record_line, record_lines, found_text, read_line, answer_line, answer_lines, worker_lines, ran_text};

use crate::answers::{LiveAnswer, LiveRan};
use lb_base::{List, Memory, Quoted, Record, Seqnum, Words};
use plan_lang::text::tags_string;
use std::alloc::Global;
use std::str;

/// Adds the line of a record. Where what it holds is no text, which doesn't come from a live text, it answers `Memory`.
fn push_record(
    alloc: Global,
    out: &mut String,
    seq: u64,
    worker: u32,
    rec: &Record,
) -> Result<(), Memory>
    ensures { OnOk result (Appends out.old (record_line seq (worker, rec.now)) out.new) }
{
    let Ok(text) = str::from_utf8(rec.bytes.as_slice()) else {
        return Err(Memory);
    };
    let tags = tags_string(alloc, rec.tags.as_slice())?;
    let text = Quoted(text);
    Ok(write!(out, "{seq} {worker} {tags} {text}\n")?)
}

/// Adds the lines of a list.
fn push_records(alloc: Global, out: &mut String, list: &[(u32, Record)]) -> Result<(), Memory>
    ensures { OnOk result (Appends out.old (record_lines 1 list.now) out.new) }
{
    let mut seq = 0u64;
    'records: for item in list {
        seq += 1;
        push_record(alloc, out, seq, item.0, &item.1)?;
    }
    Ok(())
}

/// Adds a seqnum, or `none`.
fn push_found(out: &mut String, seq: Option<Seqnum>) -> Result<(), Memory>
    ensures { OnOk result (Appends out.old (found_text seq) out.new) }
{
    match seq {
        Some(seq) => {
            let seq = seq.0;
            Ok(write!(out, "{seq}")?)
        }
        None => Ok(out.push_str("none")?),
    }
}

/// Adds the line of a read that asked for a record, behind its word, which has a space behind it.
fn push_read(out: &mut String, word: &str, seq: Option<Seqnum>, position: u64) -> Result<(), Memory>
    ensures { OnOk result (Appends out.old (read_line word.now (found_text seq) position) out.new) }
{
    out.push_str(word)?;
    push_found(out, seq)?;
    Ok(write!(out, " at {position}\n")?)
}

fn push_answer(out: &mut String, answer: LiveAnswer) -> Result<(), Memory>
    ensures { OnOk result (Appends out.old (answer_line answer) out.new) }
{
    match answer {
        LiveAnswer::Append(seq) => {
            let seq = seq.0;
            Ok(write!(out, "append {seq}\n")?)
        }
        LiveAnswer::Next(seq, position) => push_read(out, "next ", seq, position),
        LiveAnswer::Prev(seq, position) => push_read(out, "prev ", seq, position),
        LiveAnswer::Count(n, position) => Ok(write!(out, "count {n} at {position}\n")?),
    }
}

fn push_answers(out: &mut String, answers: &[LiveAnswer]) -> Result<(), Memory>
    ensures { OnOk result (Appends out.old (answer_lines answers.now) out.new) }
{
    'answers: for answer in answers {
        push_answer(out, *answer)?;
    }
    Ok(())
}

/// Adds the answers of each worker.
fn push_workers(out: &mut String, answers: &[List<LiveAnswer>]) -> Result<(), Memory>
    ensures { OnOk result (Appends out.old (worker_lines 1 answers.now) out.new) }
{
    let mut worker = 0u64;
    'workers: for sheet in answers {
        worker += 1;
        write!(out, "worker {worker}\n")?;
        push_answers(out, sheet.as_slice())?;
    }
    Ok(())
}

/// The text of a list and answers: the line `list` and a line `SEQ I TAGS TEXT` for each record, then for each worker the line
/// `worker I` and a line for each of its answers, and the line `end`.
pub fn print_ran(alloc: Global, ran: &LiveRan) -> Result<Words, Memory>
    ensures { IfOk result (λ text. text ≡ ran_text ran.now) }
{
    let mut out = String::from_str(alloc, "list\n")?;
    push_records(alloc, &mut out, ran.list.as_slice())?;
    push_workers(&mut out, ran.answers.as_slice())?;
    out.push_str("end\n")?;
    Ok(Words::from_string(out))
}
