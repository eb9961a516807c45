//! What one step of an attempt did.

ghost use Rattle.std.specs.Prelude.{◌≡◌, [], OnErr, OnOk, codes};
ghost use Rattle.std.specs.String.{string_bytes};
ghost use Rattle.lb_base.specs.Print.{outcome_text, path_text};
ghost use Rattle.lb_base.specs.Quoted.{quoted};
ghost use Rattle.script_lang.specs.Printed.{◌&◌};
ghost use Rattle.run_lines.specs.Lines.{Appends, step_text, name_and_value_text, put_text};

use crate::adopted::{
    push_adopt_commit, push_adopt_init, push_adopt_join, push_adopt_name, push_adopt_pairs,
    push_adopt_spawn, push_adopt_value,
};
use crate::listing::push_pairs;
use crate::sent::{
    push_send, push_send_commit, push_send_finish, push_send_join, push_send_name, push_send_names,
    push_send_push, push_send_spawn, push_send_write,
};
use boki_types::{Function, Program, StepLine};
use lb_base::{Memory, Outcome, Path, Quoted, Seqnum, Value, Words};

/// Adds a text.
pub(crate) fn push_words(out: &mut String, text: &str) -> Result<(), Memory>
    ensures { OnOk result (Appends out.old text.now out.new) }
{
    Ok(out.push_str(text)?)
}

fn push_over(out: &mut String, outcome: &Outcome) -> Result<(), Memory>
    ensures { OnOk result (Appends out.old (codes "over " & outcome_text outcome.now) out.new) }
{
    Ok(write!(out, "over {outcome}")?)
}

/// A path behind a word, which has a space behind it.
pub(crate) fn push_path(out: &mut String, word: &str, path: Path) -> Result<(), Memory>
    ensures { OnOk result (Appends out.old (word.now & path_text path) out.new) }
{
    Ok(write!(out, "{word}{path}")?)
}

/// A name behind a word, which has a space behind it.
fn push_name(out: &mut String, word: &str, name: &Words) -> Result<(), Memory>
    ensures { OnOk result (Appends out.old (word.now & quoted name.now) out.new) }
{
    let name = Quoted(name.as_str());
    Ok(write!(out, "{word}{name}")?)
}

/// A name and its value behind a word, which has a space behind it.
fn push_value(out: &mut String, word: &str, name: &Words, value: &Value) -> Result<(), Memory>
    ensures { OnOk result (Appends out.old (word.now & name_and_value_text name.now value.now) out.new) }
{
    let name = Quoted(name.as_str());
    Ok(write!(out, "{word}{name} {value}")?)
}

fn push_put(
    out: &mut String,
    key: &Words,
    value: &Value,
    cursor: Seqnum,
    number: u64,
) -> Result<(), Memory>
    ensures { OnOk result (Appends out.old (put_text key.now value.now cursor number) out.new) }
{
    let key = Quoted(key.as_str());
    let cursor = cursor.0;
    Ok(write!(out, "put {key} {value} at {cursor}.{number}")?)
}

/// Adds what a step did.
pub(crate) fn push_step(
    out: &mut String,
    functions: &[Function],
    line: &StepLine,
) -> Result<(), Memory>
    ensures { OnOk result (Appends out.old (step_text functions.now line.now) out.new) }
{
    match line {
        StepLine::Idle => push_words(out, "idle"),
        StepLine::Over(outcome) => push_over(out, outcome),
        StepLine::WaitsCall => push_words(out, "waits call"),
        StepLine::WaitsRecord => push_words(out, "waits record"),
        StepLine::WaitsJoin(child) => push_path(out, "waits join ", *child),
        StepLine::StoppedGone => push_words(out, "stopped gone"),
        StepLine::AdoptInit(seq, mode) => push_adopt_init(out, *seq, *mode),
        StepLine::AdoptRead(seq, key, value) => push_adopt_value(out, *seq, "read ", key, value),
        StepLine::AdoptWrite(seq, key) => push_adopt_name(out, *seq, "write ", key),
        StepLine::AdoptSpawn(seq, child) => push_adopt_spawn(out, *seq, *child),
        StepLine::AdoptJoin(seq, child, outcome) => push_adopt_join(out, *seq, *child, outcome),
        StepLine::AdoptPush(seq, queue) => push_adopt_name(out, *seq, "push ", queue),
        StepLine::AdoptPop(seq, queue, value) => push_adopt_value(out, *seq, "pop ", queue, value),
        StepLine::AdoptBegin(seq, found) => {
            push_adopt_pairs(out, *seq, "begin", " = ", found.as_slice())
        }
        StepLine::AdoptCommit(seq, succeeded) => push_adopt_commit(out, *seq, *succeeded),
        StepLine::SendInit(at) => push_send(out, *at, "init"),
        StepLine::SendFinish(at, outcome) => push_send_finish(out, *at, outcome),
        StepLine::SendRead(at, key) => push_send_name(out, *at, "read ", key),
        StepLine::SendWrite(at, key, value) => push_send_write(out, *at, key, value),
        StepLine::SendJoin(at, child) => push_send_join(out, *at, *child),
        StepLine::SendSpawn(at, child, function, args) => {
            push_send_spawn(out, functions, *at, *child, *function, args.as_slice())
        }
        StepLine::SendPush(at, queue, value) => push_send_push(out, *at, queue, value),
        StepLine::SendPop(at, queue) => push_send_name(out, *at, "pop ", queue),
        StepLine::SendBegin(at, names) => push_send_names(out, *at, "begin", names.as_slice()),
        StepLine::SendCommit(at, writes) => push_send_commit(out, *at, writes.as_slice()),
        StepLine::Read(key, value) => push_value(out, "read ", key, value),
        StepLine::Put(key, value, cursor, number) => push_put(out, key, value, *cursor, *number),
        StepLine::Late(key) => push_name(out, "late ", key),
        StepLine::Store(key, value) => push_value(out, "store ", key, value),
        StepLine::ReadAll(found) => push_pairs(out, "read all", " ", found.as_slice()),
        StepLine::SendReadAll(at, keys) => push_send_names(out, *at, "read all", keys.as_slice()),
        StepLine::AdoptReadAll(seq, found) => {
            push_adopt_pairs(out, *seq, "read all", " ", found.as_slice())
        }
    }
}

/// Adds what one step of an attempt did to a buffer, without a line feed. A function that the program doesn't have is printed
/// without a name.
///
/// After `Memory` the buffer is empty.
pub fn push_step_line(out: &mut String, line: &StepLine, program: &Program) -> Result<(), Memory>
    ensures ok { OnOk result (Appends out.old (step_text program.now.functions line.now) out.new) }
    ensures err { OnErr result (string_bytes out.new ≡ []) }
{
    let pushed = push_step(out, program.functions.as_slice(), line);
    if pushed.is_err() {
        out.clear();
    }
    pushed
}
