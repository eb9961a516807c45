//! The lines of steps that send a record.

ghost use Rattle.std.specs.Prelude.{OnOk, codes};
ghost use Rattle.lb_base.specs.Print.{outcome_text, path_text};
ghost use Rattle.lb_base.specs.Quoted.{quoted};
ghost use Rattle.script_lang.specs.Printed.{◌&◌};
ghost use Rattle.run_lines.specs.Lines.{Appends, send_text, inline_text, names_text, assigned_text, name_and_value_text, spawn_text};

use crate::listing::{push_call, push_names, push_pairs};
use boki_types::{Function, Sent};
use lb_base::{Memory, Outcome, Path, Quoted, Value, Words};

/// Adds what stands before the text of a record that is sent, and then a text.
pub(crate) fn push_send(out: &mut String, at: Sent, what: &str) -> Result<(), Memory>
    ensures { OnOk result (Appends out.old (send_text at what.now) out.new) }
{
    let shard = at.shard;
    let local = at.local;
    Ok(write!(out, "send {shard}.{local} {what}")?)
}

pub(crate) fn push_send_finish(out: &mut String, at: Sent, outcome: &Outcome) -> Result<(), Memory>
    ensures { OnOk result (Appends out.old (send_text at (codes "finish " & outcome_text outcome.now)) out.new) }
{
    push_send(out, at, "finish ")?;
    Ok(write!(out, "{outcome}")?)
}

/// A name behind a word, which has a space behind it.
pub(crate) fn push_send_name(
    out: &mut String,
    at: Sent,
    word: &str,
    name: &Words,
) -> Result<(), Memory>
    ensures { OnOk result (Appends out.old (send_text at (word.now & quoted name.now)) out.new) }
{
    push_send(out, at, word)?;
    let name = Quoted(name.as_str());
    Ok(write!(out, "{name}")?)
}

pub(crate) fn push_send_write(
    out: &mut String,
    at: Sent,
    key: &Words,
    value: &Option<Value>,
) -> Result<(), Memory>
    ensures { OnOk result (Appends out.old (send_text at (codes "write " & quoted key.now & inline_text value.now)) out.new) }
{
    push_send_name(out, at, "write ", key)?;
    match value {
        Some(value) => Ok(write!(out, " {value}")?),
        None => Ok(()),
    }
}

pub(crate) fn push_send_join(out: &mut String, at: Sent, child: Path) -> Result<(), Memory>
    ensures { OnOk result (Appends out.old (send_text at (codes "join " & path_text child)) out.new) }
{
    push_send(out, at, "join ")?;
    Ok(write!(out, "{child}")?)
}

pub(crate) fn push_send_spawn(
    out: &mut String,
    functions: &[Function],
    at: Sent,
    child: Path,
    function: u32,
    args: &[Value],
) -> Result<(), Memory>
    ensures { OnOk result (Appends out.old (send_text at (spawn_text functions.now child function args.now)) out.new) }
{
    push_send(out, at, "spawn ")?;
    write!(out, "{child} ")?;
    push_call(out, functions, function, args)
}

pub(crate) fn push_send_push(
    out: &mut String,
    at: Sent,
    queue: &Words,
    value: &Value,
) -> Result<(), Memory>
    ensures { OnOk result (Appends out.old (send_text at (codes "push " & name_and_value_text queue.now value.now)) out.new) }
{
    push_send_name(out, at, "push ", queue)?;
    Ok(write!(out, " {value}")?)
}

/// Names behind a word.
pub(crate) fn push_send_names(
    out: &mut String,
    at: Sent,
    word: &str,
    names: &[Words],
) -> Result<(), Memory>
    ensures { OnOk result (Appends out.old (send_text at (names_text word.now names.now)) out.new) }
{
    push_send(out, at, "")?;
    push_names(out, word, names)
}

pub(crate) fn push_send_commit(
    out: &mut String,
    at: Sent,
    writes: &[(Words, Value)],
) -> Result<(), Memory>
    ensures { OnOk result (Appends out.old (send_text at (assigned_text (codes "commit") writes.now)) out.new) }
{
    push_send(out, at, "")?;
    push_pairs(out, "commit", " = ", writes)
}
