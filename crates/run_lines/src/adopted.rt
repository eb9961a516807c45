//! The lines of steps that adopt a record.

ghost use Rattle.std.specs.Prelude.{OnOk, codes};
ghost use Rattle.lb_base.specs.Print.{mode_text, path_text};
ghost use Rattle.lb_base.specs.Quoted.{quoted};
ghost use Rattle.script_lang.specs.Printed.{◌&◌};
ghost use Rattle.run_lines.specs.Lines.{Appends, adopt_text, word_and_list, name_value_text, success_text, name_and_value_text, join_text};

use crate::listing::push_pairs;
use lb_base::{Memory, Mode, Outcome, Path, Quoted, Seqnum, Value, Words};

/// Adds what stands before the text of a record that is adopted.
fn push_adopt(out: &mut String, seq: Seqnum) -> Result<(), Memory>
    ensures { OnOk result (Appends out.old (adopt_text seq (codes "")) out.new) }
{
    let seq = seq.0;
    Ok(write!(out, "adopt {seq} ")?)
}

pub(crate) fn push_adopt_init(out: &mut String, seq: Seqnum, mode: Mode) -> Result<(), Memory>
    ensures { OnOk result (Appends out.old (adopt_text seq (codes "init " & mode_text mode)) out.new) }
{
    let seq = seq.0;
    Ok(write!(out, "adopt {seq} init {mode}")?)
}

/// A name behind a word, which has a space behind it.
pub(crate) fn push_adopt_name(
    out: &mut String,
    seq: Seqnum,
    word: &str,
    name: &Words,
) -> Result<(), Memory>
    ensures { OnOk result (Appends out.old (adopt_text seq (word.now & quoted name.now)) out.new) }
{
    let seq = seq.0;
    let name = Quoted(name.as_str());
    Ok(write!(out, "adopt {seq} {word}{name}")?)
}

/// A name and its value behind a word, which has a space behind it.
pub(crate) fn push_adopt_value(
    out: &mut String,
    seq: Seqnum,
    word: &str,
    name: &Words,
    value: &Value,
) -> Result<(), Memory>
    ensures { OnOk result (Appends out.old (adopt_text seq (word.now & name_and_value_text name.now value.now)) out.new) }
{
    let seq = seq.0;
    let name = Quoted(name.as_str());
    Ok(write!(out, "adopt {seq} {word}{name} {value}")?)
}

pub(crate) fn push_adopt_spawn(out: &mut String, seq: Seqnum, child: Path) -> Result<(), Memory>
    ensures { OnOk result (Appends out.old (adopt_text seq (codes "spawn " & path_text child)) out.new) }
{
    let seq = seq.0;
    Ok(write!(out, "adopt {seq} spawn {child}")?)
}

pub(crate) fn push_adopt_join(
    out: &mut String,
    seq: Seqnum,
    child: Path,
    outcome: &Outcome,
) -> Result<(), Memory>
    ensures { OnOk result (Appends out.old (adopt_text seq (join_text child outcome.now)) out.new) }
{
    let seq = seq.0;
    Ok(write!(out, "adopt {seq} join {child} {outcome}")?)
}

pub(crate) fn push_adopt_commit(
    out: &mut String,
    seq: Seqnum,
    succeeded: bool,
) -> Result<(), Memory>
    ensures { OnOk result (Appends out.old (adopt_text seq (codes "commit " & success_text succeeded)) out.new) }
{
    let seq = seq.0;
    let success = if succeeded { "1" } else { "0" };
    Ok(write!(out, "adopt {seq} commit {success}")?)
}

/// Names with their values behind a word.
pub(crate) fn push_adopt_pairs(
    out: &mut String,
    seq: Seqnum,
    word: &str,
    between: &str,
    pairs: &[(Words, Value)],
) -> Result<(), Memory>
    ensures { OnOk result (Appends out.old (adopt_text seq (word_and_list word.now (name_value_text between.now) pairs.now)) out.new) }
{
    push_adopt(out, seq)?;
    push_pairs(out, word, between, pairs)
}
