//! Several names or values on one line, with `, ` between them.

ghost use Rattle.std.specs.Prelude.{OnOk};
ghost use Rattle.lb_base.specs.Print.{value_text};
ghost use Rattle.lb_base.specs.Quoted.{quoted};
ghost use Rattle.script_lang.specs.Printed.{each_behind_comma, comma_joined};
ghost use Rattle.plan_lang.specs.Printed.{call_text};
ghost use Rattle.run_lines.specs.Lines.{Appends, name_value_text, word_and_list};

use boki_types::Function;
use lb_base::{Memory, Quoted, Value, Words};
use plan_lang::text::function_name;

/// Adds values, each behind a comma.
fn push_more_values(out: &mut String, values: &[Value]) -> Result<(), Memory>
    ensures { OnOk result (Appends out.old (each_behind_comma value_text values.now) out.new) }
{
    'values: for value in values {
        write!(out, ", {value}")?;
    }
    Ok(())
}

/// Adds values, with commas between them.
fn push_values(out: &mut String, values: &[Value]) -> Result<(), Memory>
    ensures { OnOk result (Appends out.old (comma_joined value_text values.now) out.new) }
{
    match values {
        [] => Ok(()),
        [first, rest @ ..] => {
            write!(out, "{first}")?;
            push_more_values(out, rest)
        }
    }
}

/// Adds a call of a function, by its number.
pub(crate) fn push_call(
    out: &mut String,
    functions: &[Function],
    function: u32,
    args: &[Value],
) -> Result<(), Memory>
    ensures { OnOk result (Appends out.old (call_text functions.now function args.now) out.new) }
{
    let name = function_name(functions, function);
    write!(out, "{name}(")?;
    push_values(out, args)?;
    out.push_str(")")?;
    Ok(())
}

/// Adds names, each behind a comma.
fn push_more_names(out: &mut String, names: &[Words]) -> Result<(), Memory>
    ensures { OnOk result (Appends out.old (each_behind_comma quoted names.now) out.new) }
{
    'names: for name in names {
        let name = Quoted(name.as_str());
        write!(out, ", {name}")?;
    }
    Ok(())
}

/// Adds a word, and behind it names with commas between them.
pub(crate) fn push_names(out: &mut String, word: &str, names: &[Words]) -> Result<(), Memory>
    ensures { OnOk result (Appends out.old (word_and_list word.now quoted names.now) out.new) }
{
    match names {
        [] => Ok(out.push_str(word)?),
        [first, rest @ ..] => {
            let first = Quoted(first.as_str());
            write!(out, "{word} {first}")?;
            push_more_names(out, rest)
        }
    }
}

/// Adds names with their values, each pair behind a comma.
fn push_more_pairs(out: &mut String, between: &str, pairs: &[(Words, Value)]) -> Result<(), Memory>
    ensures { OnOk result (Appends out.old (each_behind_comma (name_value_text between.now) pairs.now) out.new) }
{
    'pairs: for pair in pairs {
        let name = Quoted(pair.0.as_str());
        let value = &pair.1;
        write!(out, ", {name}{between}{value}")?;
    }
    Ok(())
}

/// Adds a word, and behind it names with their values, which the text `between` parts, with commas between the pairs.
pub(crate) fn push_pairs(
    out: &mut String,
    word: &str,
    between: &str,
    pairs: &[(Words, Value)],
) -> Result<(), Memory>
    ensures { OnOk result (Appends out.old (word_and_list word.now (name_value_text between.now) pairs.now) out.new) }
{
    match pairs {
        [] => Ok(out.push_str(word)?),
        [first, rest @ ..] => {
            let name = Quoted(first.0.as_str());
            let value = &first.1;
            write!(out, "{word} {name}{between}{value}")?;
            push_more_pairs(out, between, rest)
        }
    }
}
