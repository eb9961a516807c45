//! What texts with functions, events or turns of other kinds are read and printed with.

use crate::common::{accepted_plan, tokens_of, words};
use lb_base::{List, Memory, Path, Tag, Value, Words};
use line_text::{Checked, Kind, LineFault};
use plan_lang::text::{
    Entry, Head, bare_turn_string, call_string, first_fault_of, function_name, function_number,
    head_string, name_value_lines, read_engine, read_entry_of_word, read_request, tags_string,
    turn_string, values_string,
};
use plan_lang::{Plan, Setup, Turn};
use script_lang::Function;
use script_lang::text::{Draft, call_fault, first_name_fault, read_call};
use std::alloc::Global;
use std::test::Fail;

/// The number of arguments of the call that begins a line; None where no call does or something in it is out of range.
fn arg_count(alloc: Global, line: &str) -> Result<Option<usize>, Memory> {
    let mut tokens = tokens_of(alloc, line)?;
    match read_call(alloc, &mut tokens)? {
        Some(Checked::Valid((name, args))) => {
            drop(name);
            Ok(Some(args.len()))
        }
        _ => Ok(None),
    }
}

#[test]
fn reads_calls(rt: HostRuntime) -> Result<(), Fail> {
    let alloc = rt.alloc();
    assert_eq!(rt; arg_count(alloc, "f(-5, \"x\", none) 4")?, Some(3));
    assert_eq!(rt; arg_count(alloc, "f(9223372036854775808)")?, None);
    assert_eq!(rt; arg_count(alloc, "f(4,)")?, None);
    Ok(())
}

/// The draft of a function, line by line.
fn one_function(alloc: Global) -> Result<Draft, LineFault> {
    let head = tokens_of(alloc, "function f(a)")?;
    let line = tokens_of(alloc, "  return b")?;
    let end = tokens_of(alloc, "end")?;
    let draft = Draft::new(alloc).add_line(alloc, 1, head)?;
    draft.add_line(alloc, 2, line)?.add_line(alloc, 4, end)
}

/// What the second pass finds in that function.
fn name_fault(alloc: Global) -> Result<Option<(u64, Kind)>, Memory> {
    match one_function(alloc) {
        Ok(draft) => {
            let fault = first_name_fault(
                alloc,
                draft.functions.as_slice(),
                draft.line_numbers.as_slice(),
            );
            drop(draft);
            fault
        }
        Err(_) => Err(Memory),
    }
}

#[test]
fn reads_functions_line_by_line(rt: HostRuntime) -> Result<(), Fail> {
    let alloc = rt.alloc();
    assert!(rt; !Draft::new(alloc).is_in_function());
    assert_eq!(rt; name_fault(alloc)?, Some((2, Kind::Name)));
    Ok(())
}

const PLAN: &str = "\
    setup 1 1 2 R\
    \nobject \"x\" none\
    \nfunction f(a)\
    \n  return a\
    \nend\
    \nevents\
    \n";

/// The head of that plan, line by line.
fn one_head(alloc: Global) -> Result<Head, LineFault> {
    let setup = tokens_of(alloc, "setup 1 1 2 R")?;
    let object = tokens_of(alloc, "object \"x\" none")?;
    let again = tokens_of(alloc, "object \"x\" 1")?;
    let end = tokens_of(alloc, "events")?;
    let head = Head::new(alloc).add_line(alloc, "events", 1, setup)?;
    let head = head.add_line(alloc, "events", 2, object)?;
    head.add_line(alloc, "events", 3, again)?
        .add_line(alloc, "events", 4, end)
}

/// What the second pass finds in that head, and whether it has ended.
fn head_fault(alloc: Global) -> Result<(Option<(u64, Kind)>, bool), Memory> {
    match one_head(alloc) {
        Ok(head) => {
            let ended = head.has_ended();
            let fault = first_fault_of(alloc, &head, None);
            drop(head);
            Ok((fault?, ended))
        }
        Err(_) => Err(Memory),
    }
}

#[test]
fn reads_heads_line_by_line(rt: HostRuntime) -> Result<(), Fail> {
    let alloc = rt.alloc();
    assert!(rt; !Head::new(alloc).has_ended());
    assert_eq!(rt; head_fault(alloc)?, (Some((3, Kind::Name)), true));
    Ok(())
}

/// The fault of what was read of an event's line.
fn entry_fault(found: Option<Checked<Entry>>) -> Option<Kind> {
    match found {
        Some(Checked::Valid(entry)) => {
            let fault = entry.fault;
            drop(entry);
            fault
        }
        Some(Checked::OutOfRange) => Some(Kind::Range),
        Some(Checked::TooDeep) => Some(Kind::Deep),
        None => Some(Kind::Syntax),
    }
}

/// What is wrong with an event's line, given by its word and what stands behind that.
fn event_fault(
    alloc: Global,
    setup: &Setup,
    word: &str,
    rest: &str,
) -> Result<Option<Kind>, Memory> {
    let mut tokens = tokens_of(alloc, rest)?;
    let found = read_entry_of_word(alloc, &mut tokens, setup, &[], word)?;
    Ok(entry_fault(found))
}

#[test]
fn reads_events_by_their_words(rt: HostRuntime) -> Result<(), Fail> {
    let alloc = rt.alloc();
    let plan = accepted_plan(alloc, PLAN)?;
    assert_eq!(rt; event_fault(alloc, &plan.setup, "catch", "2")?, None);
    assert_eq!(rt;
        event_fault(alloc, &plan.setup, "catch", "3")?,
        Some(Kind::Range)
    );
    assert_eq!(rt;
        event_fault(alloc, &plan.setup, "submit", "1 1 f()")?,
        Some(Kind::Name)
    );
    Ok(())
}

#[test]
fn reads_engines_and_requests(rt: HostRuntime) -> Result<(), Fail> {
    let alloc = rt.alloc();
    let mut tokens = tokens_of(alloc, "2 3 0")?;
    let plan = accepted_plan(alloc, PLAN)?;
    assert!(rt;
        matches!(
            read_engine(&mut tokens, &plan.setup),
            Some(Checked::Valid(2))
        )
    );
    assert!(rt;
        matches!(
            read_engine(&mut tokens, &plan.setup),
            Some(Checked::OutOfRange)
        )
    );
    assert!(rt; matches!(read_request(&mut tokens), Some(Checked::OutOfRange)));
    Ok(())
}

/// What is known of that plan's functions: a number, a name and the fault of a call without arguments.
fn known_functions(functions: &[Function]) -> (u32, bool, Option<Kind>) {
    if functions.len() > 1 {
        return (1, false, None);
    }
    let number = function_number(functions, "f");
    let is_named = function_name(functions, number) == "f" && function_name(functions, 1) == "";
    (number, is_named, call_fault(functions, "f", 0))
}

#[test]
fn knows_functions(rt: HostRuntime) -> Result<(), Fail> {
    let alloc = rt.alloc();
    let plan = accepted_plan(alloc, PLAN)?;
    let known = known_functions(plan.program.functions.as_slice());
    assert_eq!(rt; known, (0, true, Some(Kind::Arity)));
    Ok(())
}

fn values(alloc: Global) -> Result<List<Value>, Memory> {
    let mut values = List::new(alloc);
    values.push(Value::Int(-1))?;
    values.push(Value::Text(words(alloc, "x")?))?;
    Ok(values)
}

/// A call of the first function with these values.
fn call_text(alloc: Global, plan: &Plan) -> Result<String, Memory> {
    let args = values(alloc)?;
    call_string(alloc, plan.program.functions.as_slice(), 0, args.as_slice())
}

/// The same values with commas between.
fn values_text(alloc: Global) -> Result<String, Memory> {
    values_string(alloc, values(alloc)?.as_slice())
}

fn tags_text(alloc: Global) -> Result<String, Memory> {
    tags_string(alloc, &[Tag(7), Tag(8)])
}

#[test]
fn prints_pieces(rt: HostRuntime) -> Result<(), Fail> {
    let alloc = rt.alloc();
    let plan = accepted_plan(alloc, PLAN)?;
    assert_eq!(rt; call_text(alloc, &plan)?.as_str(), "f(-1, \"x\")");
    assert_eq!(rt; values_text(alloc)?.as_str(), "-1, \"x\"");
    assert_eq!(rt; tags_text(alloc)?.as_str(), "7,8");
    Ok(())
}

/// The lines of a plan's objects, each behind the word `store`.
fn objects_text(alloc: Global, plan: &Plan) -> Result<String, Memory> {
    name_value_lines(alloc, "store ", plan.objects.as_slice())
}

#[test]
fn prints_heads(rt: HostRuntime) -> Result<(), Fail> {
    let alloc = rt.alloc();
    let plan = accepted_plan(alloc, PLAN)?;
    assert_eq!(rt; objects_text(alloc, &plan)?.as_str(), "store \"x\" none\n");
    let head = head_string(alloc, &plan)?;
    assert_eq!(rt; PLAN.strip_prefix(head.as_str()), Some("events\n"));
    Ok(())
}

/// The end of a turn, with its word and without it.
fn end_text(alloc: Global, path: Path) -> Result<(String, String), Memory> {
    let turn = Turn::End { path };
    let bare = bare_turn_string(alloc, &[], &turn);
    let whole = turn_string(alloc, &[], &turn);
    drop(turn);
    Ok((bare?, whole?))
}

#[test]
fn prints_turns(rt: HostRuntime) -> Result<(), Fail> {
    let path = Path::request(3).ok_or("no path")?;
    let (bare, whole) = end_text(rt.alloc(), path)?;
    assert_eq!(rt; bare.as_str(), "end 3");
    assert_eq!(rt; whole.as_str(), "turn end 3");
    Ok(())
}
