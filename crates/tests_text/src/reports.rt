//! Turns, reports and events: how they are read and printed, and which events a plan can have.

use crate::common::{accepted_plan, words};
use lb_base::{List, Memory, Mode, Outcome, Path, Tag, Value, Words};
use plan_lang::{
    Event, Plan, Report, Turn, TurnText, parse_turns, print_event, print_report, print_turn, valid,
};
use std::alloc::Global;
use std::test::Fail;

const TURNS: &str = "\
    setup 1 1 1 R\
    \nfunction set(k, v)\
    \n  write k, v\
    \n  return v\
    \nend\
    \nturns\
    \nturn submit 1 set(\"x\", 1)\
    \nturn go 1 0\
    \n\
    \nturn end 1\
    \n";

/// The turns, each with its line before it and a line feed behind it.
fn numbered_turns(alloc: Global, text: &TurnText) -> Result<String, Memory> {
    let mut out = String::new(alloc);
    for (line, turn) in text.turns.iter() {
        let turn = print_turn(alloc, turn, &text.plan.program)?;
        let turn = turn.as_str();
        let line = format!(in alloc; "{line} {turn}\n")?;
        out.push_str(line.as_str())?;
    }
    Ok(out)
}

/// The same of a text of turns that is accepted.
fn turns_of(alloc: Global, text: &str) -> Result<String, Memory> {
    match parse_turns(alloc, text.as_bytes()) {
        Ok(text) => {
            let turns = numbered_turns(alloc, &text);
            drop(text);
            turns
        }
        Err(_) => Err(Memory),
    }
}

#[test]
fn reads_turns(rt: HostRuntime) -> Result<(), Fail> {
    assert_eq!(rt;
        turns_of(rt.alloc(), TURNS)?.as_str(),
        "7 turn submit 1 set(\"x\", 1)\n8 turn go 1 0\n10 turn end 1\n"
    );
    Ok(())
}

const REPORT: &str = "\
    report\
    \nturn go 1 2\
    \nresult 1 value 5\
    \nobject \"x\" 4\
    \nqueue \"q\" [1, none]\
    \nstore \"s\" none\
    \nend\
    \n";

fn results(alloc: Global, path: Path) -> Result<List<(Path, Outcome)>, Memory> {
    let mut results = List::new(alloc);
    results.push((path, Outcome::Good(Value::Int(5))))?;
    Ok(results)
}

fn one_value(alloc: Global, name: &str, value: Value) -> Result<List<(Words, Value)>, Memory> {
    let mut values = List::new(alloc);
    values.push((words(alloc, name)?, value))?;
    Ok(values)
}

fn queued(alloc: Global) -> Result<List<Value>, Memory> {
    let mut values = List::new(alloc);
    values.push(Value::Int(1))?;
    values.push(Value::Nothing)?;
    Ok(values)
}

fn queues(alloc: Global) -> Result<List<(Words, List<Value>)>, Memory> {
    let mut queues = List::new(alloc);
    queues.push((words(alloc, "q")?, queued(alloc)?))?;
    Ok(queues)
}

fn turns(alloc: Global, path: Path) -> Result<List<Turn>, Memory> {
    let mut turns = List::new(alloc);
    turns.push(Turn::Go { path, n: 2 })?;
    Ok(turns)
}

fn report(alloc: Global, path: Path) -> Result<Report, Memory> {
    Ok(Report {
        turns: turns(alloc, path)?,
        results: results(alloc, path)?,
        objects: one_value(alloc, "x", Value::Int(4))?,
        queues: queues(alloc)?,
        stores: one_value(alloc, "s", Value::Nothing)?,
    })
}

/// The text of that report, of a run of a plan.
fn report_text(alloc: Global, path: Path, plan: &Plan) -> Result<Words, Memory> {
    let report = report(alloc, path)?;
    let text = print_report(alloc, &report, &plan.program);
    drop(report);
    text
}

#[test]
fn prints_a_report(rt: HostRuntime) -> Result<(), Fail> {
    let alloc = rt.alloc();
    let path = Path::request(1).ok_or("no path")?;
    let plan = accepted_plan(alloc, PLAN)?;
    assert_eq!(rt; report_text(alloc, path, &plan)?.as_str(), REPORT);
    Ok(())
}

const PLAN: &str = "\
    setup 2 3 4 W 2\
    \nfunction f(a, b)\
    \n  return a\
    \nend\
    \nevents\
    \n";

/// Whether a plan can have an event.
fn is_valid(event: Event, plan: &Plan) -> bool {
    let found = valid(&event, plan);
    drop(event);
    found
}

/// The text of an event in a plan.
fn event_text(alloc: Global, event: Event, plan: &Plan) -> Result<Words, Memory> {
    let text = print_event(alloc, &event, &plan.program);
    drop(event);
    text
}

/// A call of the first function without arguments.
fn call(alloc: Global) -> Event {
    Event::Submit {
        engine: 1,
        request: 1,
        function: 0,
        args: List::new(alloc),
    }
}

fn switch(target: Mode) -> Event {
    Event::Switch { engine: 1, target }
}

fn tail(tag: u64) -> Event {
    Event::Tail {
        engine: 1,
        tag: Tag(tag),
    }
}

#[test]
fn tells_valid_events(rt: HostRuntime) -> Result<(), Fail> {
    let alloc = rt.alloc();
    let plan = accepted_plan(alloc, PLAN)?;
    assert!(rt; is_valid(Event::Catch { engine: 4 }, &plan));
    assert!(rt; !is_valid(Event::Catch { engine: 5 }, &plan));
    assert!(rt; is_valid(switch(Mode::R), &plan));
    assert!(rt; !is_valid(switch(Mode::T), &plan));
    assert!(rt; !is_valid(call(alloc), &plan));
    Ok(())
}

#[test]
fn prints_an_event(rt: HostRuntime) -> Result<(), Fail> {
    let alloc = rt.alloc();
    let plan = accepted_plan(alloc, PLAN)?;
    assert_eq!(rt; event_text(alloc, tail(7), &plan)?.as_str(), "tail 1 7");
    Ok(())
}
