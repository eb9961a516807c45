//! Texts of plans: which are refused, and how plans are printed.

use crate::common::{accepted_plan, plan_refusal, refusal_text, with_feeds};
use lb_base::{Memory, Words};
use line_text::TextFault;
use plan_lang::{Kind, Plan, make_plan, print_plan};
use std::alloc::Global;
use std::test::Fail;

const HEAD: &str = "\
    setup 2 3 4 W 2\
    \nobject \"x\" none\
    \nfunction f(a)\
    \n  return a\
    \nend\
    \n\
    \nevents\
    \n";

/// Why the line is refused among events, where it is line 8 of its text.
fn event_refusal(alloc: Global, line: &str) -> Result<String, Memory> {
    let head = HEAD;
    let text = format!(in alloc; "{head}{line}\n")?;
    plan_refusal(alloc, text.as_bytes())
}

/// Lines that are no events, with `|` between them.
const SYNTAX_LINES: &str = "\
    event|cut 1|cut # x|catch|catch 01|catch -1|catch +1|catch 1 ,|catch 1.2|start 1 .2 1|start 1 1. 1|\
    start 1 1..2 1|start 1 1.02 1|start 1 1 . 2 1|switch 1 T|switch 1 r|settled 1 1|settled 1 1.2.3|\
    settled 9 1.2.3|append 1 \"a\"|append 1 7 8 \"a\"|append 1 7, \"a\"|append 1 7 \"\\t\"|submit 1 1 f|\
    submit 1 1 f(4,)|submit 1 1 f(-0)|submit 1 1 f(- 5)|submit 1 1 end()|end|setup 1 1 1 R|object \"y\" 1|\
    function g()|events|repeat|turn end 1";
/// Lines with something out of range.
const RANGE_LINES: &str = "\
    catch 5|catch 0|catch 18446744073709551616|copy 3 2 0|copy 1 1 0|copy 1 4 0|copy 1 2 18446744073709551616|\
    start 0 1 1|start 4097 1 1|start 1 0 1|start 1 1.4096 1|start 1 1048576 1|start 1 1.2.3.4.5 1|\
    start 1 1.18446744073709551616 1|step 4097|settled 1 3.1|settled 1 1.0|tail 1 72057594037927936|\
    append 1 1,2,3,4,5,6,7,8,9 \"a\"|append 1 72057594037927936 \"a\"|submit 1 1048576 f(4)|submit 1 0 nobody(4)|\
    submit 1 1 f(9223372036854775808)|\
    submit 1 1 abcdefghijklmnopqrstuvwxyz1234567(4)|repeat 0|repeat 200001";
/// Lines that call a function that isn't there.
const NAME_LINES: &str = "\
    submit 1 1 g(4)|submit 1 1 g(1, 2, 3, 4, 5, 6, 7, 8, 9)";
/// Lines that call a function with another number of arguments.
const ARITY_LINES: &str = "\
    submit 1 1 f()|submit 1 1 f(1, 2, 3, 4, 5, 6, 7, 8, 9)";
/// Lines that are events.
const GOOD_LINES: &str = "\
    copy 2 3 18446744073709551615|start 4096 1048575.4095.4095.4095 4|append 4 7 , 8\"a\"|\
    cond 1 0 72057594037927935 \"\"|settled 1 2.18446744073709551615|submit 1 1f(-9223372036854775808)| catch  1 |\
    # \tanything|repeat 200000\ncut\nend|seed 0|append 1 1,2,3,4,5,6,7,8 \"a\"";

#[test]
fn refuses_events(rt: HostRuntime) -> Result<(), Fail> {
    let alloc = rt.alloc();
    for (want, lines) in [
        ("8 syntax", SYNTAX_LINES),
        ("8 range", RANGE_LINES),
        ("8 name", NAME_LINES),
        ("8 arity", ARITY_LINES),
        ("", GOOD_LINES),
    ] {
        for line in lines.split('|') {
            assert_eq!(rt; event_refusal(alloc, line)?.as_str(), want, "at {line}");
        }
    }
    Ok(())
}

/// Texts, each behind the line and the kind of its refusal, with `|` between them and `;` for a line feed.
const TEXTS: &str = "\
    1 end:|3 end:# a;;|1 syntax:cut;|1 syntax:setup 1 1 1 T;|1 syntax:setup 1 1 1 R 1 1;|\
    1 range:setup 1 1 17 R;events;|1 range:setup 1 6 1 R;events;|1 range:setup 0 1 1 R;events;|\
    1 range:setup 1 1 1 R 2;events;|1 range:setup 1 1 1 R 0;events;|2 syntax:setup 1 1 1 R;setup 1 1 1 R;|\
    2 truncated:setup 1 1 1 R;events|3 truncated:setup 1 1 1 R;events;# a|2 end:setup 1 1 1 R;|\
    3 end:setup 1 1 1 R;function f();|3 syntax:setup 1 1 1 R;function f();events;|\
    5 end:setup 1 1 1 R;events;repeat 2;cut;|4 syntax:setup 1 1 1 R;events;repeat 2;end;|\
    2 range:setup 1 1 1 R;object \"\" 1;events;|2 syntax:setup 1 1 1 R;object x 1;events;|\
    6 events:setup 1 1 1 R;events;repeat 200000;cut;end;cut;|6 events:setup 1 1 1 R;events;cut;repeat 200000;cut;end;";

#[test]
fn refuses_texts_of_plans(rt: HostRuntime) -> Result<(), Fail> {
    let alloc = rt.alloc();
    for entry in TEXTS.split('|') {
        let (want, text) = entry.split_once(':').ok_or("no refusal")?;
        let text = with_feeds(alloc, text)?;
        let refusal = plan_refusal(alloc, text.as_bytes())?;
        assert_eq!(rt; refusal.as_str(), want, "at {entry}");
    }
    assert_eq!(rt; plan_refusal(alloc, &[255, 10])?.as_str(), "1 utf8");
    Ok(())
}

#[test]
fn prints_faults(rt: HostRuntime) -> Result<(), Fail> {
    let alloc = rt.alloc();
    let fault = TextFault::Refused {
        line: 3,
        kind: Kind::Syntax,
    };
    assert_eq!(rt; refusal_text(alloc, fault)?.as_str(), "3 syntax");
    assert_eq!(rt;
        format!(in alloc; "{fault}")?.as_str(),
        "line 3 is refused: syntax"
    );
    Ok(())
}

/// The text of a plan, which is then no longer needed.
fn plan_text(alloc: Global, plan: Plan) -> Result<Words, Memory> {
    let text = print_plan(alloc, &plan);
    drop(plan);
    text
}

/// The text that a plan's text is printed as.
fn printed(alloc: Global, text: &str) -> Result<Words, Memory> {
    plan_text(alloc, accepted_plan(alloc, text)?)
}

/// The text of the generator's plan of one transfer.
fn generated(alloc: Global) -> Result<Words, Memory> {
    plan_text(alloc, make_plan(alloc, 1)?)
}

const DEMO: &str = "\
    # demo\
    \nsetup 1 1 1 R\
    \n\
    \nfunction f( a )\
    \n return (a+1)*2\
    \nend\
    \nevents\
    \nrepeat 2\
    \ncut\
    \nend\
    \n";

const DEMO_PRINTED: &str = "\
    setup 1 1 1 R\
    \nfunction f(a)\
    \n  return (a + 1) * 2\
    \nend\
    \nevents\
    \nrepeat 2\
    \n  cut\
    \nend\
    \n";

/// A plan with each kind of event.
const ALL: &str = "\
    setup 2 3 4 W 2\
    \nobject \"x\" none\
    \nobject \"a\\\"b\" -5\
    \nfunction f(a, b)\
    \n  return a\
    \nend\
    \nevents\
    \nsubmit 1 7 f(1, \"b\")\
    \ncopy 1 2 3\
    \ncut\
    \ncatch 1\
    \nsync\
    \nrestart 2\
    \nstart 1 7.1.2 3\
    \nstep 1\
    \nkill 1\
    \nlose 1\
    \nmiss 1\
    \nswitch 1 R\
    \nendswitch 1\
    \ntrim 1\
    \nsweep 1\
    \nappend 1 7,8 \"a\"\
    \ncond 1 2 7 \"a\"\
    \nnext 1 7 2\
    \nprev 1 7 2\
    \ntail 1 7\
    \ntrimtag 1 7 2\
    \nsettled 1 2.3\
    \nsetaux 1 2 \"a\"\
    \ngetaux 1 2\
    \nrepeat 3\
    \n  cut\
    \n  step 2\
    \nend\
    \nseed 9\
    \n";

const ONE_MOVE: &str = "\
    setup 4 1 4 R\
    \nobject \"a0\" 1000\
    \nobject \"a1\" 1000\
    \nobject \"a2\" 1000\
    \nobject \"a3\" 1000\
    \nobject \"a4\" 1000\
    \nobject \"a5\" 1000\
    \nobject \"a6\" 1000\
    \nobject \"a7\" 1000\
    \nobject \"a8\" 1000\
    \nobject \"a9\" 1000\
    \nfunction move(a, b, n)\
    \n  let x = read a\
    \n  let y = read b\
    \n  write a, x - n\
    \n  write b, y + n\
    \n  return x - n\
    \nend\
    \nevents\
    \nsubmit 2 1 move(\"a1\", \"a2\", 1)\
    \nsync\
    \nstart 1 1 2\
    \nrepeat 12\
    \n  step 1\
    \n  sync\
    \nend\
    \n";

#[test]
fn prints_plans(rt: HostRuntime) -> Result<(), Fail> {
    let alloc = rt.alloc();
    assert_eq!(rt; printed(alloc, DEMO)?.as_str(), DEMO_PRINTED);
    assert_eq!(rt; printed(alloc, ALL)?.as_str(), ALL);
    assert_eq!(rt; generated(alloc)?.as_str(), ONE_MOVE);
    Ok(())
}
