//! Texts of functions: which are refused, and how functions are printed.

use crate::common::{around, refusal_text, with_feeds};
use lb_base::Memory;
use script_lang::{Function, parse_functions, print_function};
use std::alloc::Global;
use std::test::Fail;

/// Where and why a text of functions is refused, as `LINE KIND`; nothing where it isn't.
fn refusal(alloc: Global, text: &str) -> Result<String, Memory> {
    match parse_functions(alloc, text, 1) {
        Ok(program) => {
            drop(program);
            Ok(String::new(alloc))
        }
        Err(fault) => refusal_text(alloc, fault),
    }
}

/// The same of a text whose first line has the number 5.
fn refusal_from_five(alloc: Global, text: &str) -> Result<String, Memory> {
    match parse_functions(alloc, text, 5) {
        Ok(program) => {
            drop(program);
            Ok(String::new(alloc))
        }
        Err(fault) => refusal_text(alloc, fault),
    }
}

/// Why the line is refused in a function with the parameters `a` and `b`, where it is line 2 of its text.
fn line_refusal(alloc: Global, line: &str) -> Result<String, Memory> {
    let text = format!(in alloc; "function f(a, b)\n{line}\nend\n")?;
    refusal(alloc, text.as_str())
}

/// Lines that are no statements, with `|` between them.
const SYNTAX_LINES: &str = "\
    return a < b < 1|return -a|return - 5|return a == not b|return 01|return -0|return 1.2|return 1 # a|\
    return \"\\t\"|return\t1|letx = 1|else|return 9223372036854775808 +";
/// Lines with something out of range.
const RANGE_LINES: &str = "\
    return 9223372036854775808|return a - 9223372036854775808|begin|read all";
/// Lines with a name that isn't known.
const NAME_LINES: &str = "\
    let x = x + 1|let x = spawn g(c)|let x = spawn f(c)|let v = read all";
/// Lines that call a function with another number of arguments.
const ARITY_LINES: &str = "\
    let x = spawn f(a)|let x = spawn f(1, 1, 1, 1, 1, 1, 1, 1, 1)";
/// Lines that a function may have.
const GOOD_LINES: &str = "\
    return a -1|return a--9223372036854775808|return -5 -5|return a++b|return not not a == b and a or b|\
    return 1and 2|let all = 1|read all all = a, x = b|let ok = commit|# return||   |let x=spawn f(a,b)|\
    return text(1)++\"\"";

#[test]
fn refuses_lines(rt: HostRuntime) -> Result<(), Fail> {
    let alloc = rt.alloc();
    for (want, lines) in [
        ("2 syntax", SYNTAX_LINES),
        ("2 range", RANGE_LINES),
        ("2 name", NAME_LINES),
        ("2 arity", ARITY_LINES),
        ("", GOOD_LINES),
    ] {
        for line in lines.split('|') {
            assert_eq!(rt; line_refusal(alloc, line)?.as_str(), want, "at {line}");
        }
    }
    Ok(())
}

/// Texts, each behind the line and the kind of its refusal, with `|` between them and `;` for a line feed.
const TEXTS: &str = "\
    :|:function f();end;|2 truncated:function f();end|2 truncated:function f();# a|2 end:function f();|\
    3 syntax:# a;;return 1;|3 name:function f();end;function f();end;|1 name:function f(a, a);end;|\
    4 syntax:function f();if 1;else;else;end;end;|3 syntax:function f();while 1;else;end;end;|\
    3 syntax:function f();let x = g;let y = 1 +;end;|:function f();if 0;let x = 1;end;return x;end;|\
    1 range:function f(a, b, c, d, e, g, h, i, j);end;";

#[test]
fn refuses_texts_of_functions(rt: HostRuntime) -> Result<(), Fail> {
    let alloc = rt.alloc();
    for entry in TEXTS.split('|') {
        let (want, text) = entry.split_once(':').ok_or("no refusal")?;
        let text = with_feeds(alloc, text)?;
        assert_eq!(rt; refusal(alloc, text.as_str())?.as_str(), want, "at {entry}");
    }
    let later = refusal_from_five(alloc, "function f()\nend")?;
    assert_eq!(rt; later.as_str(), "6 truncated");
    Ok(())
}

/// Why a line is refused that has a piece so often between two others.
fn refusal_around(
    alloc: Global,
    front: &str,
    piece: &str,
    n: usize,
    back: &str,
) -> Result<String, Memory> {
    let line = around(alloc, front, piece, n, back)?;
    line_refusal(alloc, line.as_str())
}

#[test]
fn meets_the_limits_of_expressions(rt: HostRuntime) -> Result<(), Fail> {
    let alloc = rt.alloc();
    for (piece, most) in [("not ", 32), ("1 + ", 63)] {
        let edge = refusal_around(alloc, "return ", piece, most, "1")?;
        assert_eq!(rt; edge.as_str(), "");
        let past = refusal_around(alloc, "return ", piece, most + 1, "1")?;
        assert_eq!(rt; past.as_str(), "2 deep");
    }
    Ok(())
}

#[test]
fn meets_the_limit_of_parentheses(rt: HostRuntime) -> Result<(), Fail> {
    let alloc = rt.alloc();
    let closed = around(alloc, "1", ")", 32, "")?;
    let edge = refusal_around(alloc, "return ", "(", 32, closed.as_str())?;
    assert_eq!(rt; edge.as_str(), "");
    let past = refusal_around(alloc, "return not ", "(", 32, closed.as_str())?;
    assert_eq!(rt; past.as_str(), "2 deep");
    Ok(())
}

#[test]
fn meets_the_limits_of_sizes(rt: HostRuntime) -> Result<(), Fail> {
    let alloc = rt.alloc();
    for (front, piece, most, back) in [
        ("let ", "x", 32, " = 1"),
        ("return \"", "x", 256, "\""),
        ("let v = commit ", "a = b, ", 7, "a = b"),
    ] {
        let edge = refusal_around(alloc, front, piece, most, back)?;
        assert_eq!(rt; edge.as_str(), "");
        let past = refusal_around(alloc, front, piece, most + 1, back)?;
        assert_eq!(rt; past.as_str(), "2 range");
    }
    Ok(())
}

#[test]
fn meets_the_limit_of_blocks(rt: HostRuntime) -> Result<(), Fail> {
    let alloc = rt.alloc();
    for (want, n) in [("", 15), ("17 deep", 16)] {
        let ends = around(alloc, "", "end\n", n + 1, "")?;
        let text = around(alloc, "function f()\n", "if 1\n", n, ends.as_str())?;
        assert_eq!(rt; refusal(alloc, text.as_str())?.as_str(), want);
    }
    Ok(())
}

#[test]
fn reads_a_megabyte_of_parentheses(rt: HostRuntime) -> Result<(), Fail> {
    let open = refusal_around(rt.alloc(), "return ", "(", 1_000_000, "")?;
    assert_eq!(rt; open.as_str(), "2 syntax");
    Ok(())
}

#[test]
fn reads_past_the_limits_of_expressions(rt: HostRuntime) -> Result<(), Fail> {
    let alloc = rt.alloc();
    let closed = around(alloc, "1", ")", 50_000, "")?;
    let nested = refusal_around(alloc, "return ", "(", 50_000, closed.as_str())?;
    assert_eq!(rt; nested.as_str(), "2 deep");
    let sum = refusal_around(alloc, "return ", "1 + ", 20_000, "9223372036854775808")?;
    assert_eq!(rt; sum.as_str(), "2 range");
    Ok(())
}

fn functions_text(alloc: Global, functions: &[Function]) -> Result<String, Memory> {
    let mut out = String::new(alloc);
    for function in functions {
        out.push_str(print_function(alloc, function)?.as_str())?;
    }
    Ok(out)
}

/// The text that the functions of an accepted text are printed as.
fn canonical(alloc: Global, text: &str) -> Result<String, Memory> {
    match parse_functions(alloc, text, 1) {
        Ok(program) => functions_text(alloc, program.functions.as_slice()),
        Err(_) => Err(Memory),
    }
}

#[test]
fn prints_functions(rt: HostRuntime) -> Result<(), Fail> {
    let alloc = rt.alloc();
    for (text, printed) in [
        (
            "function f( a )\n return (a+1)*2\nend\n",
            "function f(a)\n  return (a + 1) * 2\nend\n",
        ),
        (
            "function g(a,b)\n# skipped\nif ((a))\nlet x=a-(b-(a-1))\nelse\nwhile not(a==b)and(not a)<1\nwrite \"k\\n\",-5 - -5\nend\nend\nlet v=commit\nlet w=commit \"a\"=1,\"b\"=none\nend\n",
            "function g(a, b)\n  if a\n    let x = a - (b - (a - 1))\n  else\n    while not a == b and (not a) < 1\n      write \"k\\n\", -5 - -5\n    end\n  end\n  let v = commit\n  let w = commit \"a\" = 1, \"b\" = none\nend\n",
        ),
        (
            "function h(a)\nbegin x=\"a\",y=\"b\"\nread all p=\"a\"\nlet c=spawn h(((a)or(a))and a)\nlet r=join c\npush \"q\",text(len(\"x\"++\"y\"))\nlet o=pop \"q\"\nlet k=read\"k\"\nreturn(a==1)==(1!=2)\nend\n",
            "function h(a)\n  begin x = \"a\", y = \"b\"\n  read all p = \"a\"\n  let c = spawn h((a or a) and a)\n  let r = join c\n  push \"q\", text(len(\"x\" ++ \"y\"))\n  let o = pop \"q\"\n  let k = read \"k\"\n  return (a == 1) == (1 != 2)\nend\n",
        ),
    ] {
        assert_eq!(rt; canonical(alloc, text)?.as_str(), printed);
        assert_eq!(rt; canonical(alloc, printed)?.as_str(), printed);
    }
    Ok(())
}
