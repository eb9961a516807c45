//! The limits of texts of plans: lines, bytes, sizes and functions.

use crate::common::{around, plan_refusal};
use lb_base::Memory;
use std::alloc::Global;
use std::test::Fail;

/// Why a text of a plan is refused with this many further lines, each a comment of this length with its line feed.
fn refusal_of_long(alloc: Global, lines: usize, len: usize) -> Result<String, Memory> {
    let mut text = String::from_str(alloc, "setup 1 1 1 R\nevents\n")?;
    for _ in 0..lines {
        text.push_str("#")?;
        for _ in 2..len {
            text.push_str("x")?;
        }
        text.push_str("\n")?;
    }
    plan_refusal(alloc, text.as_bytes())
}

#[test]
fn keeps_the_limits_of_texts(rt: HostRuntime) -> Result<(), Fail> {
    let alloc = rt.alloc();
    for (lines, len, want) in [
        (65534, 2, ""),
        (65535, 2, "65537 lines"),
        (1, 1048555, ""),
        (1, 1048556, "0 length"),
    ] {
        assert_eq!(rt; refusal_of_long(alloc, lines, len)?.as_str(), want);
    }
    Ok(())
}

/// Why a text is refused that has a piece so often between two others, behind a line that sets it up.
fn refusal_around(
    alloc: Global,
    front: &str,
    piece: &str,
    n: usize,
    back: &str,
) -> Result<String, Memory> {
    let front = format!(in alloc; "setup 1 1 1 R\n{front}")?;
    let text = around(alloc, front.as_str(), piece, n, back)?;
    plan_refusal(alloc, text.as_bytes())
}

#[test]
fn keeps_the_limits_of_sizes(rt: HostRuntime) -> Result<(), Fail> {
    let alloc = rt.alloc();
    for (front, most, back, want) in [
        ("object \"", 64, "\" 1\nevents\n", "2 range"),
        ("object \"x\" \"", 256, "\"\nevents\n", "2 range"),
        ("events\nappend 1 7 \"", 256, "\"\n", "3 range"),
        ("function ", 32, "()\nend\nevents\n", "2 range"),
        ("function f(", 32, ")\nend\nevents\n", "2 range"),
    ] {
        let edge = refusal_around(alloc, front, "x", most, back)?;
        assert_eq!(rt; edge.as_str(), "", "at {front}");
        let past = refusal_around(alloc, front, "x", most + 1, back)?;
        assert_eq!(rt; past.as_str(), want, "at {front}");
    }
    Ok(())
}

/// Why a text is refused that has this many functions.
fn refusal_of_functions(alloc: Global, n: u32) -> Result<String, Memory> {
    let mut text = String::from_str(alloc, "setup 1 1 1 R\n")?;
    for i in 0..n {
        let function = format!(in alloc; "function f{i}()\nend\n")?;
        text.push_str(function.as_str())?;
    }
    text.push_str("events\n")?;
    plan_refusal(alloc, text.as_bytes())
}

#[test]
fn keeps_the_limit_of_functions(rt: HostRuntime) -> Result<(), Fail> {
    let alloc = rt.alloc();
    assert_eq!(rt; refusal_of_functions(alloc, 256)?.as_str(), "");
    assert_eq!(rt; refusal_of_functions(alloc, 257)?.as_str(), "514 range");
    Ok(())
}
