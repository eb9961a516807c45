//! The limits of a live text.

use crate::refusals::refusal_of;
use lb_base::Memory;
use std::alloc::Global;
use std::test::Fail;

/// Why a live text is refused with this many further lines, each a comment of this length with its line feed.
fn refusal_of_long(alloc: Global, lines: usize, len: usize) -> Result<String, Memory> {
    let mut text = String::from_str(alloc, "live 1\n")?;
    for _ in 0..lines {
        text.push_str("#")?;
        for _ in 2..len {
            text.push_str("x")?;
        }
        text.push_str("\n")?;
    }
    refusal_of(alloc, text.as_bytes())
}

#[test]
fn keeps_the_limits_of_texts(rt: HostRuntime) -> Result<(), Fail> {
    let alloc = rt.alloc();
    for (lines, len, want) in [
        (65535, 2, ""),
        (65536, 2, "65537 lines"),
        (1, 1048569, ""),
        (1, 1048570, "0 length"),
    ] {
        assert_eq!(rt; refusal_of_long(alloc, lines, len)?.as_str(), want);
    }
    Ok(())
}

/// Why an append of a text with this many bytes is refused.
fn refusal_of_append(alloc: Global, len: usize) -> Result<String, Memory> {
    let mut text = String::from_str(alloc, "live 1\n1 append 7 \"")?;
    for _ in 0..len {
        text.push_str("x")?;
    }
    text.push_str("\"\n")?;
    refusal_of(alloc, text.as_bytes())
}

#[test]
fn keeps_the_limit_of_what_is_appended(rt: HostRuntime) -> Result<(), Fail> {
    let alloc = rt.alloc();
    assert_eq!(rt; refusal_of_append(alloc, 256)?.as_str(), "");
    assert_eq!(rt; refusal_of_append(alloc, 257)?.as_str(), "2 range");
    Ok(())
}
