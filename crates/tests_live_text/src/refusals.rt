//! Where and why a live text is refused.

use lb_base::Memory;
use line_text::TextFault;
use live_text::parse_live;
use std::alloc::Global;
use std::test::Fail;

/// Where and why a text is refused, as `LINE KIND`; nothing where it isn't.
pub(crate) fn refusal_of(alloc: Global, bytes: &[u8]) -> Result<String, Memory> {
    match parse_live(alloc, bytes) {
        Ok(text) => {
            drop(text);
            Ok(String::new(alloc))
        }
        Err(TextFault::Refused { line, kind }) => Ok(format!(in alloc; "{line} {kind}")?),
        Err(TextFault::Memory) => Err(Memory),
    }
}

#[test]
fn reads_the_first_line(rt: HostRuntime) -> Result<(), Fail> {
    let alloc = rt.alloc();
    for (text, want) in [
        ("live 1\n", ""),
        ("# two\n\n  live   16 \n", ""),
        ("live 17\n", "1 range"),
        ("live 0\n", "1 range"),
        ("live 18446744073709551616\n", "1 range"),
        ("live\n", "1 syntax"),
        ("live 1 1\n", "1 syntax"),
        ("lives 1\n", "1 syntax"),
        ("1 count 7\n", "1 syntax"),
        ("live 1\nlive 1\n", "2 syntax"),
        ("live 1", "1 truncated"),
        ("# none\n", "2 end"),
        ("", "1 end"),
    ] {
        assert_eq!(rt;
            refusal_of(alloc, text.as_bytes())?.as_str(),
            want,
            "at {text}"
        );
    }
    Ok(())
}

/// Why a line is refused that follows `live 2`.
fn refusal_of_line(alloc: Global, line: &str) -> Result<String, Memory> {
    let text = format!(in alloc; "live 2\n{line}\n")?;
    refusal_of(alloc, text.as_bytes())
}

#[test]
fn reads_lines_of_workers(rt: HostRuntime) -> Result<(), Fail> {
    let alloc = rt.alloc();
    for (line, want) in [
        ("1 append 7 \"a\"", ""),
        ("2 append 0,1,2,3,4,5,6,72057594037927935 \"\"", ""),
        ("1 append 1,2,3,4,5,6,7,8,9 \"a\"", "2 range"),
        ("1 append 72057594037927936 \"a\"", "2 range"),
        ("1 append \"a\"", "2 syntax"),
        ("1 append 7 a", "2 syntax"),
        ("1 append 7 \"a\" 1", "2 syntax"),
        ("2 next 7 18446744073709551615", ""),
        ("2 next 7 18446744073709551616", "2 range"),
        ("2 next 7", "2 syntax"),
        ("1 next 72057594037927936 1", "2 range"),
        ("2 prev 7 0", ""),
        ("2 prev 7 0 1", "2 syntax"),
        ("1 prev 7 18446744073709551616", "2 range"),
        ("1 count 72057594037927935", ""),
        ("1 count 72057594037927936", "2 range"),
        ("1 count", "2 syntax"),
        ("1 count 7 7", "2 syntax"),
        ("0 count 7", "2 range"),
        ("3 count 7", "2 range"),
        ("3 counts 7", "2 syntax"),
        ("count 7", "2 syntax"),
        ("1 tail 7", "2 syntax"),
        ("1", "2 syntax"),
        ("1 count -7", "2 syntax"),
        ("  # skipped", ""),
    ] {
        assert_eq!(rt; refusal_of_line(alloc, line)?.as_str(), want, "at {line}");
    }
    Ok(())
}

#[test]
fn refuses_the_first_line_with_a_fault(rt: HostRuntime) -> Result<(), Fail> {
    let alloc = rt.alloc();
    let first = "live 1\n2 count 7\n1 counts 7\n";
    assert_eq!(rt; refusal_of(alloc, first.as_bytes())?.as_str(), "2 range");
    assert_eq!(rt;
        refusal_of(alloc, b"live 1\n\xff\n1 counts 7\n")?.as_str(),
        "2 utf8"
    );
    assert_eq!(rt; refusal_of(alloc, b"live 1\n\xff")?.as_str(), "2 utf8");
    assert_eq!(rt;
        refusal_of(alloc, b"live 1\n1 count 7")?.as_str(),
        "2 truncated"
    );
    Ok(())
}
