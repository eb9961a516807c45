//! Numbers, texts, values, paths, sources, sinks and lists of the base crate.

use lb_base::{
    List, MemSink, MemSource, Memory, Mode, Outcome, Path, PutFault, ReadAll, SureSink, SureSource,
    Tag, TrapKind, Value, Words, is_integer, is_numeral, print_int, print_outcome, print_path,
    print_quoted, print_value, read_all, read_int, read_num, read_quoted, split_quoted, write_line,
};
use std::alloc::Global;
use std::test::Fail;

#[test]
fn reads_numbers(rt: HostRuntime) {
    for (text, want) in [
        ("0", Some(0)),
        ("-9223372036854775808", Some(i64::MIN)),
        ("9223372036854775807", Some(i64::MAX)),
        ("9223372036854775808", None),
        ("+1", None),
        ("01", None),
        ("-0", None),
        ("-", None),
        ("", None),
    ] {
        assert_eq!(rt; read_int(text), want, "at {text}");
    }
    for (text, want) in [
        ("18446744073709551615", Some(u64::MAX)),
        ("18446744073709551616", None),
        ("01", None),
        ("-1", None),
        ("", None),
    ] {
        assert_eq!(rt; read_num(text), want, "at {text}");
    }
    assert!(rt; is_integer("9223372036854775808") && is_numeral("18446744073709551616"));
}

#[test]
fn reads_quoted_texts(rt: HostRuntime) -> Result<(), Fail> {
    let alloc = rt.alloc();
    let printed = print_quoted(alloc, "a\"b")?;
    assert_eq!(rt; printed.as_str(), "\"a\\\"b\"");
    let found = split_quoted(alloc, "\"x\\n\\\\é\", 1")?;
    let (text, rest) = found.ok_or("none")?;
    assert_eq!(rt; text.as_str(), "x\n\\é");
    assert_eq!(rt; rest, ", 1");
    for bad in ["", "a", "\"a", "\"\\t\"", "\"\n\"", "\"\\"] {
        assert!(rt; read_quoted(alloc, bad)?.is_none(), "at {bad}");
    }
    Ok(())
}

#[test]
fn prints_values(rt: HostRuntime) -> Result<(), Fail> {
    let alloc = rt.alloc();
    assert_eq!(rt; print_int(alloc, -5)?.as_str(), "-5");
    assert_eq!(rt; print_value(alloc, &Value::Nothing)?.as_str(), "none");
    let mut words = Words::from_text(alloc, "a")?;
    words.push("\n")?;
    let text = Value::Text(words);
    assert_eq!(rt;
        print_outcome(alloc, &Outcome::Good(text.clone()?))?.as_str(),
        "value \"a\\n\""
    );
    assert!(rt; text.clone()? == text);
    assert_eq!(rt;
        print_outcome(alloc, &Outcome::Trap(TrapKind::Overflow))?.as_str(),
        "trap overflow"
    );
    assert_eq!(rt;
        format!(in alloc; "{} {} {}", Mode::R, Mode::W, Mode::T)?.as_str(),
        "R W T"
    );
    Ok(())
}

#[test]
fn bounds_and_orders_paths(rt: HostRuntime) -> Result<(), Fail> {
    assert_eq!(rt; Path::request(0), None);
    assert_eq!(rt; Path::request(1_048_576), None);
    let one = Path::request(1).ok_or("request")?;
    assert_eq!(rt; one.child(0), None);
    assert_eq!(rt; one.child(4_096), None);
    let two = one.child(2).ok_or("child")?;
    let deep = two.child(4_095).and_then(|p| p.child(1)).ok_or("child")?;
    assert_eq!(rt; deep.parts(), [1, 2, 4_095, 1].as_slice());
    assert_eq!(rt; deep.depth(), 4);
    assert_eq!(rt; deep.child(1), None);
    assert_eq!(rt; Path::from_parts(&[1, 2, 4_095, 1]), Some(deep));
    let ten = Path::request(10).ok_or("request")?;
    assert!(rt; one < two && two < deep && deep < ten);
    assert_eq!(rt; print_path(rt.alloc(), deep)?.as_str(), "1.2.4095.1");
    Ok(())
}

fn source(alloc: Global, fail: &[u64]) -> Result<MemSource, Memory> {
    Ok(MemSource::new(
        Vec::from_slice(alloc, b"hello")?,
        Vec::from_slice(alloc, fail)?,
    ))
}

#[test]
fn reads_a_source_to_its_end(rt: HostRuntime) -> Result<(), Fail> {
    let alloc = rt.alloc();
    let mut whole = source(alloc, &[])?;
    assert_eq!(rt;
        read_all(alloc, &mut whole, 5)?.as_slice(),
        b"hello".as_slice()
    );
    let mut sure = SureSource::new(Vec::from_slice(alloc, b"hello")?);
    assert_eq!(rt;
        read_all(alloc, &mut sure, 9)?.as_slice(),
        b"hello".as_slice()
    );
    let mut long = source(alloc, &[])?;
    assert_eq!(rt; read_all(alloc, &mut long, 4).err(), Some(ReadAll::TooLong));
    let mut failing = source(alloc, &[2])?;
    assert_eq!(rt;
        read_all(alloc, &mut failing, 9).err(),
        Some(ReadAll::Fault)
    );
    Ok(())
}

#[test]
fn writes_what_was_not_taken_again(rt: HostRuntime) -> Result<(), Fail> {
    let alloc = rt.alloc();
    let mut small = MemSink::new(alloc, 5, Vec::new(alloc));
    write_line(&mut small, b"hello, world\n")?;
    assert_eq!(rt; small.bytes(), b"hello, world\n".as_slice());
    let mut failing = MemSink::new(alloc, 5, Vec::from_slice(alloc, &[2])?);
    assert_eq!(rt;
        write_line(&mut failing, b"hello, world\n").err(),
        Some(PutFault::Fault)
    );
    assert_eq!(rt; failing.bytes(), b"hello".as_slice());
    let mut sure = SureSink::new(alloc);
    write_line(&mut sure, b"done\n")?;
    assert_eq!(rt; sure.bytes(), b"done\n".as_slice());
    Ok(())
}

#[test]
fn lists_grow_and_shrink(rt: HostRuntime) -> Result<(), Fail> {
    let alloc = rt.alloc();
    let mut tags = List::from_slice(alloc, &[Tag(1)])?;
    tags.push(Tag(2))?;
    tags.extend(&[Tag(3)])?;
    assert_eq!(rt; tags.pop(), Some(Tag(3)));
    assert_eq!(rt; tags.get(1), Some(&Tag(2)));
    assert_eq!(rt; tags.iter().count(), 2);
    let copy = tags.clone()?;
    assert!(rt; copy == tags && !copy.is_empty());
    Ok(())
}
