//! Lines and the fields of lines, as every text reads them.

use crate::common::tokens_of;
use lb_base::{List, Memory, Mode, Tag, Value, Words};
use line_text::{
    Checked, FieldGrammar, Kind, LineFault, Punctuation, Token, Tokens, as_text,
    at_most_eight_items, fault_of_unended_line, lex_text_line, read_comma_list, read_mode,
    read_name, read_paren_list, read_path, read_sent, read_short_text, read_tag, read_tags,
    read_text, read_u32_in, read_u64, read_u64_in, read_value, split_line, split_text,
};
use std::alloc::Global;
use std::test::Fail;

/// Whether something was read that is in range.
fn is_valid<T: Drop>(found: Option<Checked<T>>) -> bool {
    match found {
        Some(Checked::Valid(_)) => true,
        _ => false,
    }
}

/// Whether something was read that is out of range.
fn is_out_of_range<T: Drop>(found: Option<Checked<T>>) -> bool {
    match found {
        Some(Checked::OutOfRange) => true,
        _ => false,
    }
}

#[test]
fn splits_lines(rt: HostRuntime) -> Result<(), Fail> {
    let (line, rest) = split_line(b" submit 1 2\nrest").ok_or("no line")?;
    assert_eq!(rt; line, b" submit 1 2".as_slice());
    assert_eq!(rt; rest, b"rest".as_slice());
    assert!(rt; split_line(rest).is_none());
    assert_eq!(rt; as_text(line), Some(" submit 1 2"));
    assert_eq!(rt; as_text(&[255]), None);
    assert_eq!(rt; split_text("a.b.c", b'.'), Some(("a", "b.c")));
    Ok(())
}

/// The fault of a line with this number in a text of at most two lines.
fn line_fault(alloc: Global, number: u64, line: &[u8]) -> Result<Option<Kind>, Memory> {
    match lex_text_line(alloc, 2, number, line) {
        Ok(line) => {
            drop(line);
            Ok(None)
        }
        Err(LineFault::Refused(kind)) => Ok(Some(kind)),
        Err(LineFault::Memory) => Err(Memory),
    }
}

#[test]
fn keeps_the_limits_of_lines(rt: HostRuntime) -> Result<(), Fail> {
    let alloc = rt.alloc();
    assert_eq!(rt; line_fault(alloc, 2, b"cut")?, None);
    assert_eq!(rt; line_fault(alloc, 2, &[255])?, Some(Kind::Utf8));
    assert_eq!(rt; line_fault(alloc, 3, &[255])?, Some(Kind::Lines));
    assert_eq!(rt; fault_of_unended_line(2, 3, &[255]), Kind::Lines);
    assert_eq!(rt; fault_of_unended_line(2, 2, &[255]), Kind::Utf8);
    assert_eq!(rt; fault_of_unended_line(2, 2, b"cut"), Kind::Truncated);
    Ok(())
}

/// How many tokens a line has.
fn token_count(alloc: Global, line: &str) -> Result<usize, Memory> {
    Ok(tokens_of(alloc, line)?.len())
}

#[test]
fn cuts_lines_into_tokens(rt: HostRuntime) -> Result<(), Fail> {
    let alloc = rt.alloc();
    for (line, count) in [
        (" submit 1 2 f(-5, \"x\", none)", 12),
        ("a==b", 3),
        ("a= =b", 4),
        ("1.2 1 .2", 0),
        ("# a", 0),
        ("\t", 0),
    ] {
        assert_eq!(rt; token_count(alloc, line)?, count, "at {line}");
    }
    Ok(())
}

/// The tokens `( none`, pushed one by one.
fn pushed_tokens(alloc: Global) -> Result<Tokens, Memory> {
    let mut tokens = Tokens::new(alloc);
    tokens.push(Token::Punctuation(Punctuation::Open))?;
    tokens.push(Token::Numeral(None))?;
    Ok(tokens)
}

#[test]
fn takes_tokens(rt: HostRuntime) -> Result<(), Fail> {
    let mut tokens = pushed_tokens(rt.alloc())?;
    assert_eq!(rt; tokens.mark(), Some(Punctuation::Open));
    assert!(rt; !tokens.takes(Punctuation::Close));
    assert!(rt; tokens.takes(Punctuation::Open));
    assert!(rt; is_out_of_range(read_u64(&mut tokens)));
    assert!(rt; tokens.is_empty());
    assert_eq!(rt; tokens.key(), None);
    Ok(())
}

#[test]
fn reads_fields(rt: HostRuntime) -> Result<(), Fail> {
    let alloc = rt.alloc();
    let mut tokens = tokens_of(alloc, "1.2 2.3 7, 8 \"a\" \"b\" R x -5 6 7 8 9")?;
    let path = is_valid(read_path(alloc, &mut tokens)?);
    let sent = is_valid(read_sent(alloc, &mut tokens, 2)?);
    let tags = is_valid(read_tags(alloc, &mut tokens)?);
    assert_eq!(rt; (path, sent, tags), (true, true, true));
    assert!(rt; is_valid(read_short_text(&mut tokens)));
    assert!(rt; read_text(&mut tokens).is_some());
    assert_eq!(rt; read_mode(&mut tokens), Some(Mode::R));
    assert!(rt; is_valid(read_name(&mut tokens)));
    assert!(rt; is_valid(read_value(&mut tokens)));
    assert!(rt; is_valid(read_u32_in(&mut tokens, 6, 6)));
    assert!(rt; is_valid(read_u64_in(&mut tokens, 7, 7)));
    assert!(rt; is_valid(read_u64(&mut tokens)));
    assert!(rt; is_valid(read_tag(&mut tokens)));
    assert!(rt; tokens.is_empty());
    Ok(())
}

#[test]
fn finds_fields_out_of_range(rt: HostRuntime) -> Result<(), Fail> {
    let alloc = rt.alloc();
    let mut tokens = tokens_of(alloc, "1.4096 3.3 7, 72057594037927936 5 6")?;
    let path = is_out_of_range(read_path(alloc, &mut tokens)?);
    let sent = is_out_of_range(read_sent(alloc, &mut tokens, 2)?);
    let tags = is_out_of_range(read_tags(alloc, &mut tokens)?);
    assert_eq!(rt; (path, sent, tags), (true, true, true));
    assert!(rt; is_out_of_range(read_u32_in(&mut tokens, 6, 6)));
    assert!(rt; is_out_of_range(read_u64_in(&mut tokens, 7, 7)));
    assert!(rt; tokens.is_empty());
    Ok(())
}

/// How many items a list has; None where it is out of range.
fn item_count<T: Drop>(list: Checked<List<T>>) -> Option<usize> {
    match list {
        Checked::Valid(items) => Some(items.len()),
        _ => None,
    }
}

/// How many values begin a line, where they are at most eight; None where they are none or more.
fn value_count(alloc: Global, line: &str) -> Result<Option<usize>, Memory> {
    let mut tokens = tokens_of(alloc, line)?;
    match read_comma_list::<Value, FieldGrammar>(alloc, &mut tokens)? {
        Some(values) => Ok(item_count(at_most_eight_items(values))),
        None => Ok(None),
    }
}

/// How many names stand before a closing parenthesis; None where there is none.
fn listed_count(alloc: Global, line: &str) -> Result<Option<usize>, Memory> {
    let mut tokens = tokens_of(alloc, line)?;
    match read_paren_list::<Words, FieldGrammar>(alloc, &mut tokens)? {
        Some(names) => Ok(item_count(names.items)),
        None => Ok(None),
    }
}

/// How many tags begin a line; None where they are none or out of range.
fn tag_count(alloc: Global, line: &str) -> Result<Option<usize>, Memory> {
    let mut tokens = tokens_of(alloc, line)?;
    match read_comma_list::<Tag, FieldGrammar>(alloc, &mut tokens)? {
        Some(tags) => Ok(item_count(tags.items)),
        None => Ok(None),
    }
}

#[test]
fn reads_lists(rt: HostRuntime) -> Result<(), Fail> {
    let alloc = rt.alloc();
    assert_eq!(rt; value_count(alloc, "1, none, \"a\" 4")?, Some(3));
    assert_eq!(rt; value_count(alloc, "1, 2, 3, 4, 5, 6, 7, 8, 9")?, None);
    assert_eq!(rt; value_count(alloc, "1,")?, None);
    assert_eq!(rt; listed_count(alloc, ")")?, Some(0));
    assert_eq!(rt; listed_count(alloc, "a, b)")?, Some(2));
    assert_eq!(rt; listed_count(alloc, "a, b")?, None);
    assert_eq!(rt; tag_count(alloc, "7,8")?, Some(2));
    Ok(())
}
