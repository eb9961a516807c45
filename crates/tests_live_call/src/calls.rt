//! What the call answers, and what it writes.

use lb_base::{MemSink, MemSource, SureSink, SureSource};
use line_text::Kind;
use live_call::{Status, live_top};
use std::alloc::{AllocError, Global};
use std::sync::Wait;
use std::test::Fail;
use std::thread::Threads;

const TEXT: &str =
    "live 1\n1 append 7 \"a\"\n1 prev 7 99\n1 append 7 \"b\"\n1 count 7\n1 next 8 1\n";

const OUTPUT: &str =
    "list\n1 1 7 \"a\"\n2 1 7 \"b\"\nworker 1\nappend 1\nprev 1 at 1\nappend 2\ncount 2 at 2\nnext none at 2\nend\n";

fn words_of(alloc: Global, texts: &[&str]) -> Result<Vec<String>, AllocError> {
    let mut words = Vec::new(alloc);
    for text in texts {
        words.push(String::from_str(alloc, text)?)?;
    }
    Ok(words)
}

/// Calls over devices that never fail.
fn answer<R: Threads + Wait + Sync>(
    rt: &R,
    alloc: Global,
    texts: &[&str],
    text: &[u8],
) -> Result<(Status, SureSink), AllocError> {
    let words = words_of(alloc, texts)?;
    let mut source = SureSource::new(Vec::from_slice(alloc, text)?);
    let mut sink = SureSink::new(alloc);
    let status = live_top(rt, alloc, words.as_slice(), &mut source, &mut sink);
    Ok((status, sink))
}

#[test]
fn one_worker(rt: HostRuntime) -> Result<(), Fail> {
    let (status, sink) = answer(&rt, rt.alloc(), &["live"], TEXT.as_bytes())?;
    assert_eq!(rt; status, Status::Done);
    assert_eq!(rt; sink.bytes(), OUTPUT.as_bytes());
    Ok(())
}

#[test]
fn refused_texts(rt: HostRuntime) -> Result<(), Fail> {
    let (status, sink) = answer(&rt, rt.alloc(), &["live"], b"live 2\n3 count 7\n")?;
    let refused = Status::Refused {
        line: 2,
        kind: Kind::Range,
    };
    assert_eq!(rt; status, refused);
    assert_eq!(rt; sink.bytes(), b"refused 2 range\n".as_slice());
    Ok(())
}

#[test]
fn other_words(rt: HostRuntime) -> Result<(), Fail> {
    for words in [["live", "1"], ["live", "--json"]] {
        let (status, sink) = answer(&rt, rt.alloc(), words.as_slice(), TEXT.as_bytes())?;
        assert_eq!(rt; status, Status::Usage);
        assert!(rt; sink.bytes().starts_with(b"usage: "));
    }
    Ok(())
}

/// Calls over a source whose calls `take` fail, and a sink whose calls `put` fail.
fn faulted<R: Threads + Wait + Sync>(
    rt: &R,
    alloc: Global,
    take: u64,
    put: u64,
) -> Result<(Status, MemSink), AllocError> {
    let words = words_of(alloc, &["live"])?;
    let text = Vec::from_slice(alloc, TEXT.as_bytes())?;
    let mut source = MemSource::new(text, vec![in alloc; take]?);
    let mut sink = MemSink::new(alloc, 4096, vec![in alloc; put]?);
    let status = live_top(rt, alloc, words.as_slice(), &mut source, &mut sink);
    Ok((status, sink))
}

#[test]
fn devices_that_fail(rt: HostRuntime) -> Result<(), Fail> {
    let (status, sink) = faulted(&rt, rt.alloc(), 0, 3)?;
    assert_eq!(rt; status, Status::WriteFault);
    assert_eq!(rt; sink.bytes(), b"list\n1 1 7 \"a\"\n".as_slice());
    let (status, sink) = faulted(&rt, rt.alloc(), 1, 0)?;
    assert_eq!(rt; status, Status::ReadFault);
    assert_eq!(rt; sink.bytes(), b"".as_slice());
    Ok(())
}
