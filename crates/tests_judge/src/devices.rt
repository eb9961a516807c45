//! A sink that fails, and a source that is judged without words.

use crate::common::judge_first;
use crate::heads::{FIRST, FIRST_REPORT};
use judge_call::{Status, judge_source};
use lb_base::{SureSink, SureSource};
use std::test::Fail;

#[test]
fn a_failing_put_leaves_the_lines_before(rt: HostRuntime) -> Result<(), Fail> {
    let mut lines = 0u64;
    let mut before = 0usize;
    for line in FIRST_REPORT.split_inclusive('\n') {
        lines = lines.saturating_add(1);
        let (status, sink) = judge_first(rt.alloc(), lines)?;
        assert_eq!(rt; status, Status::WriteFault);
        assert_eq!(rt; sink.bytes().len(), before);
        before = before.saturating_add(line.len());
    }
    let (status, sink) = judge_first(rt.alloc(), 0)?;
    assert_eq!(rt; status, Status::Done);
    assert_eq!(rt; sink.bytes(), FIRST_REPORT.as_bytes());
    Ok(())
}

#[test]
fn a_source_is_judged_without_words(rt: HostRuntime) -> Result<(), Fail> {
    let alloc = rt.alloc();
    let mut source = SureSource::new(Vec::from_slice(alloc, FIRST.as_bytes())?);
    let mut sink = SureSink::new(alloc);
    let status = judge_source(alloc, &mut source, &mut sink);
    assert_eq!(rt; status, Status::Done);
    assert_eq!(rt; sink.bytes(), FIRST_REPORT.as_bytes());
    Ok(())
}
