//! What the tests share.

use crate::heads::FIRST;
use judge_call::{Status, judge_top};
use lb_base::{MemSink, MemSource, Sink, Source, SureSink, SureSource};
use std::alloc::{AllocError, Global};

/// Judges what a source gives.
fn judged<S: Source, K: Sink>(
    alloc: Global,
    source: &mut S,
    sink: &mut K,
) -> Result<Status, AllocError> {
    let mut words = Vec::new(alloc);
    words.push(String::from_str(alloc, "judge")?)?;
    Ok(judge_top(alloc, words.as_slice(), source, sink))
}

/// Judges a text over devices that never fail.
pub(crate) fn judge(alloc: Global, text: &[u8]) -> Result<(Status, SureSink), AllocError> {
    let mut source = SureSource::new(Vec::from_slice(alloc, text)?);
    let mut sink = SureSink::new(alloc);
    let status = judged(alloc, &mut source, &mut sink)?;
    Ok((status, sink))
}

/// Judges the first turns over a sink whose call `put` of this number fails.
pub(crate) fn judge_first(alloc: Global, put: u64) -> Result<(Status, MemSink), AllocError> {
    let text = Vec::from_slice(alloc, FIRST.as_bytes())?;
    let mut source = MemSource::new(text, Vec::new(alloc));
    let mut sink = MemSink::new(alloc, 4096, vec![in alloc; put]?);
    let status = judged(alloc, &mut source, &mut sink)?;
    Ok((status, sink))
}

/// Whether a text is judged with this exit status, and this is written.
fn gives(alloc: Global, text: &str, code: u8, want: &str) -> Result<bool, AllocError> {
    let (status, sink) = judge(alloc, text.as_bytes())?;
    Ok(status.code() == code && sink.bytes() == want.as_bytes())
}

/// Whether a text of turns is judged to a report, which begins with the turns.
pub(crate) fn comes_to(
    alloc: Global,
    head: &str,
    turns: &str,
    results: &str,
) -> Result<bool, AllocError> {
    let text = format!(in alloc; "{head}{turns}")?;
    let want = format!(in alloc; "report\n{turns}{results}end\n")?;
    gives(alloc, text.as_str(), 0, want.as_str())
}

/// Whether a text of turns is refused with this line.
pub(crate) fn is_refused(
    alloc: Global,
    head: &str,
    turns: &str,
    line: &str,
) -> Result<bool, AllocError> {
    let text = format!(in alloc; "{head}{turns}")?;
    gives(alloc, text.as_str(), 1, line)
}
