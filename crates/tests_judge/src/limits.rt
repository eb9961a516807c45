//! Texts at the limit of bytes, and past it.

use crate::common::judge;
use judge_call::Status;
use std::alloc::{AllocError, Global};
use std::test::Fail;

/// A text without turns, with a comment that makes it so long.
fn long_text(alloc: Global, length: usize) -> Result<Vec<u8>, AllocError> {
    let mut text = Vec::from_slice(alloc, b"setup 1 1 1 R\nturns\n")?;
    let rest = length.saturating_sub(text.len()).saturating_sub(1);
    let comment = vec![in alloc; b'#'; rest]?;
    text.extend_from_slice(comment.as_slice())?;
    text.push(b'\n')?;
    Ok(text)
}

#[test]
fn a_text_at_the_limit_is_judged_and_one_past_it_refused(rt: HostRuntime) -> Result<(), Fail> {
    let mut text = long_text(rt.alloc(), 16_777_216)?;
    assert_eq!(rt; text.len(), 16_777_216);
    let (status, sink) = judge(rt.alloc(), text.as_slice())?;
    assert_eq!(rt; status, Status::Done);
    assert_eq!(rt; sink.bytes(), b"report\nend\n".as_slice());
    text.push(b'\n')?;
    let (status, sink) = judge(rt.alloc(), text.as_slice())?;
    assert_eq!(rt; status.code(), 1);
    assert_eq!(rt; sink.bytes(), b"refused 0 length\n".as_slice());
    Ok(())
}
