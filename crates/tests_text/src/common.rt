//! What the tests share.

use lb_base::{Memory, Words};
use line_text::{LexedLine, TextFault, Tokens, read_line};
use plan_lang::{Plan, parse_plan};
use std::alloc::Global;

/// Where and why a text is refused, as `LINE KIND`.
pub(crate) fn refusal_text(alloc: Global, fault: TextFault) -> Result<String, Memory> {
    match fault {
        TextFault::Refused { line, kind } => Ok(format!(in alloc; "{line} {kind}")?),
        TextFault::Memory => Err(Memory),
    }
}

/// Where and why a text of a plan is refused, as `LINE KIND`; nothing where it isn't.
pub(crate) fn plan_refusal(alloc: Global, bytes: &[u8]) -> Result<String, Memory> {
    match parse_plan(alloc, bytes) {
        Ok(plan) => {
            drop(plan);
            Ok(String::new(alloc))
        }
        Err(fault) => refusal_text(alloc, fault),
    }
}

/// The plan of a text that is accepted.
pub(crate) fn accepted_plan(alloc: Global, text: &str) -> Result<Plan, Memory> {
    match parse_plan(alloc, text.as_bytes()) {
        Ok(plan) => Ok(plan),
        Err(_) => Err(Memory),
    }
}

/// The tokens of a line; none of one that is skipped or that no tokens spell.
pub(crate) fn tokens_of(alloc: Global, line: &str) -> Result<Tokens, Memory> {
    match read_line(alloc, line)? {
        LexedLine::Tokens(tokens) => Ok(tokens),
        _ => Ok(Tokens::new(alloc)),
    }
}

pub(crate) fn words(alloc: Global, text: &str) -> Result<Words, Memory> {
    Words::from_text(alloc, text)
}

/// A text with a line feed for each `;`.
pub(crate) fn with_feeds(alloc: Global, text: &str) -> Result<String, Memory> {
    let mut out = String::new(alloc);
    for c in text.chars() {
        out.push(if c == ';' { '\n' } else { c })?;
    }
    Ok(out)
}

/// A text so often, between two others.
pub(crate) fn around(
    alloc: Global,
    front: &str,
    piece: &str,
    n: usize,
    back: &str,
) -> Result<String, Memory> {
    let mut text = String::from_str(alloc, front)?;
    for _ in 0..n {
        text.push_str(piece)?;
    }
    text.push_str(back)?;
    Ok(text)
}
