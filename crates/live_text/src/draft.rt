//! What was read of a live text so far.

ghost use Rattle.std.specs.Prelude.{◌≡◌, [], None, Ok, IfErr, OnOk};
ghost use Rattle.line_text.specs.Faults.{AddFails, LineFails};
ghost use Rattle.line_text.specs.Texts.{read_text_line};
ghost use Rattle.live_text.specs.Reading.{live_line, empty_draft};

use crate::ops::{read_op_line, read_workers};
use crate::text::LiveOp;
use boki_types::Kind;
use lb_base::List;
use line_text::{
    LexedLine, LineFault, TextFault, Tokens, fault_on_line, lex_text_line, valid_or_fault,
};
use std::alloc::Global;

/// How many workers there are, once that line is read, and what was read behind it.
#[derive(Drop)]
pub struct LiveDraft {
    pub workers: Option<u32>,
    pub lines: List<(u32, LiveOp)>,
}

impl LiveDraft {
    /// Nothing read yet.
    pub(crate) fn new(alloc: Global) -> LiveDraft
        ensures { result ≡ empty_draft }
    {
        LiveDraft {
            workers: None,
            lines: List::new(alloc),
        }
    }

    /// Adds a line that isn't skipped, of these tokens. After a fault nothing is said of the draft.
    fn add_tokens(
        &mut self,
        alloc: Global,
        number: u64,
        mut tokens: Tokens,
    ) -> Result<(), LineFault>
        ensures ok { OnOk result (live_line number tokens self.old ≡ Ok self.new) }
        ensures err { IfErr result (λ e. LineFails e (live_line number tokens self.old)) }
    {
        match self.workers {
            None => {
                self.workers = Some(valid_or_fault(read_workers(&mut tokens))?);
                Ok(())
            }
            Some(workers) => {
                let found = read_op_line(alloc, workers, &mut tokens)?;
                self.lines.push(valid_or_fault(found)?)?;
                Ok(())
            }
        }
    }

    /// Adds a line of the text, given without its line feed. After a fault nothing is said of the draft.
    fn add_line(&mut self, alloc: Global, number: u64, line: &[u8]) -> Result<(), LineFault>
        ensures ok { OnOk result (read_text_line live_line 65536 number line.now self.old ≡ Ok self.new) }
        ensures err { IfErr result (λ e. LineFails e (read_text_line live_line 65536 number line.now self.old)) }
    {
        match lex_text_line(alloc, 65536, number, line)? {
            LexedLine::Skipped => Ok(()),
            LexedLine::Tokens(tokens) => self.add_tokens(alloc, number, tokens),
            LexedLine::Invalid => Err(LineFault::Refused(Kind::Syntax)),
        }
    }

    /// Adds the line with this number. A fault is that of the text.
    pub(crate) fn add_numbered_line(
        &mut self,
        alloc: Global,
        number: u64,
        line: &[u8],
    ) -> Result<(), TextFault>
        ensures ok { OnOk result (read_text_line live_line 65536 number line.now self.old ≡ Ok self.new) }
        ensures err { IfErr result (λ e. AddFails e number (read_text_line live_line 65536 number line.now self.old)) }
    {
        match self.add_line(alloc, number, line) {
            Ok(()) => Ok(()),
            Err(fault) => Err(fault_on_line(number, fault)),
        }
    }
}
