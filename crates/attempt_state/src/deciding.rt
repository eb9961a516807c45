//! Which case of the step table it is, as far as the attempt alone tells.
ghost use Rattle.std.specs.Prelude.{◌≡◌, ◌&&◌};
ghost use Rattle.boki_machine.specs.Step.{is_new_engine, is_short_value};
ghost use Rattle.attempt_state.specs.Deciding.{is_operation, asks_operation, reads_freely, writes_freely};

use crate::progress::Progress;
use crate::state::AttemptState;
use boki_model::limits::MAX_INLINE_BYTES;
use boki_types::Ask;
use lb_base::{Mode, Value};

impl AttemptState {
    /// Whether its script asks an operation.
    pub fn asks_operation(&self) -> bool
        ensures { result ≡ asks_operation self.now.frame }
    {
        match &self.frame {
            Some(frame) => is_operation(frame.ask()),
            None => false,
        }
    }
}

impl Progress {
    /// Whether its reads are free: in mode R.
    pub fn reads_freely(&self) -> bool
        ensures { result ≡ reads_freely self.now.mode }
    {
        matches!(self.mode, Mode::R)
    }

    /// Whether its next write is free: in mode W, unless it is late.
    pub fn writes_freely(&self) -> bool
        ensures { result ≡ writes_freely self.now.mode self.now.late }
    {
        matches!(self.mode, Mode::W) && !self.late
    }
}

/// Whether an operation is asked.
fn is_operation(ask: &Ask) -> bool
    ensures { result ≡ is_operation ask.now }
{
    match ask {
        Ask::Op(_) => true,
        Ask::Done(_) => false,
    }
}

/// Whether the record of a write of this value holds it, where `newer` is the first engine whose records do, if any.
pub fn is_inline(newer: Option<u32>, engine: u32, value: &Value) -> bool
    ensures { result ≡ (is_new_engine newer engine && is_short_value value.now) }
{
    is_new(newer, engine) && is_short(value)
}

fn is_new(newer: Option<u32>, engine: u32) -> bool
    ensures { result ≡ is_new_engine newer engine }
{
    match newer {
        Some(first) => first <= engine,
        None => false,
    }
}

/// Whether a value is short enough to stand in the record of a write.
fn is_short(value: &Value) -> bool
    ensures { result ≡ is_short_value value.now }
{
    match value {
        Value::Int(_) => true,
        Value::Text(text) => text.len() <= MAX_INLINE_BYTES,
        Value::Nothing => true,
    }
}
