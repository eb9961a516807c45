//! Frames that are kept.

ghost use Rattle.std.specs.Prelude.{◌≡◌, ◌<◌, ◌^◌, ◌∷◌, ℕ, List, length, IfOk, OnOk, OnErr};
ghost use Rattle.lb_base.specs.declared.value.Value.{Value};
ghost use Rattle.boki_types.specs.declared.operation.Answer.{Answer};
ghost use Rattle.script_run.specs.Answering.{Takes};
ghost use Rattle.script_run.specs.Frames.{FrameStandsFor};

use boki_types::{Answer, Ask, Program};
use lb_base::Memory;
use script_run::Frame;
use std::alloc::Global;
use std::marker::Model;

/// A frame on the heap, so that an invocation that has ended takes little room.
#[derive(Drop)]
pub(crate) struct KeptFrame {
    frame: Box<Frame>,
}

impl Model for KeptFrame {
    ghost use Rattle.script_run.specs.Frames.{FrameState};

    ghost Value = { FrameState };

    ghost view = { λ k. k.frame.value };
}

impl KeptFrame {
    /// Keeps a frame.
    pub(crate) fn new(alloc: Global, frame: Frame) -> Result<KeptFrame, Memory>
        ensures { IfOk result (λ kept. kept ≡ frame) }
    {
        let frame = Box::new(alloc, frame)?;
        Ok(KeptFrame { frame })
    }

    /// What the script asks, or its result.
    pub(crate) fn ask(&self) -> &Ask
        ensures same { result.now ≡ self.now.ask }
    {
        self.frame.ask()
    }

    /// A copy that stands where this one does.
    pub(crate) fn copy(&self, alloc: Global) -> Result<KeptFrame, Memory>
        ensures { IfOk result (λ copy. copy ≡ self.now) }
    {
        KeptFrame::new(alloc, self.frame.copy(alloc)?)
    }

    /// Hands the script the answer of the operation that it asks. After `Memory` the frame is as before.
    pub(crate) fn give(
        &mut self,
        alloc: Global,
        program: &Program,
        answer: Answer,
    ) -> Result<(), Memory>
        requires few { length program.now.functions < 2 ^ 32 }
        requires takes { Takes self.old.ask answer }
        ensures ok { OnOk result ((function : ℕ) (args : List Value) (depth : ℕ) (answers : List Answer)
            → FrameStandsFor program.now.functions function args depth answers self.old
            → FrameStandsFor program.now.functions function args depth (answer ∷ answers) self.new) }
        ensures err { OnErr result (self.new ≡ self.old) }
    {
        self.frame.give(alloc, program, answer)
    }
}
