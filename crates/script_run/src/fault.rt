//! Why a line of a script isn't done.

ghost use Rattle.std.specs.Prelude.{◌≡◌};
ghost use Rattle.script_run.specs.declared.fault.EvalFault.TheVariants as halt;

use lb_base::{Memory, TrapKind};
use std::alloc::{AllocError, AllocFailed};

/// Why a line isn't done: the script traps, or there is no room in memory.
#[derive(Clone, Copy, Debug, PartialEq, Eq)]
pub(crate) enum EvalFault {
    Trap(TrapKind),
    Memory,
}

impl From<Memory> for EvalFault {
    ghost from_gives = { λ _ e. e ≡ halt.Memory };

    fn from(_e: Memory) -> EvalFault {
        EvalFault::Memory
    }
}

impl From<AllocError> for EvalFault {
    ghost from_gives = { λ _ e. e ≡ halt.Memory };

    fn from(_e: AllocError) -> EvalFault {
        EvalFault::Memory
    }
}

impl<T: Drop> From<AllocFailed<T>> for EvalFault {
    ghost from_gives = { λ _ e. e ≡ halt.Memory };

    fn from(_e: AllocFailed<T>) -> EvalFault {
        EvalFault::Memory
    }
}
