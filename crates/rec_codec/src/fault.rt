//! Why a body isn't encoded, or bytes aren't decoded.

ghost use Rattle.std.specs.Prelude.{◌≡◌};
ghost use Rattle.rec_codec.specs.declared.fault.Stop.TheVariants as stop;
ghost use Rattle.rec_codec.specs.declared.fault.EncodeFault.TheVariants as unwritten;

use lb_base::Memory;
use std::alloc::{AllocError, AllocFailed};

/// Why a body isn't encoded.
#[derive(Clone, Copy, Debug, PartialEq, Eq)]
pub enum EncodeFault {
    /// Its spelling has more than 4,096 bytes.
    TooLong,
    Memory,
}

impl From<Memory> for EncodeFault {
    ghost from_gives = { λ _ e. e ≡ unwritten.Memory };

    fn from(_e: Memory) -> EncodeFault {
        EncodeFault::Memory
    }
}

/// Why bytes aren't decoded.
#[derive(Clone, Copy, Debug, PartialEq, Eq)]
pub enum DecodeFault {
    /// They spell no body: the offset, from 0, of the first element that isn't spelled, or of the first byte behind a whole
    /// body.
    Bad(usize),
    Memory,
}

/// Why a reader stopped: so many bytes were left at an element that isn't spelled, or memory ran out.
#[derive(Clone, Copy, Debug, PartialEq, Eq)]
pub(crate) enum Stop {
    Left(usize),
    Memory,
}

impl From<Memory> for Stop {
    ghost from_gives = { λ _ e. e ≡ stop.Memory };

    fn from(_e: Memory) -> Stop {
        Stop::Memory
    }
}

impl From<AllocError> for Stop {
    ghost from_gives = { λ _ e. e ≡ stop.Memory };

    fn from(_e: AllocError) -> Stop {
        Stop::Memory
    }
}

impl<T: Drop> From<AllocFailed<T>> for Stop {
    ghost from_gives = { λ _ e. e ≡ stop.Memory };

    fn from(_e: AllocFailed<T>) -> Stop {
        Stop::Memory
    }
}
