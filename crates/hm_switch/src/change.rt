//! Changes of the mode.
use lb_base::Mode;

/// A switch to a mode that began at a seqnum.
#[derive(Clone, Copy)]
pub(crate) struct Pending {
    pub(crate) target: Mode,
    pub(crate) begun: u64,
}

/// The mode of invocations that begin behind a seqnum.
#[derive(Clone, Copy)]
pub(crate) struct Change {
    pub(crate) seq: u64,
    pub(crate) mode: Mode,
}
