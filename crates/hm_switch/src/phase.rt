//! Where an invocation stands.

/// An invocation is open since the seqnum of its first Init, or it has ended.
#[derive(Clone, Copy)]
pub(crate) enum Phase {
    Open(u64),
    Ended,
}
