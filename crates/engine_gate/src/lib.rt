//! The gate before which engines wait, where a caller wants them held.
#![tactic(auto)]

ghost use Rattle.std.specs.Prelude.{◌≡◌};

/// What each engine's worker passes, once, before it catches its engine up.
pub trait Gate {
    /// Passes the gate as the worker of an engine, whose number is from 1.
    fn enter(&self, engine: u32);

    /// How many records all engines together must be behind for each to get a thread of its own: 0, so that with a gate of
    /// one's own there are always threads.
    fn thread_threshold(&self) -> u64 {
        0
    }
}

/// A gate that is always open. It asks for threads only where there is enough to do.
pub struct NoGate;

impl Gate for NoGate {
    fn enter(&self, _engine: u32) {}

    fn thread_threshold(&self) -> u64
        ensures { result ≡ 4096 }
    {
        4_096
    }
}
