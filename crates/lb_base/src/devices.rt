//! A source of bytes and a sink for them, each with a count of its faults.

ghost use Rattle.std.specs.Prelude.{◌≡◌, ℕ, ◌<◌, ◌≤◌, List, length, Option, OnOk, OnErr};
ghost use Rattle.lb_base.specs.Devices.{CountRose, Moves, Puts, KeepsRoom};

use crate::memory::Memory;

/// What a call of `take` gave.
#[derive(Clone, Copy, Debug, PartialEq, Eq)]
pub enum Taken {
    /// So many bytes, now at the start of the piece; 0 is the end of input.
    Bytes(usize),
    /// Nothing: the source failed.
    Failed,
}

/// What a call of `put` took.
#[derive(Clone, Copy, Debug, PartialEq, Eq)]
pub enum Given {
    /// So many bytes from the start of the piece, at least 1.
    Bytes(usize),
    /// Nothing: the sink failed.
    Failed,
}

/// Where bytes come from.
pub trait Source {
    /// The bytes still to come, where the source tells.
    ghost left: { Self → Option (List ℕ) };

    /// How often it failed: a count that never falls.
    ghost faults: { Self → ℕ };

    /// Moves the next bytes to the start of a piece that isn't empty.
    ///
    /// `Bytes(0)` is the end of input. `Failed` comes only where the count of faults rose, or stands at its greatest value.
    fn take(&mut self, into: &mut [u8]) -> Taken
        requires { 0 < length into.old }
        ensures moves { Moves (left self.old) (left self.new) result into.new }
        ensures cause { result ≡ Taken.Failed → CountRose (faults self.old) (faults self.new) }
        ensures later { faults self.old ≤ faults self.new };
}

/// Where bytes go.
pub trait Sink {
    /// The bytes taken so far, where the sink tells.
    ghost held: { Self → Option (List ℕ) };

    /// How often it failed: a count that never falls.
    ghost faults: { Self → ℕ };

    /// How many bytes it can take without memory.
    ghost spare: { Self → ℕ };

    /// Makes room for `n` bytes more. `Memory` leaves the sink as it was.
    fn ready(&mut self, n: usize) -> Result<(), Memory>
        ensures room { OnOk result (n ≤ spare self.new) }
        ensures err { OnErr result (self.new ≡ self.old) }
        ensures same { held self.new ≡ held self.old }
        ensures no_fault { faults self.new ≡ faults self.old };

    /// Takes a prefix of a piece that isn't empty and for which there is room. It takes no memory.
    ///
    /// `Failed` comes only where the count of faults rose, or stands at its greatest value; then nothing was taken.
    fn put(&mut self, piece: &[u8]) -> Given
        requires some { 0 < length piece.now }
        requires room { length piece.now ≤ spare self.old }
        ensures puts { Puts (held self.old) (held self.new) result piece.now }
        ensures cause { result ≡ Given.Failed → CountRose (faults self.old) (faults self.new) }
        ensures later { faults self.old ≤ faults self.new }
        ensures spares { KeepsRoom (spare self.old) (spare self.new) result };
}
