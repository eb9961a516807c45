//! Standard input and output as a source and a sink. Nothing is known of their bytes.

ghost use Rattle.std.specs.Prelude.{◌≡◌, None};

use lb_base::{Given, Memory, Sink, Source, Taken};
use std::io::{Read, Write};

/// A source over a reader. It doesn't tell its bytes, and counts its failures, up to the greatest u64.
#[derive(Drop)]
pub struct StdSource<R> {
    reader: R,
    faults: u64,
}

impl<R: Read> StdSource<R> {
    /// A source with no failure so far.
    pub fn new(reader: R) -> StdSource<R> {
        StdSource { reader, faults: 0 }
    }

    /// How many calls failed.
    pub fn faults(&self) -> u64
        ensures { result ≡ self.now.faults }
    {
        self.faults
    }
}

impl<R: Read> Source for StdSource<R> {
    ghost left = { λ _. None };

    ghost faults = { λ s. s.faults };

    fn take(&mut self, into: &mut [u8]) -> Taken {
        match self.reader.read(into) {
            Ok(n) => Taken::Bytes(n),
            Err(_) => {
                self.faults = self.faults.saturating_add(1);
                Taken::Failed
            }
        }
    }
}

/// A sink over a writer. It doesn't tell its bytes, and counts its failures, up to the greatest u64. A writer that takes
/// nothing failed.
#[derive(Drop)]
pub struct StdSink<W> {
    writer: W,
    faults: u64,
}

impl<W: Write> StdSink<W> {
    /// A sink with no failure so far.
    pub fn new(writer: W) -> StdSink<W> {
        StdSink { writer, faults: 0 }
    }

    /// How many calls failed.
    pub fn faults(&self) -> u64
        ensures { result ≡ self.now.faults }
    {
        self.faults
    }

    /// Writes what the writer kept, and says whether it could.
    pub fn flush(&mut self) -> bool {
        self.writer.flush().is_ok()
    }
}

impl<W: Write> Sink for StdSink<W> {
    ghost held = { λ _. None };

    ghost faults = { λ s. s.faults };

    ghost spare = { λ _. 18446744073709551615 };

    fn ready(&mut self, _n: usize) -> Result<(), Memory> {
        Ok(())
    }

    fn put(&mut self, piece: &[u8]) -> Given {
        match self.writer.write(piece) {
            Ok(n) => {
                if n == 0 {
                    self.faults = self.faults.saturating_add(1);
                    Given::Failed
                } else {
                    Given::Bytes(n)
                }
            }
            Err(_) => {
                self.faults = self.faults.saturating_add(1);
                Given::Failed
            }
        }
    }
}
