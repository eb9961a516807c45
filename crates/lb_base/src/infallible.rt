//! A source and a sink in memory that never fail.

ghost use Rattle.std.specs.Prelude.{◌≡◌, [], Some};

use crate::devices::{Given, Sink, Source, Taken};
use crate::mem_source::copy_next;
use crate::memory::Memory;
use std::alloc::Global;
use std::marker::Model;

/// A source in memory that never fails, which contracts see as the bytes still to come.
#[derive(Debug, Drop)]
pub struct SureSource {
    bytes: Vec<u8>,
    at: usize,
}

impl Model for SureSource {
    ghost use Rattle.std.specs.Prelude.{ℕ, List, ◌≤◌, drop, vec_len};

    ghost Value = { List ℕ };

    ghost view = { λ s. drop s.at s.bytes.items };

    ghost invariant = { λ s. s.at ≤ vec_len s.bytes };
}

impl SureSource {
    /// A source of these bytes.
    pub fn new(bytes: Vec<u8>) -> SureSource
        ensures { result ≡ bytes.items }
    {
        SureSource { bytes, at: 0 }
    }
}

impl Source for SureSource {
    ghost left = { λ s. Some s };

    ghost faults = { λ _. 0 };

    fn take(&mut self, into: &mut [u8]) -> Taken {
        let n = copy_next(&self.bytes, self.at, into);
        self.at += n;
        Taken::Bytes(n)
    }
}

/// A sink in memory that never fails, which contracts see as the bytes taken so far and how many more fit without memory.
#[derive(Debug, Drop)]
pub struct SureSink {
    bytes: Vec<u8>,
}

impl Model for SureSink {
    ghost use Rattle.std.specs.Prelude.{ℕ, List, ◌-◌, vec_len, vec_capacity};

    ghost Value = { List ℕ × ℕ };

    ghost view = { λ s. (s.bytes.items, vec_capacity s.bytes - vec_len s.bytes) };
}

impl SureSink {
    /// A sink that holds nothing yet.
    pub fn new(alloc: Global) -> SureSink
        ensures { result.0 ≡ [] }
    {
        SureSink {
            bytes: Vec::new(alloc),
        }
    }

    /// The bytes taken so far.
    pub fn bytes(&self) -> &[u8]
        ensures { result.now ≡ self.now.0 }
    {
        &self.bytes
    }
}

impl Sink for SureSink {
    ghost held = { λ s. Some s.0 };

    ghost faults = { λ _. 0 };

    ghost spare = { λ s. s.1 };

    fn ready(&mut self, n: usize) -> Result<(), Memory> {
        self.bytes.reserve(n)?;
        Ok(())
    }

    fn put(&mut self, piece: &[u8]) -> Given {
        self.bytes.extend_from_slice(piece).unwrap();
        Given::Bytes(piece.len())
    }
}
