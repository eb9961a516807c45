//! The standard devices over a reader and a writer of a test.

use call_base::{StdSink, StdSource};
use lb_base::{Given, Sink, Source, Taken};
use std::io;
use std::io::{Read, Write};

/// Moves a byte at its first call, and fails at the others.
#[derive(Drop)]
struct OneByte(bool);

impl Read for OneByte {
    fn read(&mut self, buf: &mut [u8]) -> io::Result<usize> {
        if self.0 {
            return Err(io::Error::from(io::ErrorKind::BrokenPipe));
        }
        if buf.is_empty() {
            return Ok(0);
        }
        buf[0] = b'x';
        self.0 = true;
        Ok(1)
    }
}

impl Write for OneByte {
    fn write(&mut self, buf: &[u8]) -> io::Result<usize> {
        if self.0 {
            return Err(io::Error::from(io::ErrorKind::BrokenPipe));
        }
        self.0 = true;
        Ok(buf.len().min(1))
    }

    fn flush(&mut self) -> io::Result<()> {
        Ok(())
    }
}

#[test]
fn a_read_and_a_write_pass_on_and_a_failure_counts(rt: HostRuntime) {
    let mut piece = [0u8; 2];
    let mut source = StdSource::new(OneByte(false));
    assert_eq!(rt; source.take(&mut piece), Taken::Bytes(1));
    assert_eq!(rt; piece[0], b'x');
    assert_eq!(rt; source.take(&mut piece), Taken::Failed);
    assert_eq!(rt; source.faults(), 1);
    let mut sink = StdSink::new(OneByte(false));
    assert_eq!(rt; sink.put(b"xy"), Given::Bytes(1));
    assert_eq!(rt; sink.put(b"xy"), Given::Failed);
    assert_eq!(rt; sink.faults(), 1);
}
