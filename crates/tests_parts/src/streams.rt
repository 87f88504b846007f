//! Streams (`outside`): failing readers and writers are reported.

use outside::all::{ReadStop, read_all, write_all};
use outside::sink::{Sink, Took};
use outside::source::{Got, Source};
use outside::standard::{StdSink, StdSource};
use std::io;
use std::io::{ErrorKind, Read, Write};
use std::test::Fail;

// A reader that gives one byte at each call, fails at its second call, and is at its end at its
// fifth.
#[derive(Drop)]
struct FailingReader {
    calls: u8,
}

impl Read for FailingReader {
    fn read(&mut self, buf: &mut [u8]) -> io::Result<usize> {
        self.calls = self.calls.saturating_add(1);
        match (self.calls, buf) {
            (2, _) => Err(io::Error::from(ErrorKind::TimedOut)),
            (1..=4, [first, ..]) => {
                *first = self.calls;
                Ok(1)
            }
            _ => Ok(0),
        }
    }
}

// A writer that fails at its second call, takes nothing at its third, and otherwise at most two
// bytes.
#[derive(Drop)]
struct FailingWriter {
    calls: u8,
}

impl Write for FailingWriter {
    fn write(&mut self, bytes: &[u8]) -> io::Result<usize> {
        self.calls = self.calls.saturating_add(1);
        match self.calls {
            2 => Err(io::Error::from(ErrorKind::TimedOut)),
            3 => Ok(0),
            _ => Ok(bytes.len().min(2)),
        }
    }

    fn flush(&mut self) -> io::Result<()> {
        Ok(())
    }
}

#[test]
fn a_reader_that_fails_is_not_at_its_end(rt: HostRuntime) -> Result<(), Fail> {
    let mut source = StdSource::new(FailingReader { calls: 0 });
    for (got, byte) in [
        (Got::Part(1), 1),
        (Got::Failed, 0),
        (Got::Part(1), 3),
        (Got::Part(1), 4),
        (Got::End, 0),
    ] {
        let mut buf = [0u8; 2];
        assert_eq!(rt; source.read(&mut buf), got);
        assert_eq!(rt; buf[0], byte);
    }
    let mut source = StdSource::new(FailingReader { calls: 0 });
    assert!(rt; matches!(read_all(rt.alloc(), &mut source, 9), Err(ReadStop::Fault)));
    Ok(())
}

#[test]
fn a_writer_that_fails_or_takes_nothing_took_nothing(rt: HostRuntime) {
    let mut sink = StdSink::new(FailingWriter { calls: 0 });
    for took in [Took::Part(2), Took::Failed, Took::Failed, Took::Part(2)] {
        assert_eq!(rt; sink.write(b"abc"), took);
    }
    for calls in [1, 2] {
        let mut sink = StdSink::new(FailingWriter { calls });
        assert!(rt; write_all(&mut sink, b"abc").is_err());
    }
}
