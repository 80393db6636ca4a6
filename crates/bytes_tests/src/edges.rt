//! Standard input as a source and standard output as a sink, over a stream that signals interrupt.

use crate::seeing::see;
use dcd_base::{Failed, Sink, Source};
use edge_io::{StdSink, StdSource};
use std::io::{self, Error, ErrorKind, Read, Write};

/// A stream of which each odd call is interrupted, and the sixth fails. It gives its bytes, and takes one byte and then
/// none.
#[derive(Drop)]
struct Restless {
    calls: u32,
    bytes: &'static [u8],
}

/// A stream of one byte.
fn one_byte() -> Restless {
    Restless {
        calls: 0,
        bytes: b"t",
    }
}

impl Restless {
    /// Counts a call, and says whether it fails.
    fn call(&mut self) -> io::Result<()> {
        self.calls = self.calls.saturating_add(1);
        match self.calls {
            2 | 4 => Ok(()),
            6 => Err(Error::from(ErrorKind::PermissionDenied)),
            _ => Err(Error::from(ErrorKind::Interrupted)),
        }
    }
}

impl Read for Restless {
    fn read(&mut self, buf: &mut [u8]) -> io::Result<usize> {
        match self.call() {
            Ok(()) => self.bytes.read(buf),
            Err(error) => Err(error),
        }
    }
}

impl Write for Restless {
    fn write(&mut self, buf: &[u8]) -> io::Result<usize> {
        match self.call() {
            Ok(()) if self.calls == 2 => Ok(buf.len().min(1)),
            Ok(()) => Ok(0),
            Err(error) => Err(error),
        }
    }

    fn flush(&mut self) -> io::Result<()> {
        Ok(())
    }
}

/// What kind of error is kept.
fn kind_of(error: Option<Error>) -> Option<ErrorKind> {
    match error {
        Some(error) => Some(error.kind()),
        None => None,
    }
}

/// What a read gives, and what kind of error is kept then.
fn read(source: &mut StdSource<Restless>) -> (Result<usize, Failed>, Option<ErrorKind>) {
    let mut buf = [0u8; 4];
    (source.read(&mut buf), kind_of(source.error()))
}

#[test]
fn an_interrupted_read_is_tried_again(rt: HostRuntime) {
    let mut source = StdSource::new(one_byte());
    let denied = Some(ErrorKind::PermissionDenied);
    see(&rt, &read(&mut source), &(Ok(1), None));
    see(&rt, &read(&mut source), &(Ok(0), None));
    see(&rt, &read(&mut source), &(Err(Failed), denied));
}

/// What a write gives, and what kind of error is kept then.
fn write(sink: &mut StdSink<Restless>) -> (Result<usize, Failed>, Option<ErrorKind>) {
    (sink.write(b"text"), kind_of(sink.error()))
}

#[test]
fn an_interrupted_write_is_tried_again(rt: HostRuntime) {
    let mut sink = StdSink::new(one_byte());
    let denied = Some(ErrorKind::PermissionDenied);
    see(&rt, &write(&mut sink), &(Ok(1), None));
    see(
        &rt,
        &write(&mut sink),
        &(Err(Failed), Some(ErrorKind::WriteZero)),
    );
    see(&rt, &write(&mut sink), &(Err(Failed), denied));
}
