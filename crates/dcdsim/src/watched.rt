//! A source whose script is watched for its lines.

use crate::line_starts::LineStarts;
use dcd_base::{Failed, Source};
use std::alloc::Global;

/// A source, and where the lines of the script begin that was read of it. To read from it is to read from the source.
#[derive(Drop)]
pub(crate) struct Watched<S: Source + Drop> {
    source: S,
    lines: LineStarts,
}

impl<S: Source + Drop> Watched<S> {
    /// The source, of which nothing was read so far.
    pub(crate) fn new(alloc: Global, source: S) -> Watched<S> {
        Watched {
            source,
            lines: LineStarts::new(alloc),
        }
    }

    /// The source.
    pub(crate) fn source(&self) -> &S {
        &self.source
    }

    /// The number of the line that has the place.
    pub(crate) fn line_at(&self, place: u64) -> Option<u32> {
        self.lines.line_at(place)
    }
}

impl<S: Source + Drop> Source for Watched<S> {
    ghost left = { λ s. S.left s.source };

    ghost faults = { λ s. S.faults s.source };

    fn read(&mut self, buf: &mut [u8]) -> Result<usize, Failed> {
        match self.source.read(buf) {
            Ok(n) => {
                self.lines.pass(&buf[..n]);
                Ok(n)
            }
            Err(Failed) => Err(Failed),
        }
    }
}
