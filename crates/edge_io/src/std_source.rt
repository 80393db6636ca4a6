//! Standard input as a source. It tells nothing of its content.

ghost use Rattle.dcd_base.specs.Streams.{HasRisen, IsAtEnd, with_front};
ghost use Rattle.edge_io.specs.Untold.{told_nothing};
ghost use Rattle.std.specs.Io.KnownBytes.{ReadConsumes};
ghost use Rattle.std.specs.Io.{ReadsAtMost};
ghost use Rattle.std.specs.IoError.{error_kind};
ghost use Rattle.std.specs.Prelude.{◌≡◌, ◌≢◌, ◌<◌, ◌≤◌, IfErr, IfOk, IfSome, IsSome, None, OnErr, OnOk, length, take};

use crate::interruptions::{is_interrupted, tried_in_vain};
use dcd_base::{Failed, Source};
use std::io::{self, Error, ErrorKind, Read};

/// A reader with a count of its failed reads, and why the last of them failed.
#[derive(Drop)]
pub struct StdSource<R: Read + Drop> {
    reader: R,
    faults: u64,
    error: Option<Error>,
}

impl<R: Read + Drop> StdSource<R> {
    /// The reader with no fault counted.
    pub fn new(reader: R) -> StdSource<R>
        ensures faults { result.faults ≡ 0 }
        ensures error { result.error ≡ None }
    {
        StdSource {
            reader,
            faults: 0,
            error: None,
        }
    }

    /// Why the last failed read failed, with the system's own words. `None` where none failed.
    pub fn error(&self) -> Option<Error>
        ensures { result ≡ self.now.error }
    {
        self.error
    }
}

impl<R: Read + Drop> Source for StdSource<R> {
    ghost left = { λ _. told_nothing };

    ghost faults = { λ s. s.faults };

    /// One read of the reader, tried again as often as a signal interrupts it. What it gives and takes is what the
    /// reader tells of itself (`consumed`). Why it failed is kept, and is no interruption.
    fn read(&mut self, buf: &mut [u8]) -> Result<usize, Failed>
        requires { 0 < length buf.old }
        ensures count { IfOk result (λ n. n ≤ length buf.old) }
        ensures given { IfOk result (λ n. told_nothing ≡ with_front (take n buf.new) told_nothing) }
        ensures end { IfOk result (λ n. n ≡ 0 → IsAtEnd told_nothing) }
        ensures kept { OnErr result (told_nothing ≡ told_nothing) }
        ensures failed { OnErr result (HasRisen self.old.faults self.new.faults) }
        ensures never_falls { self.old.faults ≤ self.new.faults }
        ensures consumed { ReadConsumes (R.remaining self.old.reader) (R.remaining self.new.reader) result buf.new }
        ensures told { OnErr result (IsSome self.new.error) }
        ensures retried { OnErr result (IfSome self.new.error (λ e. error_kind e ≢ ErrorKind.Interrupted)) }
        ensures same { OnOk result ((self.new.faults ≡ self.old.faults) × (self.new.error ≡ self.old.error)) }
    {
        match read_again(&mut self.reader, buf) {
            Ok(n) => Ok(n),
            Err(error) => {
                self.faults = self.faults.saturating_add(1);
                self.error = Some(error);
                Err(Failed)
            }
        }
    }
}

/// One read, tried again as often as a signal interrupts it.
fn read_again<R: Read>(reader: &mut R, buf: &mut [u8]) -> io::Result<usize>
    ensures bound { ReadsAtMost result buf.new }
    ensures consumed { ReadConsumes (R.remaining reader.old) (R.remaining reader.new) result buf.new }
    ensures retried { IfErr result (λ e. error_kind e ≢ ErrorKind.Interrupted) }
{
    for _ in 0..u64::MAX {
        match reader.read(buf) {
            Ok(n) => return Ok(n),
            Err(error) => {
                if !is_interrupted(&error) {
                    return Err(error);
                }
            }
        }
    }
    Err(tried_in_vain())
}
