//! Standard output as a sink. It tells nothing of its content.

ghost use Rattle.dcd_base.specs.Streams.{HasRisen, taken_after};
ghost use Rattle.edge_io.specs.Untold.{told_nothing};
ghost use Rattle.std.specs.Io.KnownBytes.{WriteAppends};
ghost use Rattle.std.specs.Io.{WritesAtMost};
ghost use Rattle.std.specs.IoError.{error_kind};
ghost use Rattle.std.specs.Prelude.{◌≡◌, ◌≢◌, ◌<◌, ◌≤◌, IfErr, IfOk, IfSome, IsSome, None, OnErr, OnOk, length, take};

use crate::interruptions::{is_interrupted, tried_in_vain};
use dcd_base::{Failed, Sink};
use std::io::{self, Error, ErrorKind, Write};

/// A writer with a count of its failed writes, and why the last of them failed. Nothing is flushed: the writer is one
/// that keeps nothing back, as standard output is.
#[derive(Drop)]
pub struct StdSink<W: Write + Drop> {
    writer: W,
    faults: u64,
    error: Option<Error>,
}

impl<W: Write + Drop> StdSink<W> {
    /// The writer with no fault counted.
    pub fn new(writer: W) -> StdSink<W>
        ensures faults { result.faults ≡ 0 }
        ensures error { result.error ≡ None }
    {
        StdSink {
            writer,
            faults: 0,
            error: None,
        }
    }

    /// Why the last failed write failed, with the system's own words. `None` where none failed.
    pub fn error(&self) -> Option<Error>
        ensures { result ≡ self.now.error }
    {
        self.error
    }
}

impl<W: Write + Drop> Sink for StdSink<W> {
    ghost taken = { λ _. told_nothing };

    ghost faults = { λ s. s.faults };

    /// One write of the writer, tried again as often as a signal interrupts it. What it takes is what the writer tells
    /// of itself (`appended`), and to take nothing is a fault. Why it failed is kept, and is no interruption.
    fn write(&mut self, piece: &[u8]) -> Result<usize, Failed>
        requires { 0 < length piece.now }
        ensures some { IfOk result (λ n. 0 < n) }
        ensures count { IfOk result (λ n. n ≤ length piece.now) }
        ensures taken { IfOk result (λ n. told_nothing ≡ taken_after (take n piece.now) told_nothing) }
        ensures kept { OnErr result (told_nothing ≡ told_nothing) }
        ensures failed { OnErr result (HasRisen self.old.faults self.new.faults) }
        ensures never_falls { self.old.faults ≤ self.new.faults }
        ensures appended { WriteAppends (W.contents self.old.writer) (W.contents self.new.writer) result piece.now }
        ensures told { OnErr result (IsSome self.new.error) }
        ensures retried { OnErr result (IfSome self.new.error (λ e. error_kind e ≢ ErrorKind.Interrupted)) }
        ensures same { OnOk result ((self.new.faults ≡ self.old.faults) × (self.new.error ≡ self.old.error)) }
    {
        match write_again(&mut self.writer, piece) {
            Ok(n) => Ok(n),
            Err(error) => {
                self.faults = self.faults.saturating_add(1);
                self.error = Some(error);
                Err(Failed)
            }
        }
    }
}

/// One write, tried again as often as a signal interrupts it. To take nothing is an error.
#[tactic(auto, using(crate::proofs::Keeping::none_appended))]
fn write_again<W: Write>(writer: &mut W, piece: &[u8]) -> io::Result<usize>
    ensures some { IfOk result (λ n. 0 < n) }
    ensures bound { WritesAtMost result piece.now }
    ensures appended { WriteAppends (W.contents writer.old) (W.contents writer.new) result piece.now }
    ensures retried { IfErr result (λ e. error_kind e ≢ ErrorKind.Interrupted) }
{
    for _ in 0..u64::MAX {
        match writer.write(piece) {
            Ok(0) => return Err(nothing_taken()),
            Ok(n) => return Ok(n),
            Err(error) => {
                if !is_interrupted(&error) {
                    return Err(error);
                }
            }
        }
    }
    Err(tried_in_vain())
}

/// The error of a write that took nothing.
fn nothing_taken() -> Error
    ensures { error_kind result ≡ ErrorKind.WriteZero }
{
    Error::new(ErrorKind::WriteZero, "a write took nothing")
}
