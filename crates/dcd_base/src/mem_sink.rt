//! A sink in memory.

ghost use Rattle.dcd_base.specs.Ends.{IsWrite};
ghost use Rattle.dcd_base.specs.Streams.{HasRisen, taken_after};
ghost use Rattle.std.specs.Prelude.{◌≡◌, ◌<◌, ◌≤◌, [], IfOk, OnErr, Some, length, take};

use crate::failures::Failed;
use crate::sequence::Bytes;
use crate::writing::Sink;
use std::alloc::Global;
use std::marker::Model;

/// A sink that keeps what it takes, and fails at chosen calls, for tests.
///
/// Contracts see what it took, how many bytes it takes a call at the most, the numbers of the calls that fail,
/// how many calls there were, how many failed, and at how many of those memory to grow was refused, which happens
/// only at calls that are not among the numbered ones. The counts stay at 2^64 - 1.
#[derive(Debug, Drop)]
pub struct MemSink {
    bytes: Bytes,
    most: usize,
    fails: Vec<u64>,
    calls: u64,
    faults: u64,
    refused: u64,
}

impl Model for MemSink {
    ghost use Rattle.dcd_base.specs.Ends.{Taken};
    ghost use Rattle.std.specs.Prelude.{◌<◌};

    ghost Value = { Taken };

    ghost view = { λ s. record { bytes = s.bytes; most = s.most; fails = s.fails.items; calls = s.calls; faults = s.faults; refused = s.refused } };

    ghost invariant = { λ s. 0 < s.most };
}

impl MemSink {
    /// Takes `most` bytes a call at the most, from 1, and fails exactly at the calls numbered in `fails`, counted
    /// from 1, and where it cannot grow.
    pub fn new(alloc: Global, most: usize, fails: Vec<u64>) -> MemSink
        requires { 0 < most }
        ensures { result ≡ record { bytes = []; most = most; fails = fails.items; calls = 0; faults = 0; refused = 0 } }
    {
        MemSink {
            bytes: Bytes::new(alloc),
            most,
            fails,
            calls: 0,
            faults: 0,
            refused: 0,
        }
    }

    /// At how many calls memory to grow was refused.
    pub fn refused(&self) -> u64
        ensures { result ≡ self.now.refused }
    {
        self.refused
    }

    /// What it took.
    pub fn taken(&self) -> &Bytes
        ensures { result.now ≡ self.now.bytes }
    {
        &self.bytes
    }
}

impl Sink for MemSink {
    ghost taken = { λ s. Some s.bytes };

    ghost faults = { λ s. s.faults };

    /// Takes as many bytes as it may. It fails at the numbered calls, and at another only where memory to grow is
    /// refused; both count as faults, the second apart too.
    fn write(&mut self, piece: &[u8]) -> Result<usize, Failed>
        requires { 0 < length piece.now }
        ensures is { IsWrite self.old self.new piece.now result }
        ensures some { IfOk result (λ n. 0 < n) }
        ensures count { IfOk result (λ n. n ≤ length piece.now) }
        ensures taken { IfOk result (λ n. Some self.new.bytes ≡ taken_after (take n piece.now) (Some self.old.bytes)) }
        ensures kept { OnErr result (Some self.new.bytes ≡ Some self.old.bytes) }
        ensures failed { OnErr result (HasRisen self.old.faults self.new.faults) }
        ensures never_falls { self.old.faults ≤ self.new.faults }
    {
        self.calls = self.calls.saturating_add(1);
        let (front, _) = piece.split_at(self.most.min(piece.len()));
        if self.fails.contains(&self.calls) {
            self.faults = self.faults.saturating_add(1);
            return Err(Failed);
        }
        if self.bytes.extend_from_slice(front).is_err() {
            self.faults = self.faults.saturating_add(1);
            self.refused = self.refused.saturating_add(1);
            return Err(Failed);
        }
        Ok(front.len())
    }
}
