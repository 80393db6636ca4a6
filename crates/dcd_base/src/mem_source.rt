//! Sources in memory.

ghost use Rattle.dcd_base.specs.Ends.{IsRead};
ghost use Rattle.dcd_base.specs.Streams.{HasRisen, IsAtEnd, with_front};
ghost use Rattle.std.specs.Prelude.{◌≡◌, ◌+◌, ◌<◌, ◌≤◌, IfOk, IsOk, OnErr, Some, drop, length, min, take};

use crate::failures::Failed;
use crate::reading::Source;
use crate::sequence::Bytes;
use std::marker::Model;

/// A source over bytes in memory that fails at chosen calls, for tests.
///
/// Contracts see the bytes that are left, how many it gives a call at the most, the numbers of the calls that
/// fail, how many calls there were and how many failed. Both counts stay at 2^64 - 1.
#[derive(Debug, Drop)]
pub struct MemSource {
    bytes: Bytes,
    at: usize,
    most: usize,
    fails: Vec<u64>,
    calls: u64,
    faults: u64,
}

impl Model for MemSource {
    ghost use Rattle.dcd_base.specs.Ends.{Given};
    ghost use Rattle.std.specs.Prelude.{◌<◌, ◌≤◌, drop, length};

    ghost Value = { Given };

    ghost view = { λ s. record {
      left = drop s.at s.bytes;
      most = s.most;
      fails = s.fails.items;
      calls = s.calls;
      faults = s.faults;
    } };

    ghost invariant = { λ s. (s.at ≤ length s.bytes) × (0 < s.most) };
}

impl MemSource {
    /// Gives `most` bytes a call at the most, from 1, and fails exactly at the calls numbered in `fails`,
    /// counted from 1.
    pub fn new(bytes: Bytes, most: usize, fails: Vec<u64>) -> MemSource
        requires { 0 < most }
        ensures { result ≡ record { left = bytes; most = most; fails = fails.items; calls = 0; faults = 0 } }
    {
        MemSource {
            bytes,
            at: 0,
            most,
            fails,
            calls: 0,
            faults: 0,
        }
    }
}

impl Source for MemSource {
    ghost left = { λ s. Some s.left };

    ghost faults = { λ s. s.faults };

    /// Fails exactly at the numbered calls, or else gives as many bytes as it may.
    #[tactic(auto, using(crate::proofs::Parts::parts))]
    fn read(&mut self, buf: &mut [u8]) -> Result<usize, Failed>
        requires { 0 < length buf.old }
        ensures is { IsRead self.old self.new buf.new result }
        ensures count { IfOk result (λ n. n ≤ length buf.old) }
        ensures given { IfOk result (λ n. Some self.old.left ≡ with_front (take n buf.new) (Some self.new.left)) }
        ensures end { IfOk result (λ n. n ≡ 0 → IsAtEnd (Some self.new.left)) }
        ensures kept { OnErr result (Some self.new.left ≡ Some self.old.left) }
        ensures failed { OnErr result (HasRisen self.old.faults self.new.faults) }
        ensures never_falls { self.old.faults ≤ self.new.faults }
    {
        self.calls = self.calls.saturating_add(1);
        if self.fails.contains(&self.calls) {
            self.faults = self.faults.saturating_add(1);
            return Err(Failed);
        }
        let n = give(self.bytes.as_slice(), self.at, self.most, buf);
        self.at += n;
        Ok(n)
    }
}

/// A source over bytes in memory that never fails.
#[derive(Debug, Drop)]
pub struct SoundSource {
    bytes: Bytes,
    at: usize,
}

impl Model for SoundSource {
    ghost use Rattle.std.specs.Prelude.{◌≤◌, List, drop, length, ℕ};

    ghost Value = { List ℕ };

    ghost view = { λ s. drop s.at s.bytes };

    ghost invariant = { λ s. s.at ≤ length s.bytes };
}

impl SoundSource {
    pub fn new(bytes: Bytes) -> SoundSource
        ensures { result ≡ bytes }
    {
        SoundSource { bytes, at: 0 }
    }
}

impl Source for SoundSource {
    ghost left = { λ s. Some s };

    ghost faults = { λ _. 0 };

    /// Gives as many of the bytes that are left as the buffer takes, and never fails.
    #[tactic(auto, using(crate::proofs::Parts::parts))]
    fn read(&mut self, buf: &mut [u8]) -> Result<usize, Failed>
        requires { 0 < length buf.old }
        ensures sound { IsOk result }
        ensures most { IfOk result (λ n. n ≡ min (length buf.old) (length self.old)) }
        ensures count { IfOk result (λ n. n ≤ length buf.old) }
        ensures given { IfOk result (λ n. Some self.old ≡ with_front (take n buf.new) (Some self.new)) }
        ensures end { IfOk result (λ n. n ≡ 0 → IsAtEnd (Some self.new)) }
        ensures kept { OnErr result (Some self.new ≡ Some self.old) }
        ensures failed { OnErr result (HasRisen 0 0) }
        ensures never_falls { 0 ≤ 0 }
    {
        let most = buf.len();
        let n = give(self.bytes.as_slice(), self.at, most, buf);
        self.at += n;
        Ok(n)
    }
}

/// Copies up to `most` of the bytes from `at` on into the front of the buffer, and answers how many.
fn give(bytes: &[u8], at: usize, most: usize, buf: &mut [u8]) -> usize
    requires { at ≤ length bytes.now }
    ensures share { result ≡ min most (min (length buf.old) (length (drop at bytes.now))) }
    ensures within { at + result ≤ length bytes.now }
    ensures given { take result buf.new ≡ take result (drop at bytes.now) }
{
    let (_, rest) = bytes.split_at(at);
    let n = most.min(buf.len().min(rest.len()));
    let (piece, _) = rest.split_at(n);
    let (front, _) = buf.split_at_mut(n);
    front.copy_from_slice(piece);
    n
}
