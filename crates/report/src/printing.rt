//! The printer: it gathers bytes into pieces and hands each full piece to a sink.

ghost use Rattle.hex.specs.Hex.{encode_lower};
ghost use Rattle.report.specs.Printing.{piece_length, with_bytes, Puts};
ghost use Rattle.std.specs.Prelude.{◌≡◌, ◌+◌, ◌≤◌, [], IfSome, None, OnErr, OnOk, Some, decimal, length};

use dcd_base::{Failed, Sink, put_bytes, write_all};
use hex::encode_to_slice;
use itoa::Buffer;
use std::marker::Model;

/// How many bytes a piece has; the last piece of a text may have fewer.
const PIECE: usize = 4096;

/// How many bytes become digits at a time.
const PART: usize = 64;

/// Gathers bytes into pieces of 4,096 and hands them to a sink. After a write that failed it drops all that is put.
///
/// Contracts see the bytes that wait, or none where a write failed.
#[derive(Drop)]
pub struct Printer {
    buffer: [u8; PIECE],
    len: usize,
    failed: bool,
}

impl Model for Printer {
    ghost use Rattle.report.specs.Printing.{piece_length};
    ghost use Rattle.std.specs.Prelude.{◌≤◌, None, Option, List, Some, if◌then◌else◌, take, ℕ};

    ghost Value = { Option (List ℕ) };

    ghost view = { λ p. if p.failed then None else Some (take p.len p.buffer) };

    ghost invariant = { λ p. p.len ≤ piece_length };
}

impl Printer {
    /// A printer in which nothing waits.
    pub fn new() -> Printer
        ensures { result ≡ Some [] }
    {
        Printer {
            buffer: [0; PIECE],
            len: 0,
            failed: false,
        }
    }

    /// Hands what waits to the sink. What a write leaves of the piece is handed in next.
    #[tactic(auto, using(crate::proofs::Parts::prints_nothing, crate::proofs::Parts::prints_sent, crate::proofs::Parts::prints_cut))]
    fn send<K: Sink>(&mut self, sink: &mut K)
        ensures prints { Puts K.taken K.faults sink.old self.old sink.new self.new [] }
        ensures sent { IfSome self.new (λ waits. waits ≡ []) }
    {
        if self.failed {
            return;
        }
        let (piece, _) = self.buffer.split_at(self.len);
        match write_all(sink, piece) {
            Ok(()) => self.len = 0,
            Err(Failed) => self.failed = true,
        }
    }

    /// Lets bytes wait.
    fn store(&mut self, bytes: &[u8])
        requires { IfSome self.old (λ waits. length waits + length bytes.now ≤ piece_length) }
        ensures { self.new ≡ with_bytes bytes.now self.old }
    {
        if !self.failed {
            put_bytes(&mut self.buffer, self.len, bytes);
            self.len += bytes.len();
        }
    }

    /// Puts bytes, at most as many as a piece has.
    #[tactic(auto, using(crate::proofs::Parts::prints_waiting))]
    pub fn put<K: Sink>(&mut self, sink: &mut K, bytes: &[u8])
        requires { length bytes.now ≤ piece_length }
        ensures { Puts K.taken K.faults sink.old self.old sink.new self.new bytes.now }
    {
        let room = PIECE - self.len;
        if bytes.len() <= room {
            self.store(bytes);
        } else {
            let (front, rest) = bytes.split_at(room);
            self.store(front);
            self.send(sink);
            self.store(rest);
        }
    }

    /// Puts the digits of bytes.
    pub fn write_hex<K: Sink>(&mut self, sink: &mut K, bytes: &[u8])
        ensures { Puts K.taken K.faults sink.old self.old sink.new self.new (encode_lower bytes.now) }
    {
        for part in bytes.chunks(PART) {
            self.write_digits(sink, part);
        }
    }

    /// Puts the digits of at most 64 bytes.
    fn write_digits<K: Sink>(&mut self, sink: &mut K, bytes: &[u8])
        requires { length bytes.now ≤ 64 }
        ensures { Puts K.taken K.faults sink.old self.old sink.new self.new (encode_lower bytes.now) }
    {
        let mut buffer = [0u8; 2 * PART];
        let (digits, _) = buffer.split_at_mut(2 * bytes.len());
        encode_to_slice(bytes, digits).unwrap();
        self.put(sink, digits);
    }

    /// Puts a number in decimal digits, without leading zeros.
    pub fn write_number<K: Sink>(&mut self, sink: &mut K, number: u64)
        ensures { Puts K.taken K.faults sink.old self.old sink.new self.new (decimal number) }
    {
        let mut digits = Buffer::new();
        self.put(sink, digits.format(number).as_bytes());
    }

    /// Hands in what still waits. It fails where this write or one before failed.
    pub fn finish<K: Sink>(mut self, sink: &mut K) -> Result<(), Failed>
        ensures whole { OnOk result (Puts K.taken K.faults sink.old self sink.new (Some []) []) }
        ensures failed { OnErr result (Puts K.taken K.faults sink.old self sink.new None []) }
    {
        self.send(sink);
        if self.failed { Err(Failed) } else { Ok(()) }
    }
}
