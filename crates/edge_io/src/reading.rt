//! A source read to its end.

ghost use Rattle.edge_io.specs.ReadEnds.{Ends, TakesAtMost};
ghost use Rattle.std.specs.Prelude.{◌≡◌, ◌+◌, ◌-◌, ◌<◌, ◌≤◌, ◌^◌, [], IfSome};

use dcd_base::{Bytes, Failed, NoMemory, Source};
use std::alloc::Global;

/// Why not all that was left in a source is there.
#[derive(Clone, Copy, Debug, PartialEq, Eq)]
pub enum ReadEnd {
    /// More bytes were left than asked for.
    TooLong,
    /// A read failed.
    ReadFault,
    /// Memory was wanted and not to be had.
    NoMemory,
}

/// How many bytes a read may give.
const PIECE: usize = 16_384;

/// For how many bytes there is room at first: so much is a mapping of its own, which grows without a copy.
const ROOM: usize = 262_144;

/// No bytes, with room for the first of them.
fn roomy(alloc: Global) -> Option<Bytes>
    ensures { IfSome result (λ bytes. bytes ≡ []) }
{
    match Bytes::with_capacity(alloc, ROOM) {
        Ok(bytes) => Some(bytes),
        Err(NoMemory) => None,
    }
}

/// Reads all that is left in the source, where it is at most `most` bytes.
///
/// Where more is left, one byte more than `most` is taken, and the answer is `TooLong`. The first failed read ends the
/// reading. Each turn of the loop before the last takes at least one byte.
pub fn read_all<S: Source>(alloc: Global, source: &mut S, most: usize) -> Result<Bytes, ReadEnd>
    requires { most < 2 ^ 64 - 1 }
    ensures ends { Ends most (S.left source.old) (S.left source.new) (S.faults source.old) (S.faults source.new) result }
    ensures takes { TakesAtMost (most + 1) (S.left source.old) (S.left source.new) }
    ensures never_falls { S.faults source.old ≤ S.faults source.new }
{
    let mut bytes = match roomy(alloc) {
        Some(bytes) => bytes,
        None => return Err(ReadEnd::NoMemory),
    };
    let mut buf = [0u8; PIECE];
    while bytes.len() <= most {
        let room = PIECE.min(most - bytes.len() + 1);
        let n = match source.read(&mut buf[..room]) {
            Ok(n) => n,
            Err(Failed) => return Err(ReadEnd::ReadFault),
        };
        if n == 0 {
            return Ok(bytes);
        }
        if bytes.extend_from_slice(&buf[..n]).is_err() {
            return Err(ReadEnd::NoMemory);
        }
    }
    Err(ReadEnd::TooLong)
}
