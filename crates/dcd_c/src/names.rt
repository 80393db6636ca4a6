//! The names of statuses, return codes and faults of heads, in the caller's room.

ghost use Rattle.dcd_c.specs.Words.{PutsName, PutsWords, code_word, fault_word, status_word};
ghost use Rattle.std.specs.Prelude.{◌≡◌};

use crate::faults::Fault;
use dcd_base::{put_byte, put_bytes};

/// Puts the words and a NUL at the start of the room, and answers how many bytes the words have.
pub(crate) fn put_words(words: &[u8], room: &mut [u8]) -> Result<u64, Fault>
    ensures { PutsWords words.now room.old room.new result }
{
    if words.len() >= room.len() {
        return Err(Fault::NoRoom(words.len() as u64));
    }
    put_bytes(room, 0, words);
    put_byte(room, words.len(), 0);
    Ok(words.len() as u64)
}

/// Puts a name in the same way. What has no bytes is no name.
pub(crate) fn put_name(name: &[u8], room: &mut [u8]) -> Result<u64, Fault>
    ensures { PutsName name.now room.old room.new result }
{
    if name.is_empty() {
        return Err(Fault::NoName);
    }
    put_words(name, room)
}

/// The name of a status. It has no bytes where the number has no name.
#[tactic(auto, unfolding(crate::specs::Words::status_word))]
pub(crate) fn status_name(number: u32) -> &'static [u8]
    ensures { result.now ≡ status_word number }
{
    match number {
        0 => b"DCD_OK".as_slice(),
        1 => b"DCD_NO_MEMORY".as_slice(),
        2 => b"DCD_CLOSED".as_slice(),
        3 => b"DCD_OPENED".as_slice(),
        4 => b"DCD_BAD_HEAD".as_slice(),
        5 => b"DCD_NO_ACTOR".as_slice(),
        6 => b"DCD_SHORT_MESSAGE".as_slice(),
        7 => b"DCD_NO_REQUEST".as_slice(),
        8 => b"DCD_WRONG_LENGTH".as_slice(),
        9 => b"DCD_NO_ROOM".as_slice(),
        10 => b"DCD_MISALIGNED".as_slice(),
        11 => b"DCD_OUTSIDE_REGIONS".as_slice(),
        12 => b"DCD_NOT_GRANTED".as_slice(),
        13 => b"DCD_BAD_SIZE".as_slice(),
        14 => b"DCD_BAD_COUNT".as_slice(),
        15 => b"DCD_NO_NAME".as_slice(),
        _ => b"".as_slice(),
    }
}

/// The name of a return code (CXL 3.1, 8.2.8.4.5.1). It has no bytes where the number has no name.
#[tactic(auto, unfolding(crate::specs::Words::code_word))]
pub(crate) fn code_name(number: u16) -> &'static [u8]
    ensures { result.now ≡ code_word number }
{
    match number {
        0x0 => b"Success".as_slice(),
        0x2 => b"Invalid Input".as_slice(),
        0x3 => b"Unsupported".as_slice(),
        0x5 => b"Retry Required".as_slice(),
        0xe => b"Invalid Handle".as_slice(),
        0xf => b"Invalid Physical Address".as_slice(),
        0x16 => b"Invalid Payload Length".as_slice(),
        0x1d => b"Resources Exhausted".as_slice(),
        0x1e => b"Invalid Extent List".as_slice(),
        _ => b"".as_slice(),
    }
}

/// The name of a fault of heads. It has no bytes where the number has no name.
#[tactic(auto, unfolding(crate::specs::Words::fault_word))]
pub(crate) fn fault_name(number: u32) -> &'static [u8]
    ensures { result.now ≡ fault_word number }
{
    match number {
        1 => b"BadMagic".as_slice(),
        2 => b"BadVersion".as_slice(),
        3 => b"BadConfig".as_slice(),
        4 => b"Truncated".as_slice(),
        5 => b"UnknownKind".as_slice(),
        6 => b"UnknownActor".as_slice(),
        7 => b"BadMessage".as_slice(),
        8 => b"TooLong".as_slice(),
        9 => b"AfterEnd".as_slice(),
        10 => b"TooManyLines".as_slice(),
        11 => b"NoMemory".as_slice(),
        12 => b"BadLanes".as_slice(),
        _ => b"".as_slice(),
    }
}
