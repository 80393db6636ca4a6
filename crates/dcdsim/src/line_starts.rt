//! Where the lines of a script begin.

ghost use Rattle.std.specs.Prelude.{◌<◌, length};

use std::alloc::Global;

/// The places of the lines of a script, noted while its bytes go by. The bytes between are not looked at, and no fault
/// of the script is.
#[derive(Drop)]
pub(crate) struct LineStarts {
    /// The place of the kind byte of each line so far.
    starts: Vec<u32>,
    /// How many bytes went by.
    passed: u32,
    /// The place of the byte that is looked at next.
    next: u32,
    /// What that byte is.
    byte: LengthByte,
    /// Whether memory was wanting to note a line.
    lost: bool,
}

/// The bytes that say how far it is to the next line.
#[derive(Clone, Copy, PartialEq, Eq)]
enum LengthByte {
    /// The number of hosts.
    Hosts,
    /// The number of regions, behind that of the hosts.
    Regions(u8),
    /// The kind of a line, or the end word.
    Kind,
    /// The low byte of a message's length.
    Low,
    /// The high byte of a message's length, behind the low one.
    High(u8),
    /// No byte: the lines are at their end.
    Nothing,
}

/// The kind of a line that is a command, whose length it tells.
const COMMAND: u8 = 1;

/// The place of the number of hosts.
const HOSTS_AT: u32 = 8;

impl LineStarts {
    /// The places before any byte.
    pub(crate) fn new(alloc: Global) -> LineStarts {
        LineStarts {
            starts: Vec::new(alloc),
            passed: 0,
            next: HOSTS_AT,
            byte: LengthByte::Hosts,
            lost: false,
        }
    }

    /// Lets the bytes that come next go by.
    pub(crate) fn pass(&mut self, piece: &[u8]) {
        for _ in 0..piece.len() {
            self.note_whole(piece);
            match piece.get(self.next.saturating_sub(self.passed) as usize) {
                Some(byte) => self.look_at(*byte),
                None => break,
            }
        }
        let count = u32::try_from(piece.len()).unwrap_or(u32::MAX);
        self.passed = self.passed.saturating_add(count);
    }

    /// Notes line after line, as long as the bytes that say how long the next one is lie in the piece.
    fn note_whole(&mut self, piece: &[u8]) {
        if self.byte != LengthByte::Kind {
            return;
        }
        let mut at = self.next.saturating_sub(self.passed) as usize;
        for _ in 0..piece.len() {
            match line_length(piece, at) {
                Some(length) => {
                    self.note();
                    self.next = self.next.saturating_add(length);
                    at = at.saturating_add(length as usize);
                }
                None => break,
            }
        }
    }

    /// Notes that a line begins at the next place.
    #[inline(always)]
    fn note(&mut self) {
        if self.starts.push(self.next).is_err() {
            self.lost = true;
        }
    }

    /// The number of the line that has the place, from 1. A place where the next line was to begin is that line's. `None`
    /// where no line has it, or where memory was wanting.
    pub(crate) fn line_at(&self, place: u64) -> Option<u32> {
        let begun = self
            .starts
            .iter()
            .filter(|start| u64::from(**start) <= place)
            .count();
        let begins = self.byte == LengthByte::Kind && u64::from(self.next) == place;
        let line = if begins {
            begun.saturating_add(1)
        } else {
            begun
        };
        if self.lost || line == 0 {
            None
        } else {
            u32::try_from(line).ok()
        }
    }

    /// Looks at the byte at the next place.
    fn look_at(&mut self, byte: u8) {
        let (skipped, following) = match self.byte {
            LengthByte::Hosts => (1, LengthByte::Regions(byte)),
            LengthByte::Regions(hosts) => (behind_regions(hosts, byte), LengthByte::Kind),
            LengthByte::Kind => self.begin_line(byte),
            LengthByte::Low => (1, LengthByte::High(byte)),
            LengthByte::High(low) => {
                (1 + u32::from(low) + 256 * u32::from(byte), LengthByte::Kind)
            }
            LengthByte::Nothing => (u32::MAX, LengthByte::Nothing),
        };
        self.next = self.next.saturating_add(skipped);
        self.byte = following;
    }

    /// Notes a line that begins with this kind, and answers how far it is to what is looked at next.
    fn begin_line(&mut self, kind: u8) -> (u32, LengthByte) {
        if kind == 0 {
            return (u32::MAX, LengthByte::Nothing);
        }
        self.note();
        match (kind, fixed_length(kind)) {
            (COMMAND, _) => (2, LengthByte::Low),
            (_, Some(length)) => (length, LengthByte::Kind),
            (_, None) => (u32::MAX, LengthByte::Nothing),
        }
    }
}

/// How many bytes a line of a kind has that is no command: a load, a store, a turn of the sanitizer, or a mark. `None` of any other kind.
#[inline(always)]
fn fixed_length(kind: u8) -> Option<u32> {
    match kind {
        2 => Some(10),
        3 => Some(18),
        4 => Some(3),
        5 => Some(1),
        _ => None,
    }
}

/// How long the line is whose kind is at the place, where the bytes that say so lie in the piece.
#[inline(always)]
fn line_length(piece: &[u8], at: usize) -> Option<u32> {
    match *piece.get(at)? {
        COMMAND => command_length(piece, at),
        kind => fixed_length(kind),
    }
}

/// How long the command is whose kind is at the place, where the length of its message lies in the piece.
#[inline(always)]
fn command_length(piece: &[u8], at: usize) -> Option<u32>
    requires { at < length piece.now }
{
    let low = piece.get(at + 2)?;
    let high = piece.get(at + 3)?;
    Some(4 + u32::from(*low) + 256 * u32::from(*high))
}

/// How far it is from the number of regions, at 9, to the first line: 6 bytes, the regions of 40 bytes, and their bases.
fn behind_regions(hosts: u8, regions: u8) -> u32 {
    let bases = u32::from(hosts).saturating_mul(u32::from(regions));
    bases
        .saturating_mul(8)
        .saturating_add(7 + 40 * u32::from(regions))
}
