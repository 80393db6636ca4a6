//! A script line by line, whose bytes are let go as it is read.

ghost use Rattle.script_codec.specs.LineByLine.{HasBegun, IsRead};
ghost use Rattle.std.specs.Prelude.{◌≡◌, ◌+◌, ◌≤◌, ◌-◌, drop, length, take};

use crate::faults::ScriptFault;
use crate::heads::Head;
use crate::reader::{MOST_LINES, begin_at, read_at};
use crate::script_line::Line;
use cci_codec::dcd_base::Bytes;
use std::alloc::Global;
use std::marker::Model;
use std::mem;

/// How many bytes are let go at a time at least.
const AT_ONCE: usize = 65_536;

/// What is still to come of a script whose bytes are the reader's own: each line is read when it is asked for, and each time
/// that half of the bytes are read, that half is let go.
///
/// Contracts see how many lines may still come, and those that come or their first fault.
#[derive(Drop)]
pub struct OwnReader {
    alloc: Global,
    hosts: u8,
    lanes: u8,
    /// How many bytes were let go.
    before: u64,
    /// Those that were not.
    bytes: Bytes,
    /// Where the next line begins among them.
    place: usize,
    /// How many lines may still come.
    left: u32,
}

impl Model for OwnReader {
    ghost use Rattle.script_codec.specs.Lines.{lines_from};
    ghost use Rattle.script_codec.specs.Moving.{moved};
    ghost use Rattle.script_codec.specs.Unread.{Unread};
    ghost use Rattle.std.specs.Prelude.{◌+◌, ◌≤◌, length};

    ghost Value = { Unread };

    ghost view = { λ r. record {
      hosts = r.hosts;
      lanes = r.lanes;
      left = r.left;
      rest = moved r.before (lines_from r.left r.hosts r.lanes r.bytes r.place);
    } };

    ghost invariant = { λ r. (r.place ≤ length r.bytes) × (r.before + length r.bytes ≤ 16777216) };
}

impl OwnReader {
    /// Reads the head of the script, and answers it with the reader of its lines, as `Reader::begin` does.
    pub fn begin(alloc: Global, bytes: Bytes) -> Result<(Head, OwnReader), ScriptFault>
        ensures { HasBegun bytes result }
    {
        let (head, place) = begin_at(alloc, bytes.as_slice())?;
        let hosts = head.config.hosts();
        let lanes = head.lanes;
        let reader = OwnReader {
            alloc,
            hosts,
            lanes,
            before: 0,
            bytes,
            place,
            left: MOST_LINES,
        };
        Ok((head, reader))
    }

    /// Reads the next line into this one, as `Reader::next` reads it, and answers whether there was one; or the fault that
    /// comes first. A command that the line was leaves its memory to the next one.
    ///
    /// Behind the last line and at a fault the line may be any.
    pub fn read(&mut self, line: &mut Line) -> Result<bool, ScriptFault>
        ensures next { IsRead self.old self.new line.new result }
        ensures hosts { self.new.hosts ≡ self.old.hosts }
        ensures lanes { self.new.lanes ≡ self.old.lanes }
    {
        self.let_go();
        match read_at(
            self.alloc,
            self.left,
            self.hosts,
            self.lanes,
            self.bytes.as_slice(),
            self.place,
            line,
        ) {
            Ok(Some(place)) => {
                self.place = place;
                self.left -= 1;
                Ok(true)
            }
            Ok(None) => Ok(false),
            Err(fault) => Err(fault.moved(self.before)),
        }
    }

    /// Lets go of the bytes that are read, where they are half of all. Takes no memory.
    fn let_go(&mut self)
        ensures { self.new ≡ self.old }
    {
        let place = self.place;
        if place >= AT_ONCE && place >= self.bytes.len() - place {
            let bytes = mem::replace(&mut self.bytes, Bytes::new(self.alloc));
            self.before += place as u64;
            self.place = 0;
            self.bytes = behind(self.alloc, bytes, place);
        }
    }
}

/// The bytes behind a place, in their own memory, the rest of which goes back.
fn behind(alloc: Global, bytes: Bytes, place: usize) -> Bytes
    requires within { place ≤ length bytes }
    requires half { length bytes ≤ place + place }
    ensures { result ≡ drop place bytes }
{
    let mut bytes = bytes.into_vec();
    let rest = bytes.len() - place;
    move_to_front(bytes.as_mut_slice(), place);
    bytes.truncate(rest);
    bytes.shrink_to_fit();
    Bytes::from_vec(alloc, bytes)
}

/// Copies the bytes behind a place to the front.
fn move_to_front(bytes: &mut [u8], place: usize)
    requires within { place ≤ length bytes.old }
    requires half { length bytes.old ≤ place + place }
    ensures { take (length bytes.old - place) bytes.new ≡ drop place bytes.old }
{
    let (front, rest) = bytes.split_at_mut(place);
    front[..rest.len()].copy_from_slice(rest);
}
