//! A script line by line.

ghost use Rattle.script_codec.specs.Fields.{GivesField};
ghost use Rattle.script_codec.specs.LineByLine.{HasBegun, IsBegunAt, IsNext, IsReadAt};
ghost use Rattle.script_codec.specs.Lines.{end_from};
ghost use Rattle.script_codec.specs.Moving.{IsWithin};
ghost use Rattle.std.specs.Prelude.{◌≡◌, ◌≤◌, [], IfErr, IfOk, length};

use crate::faults::ScriptFault;
use crate::heads::{Head, head_at};
use crate::line_bytes::{fill_line, kind_at};
use crate::script_line::Line;
use std::alloc::Global;
use std::marker::Model;

/// The most bytes of a script.
pub const MOST_BYTES: usize = 16_777_216;

/// The most lines of a script.
pub(crate) const MOST_LINES: u32 = 65_536;

/// What is still to come of a script: each line is read when it is asked for.
///
/// Contracts see how many lines may still come, and those that come or their first fault.
#[derive(Drop)]
pub struct Reader<'a> {
    alloc: Global,
    hosts: u8,
    lanes: u8,
    bytes: &'a [u8],
    /// Where the next line begins.
    place: usize,
    /// How many lines may still come.
    left: u32,
}

impl<'a> Model for Reader<'a> {
    ghost use Rattle.std.specs.Prelude.{◌≤◌, length};
    ghost use Rattle.script_codec.specs.Lines.{lines_from};
    ghost use Rattle.script_codec.specs.Unread.{Unread};

    ghost Value = { Unread };

    ghost view = { λ r. record { hosts = r.hosts; lanes = r.lanes; left = r.left; rest = lines_from r.left r.hosts r.lanes r.bytes.now r.place } };

    ghost invariant = { λ r. r.place ≤ length r.bytes.now };
}

impl<'a> Reader<'a> {
    /// Reads the head of the script, and answers it with the reader of its lines; or the first fault of the bytes, where
    /// it comes before the lines. Reserved bytes and bits may be anything.
    ///
    /// `TooLong` is tried first. `NoMemory` may come in place of any answer.
    pub fn begin(alloc: Global, bytes: &'a [u8]) -> Result<(Head, Reader<'a>), ScriptFault>
        ensures { HasBegun bytes.now result }
    {
        let (head, place) = begin_at(alloc, bytes)?;
        let hosts = head.config.hosts();
        let lanes = head.lanes;
        let reader = Reader {
            alloc,
            hosts,
            lanes,
            bytes,
            place,
            left: MOST_LINES,
        };
        Ok((head, reader))
    }

    /// Reads the next line, or answers `None` behind the last one, or the fault that comes first. `NoMemory` may come in
    /// place of any answer.
    ///
    /// Only a line moves the reader on: a fault and the end leave it as it was.
    pub fn next(&mut self) -> Result<Option<Line>, ScriptFault>
        ensures next { IsNext self.old self.new result }
        ensures hosts { self.new.hosts ≡ self.old.hosts }
        ensures lanes { self.new.lanes ≡ self.old.lanes }
    {
        let mut line = Line::Mark;
        match read_at(
            self.alloc, self.left, self.hosts, self.lanes, self.bytes, self.place, &mut line,
        )? {
            Some(place) => {
                self.place = place;
                self.left -= 1;
                Ok(Some(line))
            }
            None => Ok(None),
        }
    }
}

/// The head of the script that the bytes are, and the place behind it, or the first fault of the bytes, where it comes
/// before the lines.
pub(crate) fn begin_at(alloc: Global, bytes: &[u8]) -> Result<(Head, usize), ScriptFault>
    ensures begun { IsBegunAt bytes.now result }
    ensures within { IfOk result (λ begun. begun.1 ≤ length bytes.now) }
{
    if bytes.len() > MOST_BYTES {
        return Err(ScriptFault::TooLong);
    }
    let (head, place) = head_at(alloc, bytes, 0)?;
    Ok((head, place))
}

/// That nothing stands behind the end word.
fn end_at(bytes: &[u8], at: usize) -> Result<(), ScriptFault>
    ensures value { GivesField (λ _. []) result (end_from bytes.now at) }
    ensures fault { IfErr result (IsWithin (length bytes.now)) }
{
    if at < bytes.len() {
        return Err(ScriptFault::AfterEnd(at as u64));
    }
    Ok(())
}

/// Reads the line that begins at the place, where at most so many may still come, and answers the place behind it, or `None`
/// where the script ends there. A command that the line was leaves its memory to the next; but for `Some` it may be any.
#[inline(always)]
pub(crate) fn read_at(
    alloc: Global,
    left: u32,
    hosts: u8,
    lanes: u8,
    bytes: &[u8],
    at: usize,
    line: &mut Line,
) -> Result<Option<usize>, ScriptFault>
    requires { at ≤ length bytes.now }
    ensures next { IsReadAt left hosts lanes bytes.now at line.new result }
    ensures fault { IfErr result (IsWithin (length bytes.now)) }
{
    let (kind, next) = kind_at(bytes, at)?;
    if kind == 0 {
        end_at(bytes, next)?;
        return Ok(None);
    }
    if left == 0 {
        return Err(ScriptFault::TooManyLines(at as u64));
    }
    let next = fill_line(alloc, kind, hosts, lanes, bytes, next, line)?;
    Ok(Some(next))
}
