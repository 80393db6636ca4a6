//! A script out of its bytes.

ghost use Rattle.script_codec.specs.Fields.{GivesField};
ghost use Rattle.script_codec.specs.Reading.{IsScriptRead, IsReadAs};
ghost use Rattle.script_codec.specs.Scripts.{ReadsScript};
ghost use Rattle.script_codec.specs.Writing.{IsWritable};
ghost use Rattle.script_codec.specs.declared.scripts.Script.{Script};
ghost use Rattle.std.specs.Prelude.{◌≡◌, ◌≤◌, [], IfOk, OnOk, length};

use crate::faults::ScriptFault;
use crate::reader::Reader;
use crate::script_line::Lines;
use crate::scripts::Script;
use std::alloc::Global;

/// Puts the lines that are still to come into the empty list.
fn lines_of(reader: &mut Reader<'_>, lines: &mut Lines) -> Result<(), ScriptFault>
    requires { lines.old ≡ [] }
    ensures value { GivesField (λ _. lines.new) result reader.old.rest }
    ensures few { length lines.new ≤ reader.old.left }
{
    while let Some(line) = reader.next()? {
        lines.push(line)?;
    }
    Ok(())
}

/// The script that the bytes are, or their first fault.
fn script_of(alloc: Global, bytes: &[u8]) -> Result<Script, ScriptFault>
    ensures cases { IsScriptRead bytes.now result }
    ensures few { IfOk result (λ script. length script.lines ≤ 65536) }
    ensures short { OnOk result (length bytes.now ≤ 16777216) }
{
    let (head, mut reader) = Reader::begin(alloc, bytes)?;
    let mut lines = Lines::new(alloc);
    lines_of(&mut reader, &mut lines)?;
    Ok(Script {
        version: head.version,
        lanes: head.lanes,
        config: head.config,
        lines,
    })
}

/// The script that the bytes are, or their first fault. Reserved bytes and bits may be anything.
///
/// The fields are read in order; a field that lacks bytes is `Truncated` whatever bytes it has. `NoMemory` may
/// come in place of any answer.
pub fn read(alloc: Global, bytes: &[u8]) -> Result<Script, ScriptFault>
    ensures cases { IsScriptRead bytes.now result }
    ensures reads { IfOk result (λ script. ReadsScript bytes.now script) }
    ensures only { (script : Script) → ReadsScript bytes.now script → IsReadAs script result }
    ensures writable { IfOk result (λ script. IsWritable script) }
    ensures count { IfOk result (λ script. length script.lines ≤ 65536) }
    ensures short { OnOk result (length bytes.now ≤ 16777216) }
{
    script_of(alloc, bytes)
}
