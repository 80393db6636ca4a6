//! A line at the end of others.

ghost use Rattle.std.specs.Prelude.{◌≡◌, ◌++◌, [], ◌∷◌, OnOk};

use dcd_base::NoMemory;
use script_codec::Line;

/// Puts a line at the end. It is made in its place where there is room, as there mostly is.
#[inline(always)]
pub fn append_line(lines: &mut Vec<Line>, line: Line) -> Result<(), NoMemory>
    ensures { OnOk result (lines.new.items ≡ lines.old.items ++ line ∷ []) }
{
    lines.reserve(1)?;
    lines.push_reserved(line);
    Ok(())
}
