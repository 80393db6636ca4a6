//! How many bytes a script has.

ghost use Rattle.dcd_base.specs.Layouts.{spelling};
ghost use Rattle.text_lines.specs.script_codec.specs.Scripts.{script_head, line_fields};
ghost use Rattle.text_lines.specs.script_codec.specs.Writing.{script_bytes};
ghost use Rattle.std.specs.List.{flat_map};
ghost use Rattle.std.specs.Prelude.{◌≡◌, ◌+◌, ◌*◌, ◌<◌, ◌^◌, length, min, nat_le};

use journal_core::Act;
use text_lines::script_codec::{Line, Script};

/// The most bytes of a script.
const MOST_BYTES: u64 = 16_777_216;

/// The bytes of a line.
fn size_of_line(line: &Line) -> u64
    ensures value { result ≡ length (spelling (line_fields line.now)) }
    ensures small { result < 2 ^ 63 + 32 }
{
    match line {
        Line::Do { act, .. } => match act {
            Act::Command(request) => 16 + request.payload.as_slice().len() as u64,
            Act::Load(_) => 10,
            Act::Store(_, _) => 18,
            Act::Scrub(_) => 3,
        },
        Line::Mark => 1,
    }
}

/// The bytes of the head.
fn size_of_head(script: &Script) -> u64
    requires { length script.now.config.bases ≡ script.now.config.hosts * length script.now.config.regions }
    ensures value { result ≡ length (spelling (script_head script.now)) }
    ensures small { result < 2 ^ 16 }
{
    let regions = u64::from(script.config.regions());
    let hosts = u64::from(script.config.hosts());
    16 + 40 * regions + 8 * hosts * regions
}

/// The bytes of lines, up to 2^64 - 1.
fn size_of_lines(lines: &[Line]) -> u64
    ensures { result ≡ min (length (spelling (flat_map line_fields lines.now))) 18446744073709551615 }
{
    let mut size = 0u64;
    for line in lines {
        size = size.saturating_add(size_of_line(line));
    }
    size
}

/// Whether a script is short enough to be written.
pub fn is_short(script: &Script) -> bool
    requires { length script.now.config.bases ≡ script.now.config.hosts * length script.now.config.regions }
    ensures { result ≡ nat_le (length (script_bytes script.now)) 16777216 }
{
    size_of_lines(script.lines.as_slice()) <= MOST_BYTES - 1 - size_of_head(script)
}
