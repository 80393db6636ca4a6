//! The script of a seed.

ghost use Rattle.script_codec.specs.Covering.{is_line};
ghost use Rattle.script_codec.specs.Writing.{IsWritable, has_short_message};
ghost use Rattle.script_codec.specs.Scripts.{is_sound_line};
ghost use Rattle.script_gen.specs.Generated.{generated, generated_lines};
ghost use Rattle.std.specs.List.{list_all};
ghost use Rattle.std.specs.Prelude.{◌≡◌, ◌≤◌, IfOk, IsTrue, count_by, length};

use crate::draws::Draws;
use crate::rounds::append_rounds;
use crate::settings::config;
use dcd_base::NoMemory;
use script_codec::{Lines, Script};
use std::alloc::Global;

/// How many lines the script has.
const LINES: usize = 38_137;

fn lines_of(alloc: Global, seed: u64) -> Result<Lines, NoMemory>
    ensures { IfOk result (λ lines. lines ≡ generated_lines seed) }
{
    let mut lines = Vec::with_capacity(alloc, LINES)?;
    let mut draws = Draws::new(seed);
    append_rounds(&mut draws, &mut lines)?;
    Ok(Lines::from_vec(alloc, lines))
}

/// The script of a seed: version 1, one lane, 38,137 lines, of which 37,115 are no marks.
///
/// All lines are acts that their actors may do, and the script can be written and read back. It is refused only
/// for want of memory.
#[tactic(auto, unfolding(crate::specs::Generated::generated), using(crate::proofs::Counting::length_is, crate::proofs::Counting::entries_are, crate::proofs::Sound::sound_lines, crate::proofs::Sound::short_messages))]
pub fn generate(alloc: Global, seed: u64) -> Result<Script, NoMemory>
    ensures same { IfOk result (λ script. script ≡ generated seed) }
    ensures writable { IfOk result (λ script. IsWritable script) }
    // Each act fits its actor, and each lane is 0.
    ensures sound { IfOk result
        (λ script. IsTrue (list_all (is_sound_line script.config.hosts script.lanes) script.lines)) }
    // No message has a payload of more than 65,523 bytes.
    ensures messages { IfOk result (λ script. IsTrue (list_all has_short_message script.lines)) }
    ensures few { IfOk result (λ script. length script.lines ≤ 65536) }
    ensures lines { IfOk result (λ script. length script.lines ≡ 38137) }
    ensures entries { IfOk result (λ script. count_by is_line script.lines ≡ 37115) }
{
    Ok(Script {
        version: 1,
        lanes: 1,
        config: config(alloc)?,
        lines: lines_of(alloc, seed)?,
    })
}
