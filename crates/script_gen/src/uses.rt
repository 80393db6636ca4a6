//! What a host does with its extent in a round.

ghost use Rattle.dcd_base.specs.declared.steps.Actor.{Actor};
ghost use Rattle.script_codec.specs.declared.script_line.Line.{Line};
ghost use Rattle.script_gen.specs.Drawing.{access_by, accesses_by, draws_after, use_by, uses_by};
ghost use Rattle.script_gen.specs.Generated.{place};
ghost use Rattle.std.specs.Prelude.{◌≡◌, ◌++◌, ◌<◌, OnOk};

use crate::commands::{clear, take};
use crate::draws::Draws;
use crate::putting::append_line;
use crate::settings::{HOSTS, share};
use dcd_base::{Actor, HostId, NoMemory};
use journal_core::Act;
use script_codec::Line;

/// How many words a host stores and loads in a round.
const WORDS: u8 = 16;

/// How many words of 8 bytes an extent of eight blocks has.
const EXTENT_WORDS: u64 = 0x1000_0000;

/// The DPA of the word that a draw names in the host's extent of the round.
fn place(round: u16, host: HostId, draw: u64) -> u64
    requires { host < 4 }
    ensures { result ≡ place round host draw }
{
    share(round, host).start + 8 * (draw % EXTENT_WORDS)
}

/// The line of a host's load or store.
fn host_does(host: HostId, act: Act) -> Line
    ensures { result ≡ Line.Do (Actor.Host host) 0 act }
{
    Line::Do {
        actor: Actor::Host(host),
        lane: 0,
        act,
    }
}

/// A store and a load of one word: one draw says which word, the next which value.
#[tactic(auto, unfolding(crate::specs::Generated::access_lines, crate::specs::Drawing::draws_after))]
fn append_access(
    round: u16,
    host: HostId,
    draws: &mut Draws,
    lines: &mut Vec<Line>,
) -> Result<(), NoMemory>
    requires { host < 4 }
    ensures lines { OnOk result (lines.new.items ≡ lines.old.items ++ access_by round host draws.old) }
    ensures draws { OnOk result (draws.new ≡ draws_after draws.old 2) }
{
    let dpa = place(round, host, draws.draw());
    let value = draws.draw();
    append_line(lines, host_does(host, Act::Store(dpa, value)))?;
    append_line(lines, host_does(host, Act::Load(dpa)))
}

fn append_accesses(
    round: u16,
    host: HostId,
    draws: &mut Draws,
    lines: &mut Vec<Line>,
) -> Result<(), NoMemory>
    requires { host < 4 }
    ensures lines { OnOk result (lines.new.items ≡ lines.old.items ++ accesses_by round host draws.old 16) }
    ensures draws { OnOk result (draws.new ≡ draws_after draws.old 32) }
{
    for word in 0..WORDS {
        append_access(round, host, draws, lines)?;
    }
    Ok(())
}

/// The host takes its extent, clears the record, and stores and loads words.
#[tactic(auto, unfolding(crate::specs::Drawing::use_by))]
fn append_use(
    round: u16,
    host: HostId,
    draws: &mut Draws,
    lines: &mut Vec<Line>,
) -> Result<(), NoMemory>
    requires host { host < 4 }
    requires round { round < 256 }
    ensures lines { OnOk result (lines.new.items ≡ lines.old.items ++ use_by round host draws.old) }
    ensures draws { OnOk result (draws.new ≡ draws_after draws.old 32) }
{
    let alloc = *lines.allocator();
    append_line(lines, take(alloc, round, host)?)?;
    append_line(lines, clear(alloc, round, host)?)?;
    append_accesses(round, host, draws, lines)
}

/// Each host does so.
pub fn append_uses(round: u16, draws: &mut Draws, lines: &mut Vec<Line>) -> Result<(), NoMemory>
    requires { round < 256 }
    ensures lines { OnOk result (lines.new.items ≡ lines.old.items ++ uses_by round draws.old 4) }
    ensures draws { OnOk result (draws.new ≡ draws_after draws.old 128) }
{
    for host in 0..HOSTS {
        append_use(round, HostId(host), draws, lines)?;
    }
    Ok(())
}
