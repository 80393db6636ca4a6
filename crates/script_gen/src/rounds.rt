//! The lines of a round.

ghost use Rattle.script_codec.specs.declared.script_line.Line.{Line};
ghost use Rattle.script_gen.specs.Drawing.{draws_after, round_by, rounds_by};
ghost use Rattle.script_gen.specs.Generated.{end_lines, give_back_lines, offers_lines};
ghost use Rattle.std.specs.Prelude.{◌≡◌, ◌++◌, [], ◌∷◌, ◌<◌, OnOk};

use crate::commands::{give_back, offer};
use crate::draws::Draws;
use crate::putting::append_line;
use crate::settings::HOSTS;
use crate::uses::append_uses;
use dcd_base::{Actor, HostId, NoMemory};
use journal_core::Act;
use script_codec::Line;

/// How many rounds there are.
pub const ROUNDS: u16 = 256;

/// The round after which nothing is given back.
const LAST: u16 = 255;

/// How many granules a turn of the sanitizer zeroes at most: those of one round.
const ROUND_GRANULES: u16 = 32;

/// A mark: all of the phase is done before the next begins.
fn end_phase(lines: &mut Vec<Line>) -> Result<(), NoMemory>
    ensures { OnOk result (lines.new.items ≡ lines.old.items ++ Line.Mark ∷ []) }
{
    append_line(lines, Line::Mark)
}

/// The Fabric Manager offers each host its extent.
fn append_offers(round: u16, lines: &mut Vec<Line>) -> Result<(), NoMemory>
    ensures { OnOk result (lines.new.items ≡ lines.old.items ++ offers_lines round) }
{
    let alloc = *lines.allocator();
    for host in 0..HOSTS {
        append_line(lines, offer(alloc, round, HostId(host))?)?;
    }
    Ok(())
}

/// Each host gives its extent back.
fn append_give_backs(round: u16, lines: &mut Vec<Line>) -> Result<(), NoMemory>
    ensures { OnOk result (lines.new.items ≡ lines.old.items ++ give_back_lines round) }
{
    let alloc = *lines.allocator();
    for host in 0..HOSTS {
        append_line(lines, give_back(alloc, round, HostId(host))?)?;
    }
    Ok(())
}

/// What the hosts give back is zeroed.
#[tactic(auto, unfolding(crate::specs::Generated::end_lines))]
fn append_end(round: u16, lines: &mut Vec<Line>) -> Result<(), NoMemory>
    requires { round < 255 }
    ensures { OnOk result (lines.new.items ≡ lines.old.items ++ end_lines round) }
{
    append_give_backs(round, lines)?;
    end_phase(lines)?;
    append_line(
        lines,
        Line::Do {
            actor: Actor::Sanitizer,
            lane: 0,
            act: Act::Scrub(ROUND_GRANULES),
        },
    )?;
    end_phase(lines)
}

/// The end of a round; the last round has none.
#[tactic(auto, unfolding(crate::specs::Generated::end_lines))]
fn append_end_or_none(round: u16, lines: &mut Vec<Line>) -> Result<(), NoMemory>
    ensures { OnOk result (lines.new.items ≡ lines.old.items ++ end_lines round) }
{
    if round < LAST {
        append_end(round, lines)
    } else {
        Ok(())
    }
}

/// A round.
#[tactic(auto, unfolding(crate::specs::Drawing::round_by))]
pub fn append_round(round: u16, draws: &mut Draws, lines: &mut Vec<Line>) -> Result<(), NoMemory>
    requires { round < 256 }
    ensures lines { OnOk result (lines.new.items ≡ lines.old.items ++ round_by round draws.old) }
    ensures draws { OnOk result (draws.new ≡ draws_after draws.old 128) }
{
    append_offers(round, lines)?;
    end_phase(lines)?;
    append_uses(round, draws, lines)?;
    end_phase(lines)?;
    append_end_or_none(round, lines)
}

/// All rounds.
pub fn append_rounds(draws: &mut Draws, lines: &mut Vec<Line>) -> Result<(), NoMemory>
    ensures { OnOk result (lines.new.items ≡ lines.old.items ++ rounds_by draws.old 256) }
{
    for round in 0..ROUNDS {
        append_round(round, draws, lines)?;
    }
    Ok(())
}
