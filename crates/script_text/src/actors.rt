//! Actors, printed.

ghost use Rattle.text_lines.specs.script_codec.specs.Scripts.{are_lanes};
ghost use Rattle.std.specs.Prelude.{◌≡◌, ◌++◌, [], ◌∷◌, IsTrue, OnOk};
ghost use Rattle.text_lines.specs.Actors.{actor_text, seat_text};
ghost use Rattle.text_lines.specs.Parts.{Part};
ghost use Rattle.script_text.specs.LinePrinting.{AddsParts, IsSmall, StartsLine, has_word};

use crate::words::write_h;
use dcd_base::{Actor, Bytes, NoMemory, fits_8};
use text_lines::{Frame, write_decimal};

/// Appends a host of the script, and its lane behind a dot in version 2.
fn write_seat(frame: Frame, host: u8, lane: u8, out: &mut Bytes) -> Result<(), NoMemory>
    ensures { OnOk result (out.new ≡ out.old ++ seat_text frame.version host lane) }
{
    write_h(host as u16, out)?;
    if frame.version != 2 {
        return Ok(());
    }
    out.push(b'.')?;
    write_decimal(lane as u64, out)
}

/// Appends an actor.
fn write_name(frame: Frame, actor: &Actor, lane: u8, out: &mut Bytes) -> Result<(), NoMemory>
    ensures { OnOk result (out.new ≡ out.old ++ actor_text frame.version actor.now lane) }
{
    match actor {
        Actor::Host(host) => write_seat(frame, host.0, lane, out),
        Actor::Manager => out.extend_from_slice(b"fm".as_slice()),
        Actor::Sanitizer => out.extend_from_slice(b"scrub".as_slice()),
    }
}

/// The numbers of an actor and a lane have eight bits.
fn law_seat(actor: &Actor, lane: u8)
    ensures { IsSmall actor.now lane }
{
    fits_8(lane);
    match actor {
        Actor::Host(host) => fits_8(host.0),
        Actor::Manager | Actor::Sanitizer => {}
    }
}

/// Begins a line with an actor.
pub fn begin_actor(frame: Frame, actor: &Actor, lane: u8, out: &mut Bytes) -> Result<(), NoMemory>
    requires lanes { IsTrue (are_lanes frame.version frame.lanes) }
    requires word { IsTrue (has_word frame actor.now lane) }
    ensures { OnOk result (StartsLine out.old out.new (Part.ActorOf frame actor.now lane)) }
{
    law_seat(actor, lane);
    write_name(frame, actor, lane, out)?;
    Ok(())
}

/// Appends an actor.
pub fn write_actor(frame: Frame, actor: &Actor, lane: u8, out: &mut Bytes) -> Result<(), NoMemory>
    requires lanes { IsTrue (are_lanes frame.version frame.lanes) }
    requires word { IsTrue (has_word frame actor.now lane) }
    ensures { OnOk result (AddsParts out.old out.new (Part.ActorOf frame actor.now lane ∷ [])) }
{
    law_seat(actor, lane);
    out.push(b' ')?;
    write_name(frame, actor, lane, out)?;
    Ok(())
}
