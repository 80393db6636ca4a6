//! Which pass does a line, and which lines have an entry.

ghost use Rattle.script_codec.specs.Covering.{is_line, pass_of as pass_number};
ghost use Rattle.std.specs.Prelude.{◌≡◌, count_by};

use crate::script_line::Line;
use cci_codec::dcd_base::Actor;

/// The number of the pass that does the actor's lines of a lane: passes are numbered host by host and lane by
/// lane, then comes the Fabric Manager, then the sanitizer.
pub fn pass_of(hosts: u8, lanes: u8, actor: &Actor, lane: u8) -> u32
    ensures { result ≡ pass_number hosts lanes actor.now lane }
{
    match actor {
        Actor::Host(host) => u32::from(host.0) * u32::from(lanes) + u32::from(lane),
        Actor::Manager => u32::from(hosts) * u32::from(lanes),
        Actor::Sanitizer => u32::from(hosts) * u32::from(lanes) + 1,
    }
}

/// How many entries the journal of a run of these lines has: one for each line that is no mark.
pub fn entries_of(lines: &[Line]) -> usize
    ensures { result ≡ count_by is_line lines.now }
{
    lines
        .iter()
        .filter(|line| match line {
            Line::Do { .. } => true,
            Line::Mark => false,
        })
        .count()
}
