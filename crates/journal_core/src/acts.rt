//! What an actor does and what it is told.

ghost use Rattle.journal_core.specs.Entries.{fits as fits_of};
ghost use Rattle.std.specs.Prelude.{◌≡◌, IfOk};

use cci_codec::dcd_base::{AccessFault, Actor, NoMemory};
use cci_codec::{Request, Response};

/// What an actor does in one step.
#[derive(Debug, Drop)]
pub enum Act {
    /// A command to the device: a mailbox command of a host, or a command of the Fabric Manager.
    Command(Request),
    /// Reads the 64-bit word at a device physical address (DPA) of the host.
    Load(u64),
    /// Writes a 64-bit word: the DPA, then the value.
    Store(u64, u64),
    /// A turn of the sanitizer: it zeroes at most so many dirty granules.
    Scrub(u16),
}

/// What the device replies to an act.
#[derive(Debug, Drop)]
pub enum Reply {
    /// The response to a command.
    Answer(Response),
    /// The word that a load read.
    Word(u64),
    /// A store was done.
    Stored,
    /// A load or a store was refused.
    Refused(AccessFault),
    /// How many granules a scrub zeroed.
    Scrubbed(u32),
}

impl Act {
    /// An equal act. Only a command takes memory, for its payload.
    pub fn copy(&self) -> Result<Act, NoMemory>
        ensures { IfOk result (λ copy. copy ≡ self.now) }
    {
        match self {
            Act::Command(request) => Ok(Act::Command(request.copy()?)),
            Act::Load(dpa) => Ok(Act::Load(*dpa)),
            Act::Store(dpa, value) => Ok(Act::Store(*dpa, *value)),
            Act::Scrub(most) => Ok(Act::Scrub(*most)),
        }
    }
}

impl Reply {
    /// An equal reply. Only a response takes memory, for its payload.
    pub fn copy(&self) -> Result<Reply, NoMemory>
        ensures { IfOk result (λ copy. copy ≡ self.now) }
    {
        match self {
            Reply::Answer(response) => Ok(Reply::Answer(response.copy()?)),
            Reply::Word(word) => Ok(Reply::Word(*word)),
            Reply::Stored => Ok(Reply::Stored),
            Reply::Refused(fault) => Ok(Reply::Refused(*fault)),
            Reply::Scrubbed(count) => Ok(Reply::Scrubbed(*count)),
        }
    }
}

/// Whether the actor may do the act on a device of so many hosts: hosts below the count command, load and
/// store, the Fabric Manager commands, and the sanitizer scrubs.
pub fn fits(hosts: u8, actor: &Actor, act: &Act) -> bool
    ensures { result ≡ fits_of hosts actor.now act.now }
{
    match (actor, act) {
        (Actor::Host(host), Act::Command(_) | Act::Load(_) | Act::Store(_, _)) => host.0 < hosts,
        (Actor::Manager, Act::Command(_)) => true,
        (Actor::Sanitizer, Act::Scrub(_)) => true,
        _ => false,
    }
}
