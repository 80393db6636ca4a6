//! What is to be done, as the words of the command line say it.

use dcd_base::Actor;

/// 1 MiB, a granule.
const M: u64 = 0x10_0000;

/// How many hosts there are, and how many shards.
pub const HOSTS: u8 = 16;

/// Which device does it.
#[derive(Clone, Copy)]
pub enum Which {
    /// The one that threads share, with a thread for each pass that works.
    Shared,
    /// The one that takes one step after another.
    Serial,
}

/// What is done.
#[derive(Clone, Copy)]
pub enum Kind {
    /// Host 0 stores and loads a word.
    One,
    /// Each host stores and loads a word of its own, each of another shard.
    Apart,
    /// Each host stores and loads a word of its own, all of one shard.
    Together,
    /// The manager reads an empty event log (0100h).
    Manager,
    /// Each host and the manager read an empty event log.
    All,
}

/// What is done, and how many steps everybody who works takes.
#[derive(Clone, Copy)]
pub struct Job {
    pub kind: Kind,
    pub steps: u32,
}

impl Kind {
    /// What the word means.
    pub fn of_word(word: &str) -> Option<Kind> {
        match word {
            "one" => Some(Kind::One),
            "apart" => Some(Kind::Apart),
            "together" => Some(Kind::Together),
            "manager" => Some(Kind::Manager),
            "all" => Some(Kind::All),
            _ => None,
        }
    }

    /// Whether the actor works.
    pub fn has(self, actor: &Actor) -> bool {
        match self {
            Kind::One => match actor {
                Actor::Host(host) => host.0 == 0,
                _ => false,
            },
            Kind::Apart | Kind::Together => matches!(actor, Actor::Host(_)),
            Kind::Manager => matches!(actor, Actor::Manager),
            Kind::All => !matches!(actor, Actor::Sanitizer),
        }
    }

    /// Whether what is done are loads and stores.
    pub fn accesses(self) -> bool {
        matches!(self, Kind::One | Kind::Apart | Kind::Together)
    }

    /// How many work.
    pub fn workers(self) -> u32 {
        match self {
            Kind::One | Kind::Manager => 1,
            Kind::Apart | Kind::Together => u32::from(HOSTS),
            Kind::All => u32::from(HOSTS) + 1,
        }
    }

    /// The granule that the host has: every sixteenth is of one shard.
    pub fn granule(self, host: u8) -> u8 {
        match self {
            Kind::Together => host % HOSTS * 16,
            _ => host,
        }
    }

    /// The address of its first word, which is the same for each host.
    pub fn address(self, host: u8) -> u64 {
        u64::from(self.granule(host)) * M
    }
}
