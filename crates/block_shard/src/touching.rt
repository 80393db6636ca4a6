//! Which shards a command or a scrub touches.

ghost use Rattle.shard_laws.specs.Belonging.{has_own as has_own_granule, touches_own as touches_own_granule, touches_shard};
ghost use Rattle.std.specs.Prelude.{◌≡◌, ◌<◌};

use crate::numbers::own_below;
use dcd_base::Run;
use journal_core::{Effect, Entry};

/// Whether one of the entry's effects gives, takes or zeroes a granule of the shard.
pub fn touches(entry: &Entry, index: u32) -> bool
    requires { index < 16 }
    ensures { result ≡ touches_shard index entry.now }
{
    let mut left = entry.effects.as_slice();
    while let Some((effect, rest)) = left.split_first() {
        if touches_own(effect, index) {
            return true;
        }
        left = rest;
    }
    false
}

fn touches_own(effect: &Effect, index: u32) -> bool
    requires { index < 16 }
    ensures { result ≡ touches_own_granule index effect.now }
{
    match effect {
        Effect::Take(_, run) => has_own(run, index),
        Effect::Leave(_, run) => has_own(run, index),
        Effect::Zero(run) => has_own(run, index),
        _ => false,
    }
}

/// Whether the run has a granule of the shard.
fn has_own(run: &Run, index: u32) -> bool
    requires { index < 16 }
    ensures { result ≡ has_own_granule index run.now }
{
    let first = u64::from(run.first.0);
    own_below(index, first) < own_below(index, first + u64::from(run.count))
}
