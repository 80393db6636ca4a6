//! Who holds a granule after some effects.

ghost use Rattle.cci_codec.specs.dcd_base.specs.Words.{has_granule};
ghost use Rattle.journal_core.specs.Holders.{holding_after, holds as holds_of};
ghost use Rattle.std.specs.Prelude.{◌≡◌};

use crate::outcome::Effect;
use cci_codec::dcd_base::{Granule, HostId, Run};

fn has(run: &Run, granule: Granule) -> bool
    ensures { result ≡ has_granule run.now granule }
{
    run.first <= granule && granule.0 - run.first.0 < run.count
}

/// Whether the host holds the granule after one more effect.
fn after(host: HostId, granule: Granule, held: bool, effect: &Effect) -> bool
    ensures { result ≡ holding_after host granule held effect.now }
{
    match effect {
        Effect::Take(taker, run) => held || (*taker == host && has(run, granule)),
        Effect::Leave(leaver, run) => held && !(*leaver == host && has(run, granule)),
        _ => held,
    }
}

/// Whether the host holds the granule after these effects: the last `Take` or `Leave` of it by the host is a
/// `Take`.
pub fn holds(effects: &[Effect], host: HostId, granule: Granule) -> bool
    ensures { result ≡ holds_of host granule effects.now }
{
    let mut held = false;
    for effect in effects {
        held = after(host, granule, held, effect);
    }
    held
}
