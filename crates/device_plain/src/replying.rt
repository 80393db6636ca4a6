//! What a device with one host alone replies.

ghost use Rattle.extent_list.specs.HostLists.{extent_total};
ghost use Rattle.device_plain.specs.Alone.{IsFaultOf, TakesItem, solo_replies as solo_replies_of};
ghost use Rattle.device_plain.specs.Telling.{Replies};
ghost use Rattle.std.specs.Prelude.{◌≡◌, ◌<◌, ◌≤◌, IfErr, IfOk, OnOk};

use crate::alone::{Alone, Stop};
use dcd_base::{HostId, NoMemory};
use isolation_laws::{Item, SoloReplies};
use region_config::Config;
use std::alloc::Global;
use std::error::Error;
use std::fmt::{self, Display};

/// Why a device with one host alone does not reply.
#[derive(Clone, Copy, Debug, PartialEq, Eq)]
pub enum SoloFault {
    /// No legal journal brings the item at this index: after it the host would have more than 64 extents, accepted and
    /// offered, or more than 64 records in its log, or it takes an extent that ends at 2^64 or above.
    Unlawful(usize),
    NoMemory,
}

impl Display for SoloFault {
    fn fmt<W: fmt::Write>(&self, f: &mut fmt::Formatter<W>) -> fmt::Result {
        match self {
            SoloFault::Unlawful(index) => write!(f, "no legal journal brings item {index}"),
            SoloFault::NoMemory => f.write_str("out of memory"),
        }
    }
}

impl Error for SoloFault {}

impl From<NoMemory> for SoloFault {
    ghost use Rattle.device_plain.specs.declared.replying.SoloFault.TheVariants.{NoMemory as OutOfMemory};
    ghost use Rattle.std.specs.Prelude.{◌≡◌};

    ghost from_gives = { λ _ e. e ≡ OutOfMemory };

    fn from(_: NoMemory) -> SoloFault {
        SoloFault::NoMemory
    }
}

/// What a device with this host alone replies to each act among the items, after the items before it.
///
/// The device is as the configuration says and knows no other host. Its host is of the configuration. Nothing is said
/// exactly of granted loads in regions that hosts can share or that are not sanitized, and of scrubs, which are no acts of
/// a host.
pub fn solo_replies(
    alloc: Global,
    config: &Config,
    host: HostId,
    items: &[Item],
) -> Result<SoloReplies, SoloFault>
    requires { host < config.now.hosts }
    ensures replies { IfOk result (λ replies. replies ≡ solo_replies_of config.now host items.now) }
    ensures fault { IfErr result (IsFaultOf config.now host items.now) }
{
    let mut alone = Alone::new(alloc, config)?;
    let mut replies = SoloReplies::new(alloc);
    for i in 0..items.len() {
        match take_item(alloc, config, host, &items[i], &mut alone, &mut replies) {
            Ok(()) => (),
            Err(Stop::Unlawful) => return Err(SoloFault::Unlawful(i)),
            Err(Stop::NoMemory) => return Err(SoloFault::NoMemory),
        }
    }
    Ok(replies)
}

/// Takes an item, and puts what is replied to it behind the other replies, if it is an act.
fn take_item(
    alloc: Global,
    config: &Config,
    host: HostId,
    item: &Item,
    alone: &mut Alone,
    replies: &mut SoloReplies,
) -> Result<(), Stop>
    requires host { host < config.now.hosts }
    requires hosts { alone.old.present.hosts ≡ config.now.hosts }
    requires few { extent_total alone.old.lists ≤ 64 }
    ensures taken { TakesItem config.now host item.now alone.old alone.new result }
    ensures replied { OnOk result (Replies config.now host alone.old item.now replies.old replies.new) }
{
    match item {
        Item::Own(act) => {
            let reply = alone.act(alloc, config, host, act)?;
            replies.push(reply)?;
            Ok(())
        }
        Item::Given(extents) => alone.give(alloc, host, extents),
        Item::Asked(extents) => alone.ask(alloc, host, extents),
        Item::Taken(extents) => alone.take(alloc, host, extents),
        Item::Block(region, size) => alone.resize(host, *region, *size),
    }
}
