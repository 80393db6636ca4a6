//! What is asked in a conversation, as acts.

use crate::trouble::Trouble;
use cci_codec::{Payload, Request};
use journal_core::Act;
use std::alloc::Global;

/// What somebody asks. Places and lengths in commands are whole MiB.
#[derive(Clone, Copy)]
pub enum Ask {
    /// 5604h, Prescriptive in region 0: an extent is offered to this host, by its start and its length.
    Offer(u8, u16, u16),
    /// 5604h, Contiguous: the lowest block of region 1 is offered to host 0 under the tag.
    OfferTag,
    /// 5604h, Enable Shared Access: what has the tag is offered to host 1.
    ShareTag,
    /// 5605h, forced: an extent in region 0 of this host.
    Take(u8, u16, u16),
    /// 5606h of the tag.
    AddReference,
    /// 5607h of the tag.
    RemoveReference,
    /// 4802h of one extent.
    Accept(u16, u16),
    /// 4803h of one extent.
    Release(u16, u16),
    Scrub(u16),
    Load(u64),
    Store(u64, u64),
    /// A load by a call that waits for nobody.
    TryLoad(u64),
    /// A store by a call that waits for nobody.
    TryStore(u64, u64),
}

const TAG: [u8; 16] = [1, 2, 3, 4, 5, 6, 7, 8, 9, 10, 11, 12, 13, 14, 15, 16];

/// Contiguous in region 1 for host 0: 1 MiB under the tag, and no extent.
const OFFER_TAG: [u8; 32] = [
    0, 0, 1, 1, 0, 0, 16, 0, 0, 0, 0, 0, // host 0, policy 1, region 1, 1 MiB
    1, 2, 3, 4, 5, 6, 7, 8, 9, 10, 11, 12, 13, 14, 15, 16, // the tag
    0, 0, 0, 0, // no extent
];

/// Enable Shared Access in region 1 for host 1: the tag, and no extent.
const SHARE_TAG: [u8; 32] = [
    1, 0, 3, 1, 0, 0, 0, 0, 0, 0, 0, 0, // host 1, policy 3, region 1, no length
    1, 2, 3, 4, 5, 6, 7, 8, 9, 10, 11, 12, 13, 14, 15, 16, // the tag
    0, 0, 0, 0, // no extent
];

/// So many MiB, below 4 GiB: the bytes 2 and 3 of eight, of which the others are zero.
fn mib(count: u16) -> (u8, u8) {
    ((count % 16 * 16) as u8, (count / 16 % 256) as u8)
}

/// The payload of a 5604h or a 5605h of one extent in region 0, without a tag.
fn placed(host: u8, choice: u8, start: u16, length: u16) -> [u8; 72] {
    let (s, t) = mib(start);
    let (l, m) = mib(length);
    [
        host, 0, choice, 0, 0, 0, 0, 0, 0, 0, 0, 0, // no length
        0, 0, 0, 0, 0, 0, 0, 0, 0, 0, 0, 0, 0, 0, 0, 0, // no tag
        1, 0, 0, 0, // one extent
        0, 0, s, t, 0, 0, 0, 0, 0, 0, l, m, 0, 0, 0, 0, // its start and its length
        0, 0, 0, 0, 0, 0, 0, 0, 0, 0, 0, 0, 0, 0, 0, 0, 0, 0, 0, 0, 0, 0, 0, 0,
    ]
}

/// The payload of a 4802h or a 4803h of one extent, with no more to come.
fn listed(start: u16, length: u16) -> [u8; 32] {
    let (s, t) = mib(start);
    let (l, m) = mib(length);
    [
        1, 0, 0, 0, 0, 0, 0, 0, // one extent
        0, 0, s, t, 0, 0, 0, 0, 0, 0, l, m, 0, 0, 0, 0, // its start and its length
        0, 0, 0, 0, 0, 0, 0, 0,
    ]
}

fn command(alloc: Global, opcode: u16, payload: &[u8]) -> Result<Act, Trouble> {
    let payload = Payload::from_slice(alloc, payload)?;
    Ok(Act::Command(Request {
        tag: 0,
        opcode,
        payload,
    }))
}

impl Ask {
    /// Whether the call waits for its turn.
    pub fn waits(&self) -> bool {
        !matches!(self, Ask::TryLoad(_) | Ask::TryStore(_, _))
    }

    /// The act that is asked for.
    pub fn act(&self, alloc: Global) -> Result<Act, Trouble> {
        match *self {
            Ask::Offer(host, start, length) => {
                command(alloc, 0x5604, &placed(host, 2, start, length))
            }
            Ask::OfferTag => command(alloc, 0x5604, &OFFER_TAG),
            Ask::ShareTag => command(alloc, 0x5604, &SHARE_TAG),
            Ask::Take(host, start, length) => {
                command(alloc, 0x5605, &placed(host, 0x11, start, length))
            }
            Ask::AddReference => command(alloc, 0x5606, &TAG),
            Ask::RemoveReference => command(alloc, 0x5607, &TAG),
            Ask::Accept(start, length) => command(alloc, 0x4802, &listed(start, length)),
            Ask::Release(start, length) => command(alloc, 0x4803, &listed(start, length)),
            Ask::Scrub(most) => Ok(Act::Scrub(most)),
            Ask::Load(dpa) | Ask::TryLoad(dpa) => Ok(Act::Load(dpa)),
            Ask::Store(dpa, value) | Ask::TryStore(dpa, value) => Ok(Act::Store(dpa, value)),
        }
    }
}
