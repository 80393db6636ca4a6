//! What an add and a release have in common.

ghost use Rattle.dcd_base.specs.Layouts.{FitsField, is_byte, spelling};
ghost use Rattle.fm_payloads.specs.ManagerPayloads.{placed_fields, placed_head, placed_in};
ghost use Rattle.dcd_base.specs.Payloads.{Gives};
ghost use Rattle.std.specs.List.{AllByRecursion, list_all};
ghost use Rattle.std.specs.Prelude.{◌≡◌, ◌+◌, ◌*◌, ◌<◌, ◌≤◌, ◌^◌, IfOk, IsTrue, OnOk, length, take};

use crate::counted::placed_length;
use dcd_base::{
    Bytes, Extent, Extents, NoMemory, PayloadFault, Tag, expect_length, extents_of, put_extents,
    put_tag, put_u8, put_u16, put_u32, put_u64, tag_at, u16_at, u64_at, zeros,
};
use std::alloc::Global;

/// The fields of the payloads of 5604h and 5605h.
#[derive(Debug, Drop)]
pub struct Placed {
    pub host: u16,
    /// The policy of an add, the flags of a release.
    pub choice: u8,
    pub region: u8,
    /// In bytes.
    pub length: u64,
    pub tag: Tag,
    pub extents: Extents,
}

/// The fields of a payload: 32 bytes, and 40 for each extent.
#[tactic(auto, unfolding(crate::specs::ManagerPayloads::placed_in))]
pub fn placed_of(alloc: Global, payload: &[u8]) -> Result<Placed, PayloadFault>
    ensures { Gives result (placed_in payload.now) }
{
    expect_length(payload, placed_length(payload))?;
    let (_, rest) = payload.split_at(32);
    let extents = extents_of(alloc, rest.len() / 40, rest)?;
    Ok(Placed {
        host: u16_at(payload, 0),
        choice: payload[2],
        region: payload[3],
        length: u64_at(payload, 4),
        tag: tag_at(payload, 12),
        extents,
    })
}

/// Puts what stands before the extents, bytes 0 to 31, at the start.
#[tactic(auto, unfolding(crate::specs::ManagerPayloads::placed_head))]
fn put_placed_head(
    out: &mut [u8],
    host: u16,
    choice: u8,
    region: u8,
    size: u64,
    tag: &Tag,
    count: u32,
)
    requires { 32 ≤ length out.old }
    ensures bytes { take 32 out.new ≡ placed_head host choice region size tag.now count }
    ensures fits { (length tag.now.0 ≡ 16) × IsTrue (list_all is_byte tag.now.0) }
{
    put_u16(out, 0, host);
    put_u8(out, 2, choice);
    put_u8(out, 3, region);
    put_u64(out, 4, size);
    put_tag(out, 12, tag);
    put_u32(out, 28, count);
}

/// Fills the payload that places extents.
fn fill_placed(
    out: &mut [u8],
    host: u16,
    choice: u8,
    region: u8,
    size: u64,
    tag: &Tag,
    extents: &[Extent],
)
    requires few { length extents.now < 2 ^ 32 }
    requires whole { length out.old ≡ 32 + 40 * length extents.now }
    ensures spelled { out.new ≡ spelling (placed_fields host choice region size tag.now extents.now) }
    ensures fits { AllByRecursion FitsField (placed_fields host choice region size tag.now extents.now) }
{
    put_placed_head(out, host, choice, region, size, tag, extents.len() as u32);
    put_extents(out, 32, extents);
}

/// The payload that places extents.
pub fn placed_payload(
    alloc: Global,
    host: u16,
    choice: u8,
    region: u8,
    size: u64,
    tag: &Tag,
    extents: &[Extent],
) -> Result<Bytes, NoMemory>
    requires { length extents.now < 2 ^ 32 }
    ensures spelled { IfOk result
        (λ bytes. bytes ≡ spelling (placed_fields host choice region size tag.now extents.now)) }
    ensures fits { OnOk result
        (AllByRecursion FitsField (placed_fields host choice region size tag.now extents.now)) }
{
    let mut payload = zeros(alloc, 32 + 40 * extents.len())?;
    fill_placed(&mut payload, host, choice, region, size, tag, extents);
    Ok(Bytes::from_vec(alloc, payload))
}
