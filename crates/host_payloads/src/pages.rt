//! A page of extents, read and written.

ghost use Rattle.event_records.specs.dcd_base.specs.Layouts.{FitsField};
ghost use Rattle.host_payloads.specs.HostPayloads.{IsPage, extents_payload, page_fields, page_head, page_in, page_of};
ghost use Rattle.event_records.specs.dcd_base.specs.Payloads.{Gives};
ghost use Rattle.host_payloads.specs.declared.pages.ExtentsPage.{ExtentsPage};
ghost use Rattle.std.specs.List.{AllByRecursion};
ghost use Rattle.std.specs.Prelude.{◌≡◌, ◌+◌, ◌*◌, ◌++◌, ◌≤◌, IfOk, OnErr, OnOk, length, take};

use crate::counted::page_length;
use event_records::dcd_base::{
    Bytes, Extent, Extents, NoMemory, PayloadFault, expect_length, extents_of, put_extents,
    put_u32, put_zeros, u32_at, with_zeros,
};
use std::alloc::Global;

/// A page of a host's accepted extents (CXL 3.1, 8.2.9.9.9.2).
#[derive(Debug, Drop)]
pub struct ExtentsPage {
    /// How many accepted extents the host has.
    pub total: u32,
    /// How often the list changed, modulo 2^32.
    pub generation: u32,
    pub extents: Extents,
}

#[tactic(auto, unfolding(crate::specs::HostPayloads::page_in))]
fn page_of(alloc: Global, payload: &[u8]) -> Result<ExtentsPage, PayloadFault>
    ensures { Gives result (page_in payload.now) }
{
    expect_length(payload, page_length(payload))?;
    let (_, rest) = payload.split_at(16);
    let extents = extents_of(alloc, rest.len() / 40, rest)?;
    Ok(ExtentsPage {
        total: u32_at(payload, 4),
        generation: u32_at(payload, 8),
        extents,
    })
}

/// The page that the payload of a reply to Get Dynamic Capacity Extent List is (CXL 3.1, 8.2.9.9.9.2).
///
/// `WrongLength` exactly where the payload has not 16 bytes and 40 for each extent returned; where fewer than 16
/// stand, 16 is what is needed. There is no `UnknownOpcode`. Reserved bytes are not read.
pub fn read_extents(alloc: Global, payload: &[u8]) -> Result<ExtentsPage, PayloadFault>
    // Which page or fault it is.
    ensures exact { Gives result (page_in payload.now) }
    // The payload reads as the page.
    ensures found { IfOk result (λ page. IsPage payload.now page) }
    // A payload that reads as a page is read as that one, unless memory runs out.
    ensures only { (page : ExtentsPage) → IsPage payload.now page → Gives result (Ok page) }
{
    page_of(alloc, payload)
}

/// Puts what stands before the extents of a page at the start.
#[tactic(auto, unfolding(crate::specs::HostPayloads::page_head))]
fn put_page_head(out: &mut [u8], returned: u32, total: u32, generation: u32)
    requires { 16 ≤ length out.old }
    ensures { take 16 out.new ≡ page_head returned total generation }
{
    put_u32(out, 0, returned);
    put_u32(out, 4, total);
    put_u32(out, 8, generation);
    put_zeros::<4>(out, 12);
}

/// Fills the payload of a page.
fn fill_page(out: &mut [u8], total: u32, generation: u32, extents: &[Extent])
    requires few { length extents.now ≤ 50 }
    requires whole { length out.old ≡ 16 + 40 * length extents.now }
    ensures spelled { out.new ≡ extents_payload total generation extents.now }
    ensures fits { AllByRecursion FitsField (page_fields total generation extents.now) }
{
    put_page_head(out, extents.len() as u32, total, generation);
    put_extents(out, 16, extents);
}

/// Appends the payload of the reply to Get Dynamic Capacity Extent List: how many extents the list has, how often
/// it changed, and the extents asked for, at most 50 (CXL 3.1, 8.2.9.9.9.2). Without memory `out` is as it was.
pub fn write_extents(
    total: u32,
    generation: u32,
    extents: &[Extent],
    out: &mut Bytes,
) -> Result<(), NoMemory>
    requires { length extents.now ≤ 50 }
    ensures appended { OnOk result (out.new ≡ out.old ++ extents_payload total generation extents.now) }
    ensures kept { OnErr result (out.new ≡ out.old) }
    // What was appended is read as the page.
    ensures again { OnOk result (page_in (extents_payload total generation extents.now) ≡ Ok (page_of total generation extents.now)) }
{
    let at = out.len();
    let mut bytes = with_zeros(out, 16 + 40 * extents.len())?;
    let (_, rest) = bytes.split_at_mut(at);
    fill_page(rest, total, generation, extents);
    *out = Bytes::from_vec(out.allocator(), bytes);
    Ok(())
}
