//! The payloads of the commands, put together without memory.

ghost use Rattle.dcd_base.specs.Words.{zero_tag};
ghost use Rattle.dcd_base.specs.EventCommands.{clear_fields};
ghost use Rattle.dcd_base.specs.Layouts.{spelling};
ghost use Rattle.fm_payloads.specs.ManagerPayloads.{placed_fields, placed_head};
ghost use Rattle.host_payloads.specs.HostPayloads.{list_fields};
ghost use Rattle.std.specs.Prelude.{◌≡◌, ◌≤◌, [], ◌∷◌, false, length, take};

use dcd_base::{
    Extent, Tag, no_tag, put_extent, put_flag, put_tag, put_u8, put_u16, put_u32, put_u64,
    put_zeros,
};

/// Fills the payload of a list of one extent, the last list, without its tag.
fn fill_listed(out: &mut [u8], extent: &Extent)
    requires { length out.old ≡ 32 }
    ensures { out.new ≡ spelling (list_fields false (extent.now ∷ [])) }
{
    put_u32(out, 0, 1);
    put_flag(out, 4, false);
    put_zeros::<3>(out, 5);
    put_u64(out, 8, extent.start);
    put_u64(out, 16, extent.length);
    put_zeros::<8>(out, 24);
}

/// The payload of a list of one extent, the last list, without its tag.
pub fn listed_payload(extent: &Extent) -> [u8; 32]
    ensures { result ≡ spelling (list_fields false (extent.now ∷ [])) }
{
    let mut payload = [0; 32];
    fill_listed(&mut payload, extent);
    payload
}

/// Fills the payload that clears one record of a log.
fn fill_clearing(out: &mut [u8], log: u8, handle: u16)
    requires { length out.old ≡ 8 }
    ensures { out.new ≡ spelling (clear_fields log false (handle ∷ [])) }
{
    put_u8(out, 0, log);
    put_flag(out, 1, false);
    put_u8(out, 2, 1);
    put_zeros::<3>(out, 3);
    put_u16(out, 6, handle);
}

/// The payload that clears one record of a log.
pub fn clearing_payload(log: u8, handle: u16) -> [u8; 8]
    ensures { result ≡ spelling (clear_fields log false (handle ∷ [])) }
{
    let mut payload = [0; 8];
    fill_clearing(&mut payload, log, handle);
    payload
}

/// Puts what stands before the one extent that is placed by its list alone, bytes 0 to 31, at the start.
#[tactic(auto, unfolding(fm_payloads::specs::ManagerPayloads::placed_head))]
fn put_placed_head(out: &mut [u8], host: u16, choice: u8, tag: &Tag)
    requires { 32 ≤ length out.old }
    ensures { take 32 out.new ≡ placed_head host choice 0 0 tag.now 1 }
{
    put_u16(out, 0, host);
    put_u8(out, 2, choice);
    put_u8(out, 3, 0);
    put_u64(out, 4, 0);
    put_tag(out, 12, tag);
    put_u32(out, 28, 1);
}

/// Fills the payload that places one extent of region 0 with a host, by its list alone.
fn fill_placed(out: &mut [u8], host: u16, choice: u8, extent: &Extent)
    requires { length out.old ≡ 72 }
    ensures { out.new ≡ spelling (placed_fields host choice 0 0 zero_tag (extent.now ∷ [])) }
{
    put_placed_head(out, host, choice, &no_tag());
    put_extent(out, 32, extent);
}

/// The payload that places one extent of region 0 with a host, by its list alone.
pub fn placed_payload(host: u16, choice: u8, extent: &Extent) -> [u8; 72]
    ensures { result ≡ spelling (placed_fields host choice 0 0 zero_tag (extent.now ∷ [])) }
{
    let mut payload = [0; 72];
    fill_placed(&mut payload, host, choice, extent);
    payload
}
