//! The heads of replies in words.

ghost use Rattle.explainer.specs.ReplyKinds.{head_length};
ghost use Rattle.explainer.specs.ReplyWords.{extents_heading, granules_heading, heading, host_extents_heading, host_regions_heading, info_heading, records_heading, regions_heading, tags_heading};
ghost use Rattle.std.specs.Prelude.{◌≡◌, ◌≤◌, ◌++◌, OnOk, length};

use crate::fields::{write_u8, write_u16, write_u32};
use crate::kinds::ReplyKind;
use crate::parts::write_label_where;
use dcd_base::{Bytes, NoMemory};

/// Appends the head of event records.
#[tactic(auto, unfolding(crate::specs::ReplyWords::records_heading))]
fn write_records(head: &[u8], out: &mut Bytes) -> Result<(), NoMemory>
    requires { 32 ≤ length head.now }
    ensures { OnOk result (out.new ≡ out.old ++ records_heading head.now) }
{
    write_u16(b"records ", head, 20, out)?;
    write_u16(b", missed ", head, 2, out)?;
    write_label_where(head[0] & 2 == 2, b", more in the log", out)
}

/// Appends the head of regions.
#[tactic(auto, unfolding(crate::specs::ReplyWords::regions_heading))]
fn write_regions(head: &[u8], out: &mut Bytes) -> Result<(), NoMemory>
    requires { 8 ≤ length head.now }
    ensures { OnOk result (out.new ≡ out.old ++ regions_heading head.now) }
{
    write_u8(b"regions ", head, 1, out)?;
    write_u8(b" of ", head, 0, out)
}

/// Appends the head of extents.
#[tactic(auto, unfolding(crate::specs::ReplyWords::extents_heading))]
fn write_extents(head: &[u8], out: &mut Bytes) -> Result<(), NoMemory>
    requires { 16 ≤ length head.now }
    ensures { OnOk result (out.new ≡ out.old ++ extents_heading head.now) }
{
    write_u32(b"extents ", head, 0, out)?;
    write_u32(b" of ", head, 4, out)?;
    write_u32(b", generation ", head, 8, out)
}

/// Appends how many granules there are, are free and are dirty.
#[tactic(auto, unfolding(crate::specs::ReplyWords::granules_heading))]
fn write_granules(head: &[u8], out: &mut Bytes) -> Result<(), NoMemory>
    requires { 24 ≤ length head.now }
    ensures { OnOk result (out.new ≡ out.old ++ granules_heading head.now) }
{
    write_u32(b", granules ", head, 8, out)?;
    write_u32(b", free ", head, 12, out)?;
    write_u32(b", dirty ", head, 16, out)
}

/// Appends the head of what a device says of itself.
#[tactic(auto, unfolding(crate::specs::ReplyWords::info_heading))]
fn write_info(head: &[u8], out: &mut Bytes) -> Result<(), NoMemory>
    requires { 24 ≤ length head.now }
    ensures { OnOk result (out.new ≡ out.old ++ info_heading head.now) }
{
    write_u8(b"hosts ", head, 0, out)?;
    write_u8(b", regions ", head, 1, out)?;
    write_granules(head, out)
}

/// Appends the head of the regions of a host.
#[tactic(auto, unfolding(crate::specs::ReplyWords::host_regions_heading))]
fn write_host_regions(head: &[u8], out: &mut Bytes) -> Result<(), NoMemory>
    requires { 8 ≤ length head.now }
    ensures { OnOk result (out.new ≡ out.old ++ host_regions_heading head.now) }
{
    write_u16(b"host ", head, 0, out)?;
    write_u8(b", regions ", head, 3, out)?;
    write_u8(b" of ", head, 2, out)
}

/// Appends the head of the extents of a host.
#[tactic(auto, unfolding(crate::specs::ReplyWords::host_extents_heading))]
fn write_host_extents(head: &[u8], out: &mut Bytes) -> Result<(), NoMemory>
    requires { 24 ≤ length head.now }
    ensures { OnOk result (out.new ≡ out.old ++ host_extents_heading head.now) }
{
    write_u16(b"host ", head, 0, out)?;
    write_u32(b", extents ", head, 8, out)?;
    write_u32(b" of ", head, 12, out)?;
    write_u32(b" from index ", head, 4, out)?;
    write_u32(b", generation ", head, 16, out)
}

/// Appends the head of live tags.
#[tactic(auto, unfolding(crate::specs::ReplyWords::tags_heading))]
fn write_tags(head: &[u8], out: &mut Bytes) -> Result<(), NoMemory>
    requires { 16 ≤ length head.now }
    ensures { OnOk result (out.new ≡ out.old ++ tags_heading head.now) }
{
    write_u32(b"tags ", head, 4, out)?;
    write_u32(b" of ", head, 8, out)?;
    write_u32(b" from index ", head, 0, out)
}

/// Appends the head of a reply of this kind, which the bytes begin with.
pub(crate) fn write_heading(kind: ReplyKind, head: &[u8], out: &mut Bytes) -> Result<(), NoMemory>
    requires { head_length kind ≤ length head.now }
    ensures { OnOk result (out.new ≡ out.old ++ heading kind head.now) }
{
    match kind {
        ReplyKind::Records => write_records(head, out),
        ReplyKind::Regions => write_regions(head, out),
        ReplyKind::Extents => write_extents(head, out),
        ReplyKind::Info => write_info(head, out),
        ReplyKind::HostRegions => write_host_regions(head, out),
        ReplyKind::HostExtents => write_host_extents(head, out),
        ReplyKind::Tags => write_tags(head, out),
    }
}
