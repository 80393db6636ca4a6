//! What the Fabric Manager asks, printed.

ghost use Rattle.host_payloads.specs.HostPayloads.{is_untagged};
ghost use Rattle.std.specs.List.{list_all};
ghost use Rattle.std.specs.Prelude.{◌≡◌, ◌++◌, ◌≤◌, [], ◌∷◌, IsTrue, OnOk, length};
ghost use Rattle.text_lines.specs.Commands.{manager_command_text};
ghost use Rattle.text_lines.specs.Layouts.{capacity_parts, manager_command_of as command_said, manager_fits_line, manager_request_parts, manager_tail, page_parts, setting_parts, spot_parts};
ghost use Rattle.text_lines.specs.Parts.{Part};
ghost use Rattle.script_text.specs.LinePrinting.{AddsParts};

use crate::host_requests::{write_clearing, write_log, write_page};
use crate::lists::write_extents;
use crate::policies::{write_add_policy, write_release_flags};
use crate::words::{
    write_fixed, write_flag, write_host, write_may_number, write_may_tag, write_named_count,
    write_named_number, write_tag_word,
};
use dcd_base::{Bytes, Extent, NoMemory, Tag};
use fm_payloads::FmRequest;
use text_lines::{Keyword, ManagerCommand};

/// Appends a host, the first item that is asked for of it, and how many.
fn write_host_page(
    host: u16,
    most: u64,
    first: u64,
    count: u64,
    out: &mut Bytes,
) -> Result<(), NoMemory>
    requires first { first ≤ most }
    requires count { count ≤ most }
    ensures { OnOk result (AddsParts out.old out.new (Part.HostOf host ∷ page_parts most first count)) }
{
    write_host(host, out)?;
    write_page(most, first, count, out)?;
    Ok(())
}

/// Appends what a region is to have.
fn write_setting(region: u8, block: u64, sanitize: bool, out: &mut Bytes) -> Result<(), NoMemory>
    ensures { OnOk result (AddsParts out.old out.new (setting_parts region block sanitize)) }
{
    write_named_count(Keyword::Region, 255, region as u64, out)?;
    write_named_number(Keyword::Block, block, out)?;
    write_flag(Keyword::Sanitize, sanitize, out)?;
    Ok(())
}

/// Appends a host and a region of it.
fn write_spot(host: u16, region: u8, out: &mut Bytes) -> Result<(), NoMemory>
    ensures { OnOk result (AddsParts out.old out.new (spot_parts host region)) }
{
    write_host(host, out)?;
    write_named_count(Keyword::Region, 255, region as u64, out)?;
    Ok(())
}

/// Appends a length in bytes, a tag and extents.
fn write_capacity(size: u64, tag: &Tag, extents: &[Extent], out: &mut Bytes) -> Result<(), NoMemory>
    requires few { length extents.now ≤ 1637 }
    requires untagged { IsTrue (list_all is_untagged extents.now) }
    ensures { OnOk result (AddsParts out.old out.new (capacity_parts size tag.now extents.now)) }
{
    write_may_number(Keyword::Length, size, out)?;
    write_may_tag(tag, out)?;
    write_extents(1637, extents, out)?;
    Ok(())
}

/// Appends what to add.
fn write_add(
    host: u16,
    region: u8,
    policy: u8,
    size: u64,
    tag: &Tag,
    extents: &[Extent],
    out: &mut Bytes,
) -> Result<(), NoMemory>
    requires few { length extents.now ≤ 1637 }
    requires untagged { IsTrue (list_all is_untagged extents.now) }
    ensures { OnOk result (AddsParts out.old out.new (spot_parts host region ++ Part.AddPolicy policy ∷ capacity_parts size tag.now extents.now)) }
{
    write_spot(host, region, out)?;
    write_add_policy(policy, out)?;
    write_capacity(size, tag, extents, out)?;
    Ok(())
}

/// Appends what to release.
fn write_remove(
    host: u16,
    region: u8,
    flags: u8,
    size: u64,
    tag: &Tag,
    extents: &[Extent],
    out: &mut Bytes,
) -> Result<(), NoMemory>
    requires few { length extents.now ≤ 1637 }
    requires untagged { IsTrue (list_all is_untagged extents.now) }
    ensures { OnOk result (AddsParts out.old out.new (spot_parts host region ++ Part.ReleaseFlags flags ∷ capacity_parts size tag.now extents.now)) }
{
    write_spot(host, region, out)?;
    write_release_flags(flags, out)?;
    write_capacity(size, tag, extents, out)?;
    Ok(())
}

fn manager_command_of(request: &FmRequest) -> ManagerCommand
    ensures { result ≡ command_said request.now }
{
    match request {
        FmRequest::GetEvents { .. } => ManagerCommand::GetEventRecords,
        FmRequest::ClearEvents { .. } => ManagerCommand::ClearEventRecords,
        FmRequest::GetInfo => ManagerCommand::GetInfo,
        FmRequest::GetRegions { .. } => ManagerCommand::GetRegionConfiguration,
        FmRequest::SetRegion { .. } => ManagerCommand::SetRegionConfiguration,
        FmRequest::GetExtentLists { .. } => ManagerCommand::GetRegionExtentLists,
        FmRequest::Add { .. } => ManagerCommand::InitiateAdd,
        FmRequest::Remove { .. } => ManagerCommand::InitiateRelease,
        FmRequest::AddReference { .. } => ManagerCommand::AddReference,
        FmRequest::RemoveReference { .. } => ManagerCommand::RemoveReference,
        FmRequest::ListTags { .. } => ManagerCommand::ListTags,
    }
}

/// Appends the name of a command.
fn write_command(command: ManagerCommand, out: &mut Bytes) -> Result<(), NoMemory>
    ensures { OnOk result (AddsParts out.old out.new (Part.Fixed (manager_command_text command) ∷ [])) }
{
    write_fixed(command.text(), out)?;
    Ok(())
}

/// Appends what stands behind the name of a command.
fn write_tail(request: &FmRequest, out: &mut Bytes) -> Result<(), NoMemory>
    requires { IsTrue (manager_fits_line request.now) }
    ensures { OnOk result (AddsParts out.old out.new (manager_tail request.now)) }
{
    match request {
        FmRequest::GetEvents { log } => write_log(*log, out),
        FmRequest::ClearEvents { log, all, handles } => {
            write_clearing(*log, *all, handles.as_slice(), out)
        }
        FmRequest::GetInfo => Ok(()),
        FmRequest::GetRegions { host, count, first } => {
            write_host_page(*host, 255, *first as u64, *count as u64, out)
        }
        FmRequest::SetRegion {
            region,
            sanitize,
            block,
        } => { write_setting(*region, *block, *sanitize, out) }
        FmRequest::GetExtentLists { host, count, first } => {
            write_host_page(*host, 0xFFFF_FFFF, *first as u64, *count as u64, out)
        }
        FmRequest::Add {
            host,
            policy,
            region,
            length,
            tag,
            extents,
        } => {
            write_add(
                *host,
                *region,
                *policy,
                *length,
                tag,
                extents.as_slice(),
                out,
            )
        }
        FmRequest::Remove {
            host,
            flags,
            region,
            length,
            tag,
            extents,
        } => {
            write_remove(
                *host,
                *region,
                *flags,
                *length,
                tag,
                extents.as_slice(),
                out,
            )
        }
        FmRequest::AddReference { tag } => write_tag_word(tag, out),
        FmRequest::RemoveReference { tag } => write_tag_word(tag, out),
        FmRequest::ListTags { first, count } => {
            write_page(0xFFFF_FFFF, *first as u64, *count as u64, out)
        }
    }
}

/// Appends what the Fabric Manager asks.
pub fn write_manager_request(request: &FmRequest, out: &mut Bytes) -> Result<(), NoMemory>
    requires { IsTrue (manager_fits_line request.now) }
    ensures { OnOk result (AddsParts out.old out.new (manager_request_parts request.now)) }
{
    write_command(manager_command_of(request), out)?;
    write_tail(request, out)?;
    Ok(())
}
