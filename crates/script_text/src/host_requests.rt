//! What hosts ask, printed.

ghost use Rattle.host_payloads.specs.HostPayloads.{is_untagged};
ghost use Rattle.std.specs.List.{list_all};
ghost use Rattle.std.specs.Prelude.{◌≡◌, ◌≤◌, [], ◌∷◌, IsTrue, OnOk, length};
ghost use Rattle.text_lines.specs.Layouts.{clearing_parts, host_command_of as command_said, host_fits_line, host_request_parts, host_tail, listing_parts, log_parts, page_parts};
ghost use Rattle.text_lines.specs.Commands.{host_command_text};
ghost use Rattle.text_lines.specs.Parts.{Part};
ghost use Rattle.script_text.specs.LinePrinting.{AddsParts};

use crate::lists::{write_extents, write_handles};
use crate::words::{write_fixed, write_flag, write_may_count, write_named_count};
use dcd_base::{Bytes, Extent, NoMemory};
use host_payloads::HostRequest;
use text_lines::{HostCommand, Keyword};

/// Appends a log.
pub fn write_log(log: u8, out: &mut Bytes) -> Result<(), NoMemory>
    ensures { OnOk result (AddsParts out.old out.new (log_parts log)) }
{
    write_named_count(Keyword::Log, 255, log as u64, out)
}

/// Appends which records to clear.
pub fn write_clearing(log: u8, all: bool, handles: &[u16], out: &mut Bytes) -> Result<(), NoMemory>
    requires { length handles.now ≤ 255 }
    ensures { OnOk result (AddsParts out.old out.new (clearing_parts log all handles.now)) }
{
    write_log(log, out)?;
    write_flag(Keyword::All, all, out)?;
    write_handles(handles, out)?;
    Ok(())
}

/// Appends the first item that is asked for, and how many.
pub fn write_page(most: u64, first: u64, count: u64, out: &mut Bytes) -> Result<(), NoMemory>
    requires first { first ≤ most }
    requires count { count ≤ most }
    ensures { OnOk result (AddsParts out.old out.new (page_parts most first count)) }
{
    write_may_count(Keyword::First, most, first, out)?;
    write_named_count(Keyword::Count, most, count, out)?;
    Ok(())
}

/// Appends the extents of a host.
fn write_listing(more: bool, extents: &[Extent], out: &mut Bytes) -> Result<(), NoMemory>
    requires few { length extents.now ≤ 2729 }
    requires untagged { IsTrue (list_all is_untagged extents.now) }
    ensures { OnOk result (AddsParts out.old out.new (listing_parts more extents.now)) }
{
    write_flag(Keyword::More, more, out)?;
    write_extents(2729, extents, out)?;
    Ok(())
}

fn host_command_of(request: &HostRequest) -> HostCommand
    ensures { result ≡ command_said request.now }
{
    match request {
        HostRequest::GetEvents { .. } => HostCommand::GetEventRecords,
        HostRequest::ClearEvents { .. } => HostCommand::ClearEventRecords,
        HostRequest::GetConfiguration { .. } => HostCommand::GetConfiguration,
        HostRequest::GetExtents { .. } => HostCommand::GetExtentList,
        HostRequest::AddResponse { .. } => HostCommand::AddResponse,
        HostRequest::GiveBack { .. } => HostCommand::Release,
    }
}

/// Appends the name of a command.
fn write_command(command: HostCommand, out: &mut Bytes) -> Result<(), NoMemory>
    ensures { OnOk result (AddsParts out.old out.new (Part.Fixed (host_command_text command) ∷ [])) }
{
    write_fixed(command.text(), out)?;
    Ok(())
}

/// Appends what stands behind the name of a command.
fn write_tail(request: &HostRequest, out: &mut Bytes) -> Result<(), NoMemory>
    requires { IsTrue (host_fits_line request.now) }
    ensures { OnOk result (AddsParts out.old out.new (host_tail request.now)) }
{
    match request {
        HostRequest::GetEvents { log } => write_log(*log, out),
        HostRequest::ClearEvents { log, all, handles } => {
            write_clearing(*log, *all, handles.as_slice(), out)
        }
        HostRequest::GetConfiguration { count, first } => {
            write_page(255, *first as u64, *count as u64, out)
        }
        HostRequest::GetExtents { count, first } => {
            write_page(0xFFFF_FFFF, *first as u64, *count as u64, out)
        }
        HostRequest::AddResponse { more, extents } => write_listing(*more, extents.as_slice(), out),
        HostRequest::GiveBack { more, extents } => write_listing(*more, extents.as_slice(), out),
    }
}

/// Appends what a host asks.
pub fn write_host_request(request: &HostRequest, out: &mut Bytes) -> Result<(), NoMemory>
    requires { IsTrue (host_fits_line request.now) }
    ensures { OnOk result (AddsParts out.old out.new (host_request_parts request.now)) }
{
    write_command(host_command_of(request), out)?;
    write_tail(request, out)?;
    Ok(())
}
