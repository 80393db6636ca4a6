//! From a request of the manager to its payload.

ghost use Rattle.dcd_base.specs.Layouts.{FitsField, Number, Reserved, flag, is_byte, spelling};
ghost use Rattle.fm_payloads.specs.ManagerPayloads.{ManagerCountsFit, manager_fields, manager_opcode, manager_request};
ghost use Rattle.std.specs.Int.{w8, w16, w32, w64};
ghost use Rattle.std.specs.List.{AllByRecursion, list_all};
ghost use Rattle.std.specs.Prelude.{◌≡◌, ◌++◌, [], ◌∷◌, IfOk, IsTrue, Ok, OnErr, OnOk, length};

use crate::placing::placed_payload;
use crate::requests::FmRequest;
use dcd_base::{
    Bytes, NoMemory, are_bytes, clear_payload, page_request, put_flag, put_u8, put_u16, put_u32,
    put_u64, put_zeros, zeros,
};
use std::alloc::Global;

/// Bytes as they stand.
fn raw_payload(alloc: Global, bytes: &[u8]) -> Result<Bytes, NoMemory>
    ensures same { IfOk result (λ payload. payload ≡ bytes.now) }
    ensures fits { IsTrue (list_all is_byte bytes.now) }
{
    are_bytes(bytes);
    Bytes::from_slice(alloc, bytes)
}

/// Fills the four bytes that ask for regions of a host.
fn fill_regions_wanted(out: &mut [u8], host: u16, count: u8, first: u8)
    requires { length out.old ≡ 4 }
    ensures { out.new ≡ spelling (Number w16 host ∷ Number w8 count ∷ Number w8 first ∷ []) }
{
    put_u16(out, 0, host);
    put_u8(out, 2, count);
    put_u8(out, 3, first);
}

fn regions_wanted(alloc: Global, host: u16, count: u8, first: u8) -> Result<Bytes, NoMemory>
    ensures { IfOk result
        (λ bytes. bytes ≡ spelling (Number w16 host ∷ Number w8 count ∷ Number w8 first ∷ [])) }
{
    let mut payload = zeros(alloc, 4)?;
    fill_regions_wanted(&mut payload, host, count, first);
    Ok(Bytes::from_vec(alloc, payload))
}

/// Fills the 16 bytes that set a region.
fn fill_setting(out: &mut [u8], region: u8, sanitize: bool, block: u64)
    requires { length out.old ≡ 16 }
    ensures { out.new ≡ spelling
        (Number w8 region ∷ Reserved 3 ∷ Number w64 block ∷ flag sanitize ∷ Reserved 3 ∷ []) }
{
    put_u8(out, 0, region);
    put_zeros::<3>(out, 1);
    put_u64(out, 4, block);
    put_flag(out, 12, sanitize);
    put_zeros::<3>(out, 13);
}

fn setting(alloc: Global, region: u8, sanitize: bool, block: u64) -> Result<Bytes, NoMemory>
    ensures { IfOk result (λ bytes. bytes ≡ spelling
        (Number w8 region ∷ Reserved 3 ∷ Number w64 block ∷ flag sanitize ∷ Reserved 3 ∷ [])) }
{
    let mut payload = zeros(alloc, 16)?;
    fill_setting(&mut payload, region, sanitize, block);
    Ok(Bytes::from_vec(alloc, payload))
}

/// Fills the 12 bytes that ask for extents of a host.
fn fill_lists_wanted(out: &mut [u8], host: u16, count: u32, first: u32)
    requires { length out.old ≡ 12 }
    ensures { out.new ≡ spelling
        (Number w16 host ∷ Reserved 2 ∷ Number w32 count ∷ Number w32 first ∷ []) }
{
    put_u16(out, 0, host);
    put_zeros::<2>(out, 2);
    put_u32(out, 4, count);
    put_u32(out, 8, first);
}

fn lists_wanted(alloc: Global, host: u16, count: u32, first: u32) -> Result<Bytes, NoMemory>
    ensures { IfOk result (λ bytes. bytes ≡ spelling
        (Number w16 host ∷ Reserved 2 ∷ Number w32 count ∷ Number w32 first ∷ [])) }
{
    let mut payload = zeros(alloc, 12)?;
    fill_lists_wanted(&mut payload, host, count, first);
    Ok(Bytes::from_vec(alloc, payload))
}

fn payload_of(alloc: Global, request: &FmRequest) -> Result<Bytes, NoMemory>
    requires { ManagerCountsFit request.now }
    ensures spelled { IfOk result (λ bytes. bytes ≡ spelling (manager_fields request.now)) }
    ensures fits { OnOk result (AllByRecursion FitsField (manager_fields request.now)) }
{
    match request {
        FmRequest::GetEvents { log } => Bytes::from_slice(alloc, &[*log]),
        FmRequest::ClearEvents { log, all, handles } => {
            clear_payload(alloc, *log, *all, handles.as_slice())
        }
        FmRequest::GetInfo => Ok(Bytes::new(alloc)),
        FmRequest::GetRegions { host, count, first } => {
            regions_wanted(alloc, *host, *count, *first)
        }
        FmRequest::SetRegion {
            region,
            sanitize,
            block,
        } => setting(alloc, *region, *sanitize, *block),
        FmRequest::GetExtentLists { host, count, first } => {
            lists_wanted(alloc, *host, *count, *first)
        }
        FmRequest::Add {
            host,
            policy,
            region,
            length,
            tag,
            extents,
        } => {
            placed_payload(
                alloc,
                *host,
                *policy,
                *region,
                *length,
                tag,
                extents.as_slice(),
            )
        }
        FmRequest::Remove {
            host,
            flags,
            region,
            length,
            tag,
            extents,
        } => {
            placed_payload(
                alloc,
                *host,
                *flags,
                *region,
                *length,
                tag,
                extents.as_slice(),
            )
        }
        FmRequest::AddReference { tag } => raw_payload(alloc, &tag.0),
        FmRequest::RemoveReference { tag } => raw_payload(alloc, &tag.0),
        FmRequest::ListTags { first, count } => page_request(alloc, *first, *count),
    }
}

/// Appends the payload that decodes to the request.
///
/// The request has at most 255 handles and at most 65,535 extents. Reserved bytes and bits are written as 0, and
/// each field as it stands. Without memory `out` is as it was.
pub fn encode(request: &FmRequest, out: &mut Bytes) -> Result<(), NoMemory>
    requires { ManagerCountsFit request.now }
    ensures appended { OnOk result (out.new ≡ out.old ++ spelling (manager_fields request.now)) }
    ensures kept { OnErr result (out.new ≡ out.old) }
    // What was appended is read as the request.
    ensures again { OnOk result
        (manager_request (manager_opcode request.now) (spelling (manager_fields request.now))
        ≡ Ok request.now) }
{
    let payload = payload_of(out.allocator(), request)?;
    out.append(payload)
}
