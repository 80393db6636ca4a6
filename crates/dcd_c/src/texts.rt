//! Why a head is refused, in words.

ghost use Rattle.dcd_c.specs.Texts.{PutsText, cause_text, fault_text, place_words, region_words};
ghost use Rattle.std.specs.Prelude.{◌≡◌, ◌++◌, OnOk};

use crate::faults::Fault;
use crate::head_faults::HeadFault;
use crate::names::put_name;
use dcd_base::{Bytes, NoMemory};
use std::alloc::Global;

/// Appends the host and the region that a fault is about.
fn add_place(out: &mut Bytes, host: u8, region: u8) -> Result<(), NoMemory>
    ensures { OnOk result (out.new ≡ out.old ++ place_words host region) }
{
    let text = format!(in out.allocator(); "for host {host} region {region} ")?;
    out.extend_from_slice(text.as_bytes())
}

/// Appends the region that a fault is about.
fn add_region(out: &mut Bytes, region: u8) -> Result<(), NoMemory>
    ensures { OnOk result (out.new ≡ out.old ++ region_words region) }
{
    let text = format!(in out.allocator(); "region {region} ")?;
    out.extend_from_slice(text.as_bytes())
}

/// Appends what the fault of a configuration says.
#[tactic(auto, unfolding(crate::specs::Texts::cause_text))]
fn add_cause(out: &mut Bytes, cause: u32, host: u8, region: u8) -> Result<(), NoMemory>
    ensures { OnOk result (out.new ≡ out.old ++ cause_text cause host region) }
{
    match cause {
        1 => out.extend_from_slice(b"there are not 1 to 16 hosts and 1 to 8 regions"),
        2 => {
            add_place(out, host, region)?;
            out.extend_from_slice(b"has a base that is no multiple of 256 MiB, or ends above 2^52")
        }
        3 => {
            add_region(out, region)?;
            out.extend_from_slice(
                b"has a block that it does not support, or supports none or one that is not 2^6 to 2^40",
            )
        }
        4 => {
            add_region(out, region)?;
            out.extend_from_slice(
                b"has no whole number of its largest blocks, or more than it decodes",
            )
        }
        5 => {
            add_place(out, host, region)?;
            out.extend_from_slice(b"begins below the end of the region before it")
        }
        6 => out.extend_from_slice(b"there are more than 4096 granules"),
        _ => Ok(()),
    }
}

/// Appends what the fault of a head says: nothing where it is none.
#[tactic(auto, unfolding(crate::specs::Texts::fault_words))]
fn add_fault(out: &mut Bytes, fault: &HeadFault) -> Result<(), NoMemory>
    ensures { OnOk result (out.new ≡ out.old ++ fault_text fault.now) }
{
    match fault.number {
        1 => out.extend_from_slice(b"the head does not begin with the bytes DCDS"),
        2 => out.extend_from_slice(b"the version is neither 1 nor 2"),
        3 => add_cause(out, fault.cause, fault.host, fault.region),
        4 => out.extend_from_slice(b"the head ends too early"),
        8 => out.extend_from_slice(b"there are more than 16777216 bytes"),
        12 => out.extend_from_slice(b"there are not 1 to 4 lanes for each host"),
        _ => Ok(()),
    }
}

/// Puts what the fault says into the room.
pub(crate) fn put_fault(alloc: Global, fault: &HeadFault, room: &mut [u8]) -> Result<u64, Fault>
    ensures { PutsText (fault_text fault.now) room.old room.new result }
{
    let mut text = Bytes::new(alloc);
    match add_fault(&mut text, fault) {
        Ok(_) => put_name(text.as_slice(), room),
        Err(NoMemory) => Err(Fault::NoMemory),
    }
}
