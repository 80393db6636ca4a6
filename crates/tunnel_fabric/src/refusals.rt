//! The line on a fabric that is refused.

ghost use Rattle.std.specs.Prelude.{◌≡◌, IfOk};
ghost use Rattle.tunnel_fabric.specs.Printing.{fabric_fault_number, fabric_fault_place, fabric_refusal};

use crate::FabricFault;
use crate::printing::write_number;
use dcd_base::{Bytes, NoMemory};
use std::alloc::Global;

/// The number of a fabric's fault, 0 for want of memory.
fn number_of(fault: &FabricFault) -> u64
    ensures { result ≡ fabric_fault_number fault.now }
{
    match fault {
        FabricFault::BadMagic => 1,
        FabricFault::BadVersion(_) => 2,
        FabricFault::BadCount(_) => 3,
        FabricFault::Truncated(_) => 4,
        FabricFault::BadScript { .. } => 5,
        FabricFault::HasLines(_) => 6,
        FabricFault::UnknownKind(_) => 7,
        FabricFault::UnknownTarget(_) => 8,
        FabricFault::BadMessage { .. } => 9,
        FabricFault::AfterEnd(_) => 10,
        FabricFault::TooLong => 11,
        FabricFault::TooManyLines(_) => 12,
        FabricFault::NoMemory => 0,
    }
}

/// How many bytes of the fabric stand before the fault.
fn place_of(fault: &FabricFault) -> u64
    ensures { result ≡ fabric_fault_place fault.now }
{
    match fault {
        FabricFault::BadMagic | FabricFault::NoMemory => 0,
        FabricFault::BadVersion(_) => 4,
        FabricFault::BadCount(_) => 6,
        FabricFault::Truncated(place)
        | FabricFault::HasLines(place)
        | FabricFault::UnknownKind(place)
        | FabricFault::UnknownTarget(place)
        | FabricFault::AfterEnd(place)
        | FabricFault::TooManyLines(place) => *place,
        FabricFault::BadScript { at, .. } => *at,
        FabricFault::BadMessage { at, .. } => *at,
        FabricFault::TooLong => 16_777_216,
    }
}

/// The line that says why bytes are no fabric: `fabric refused: `, the fault's number, ` at ` and its place.
#[tactic(auto, unfolding(crate::specs::Printing::fabric_refusal))]
pub(crate) fn refusal(alloc: Global, fault: &FabricFault) -> Result<Bytes, NoMemory>
    ensures { IfOk result (λ line. line ≡ fabric_refusal fault.now) }
{
    let mut line = Bytes::new(alloc);
    line.extend_from_slice(b"fabric refused: ")?;
    write_number(&mut line, number_of(fault))?;
    line.extend_from_slice(b" at ")?;
    write_number(&mut line, place_of(fault))?;
    line.push(b'\n')?;
    Ok(line)
}
