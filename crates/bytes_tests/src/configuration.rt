//! Configurations that are refused.

use crate::seeing::see;
use region_config::{Config, ConfigFault, RegionSpec};
use std::alloc::Global;

/// 1 MiB.
const M: u64 = 0x10_0000;

/// The decode units, the length, the supported sizes and the block of a region.
type Form = (u64, u64, u64, u64);

const WELL: Form = (1, 16 * M, M, M);

/// The regions of one host, their bases, and the first fault.
static FAULTS: [(&[Form], &[u64], ConfigFault); 3] = [
    (
        &[(17, 4097 * M, M, M)],
        &[0],
        ConfigFault::TooManyGranules(4097),
    ),
    (&[(17, 4097 * M, 0, M)], &[0], ConfigFault::BlockSize(0)),
    (
        &[WELL, WELL],
        &[0, 0],
        ConfigFault::Overlap { host: 0, region: 1 },
    ),
];

fn region(form: &Form) -> RegionSpec {
    let (decode_units, length, sizes, block) = *form;
    RegionSpec {
        decode_units,
        length,
        block,
        sizes,
        handle: 0,
        sanitize: true,
        shareable: false,
    }
}

/// The fault of one host with these regions at these bases, if they have one.
fn fault_of(alloc: Global, forms: &[Form], bases: &[u64]) -> Option<ConfigFault> {
    let made = match (forms, bases) {
        ([only], [base]) => Config::new(alloc, 1, &[region(only)], &[*base]),
        ([first, second], [base, next]) => {
            Config::new(alloc, 1, &[region(first), region(second)], &[*base, *next])
        }
        _ => return None,
    };
    made.err()
}

#[test]
fn the_first_fault_answers_with_its_host_and_region(rt: HostRuntime) {
    for (forms, bases, fault) in &FAULTS {
        see(&rt, &fault_of(rt.alloc(), *forms, *bases), &Some(*fault));
    }
}
