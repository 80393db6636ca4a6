//! Pages of extents and configurations that QEMU wrote.

use crate::qemu::{Difference, bytes_of, differences, extent, see_beside};
use crate::seeing::{see, see_list};
use dcd_base::{Bytes, Extent, NoMemory};
use fm_payloads::lists_head;
use host_payloads::{
    Counts, RegionView, extent_bytes, read_extents, write_configuration, write_extents,
};
use std::alloc::Global;
use std::process::Abort;
use std::test::Fail;

/// A page of accepted extents: its bytes, how many are accepted, the extents, how often the list changed here, and how
/// it differs: in that number, which QEMU leaves 0.
type Page = (
    &'static [&'static str],
    u32,
    &'static [(u64, u64)],
    u32,
    &'static [Difference],
);

/// Pages of both versions: before any offer, with one extent, and with two that were accepted in the other order.
static PAGES: [Page; 3] = [
    (&["00000000000000000000000000000000"], 0, &[], 0, &[]),
    (
        &[
            "0100000001000000000000000000000000000010000000000000800000000000",
            "000000000000000000000000000000000000000000000000",
        ],
        1,
        &[(0x1000_0000, 0x80_0000)],
        1,
        &[(8, 1, 0)],
    ),
    (
        &[
            "0200000002000000000000000000000000000011000000000000600000000000",
            "0000000000000000000000000000000000000000000000000000001000000000",
            "0000400000000000000000000000000000000000000000000000000000000000",
        ],
        2,
        &[(0x1100_0000, 0x60_0000), (0x1000_0000, 0x40_0000)],
        1,
        &[(8, 1, 0)],
    ),
];

/// The page that is written here.
fn page_here(alloc: Global, total: u32, changes: u32, extents: &[Extent]) -> Result<Bytes, Fail> {
    if extents.len() > 50 {
        return Err("a page has at most 50 extents".into());
    }
    let mut out = Bytes::new(alloc);
    write_extents(total, changes, extents, &mut out)?;
    Ok(out)
}

/// Sees that these are extents without tags of some starts and lengths.
fn see_extents(rt: &impl Abort, found: &[Extent], pairs: &[(u64, u64)]) {
    see(rt, &found.len(), &pairs.len());
    for (found, (start, length)) in found.iter().zip(pairs) {
        see(rt, found, &extent(*start, *length));
    }
}

/// Sees how a page stands beside the one that is written here of its extents.
fn see_page_beside(
    rt: &impl Abort,
    alloc: Global,
    page: &Page,
    extents: &[Extent],
    there: &[u8],
) -> Result<(), Fail> {
    let (_, total, _, changes, differ) = page;
    let here = page_here(alloc, *total, *changes, extents)?;
    see_beside(rt, alloc, here.as_slice(), there, *differ)
}

/// Sees what is read of a page, and how it stands beside the one that is written here.
fn see_page(rt: &impl Abort, alloc: Global, page: &Page, there: &[u8]) -> Result<(), Fail> {
    let (_, total, pairs, _, _) = page;
    let read = read_extents(alloc, there)?;
    see(rt, &(read.total, read.generation), &(*total, 0));
    see_extents(rt, read.extents.as_slice(), *pairs);
    see_page_beside(rt, alloc, page, read.extents.as_slice(), there)
}

#[test]
fn pages_are_read_and_stand_beside_ours(rt: HostRuntime) -> Result<(), Fail> {
    for page in &PAGES {
        let there = bytes_of(rt.alloc(), page.0)?;
        see_page(&rt, rt.alloc(), page, there.as_slice())?;
    }
    Ok(())
}

/// The page of version 11.1.3 while one extent is offered and none is accepted: it has an extent of zeros.
const OFFERED_11: [&str; 2] = [
    "0100000000000000000000000000000000000000000000000000000000000000",
    "000000000000000000000000000000000000000000000000",
];

#[test]
fn an_offered_extent_is_read(rt: HostRuntime) -> Result<(), Fail> {
    let there = bytes_of(rt.alloc(), &OFFERED_11)?;
    let read = read_extents(rt.alloc(), there.as_slice())?;
    see(&rt, &read.total, &0);
    see_extents(&rt, read.extents.as_slice(), &[(0, 0)]);
    Ok(())
}

#[test]
fn an_offered_extent_is_in_no_page_of_ours(rt: HostRuntime) -> Result<(), Fail> {
    let there = bytes_of(rt.alloc(), &OFFERED_11)?;
    let here = page_here(rt.alloc(), 0, 0, &[])?;
    see(&rt, &(here.len(), there.len()), &(16, 56));
    let differ = differences(rt.alloc(), here.as_slice(), there.as_slice())?;
    see_list(&rt, differ.as_slice(), &[(0, 0, 1)]);
    Ok(())
}

/// The first region of that device.
const FIRST: RegionView = RegionView {
    base: 0x1000_0000,
    decode_units: 4,
    length: 0x4000_0000,
    block: 0x20_0000,
    handle: 1,
    flags: 0,
};

/// The second.
const SECOND: RegionView = RegionView {
    base: 0x5000_0000,
    decode_units: 4,
    length: 0x4000_0000,
    block: 0x20_0000,
    handle: 2,
    flags: 0,
};

/// Replies to 4800h of both versions, of all regions, of the second, and of none, and how they differ: in their last four
/// numbers. 64 extents and 32 tags are supported here, and 512 extents and no tag there.
static CONFIGURATIONS: [(&[RegionView], &[&str], &[Difference]); 3] = [
    (
        &[FIRST, SECOND],
        &[
            "0202000000000000000000100000000004000000000000000000004000000000",
            "0000200000000000010000000000000000000050000000000400000000000000",
            "0000004000000000000020000000000002000000000000000002000000020000",
            "0000000000000000",
        ],
        &[
            (88, 64, 0),
            (89, 0, 2),
            (92, 64, 0),
            (93, 0, 2),
            (96, 32, 0),
            (100, 32, 0),
        ],
    ),
    (
        &[SECOND],
        &[
            "0201000000000000000000500000000004000000000000000000004000000000",
            "0000200000000000020000000000000000020000000200000000000000000000",
        ],
        &[
            (48, 64, 0),
            (49, 0, 2),
            (52, 64, 0),
            (53, 0, 2),
            (56, 32, 0),
            (60, 32, 0),
        ],
    ),
    (
        &[],
        &["020000000000000000020000000200000000000000000000"],
        &[
            (8, 64, 0),
            (9, 0, 2),
            (12, 64, 0),
            (13, 0, 2),
            (16, 32, 0),
            (20, 32, 0),
        ],
    ),
];

/// The reply to 4800h that is written here.
fn configuration_here(alloc: Global, regions: &[RegionView]) -> Result<Bytes, Fail> {
    if regions.len() > 8 {
        return Err("a device has at most 8 regions".into());
    }
    let counts = Counts {
        extents: 64,
        extents_available: 64,
        tags: 32,
        tags_available: 32,
    };
    let mut out = Bytes::new(alloc);
    write_configuration(2, regions, &counts, &mut out)?;
    Ok(out)
}

/// Sees how both replies of some regions differ.
fn see_configuration(
    rt: &impl Abort,
    alloc: Global,
    regions: &[RegionView],
    lines: &[&str],
    differ: &[Difference],
) -> Result<(), Fail> {
    let there = bytes_of(alloc, lines)?;
    let here = configuration_here(alloc, regions)?;
    see_beside(rt, alloc, here.as_slice(), there.as_slice(), differ)
}

#[test]
fn configurations_differ_in_their_counts(rt: HostRuntime) -> Result<(), Fail> {
    for (regions, lines, differ) in &CONFIGURATIONS {
        see_configuration(&rt, rt.alloc(), *regions, *lines, *differ)?;
    }
    Ok(())
}

/// The reply of version 11.1.3 to 5603h, where host 0 has accepted two extents.
const LISTS_11: [&str; 4] = [
    "0000000000000000020000000200000000000000000000000000001000000000",
    "0000800000000000000000000000000000000000000000000000000000000000",
    "0000001100000000000020000000000000000000000000000000000000000000",
    "0000000000000000",
];

/// The reply to 5603h that is written here.
fn list_here(alloc: Global) -> Result<Bytes, NoMemory> {
    let mut here = Bytes::from_slice(alloc, &lists_head(0, 0, 2, 2, 1))?;
    here.extend_from_slice(&extent_bytes(&extent(0x1000_0000, 0x80_0000)))?;
    here.extend_from_slice(&extent_bytes(&extent(0x1100_0000, 0x20_0000)))?;
    Ok(here)
}

#[test]
fn a_list_for_the_manager_differs_in_its_changes(rt: HostRuntime) -> Result<(), Fail> {
    let there = bytes_of(rt.alloc(), &LISTS_11)?;
    let here = list_here(rt.alloc())?;
    see_beside(
        &rt,
        rt.alloc(),
        here.as_slice(),
        there.as_slice(),
        &[(16, 1, 0)],
    )
}
