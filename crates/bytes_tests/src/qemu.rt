//! What QEMU's device wrote, in the versions 10.0.13 and 11.1.3, when it was asked through its mailboxes. The tests of
//! `qemu_records`, `qemu_replies` and `qemu_messages` read it, and put it beside what is written here for the same steps.
//! Texts are hexadecimal, 32 bytes a line.

use crate::seeing::{see, see_list};
use dcd_base::{Bytes, Extent, no_tag};
use std::alloc::Global;
use std::process::Abort;
use std::test::Fail;

/// A place, the byte here, and the byte of QEMU.
pub(crate) type Difference = (usize, u8, u8);

/// The bytes of some lines of digits.
pub(crate) fn bytes_of(alloc: Global, lines: &[&str]) -> Result<Bytes, Fail> {
    let mut bytes = Bytes::new(alloc);
    for line in lines {
        bytes.extend_from_slice(hex::decode(alloc, *line)?.as_slice())?;
    }
    Ok(bytes)
}

/// Where bytes differ, as far as both go.
pub(crate) fn differences(
    alloc: Global,
    here: &[u8],
    there: &[u8],
) -> Result<Vec<Difference>, Fail> {
    let mut found = Vec::new(alloc);
    for place in 0..here.len().min(there.len()) {
        if here[place] != there[place] {
            found.push((place, here[place], there[place]))?;
        }
    }
    Ok(found)
}

/// Sees that bytes are as many, and differ just so.
pub(crate) fn see_beside(
    rt: &impl Abort,
    alloc: Global,
    here: &[u8],
    there: &[u8],
    differ: &[Difference],
) -> Result<(), Fail> {
    see(rt, &here.len(), &there.len());
    see_list(rt, differences(alloc, here, there)?.as_slice(), differ);
    Ok(())
}

/// An extent without a tag.
pub(crate) fn extent(start: u64, length: u64) -> Extent {
    Extent {
        start,
        length,
        tag: no_tag(),
        sequence: 0,
    }
}
