//! What refusals and failures are called.

use crate::seeing::see_text;
use dcd_base::{AccessFault, Failed, NoMemory};
use dcd_codes::{Rule, code_of};
use extent_list::TooMany;
use std::test::Fail;

const REFUSALS: &str = "Invalid Extent List; the list would have 3 extents";

#[test]
fn refusals_are_printed_in_words(rt: HostRuntime) -> Result<(), Fail> {
    let code = code_of(&Rule::Overlap { index: 1, with: 0 });
    let text = format!(in rt.alloc(); "{code}; {}", TooMany(3))?;
    see_text(&rt, text.as_str(), REFUSALS);
    Ok(())
}

const FAILURES: &str = "out of memory; a read or a write failed; the address is no multiple of 8";

#[test]
fn failures_are_printed_in_words(rt: HostRuntime) -> Result<(), Fail> {
    let fault = AccessFault::Misaligned;
    let text = format!(in rt.alloc(); "{}; {}; {fault}", NoMemory, Failed)?;
    see_text(&rt, text.as_str(), FAILURES);
    Ok(())
}
