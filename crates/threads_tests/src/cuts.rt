//! A script that is cut anywhere.

use crate::gates::{bytes_of, ends};
use crate::seeing::{see, see_list};
use crate::written::word_of;
use dcd_base::{Bytes, MemSink, NoGate};
use std::alloc::AllocGlobal;
use std::process::Abort;
use std::sync::Wait;
use std::test::Fail;
use std::thread::Threads;

/// The 147 bytes of `examples/get-configuration.dcds` in hexadecimal digits.
pub const WHOLE: [&str; 3] = [
    "44434453010000000202000000000000010000000000000000000001000000000000100000000000000010000000000000000000010000000100000000000000",
    "00004000000000000000100000000000000010000000000001000000030000000000000000000000000000100000000000000010000000000000002000000000",
    "01000e00002a00004802000000000000080100",
];

/// Sees that these bytes, a front of a script, are refused at their end.
fn see_refused<R: Threads + Wait + Sync + AllocGlobal + Abort>(
    rt: &R,
    words: &[String],
    front: &[u8],
) -> Result<(), Fail> {
    let alloc = rt.alloc();
    let script = Bytes::from_slice(alloc, front)?;
    let mut sink = MemSink::new(alloc, 16, Vec::new(alloc));
    let status = ends(rt, words, script, &NoGate, &mut sink);
    see(rt, &status.number(), &3);
    let line = format!(in alloc; "script refused: 4 at {}\n", front.len())?;
    see_list(rt, sink.taken().as_slice(), line.as_bytes());
    Ok(())
}

#[test]
fn a_cut_script_is_refused_at_its_end(rt: HostRuntime) -> Result<(), Fail> {
    let script = bytes_of(rt.alloc(), &WHOLE)?;
    see(&rt, &script.len(), &147);
    for mode in ["--mode=serial", "--mode=threads"] {
        let words = word_of(rt.alloc(), mode)?;
        for length in 0..script.len() {
            see_refused(&rt, words.as_slice(), &script.as_slice()[..length])?;
        }
    }
    Ok(())
}
