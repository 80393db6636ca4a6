//! A script that comes in pieces, and a source that fails behind a fault of the script.

use crate::cuts::WHOLE;
use crate::gates::bytes_of;
use crate::seeing::{see, see_list};
use crate::written::word_of;
use dcd_base::{Bytes, MemSink, MemSource, NoGate};
use script_runner::{Status, run};
use std::alloc::AllocGlobal;
use std::process::Abort;
use std::sync::Wait;
use std::test::Fail;
use std::thread::Threads;

/// The text of the script, as `examples/get-configuration.txt` has it.
const TEXT: &str =
    "dcd 1\n1 1 h0 cmd 012a0000484000000000000002010000000000000000001000000000010000000000000000004000000000000000100000000000010000000100000040000000400000002000000020000000\nhost h0 extents 0 granules 0 log 0\nhost h1 extents 0 granules 0 log 0\nfm log 0 missed 0\ngranules free 20 dirty 0\nend 1\n";

/// Where the first line begins.
const HEAD: usize = 128;

/// The script with the kind of its line changed.
fn with_kind(script: &Bytes, kind: u8) -> Result<Bytes, Fail> {
    let mut bytes = script.copy()?.into_vec();
    if HEAD < bytes.len() {
        bytes[HEAD] = kind;
    }
    Ok(Bytes::from_vec(script.allocator(), bytes))
}

/// Sees how the serial run of the script ends and what it prints, where the source gives so many bytes a call and fails at these.
fn see_run<R: Threads + Wait + Sync + AllocGlobal + Abort>(
    rt: &R,
    script: &Bytes,
    most: usize,
    fails: &[u64],
    status: Status,
    text: &str,
) -> Result<(), Fail> {
    let alloc = rt.alloc();
    let words = word_of(alloc, "--mode=serial")?;
    let fails = Vec::from_slice(alloc, fails)?;
    let mut source = MemSource::new(script.copy()?, most.max(1), fails);
    let mut sink = MemSink::new(alloc, 4096, Vec::new(alloc));
    let found = run(rt, alloc, words.as_slice(), &mut source, &mut sink, &NoGate);
    see(rt, &found, &status);
    see_list(rt, sink.taken().as_slice(), text.as_bytes());
    Ok(())
}

#[test]
fn a_script_may_come_in_any_pieces(rt: HostRuntime) -> Result<(), Fail> {
    let script = bytes_of(rt.alloc(), &WHOLE)?;
    for most in 1..148 {
        see_run(&rt, &script, most, &[], Status::Done, TEXT)?;
    }
    Ok(())
}

#[test]
fn a_failed_read_comes_before_a_fault(rt: HostRuntime) -> Result<(), Fail> {
    let script = with_kind(&bytes_of(rt.alloc(), &WHOLE)?, 6)?;
    let fault = Status::ScriptRefused(script_runner::script_codec::ScriptFault::UnknownKind(128));
    see_run(&rt, &script, 16, &[], fault, "script refused: 5 at 128\n")?;
    for call in 1..12 {
        see_run(&rt, &script, 16, &[call], Status::ReadFault, "")?;
    }
    see_run(&rt, &script, 16, &[12], fault, "script refused: 5 at 128\n")
}
