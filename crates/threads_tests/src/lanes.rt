//! Two lanes of a host that store to one word.

use crate::gates::{bytes_of, ends};
use crate::seeing::see;
use crate::written::word_of;
use dcd_base::{MemSink, NoGate};
use script_runner::Status;
use std::alloc::AllocGlobal;
use std::sync::Wait;
use std::test::Fail;
use std::thread::Threads;

/// A script in hexadecimal digits, as `docs/formats.md` has its bytes: host 0 has two lanes and two blocks, line 5 stores 5
/// at address 0, line 6, of the other lane, stores 6 there, and line 8 loads it. Marks part the rest.
const STORES: [&str; 5] = [
    "44434453020000000202020000000000010000000000000000000001000000000000100000000000000010000000000000000000010000000100000000000000",
    "00004000000000000000100000000000000010000000000001000000030000000000000000000000000000100000000000000010000000000000002000000000",
    "01fe5400000000045648000000000000000002000000000000000000000000000000000000000000000000000100000000000000000000000000200000000000",
    "0000000000000000000000000000000000000000000000000501002c000000000248200000000000000100000000000000000000000000000000002000000000",
    "00000000000000000005030000000000000000000500000000000000031000000000000000000600000000000000050210000000000000000000",
];

/// What is printed of the run by the word.
fn text_of<R: Threads + Wait + Sync + AllocGlobal>(
    rt: &R,
    word: &str,
    sink: &mut MemSink,
) -> Result<Status, Fail> {
    let script = bytes_of(rt.alloc(), &STORES)?;
    let words = word_of(rt.alloc(), word)?;
    Ok(ends(rt, words.as_slice(), script, &NoGate, sink))
}

/// Whether the load is told the word of the store that is printed last.
fn last_is_loaded(text: &str) -> bool {
    match (text.find(" 5 h0 st ok"), text.find(" 6 h0 st ok")) {
        (Some(five), Some(six)) if five < six => text.contains(" 8 h0 ld 0000000000000006\n"),
        (Some(_), Some(_)) => text.contains(" 8 h0 ld 0000000000000005\n"),
        _ => false,
    }
}

/// How the run by the word ends, and whether its load is told the word that was stored last.
fn loads<R: Threads + Wait + Sync + AllocGlobal>(
    rt: &R,
    word: &str,
) -> Result<(Status, bool), Fail> {
    let mut sink = MemSink::new(rt.alloc(), 4096, Vec::new(rt.alloc()));
    let status = text_of(rt, word, &mut sink)?;
    let text = str::from_utf8(sink.taken().as_slice())?;
    Ok((status, last_is_loaded(text)))
}

#[test]
fn a_load_is_told_the_store_that_is_printed_last(rt: HostRuntime) -> Result<(), Fail> {
    see(&rt, &loads(&rt, "--mode=serial")?, &(Status::Done, true));
    see(&rt, &loads(&rt, "--mode=threads")?, &(Status::Done, true));
    Ok(())
}
