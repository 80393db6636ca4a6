//! The generated script, written and run as any other.

use crate::seeing::see;
use dcd_base::{Bytes, MemSink, MemSource, NoGate, NoMemory};
use script_runner::script_codec::write;
use script_runner::script_gen::generate;
use script_runner::{Status, run};
use std::alloc::{AllocGlobal, Global};
use std::sync::Wait;
use std::test::Fail;
use std::thread::Threads;

/// The last lines, behind the records of the manager's log.
const END: &[u8] = b"\ngranules free 224 dirty 0\nend 37115\n";

/// What a run of the script by the words comes to, which prints to the sink.
fn printed<R: Threads + Wait + Sync + AllocGlobal>(
    rt: &R,
    words: &[String],
    script: &Bytes,
    sink: &mut MemSink,
) -> Result<Status, NoMemory> {
    let alloc = rt.alloc();
    let mut source = MemSource::new(script.copy()?, 4096, Vec::new(alloc));
    Ok(run(rt, alloc, words, &mut source, sink, &NoGate))
}

/// The generated script as bytes.
fn generated(alloc: Global) -> Result<Bytes, Fail> {
    let mut script = Bytes::new(alloc);
    write(&generate(alloc, 5)?, &mut script)?;
    Ok(script)
}

/// What a run of the script comes to, and whether the end of it is printed.
fn to_the_end<R: Threads + Wait + Sync + AllocGlobal>(
    rt: &R,
    words: &[String],
    script: &Bytes,
) -> Result<(Status, bool), NoMemory> {
    let mut sink = MemSink::new(rt.alloc(), 20_000, Vec::new(rt.alloc()));
    let status = printed(rt, words, script, &mut sink)?;
    Ok((status, sink.taken().as_slice().ends_with(END)))
}

/// What a run of the script comes to, and how much is printed, where the third write fails.
fn to_the_fault<R: Threads + Wait + Sync + AllocGlobal>(
    rt: &R,
    words: &[String],
    script: &Bytes,
) -> Result<(Status, usize), NoMemory> {
    let fails = Vec::from_slice(rt.alloc(), &[3])?;
    let mut sink = MemSink::new(rt.alloc(), 20_000, fails);
    let status = printed(rt, words, script, &mut sink)?;
    Ok((status, sink.taken().len()))
}

/// The word that asks for a mode.
pub fn word_of(alloc: Global, mode: &str) -> Result<Vec<String>, Fail> {
    let mut words = Vec::new(alloc);
    words.push(String::from_str(alloc, mode)?)?;
    Ok(words)
}

#[test]
fn the_written_script_is_printed_in_pieces_of_4096_bytes(rt: HostRuntime) -> Result<(), Fail> {
    let script = generated(rt.alloc())?;
    for mode in ["--mode=serial", "--mode=threads"] {
        let words = word_of(rt.alloc(), mode)?;
        let end = to_the_end(&rt, words.as_slice(), &script)?;
        see(&rt, &end, &(Status::Done, true));
        let fault = to_the_fault(&rt, words.as_slice(), &script)?;
        see(&rt, &fault, &(Status::WriteFault, 8192));
    }
    Ok(())
}
