//! The programs that conversations are with.

use dcd_base::{MemSink, MemSource, NoGate};
use explainer::journal_check::run_check;
use explainer::run as run_text;
use host_driver::run_driver;
use pool_planner::run_plan;
use script_runner::{chosen, run};
use std::alloc::{AllocGlobal, Global};
use std::io::{self, ErrorKind};
use std::sync::Wait;
use std::thread::Threads;
use tunnel_fabric::run_fabric;

/// A program that reads a script from a source and writes a text to a sink.
#[derive(Clone, Copy, Debug, PartialEq, Eq)]
pub(crate) enum Program {
    /// Runs a script, or a generated one without reading.
    Dcdsim,
    /// Turns texts into scripts, scripts into texts, and what a run printed into words.
    Dcdtext,
    /// Drives one host over a script.
    HostDriver,
    /// Checks a printed text against a script.
    JournalCheck,
    /// Lists the commands that lead from what hosts hold to what is demanded.
    PoolPlanner,
    /// Runs several devices behind a tunnel.
    TunnelFabric,
}

impl Program {
    /// The program of this name, `dcdsim` where there is none.
    pub(crate) fn named(name: &str) -> io::Result<Program> {
        match name.trim() {
            "" | "dcdsim" => Ok(Program::Dcdsim),
            "dcdtext" => Ok(Program::Dcdtext),
            "host_driver" => Ok(Program::HostDriver),
            "journal_check" => Ok(Program::JournalCheck),
            "pool_planner" => Ok(Program::PoolPlanner),
            "tunnel_fabric" => Ok(Program::TunnelFabric),
            _ => Err(io::Error::from(ErrorKind::InvalidData)),
        }
    }

    /// Runs it by these words, and answers its exit status.
    pub(crate) fn run<R: Threads + Wait + Sync + AllocGlobal>(
        self,
        rt: &R,
        alloc: Global,
        words: &[String],
        source: &mut MemSource,
        sink: &mut MemSink,
    ) -> u8 {
        match self {
            Program::Dcdsim => run(rt, alloc, words, source, sink, &NoGate).number(),
            Program::Dcdtext => run_text(alloc, words, source, sink).number(),
            Program::HostDriver => run_driver(alloc, words, source, sink).number(),
            Program::JournalCheck => run_check(alloc, words, source, sink).number(),
            Program::PoolPlanner => run_plan(alloc, words, source, sink).number(),
            Program::TunnelFabric => run_fabric(alloc, words, source, sink).number(),
        }
    }

    /// Whether it reads its source in a run by these words that ends with this status.
    pub(crate) fn reads(self, words: &[String], status: u8) -> bool {
        match self {
            Program::Dcdsim => match chosen(words) {
                Some(choice) => choice.seed.is_none(),
                None => false,
            },
            Program::Dcdtext
            | Program::HostDriver
            | Program::JournalCheck
            | Program::PoolPlanner
            | Program::TunnelFabric => status != USAGE,
        }
    }

    /// How few bytes a write takes at least that may take so many, but for the last one.
    pub(crate) fn least_written(self, most: usize) -> usize {
        match self {
            Program::Dcdsim
            | Program::Dcdtext
            | Program::HostDriver
            | Program::JournalCheck
            | Program::PoolPlanner => most,
            Program::TunnelFabric => 1,
        }
    }
}

/// The exit status after words that are refused.
const USAGE: u8 = 2;
