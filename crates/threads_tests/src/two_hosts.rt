//! A device of two hosts with all its passes.

ghost use Rattle.threads_tests.specs.Hosting.{AreByNumber, hosts_at};
ghost use Rattle.std.specs.Prelude.{◌≡◌, IfOk};

use crate::asking::ask;
use crate::lines::Ask;
use crate::told::Told;
use crate::trouble::Trouble;
use dcd_base::NoGate;
use journal_core::Act;
use region_config::{Config, RegionSpec};
use script_runner::shared_device::{Pass, Shared};
use std::alloc::Global;
use std::sync::Wait;

/// 1 MiB.
pub const M: u64 = 0x10_0000;

/// Where region 1 begins for host 0 and region 0 for host 1.
pub const BASE: u64 = 0x1000_0000;

/// The number of the pass of host 0.
pub const H0: usize = 0;

/// The number of the pass of host 1.
pub const H1: usize = 1;

/// The number of the pass of the Fabric Manager.
pub const FM: usize = 2;

/// The number of the pass of the sanitizer.
pub const SZ: usize = 3;

/// A device of two hosts with one lane each, and all its passes. It can only be taken apart.
pub struct TwoHosts {
    pub shared: Shared,
    pub passes: Vec<Pass>,
    ghost hosts: { hosts_at shared ≡ 2 },
    ghost all: { AreByNumber shared passes.items },
}

/// A region of blocks of 1 MiB that sanitizes.
fn region(length: u64, handle: u32, shareable: bool) -> RegionSpec {
    RegionSpec {
        decode_units: 1,
        length,
        block: M,
        sizes: M,
        handle,
        sanitize: true,
        shareable,
    }
}

/// Two hosts and regions of 16 and 4 MiB, of which the second can be shared; granules have 1 MiB.
fn config(alloc: Global) -> Result<Config, Trouble>
    ensures { IfOk result (λ c. c.hosts ≡ 2) }
{
    let regions = [region(16 * M, 0, false), region(4 * M, 1, true)];
    Ok(Config::new(alloc, 2, &regions, &[0, BASE, BASE, 2 * BASE])?)
}

/// A line of a conversation: the number of the pass, what it asks, and what is told.
pub type Line = (usize, Ask, Told);

impl TwoHosts {
    /// A fresh device.
    pub fn start(alloc: Global) -> Result<TwoHosts, Trouble> {
        let (shared, passes) = Shared::start(alloc, config(alloc)?, 1)?;
        Ok(TwoHosts { shared, passes })
    }

    /// A step by the pass of this number, which waits for its turn or does not.
    #[tactic(auto, using(crate::proofs::Passes::one_at, crate::proofs::Passes::all_after))]
    fn asks<R: Wait>(
        &mut self,
        rt: &R,
        number: usize,
        line: u32,
        act: &Act,
        waits: bool,
    ) -> Result<Told, Trouble> {
        if number >= self.passes.len() {
            return Err(Trouble::Count);
        }
        let moment = if waits { Some(&NoGate) } else { None };
        ask(
            rt,
            &self.shared,
            &mut self.passes[number],
            line,
            act,
            moment,
        )
    }

    /// What is told to a line with this number.
    fn told_to<R: Wait>(
        &mut self,
        rt: &R,
        alloc: Global,
        number: u32,
        line: &Line,
    ) -> Result<Told, Trouble> {
        let (pass, ask, _) = line;
        let act = ask.act(alloc)?;
        self.asks(rt, *pass, number, &act, ask.waits())
    }

    /// Has the conversation; its lines are numbered from 1. The first line that is told something else, and what.
    pub fn play<R: Wait>(
        &mut self,
        rt: &R,
        alloc: Global,
        lines: &[Line],
    ) -> Result<Option<(u32, Told)>, Trouble> {
        let mut number = 0u32;
        for line in lines {
            number = number.wrapping_add(1);
            let told = self.told_to(rt, alloc, number, line)?;
            if told != line.2 {
                return Ok(Some((number, told)));
            }
        }
        Ok(None)
    }
}
