//! The work of the passes of a shared device.

ghost use Rattle.journal_core.specs.Entries.{fits as fits_of, is_control};
ghost use Rattle.shared_device.specs.Passing.{IsOneOf, pass_actor, pass_calls};
ghost use Rattle.std.specs.List.{All};
ghost use Rattle.std.specs.Prelude.{◌≡◌, ◌^◌, ◌<◌, IsTrue, OnOk, false, length};

use crate::asking::{accept, acts, done, offer};
use crate::hand::Hand;
use crate::job::{HOSTS, Job};
use dcd_base::{Actor, NoGate, NoMemory};
use journal_core::{Act, fits};
use shared_device::{Pass, Shared};
use std::alloc::Global;
use std::sync::Wait;
use std::thread::{Threads, for_each_mut};

/// A pass that has done nothing.
fn hand<'a>(shared: &'a Shared, pass: Pass) -> Hand<'a>
    requires of { IsOneOf shared.now pass }
    requires hosts { shared.now.config.hosts ≡ 16 }
{
    Hand {
        shared,
        pass,
        done: 0,
    }
}

/// The passes, each with the device.
pub fn hands_of<'a>(
    alloc: Global,
    shared: &'a Shared,
    passes: Vec<Pass>,
) -> Result<Vec<Hand<'a>>, NoMemory>
    requires of { All (λ p. IsOneOf shared.now p) passes.items }
    requires hosts { shared.now.config.hosts ≡ 16 }
{
    let mut hands = Vec::new(alloc);
    for pass in passes {
        hands.push(hand(shared, pass))?;
    }
    Ok(hands)
}

/// The pass has room for one call more.
#[tactic(auto, using(crate::proofs::Rights::calls_counted))]
fn has_room(pass: &Pass) -> Result<(), NoMemory>
    ensures { OnOk result (length (pass_calls pass.now) < 2 ^ 32) }
{
    if pass.calls() < 1 << 32 {
        Ok(())
    } else {
        Err(NoMemory)
    }
}

/// Its actor may do the act.
fn may(pass: &Pass, act: &Act) -> Result<(), NoMemory>
    ensures { OnOk result (IsTrue (fits_of 16 (pass_actor pass.now) act.now)) }
{
    if fits(HOSTS, &pass.actor(), act) {
        Ok(())
    } else {
        Err(NoMemory)
    }
}

impl Hand<'_> {
    /// A command or a scrub.
    #[tactic(auto, using(crate::proofs::Rights::may_step))]
    fn command<R: Wait>(&mut self, rt: &R, act: &Act) -> Result<(), NoMemory>
        requires { IsTrue (is_control act.now) }
    {
        has_room(&self.pass)?;
        may(&self.pass, act)?;
        let reply = self.shared.command(rt, &mut self.pass, self.done, act)?;
        done(&reply)
    }

    /// A load or a store.
    #[tactic(auto, using(crate::proofs::Rights::may_access))]
    fn access<R: Wait>(&mut self, rt: &R, act: &Act) -> Result<(), NoMemory>
        requires { is_control act.now ≡ false }
    {
        has_room(&self.pass)?;
        may(&self.pass, act)?;
        let reply = self
            .shared
            .access(rt, &mut self.pass, self.done, act, &NoGate)?;
        done(&reply)
    }

    /// A step.
    fn step<R: Wait>(&mut self, rt: &R, act: &Act) -> Result<(), NoMemory> {
        match act {
            Act::Command(_) => self.command(rt, act),
            Act::Scrub(_) => self.command(rt, act),
            Act::Load(_) => self.access(rt, act),
            Act::Store(_, _) => self.access(rt, act),
        }
    }

    /// If it is the manager's, it offers each host its granule.
    fn offers<R: Wait>(&mut self, rt: &R, alloc: Global, job: &Job) -> Result<(), NoMemory> {
        if self.pass.actor() != Actor::Manager {
            return Ok(());
        }
        for host in 0..HOSTS {
            self.step(rt, &offer(alloc, host, job.kind.granule(host))?)?;
        }
        Ok(())
    }

    /// If it is a host's, it accepts its granule.
    fn accepts<R: Wait>(&mut self, rt: &R, alloc: Global, job: &Job) -> Result<(), NoMemory> {
        match self.pass.actor() {
            Actor::Host(host) => self.step(rt, &accept(alloc, job.kind.granule(host.0))?),
            _ => Ok(()),
        }
    }

    /// Two acts in turns, until so many steps are done or one fails.
    fn turns<R: Wait>(&mut self, rt: &R, steps: u32, one: &Act, two: &Act) {
        for k in 0..steps {
            let act = if k % 2 == 0 { one } else { two };
            if self.step(rt, act).is_err() {
                return;
            }
            self.done = self.done.saturating_add(1);
        }
    }

    /// Its part of the job.
    fn works<R: Wait>(&mut self, rt: &R, alloc: Global, job: &Job) {
        let actor = self.pass.actor();
        if !job.kind.has(&actor) {
            return;
        }
        if let Ok((one, two)) = acts(alloc, job, &actor) {
            self.turns(rt, job.steps, &one, &two);
        }
    }
}

/// Each host gets its granule.
fn begin<R: Wait>(
    rt: &R,
    alloc: Global,
    job: &Job,
    hands: &mut [Hand<'_>],
) -> Result<(), NoMemory> {
    for k in 0..hands.len() {
        hands[k].offers(rt, alloc, job)?;
    }
    for k in 0..hands.len() {
        hands[k].accepts(rt, alloc, job)?;
    }
    Ok(())
}

/// How many steps were done.
fn steps_of(hands: &[Hand<'_>]) -> u64 {
    let mut steps = 0u64;
    for hand in hands {
        steps = steps.saturating_add(u64::from(hand.done));
    }
    steps
}

/// Does the job, with a thread for each pass where more than one works. How many steps were done.
pub fn work_all<R: Threads + Wait + Sync>(
    rt: &R,
    alloc: Global,
    job: &Job,
    hands: &mut [Hand<'_>],
) -> Result<u64, NoMemory> {
    begin(rt, alloc, job, hands)?;
    let threads = if job.kind.workers() == 1 {
        1
    } else {
        hands.len().max(1)
    };
    for_each_mut(rt, hands, threads, &|_, hand| hand.works(rt, alloc, job));
    Ok(steps_of(hands))
}
