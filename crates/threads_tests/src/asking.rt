//! Calls of a device by one of its passes. Where memory is wanted or the turn is another's, nothing has to have changed; for
//! want of memory the call is made once more.

ghost use Rattle.journal_core.specs.Entries.{fits as fits_of};
ghost use Rattle.script_runner.specs.shared_device.specs.Passing.{IsOneOf, IsSamePass, pass_actor, pass_calls};
ghost use Rattle.threads_tests.specs.Hosting.{IsHostOf, hosts_at};
ghost use Rattle.std.specs.Prelude.{◌≡◌, ◌^◌, ◌<◌, IsTrue, OnOk, length};

use crate::told::{Told, told_by, tried_by};
use crate::trouble::Trouble;
use dcd_base::{Actor, Stamp};
use journal_core::{Act, fits};
use script_runner::shared_device::{Moment, Pass, Shared};
use std::sync::Wait;

/// The stamp of the last call of the pass, and how many it has made.
fn state_of(pass: &Pass) -> (Stamp, u64) {
    (pass.seen(), pass.calls())
}

/// The pass has room for one call more.
#[tactic(auto, using(crate::proofs::Passes::calls_counted))]
fn has_room(pass: &Pass) -> Result<(), Trouble>
    ensures { OnOk result (length (pass_calls pass.now) < 2 ^ 32) }
{
    if pass.calls() < 1 << 32 {
        Ok(())
    } else {
        Err(Trouble::Unfit)
    }
}

/// The actor of the pass may do the act on a device of two hosts.
fn may(pass: &Pass, act: &Act) -> Result<(), Trouble>
    ensures { OnOk result (IsTrue (fits_of 2 (pass_actor pass.now) act.now)) }
{
    if fits(2, &pass.actor(), act) {
        Ok(())
    } else {
        Err(Trouble::Unfit)
    }
}

#[tactic(auto, using(crate::proofs::Passes::is_host))]
fn of_a_host(pass: &Pass) -> Result<(), Trouble>
    ensures { OnOk result (IsHostOf 2 (pass_actor pass.now)) }
{
    match pass.actor() {
        Actor::Host(host) => if host.0 < 2 {
            Ok(())
        } else {
            Err(Trouble::Unfit)
        },
        _ => Err(Trouble::Unfit),
    }
}

/// A step by a call that waits for its turn.
#[tactic(auto, using(crate::proofs::Passes::may_step, crate::proofs::Passes::may_access))]
fn wait_once<R: Wait, M: Moment>(
    rt: &R,
    shared: &Shared,
    pass: &mut Pass,
    line: u32,
    act: &Act,
    moment: &M,
) -> Result<Told, Trouble>
    requires of { IsOneOf shared.now pass.old }
    requires hosts { hosts_at shared.now ≡ 2 }
    ensures same { IsSamePass shared.now pass.old pass.new }
{
    has_room(pass)?;
    may(pass, act)?;
    let reply = match act {
        Act::Command(_) | Act::Scrub(_) => shared.command(rt, pass, line, act)?,
        Act::Load(_) | Act::Store(_, _) => shared.access(rt, pass, line, act, moment)?,
    };
    Ok(told_by(&reply))
}

/// A load or a store by a call that waits for nobody.
#[tactic(auto, using(crate::proofs::Passes::may_try))]
fn try_once(shared: &Shared, pass: &mut Pass, line: u32, act: &Act) -> Result<Told, Trouble>
    requires of { IsOneOf shared.now pass.old }
    requires hosts { hosts_at shared.now ≡ 2 }
    ensures same { IsSamePass shared.now pass.old pass.new }
{
    has_room(pass)?;
    of_a_host(pass)?;
    match act {
        Act::Load(dpa) => tried_by(shared.try_load(pass, line, *dpa)),
        Act::Store(dpa, value) => tried_by(shared.try_store(pass, line, *dpa, *value)),
        _ => Err(Trouble::Unfit),
    }
}

/// A step, asked for once.
fn ask_once<R: Wait, M: Moment>(
    rt: &R,
    shared: &Shared,
    pass: &mut Pass,
    line: u32,
    act: &Act,
    moment: Option<&M>,
) -> Result<Told, Trouble>
    requires of { IsOneOf shared.now pass.old }
    requires hosts { hosts_at shared.now ≡ 2 }
    ensures same { IsSamePass shared.now pass.old pass.new }
{
    match moment {
        Some(moment) => wait_once(rt, shared, pass, line, act, moment),
        None => try_once(shared, pass, line, act),
    }
}

/// A step; one that has no moment waits for nobody.
#[tactic(auto, using(crate::proofs::Passes::same_again))]
pub fn ask<R: Wait, M: Moment>(
    rt: &R,
    shared: &Shared,
    pass: &mut Pass,
    line: u32,
    act: &Act,
    moment: Option<&M>,
) -> Result<Told, Trouble>
    requires of { IsOneOf shared.now pass.old }
    requires hosts { hosts_at shared.now ≡ 2 }
    ensures same { IsSamePass shared.now pass.old pass.new }
{
    let before = state_of(pass);
    let told = ask_once(rt, shared, pass, line, act, moment);
    let is_busy = matches!(told, Ok(Told::Busy(_)));
    if told.is_ok() && !is_busy {
        return told;
    }
    if state_of(pass) != before {
        return Err(Trouble::Changed);
    }
    if told != Err(Trouble::NoMemory) {
        return told;
    }
    ask_once(rt, shared, pass, line, act, moment)
}
