//! A driver over a device, in turns with the others.

ghost use Rattle.device_plain.specs.Devices.{Appends};
ghost use Rattle.host_driver.specs.Journals.{IsDrive, is_at_rest, is_fitting};
ghost use Rattle.host_driver.specs.Running.{EndsSpelled, GoInTurns, HasLine, HasLines};
ghost use Rattle.device_plain.specs.isolation_laws.specs.Solo.{acts_for};
ghost use Rattle.journal_core.specs.Entries.{fits};
ghost use Rattle.report.specs.script_codec.specs.Covering.{pass_of};
ghost use Rattle.report.specs.script_codec.specs.declared.script_line.Line.{Line};
ghost use Rattle.std.specs.List.{list_all};
ghost use Rattle.std.specs.Prelude.{◌≡◌, ◌<◌, ◌^◌, [], IfOk, IsFalse, IsTrue, OnOk, length, ℕ};

use crate::driver::Driver;
use crate::settling::settle;
use crate::spelling::ends_spelled;
use dcd_base::{Actor, HostId, NoMemory};
use device_plain::Device;
use journal_core::Act;
use region_config::Config;
use report::script_codec::{Line, Lines, pass_of};
use std::alloc::Global;

/// Whether the actor is this host.
fn is_of(actor: &Actor, host: HostId) -> bool
    ensures { result ≡ acts_for host actor.now }
{
    match actor {
        Actor::Host(other) => other.0 == host.0,
        Actor::Manager => false,
        Actor::Sanitizer => false,
    }
}

/// Steps an act of a line.
fn enter_act(device: &mut Device, line: u32, actor: Actor, act: Act) -> Result<(), NoMemory>
    requires { IsTrue (fits device.old.config.hosts actor act) }
    ensures entered { OnOk result (Appends device.old device.new (pass_of device.old.config.hosts 1 actor 0) line actor act) }
    ensures spelled { OnOk result (EndsSpelled device.new) }
{
    let hosts = device.control().first_config().hosts();
    let pass = pass_of(hosts, 1, &actor, 0);
    device.enter(pass, line, actor, act)?;
    ends_spelled(device);
    Ok(())
}

/// Steps an act of one of the others, and then the driver until it is idle.
fn take_turn(
    device: &mut Device,
    driver: &mut Driver,
    line: u32,
    actor: Actor,
    act: Act,
) -> Result<(), NoMemory>
    requires turns { GoInTurns driver.old.host driver.old.most device.old driver.old }
    requires rest { IsTrue (is_at_rest driver.old.host driver.old.most device.old.journal) }
    requires other { IsFalse (acts_for driver.old.host actor) }
    requires fits { IsTrue (fits device.old.config.hosts actor act) }
    ensures line { (lane : ℕ) → OnOk result (HasLine driver.old.host driver.old.most (line, Line.Do actor lane act) device.old device.new driver.new) }
    ensures rest { OnOk result (IsTrue (is_at_rest driver.old.host driver.old.most device.new.journal)) }
{
    enter_act(device, line, actor, act)?;
    settle(device, driver)?;
    Ok(())
}

/// Steps an act of a line, if it is of one of the others, and then the driver.
fn run_act(
    device: &mut Device,
    driver: &mut Driver,
    line: u32,
    actor: &Actor,
    act: &Act,
) -> Result<(), NoMemory>
    requires turns { GoInTurns driver.old.host driver.old.most device.old driver.old }
    requires rest { IsTrue (is_at_rest driver.old.host driver.old.most device.old.journal) }
    requires fits { IsTrue (fits device.old.config.hosts actor.now act.now) }
    ensures line { (lane : ℕ) → OnOk result (HasLine driver.old.host driver.old.most (line, Line.Do actor.now lane act.now) device.old device.new driver.new) }
    ensures rest { OnOk result (IsTrue (is_at_rest driver.old.host driver.old.most device.new.journal)) }
{
    if is_of(actor, driver.host()) {
        Ok(())
    } else {
        let act = act.copy()?;
        take_turn(device, driver, line, *actor, act)?;
        Ok(())
    }
}

/// Steps a line of the others, if it is one, and then the driver.
fn run_line(
    device: &mut Device,
    driver: &mut Driver,
    number: u32,
    line: &Line,
) -> Result<(), NoMemory>
    requires turns { GoInTurns driver.old.host driver.old.most device.old driver.old }
    requires rest { IsTrue (is_at_rest driver.old.host driver.old.most device.old.journal) }
    requires fits { IsTrue (is_fitting device.old.config.hosts line.now) }
    ensures line { OnOk result (HasLine driver.old.host driver.old.most (number, line.now) device.old device.new driver.new) }
    ensures rest { OnOk result (IsTrue (is_at_rest driver.old.host driver.old.most device.new.journal)) }
{
    match line {
        Line::Do {
            actor,
            lane: _,
            act,
        } => {
            run_act(device, driver, number, actor, act)?;
            Ok(())
        }
        Line::Mark => Ok(()),
    }
}

/// Steps the lines of all others in order, and the driver behind each of them.
fn run_all(device: &mut Device, driver: &mut Driver, lines: &[Line]) -> Result<(), NoMemory>
    requires begun { HasLines device.old.config driver.old.host driver.old.most [] device.old driver.old }
    requires fitting { IsTrue (list_all (is_fitting device.old.config.hosts) lines.now) }
    requires few { length lines.now < 2 ^ 32 }
    ensures { OnOk result (HasLines device.old.config driver.old.host driver.old.most lines.now device.new driver.new) }
{
    let mut number = 0;
    for line in lines {
        number += 1;
        run_line(device, driver, number, line)?;
    }
    Ok(())
}

/// Steps the lines of all others in order on a fresh device, and behind each of them the requests of the host's driver,
/// at least one, until it is idle. Lines of that host and marks are passed over; lines are numbered from 1, those among
/// them.
///
/// The driver's entries have the line 0. The acts of the lines fit their actors on this device.
pub fn drive(
    alloc: Global,
    config: Config,
    lines: &Lines,
    host: HostId,
    most: u64,
) -> Result<(Device, Driver), NoMemory>
    requires known { host < config.hosts }
    requires fitting { IsTrue (list_all (is_fitting config.hosts) lines.now) }
    requires few { length lines.now < 2 ^ 32 }
    ensures config { IfOk result (λ made. made.0.config ≡ config) }
    ensures drive { IfOk result (λ made. IsDrive config lines.now host most made.0.journal made.1.driven.table) }
{
    let mut device = Device::new(alloc, config)?;
    let mut driver = Driver::new(alloc, host, most);
    run_all(&mut device, &mut driver, lines.as_slice())?;
    // A configuration is sound.
    let _hosts = device.control().first_config().hosts();
    Ok((device, driver))
}
