//! The driver's own steps over a device.

ghost use Rattle.device_plain.specs.Devices.{Enters};
ghost use Rattle.host_driver.specs.Driving.{gives};
ghost use Rattle.host_driver.specs.Journals.{is_at_rest};
ghost use Rattle.host_driver.specs.Running.{EndsSpelled, GoInTurns, HasAsked, HasGone};
ghost use Rattle.host_driver.specs.Standing.{next_fault, taking, took_fault};
ghost use Rattle.journal_core.specs.Entries.{fits};
ghost use Rattle.region_config.specs.Soundness.{IsSound};
ghost use Rattle.report.specs.script_codec.specs.Covering.{pass_of};
ghost use Rattle.std.specs.Prelude.{◌≡◌, None, IfOk, IsFalse, IsTrue, OnOk, true};

use crate::driver::Driver;
use crate::faults::DriverFault;
use crate::spelling::ends_spelled;
use cci_codec::{Request, Response};
use dcd_base::{Actor, NoMemory};
use device_plain::Device;
use journal_core::{Act, Reply};
use report::script_codec::pass_of;

/// Steps an act that has no line, and answers its reply.
fn step_act(device: &mut Device, actor: Actor, act: &Act) -> Result<Reply, NoMemory>
    requires { IsTrue (fits device.old.config.hosts actor act.now) }
    ensures entered { IfOk result (Enters device.old device.new (pass_of device.old.config.hosts 1 actor 0) 0 actor act.now) }
    ensures spelled { OnOk result (EndsSpelled device.new) }
    ensures sound { OnOk result (IsSound device.old.config) }
{
    let hosts = device.control().first_config().hosts();
    let pass = pass_of(hosts, 1, &actor, 0);
    let reply = device.step(pass, 0, actor, act)?;
    ends_spelled(device);
    Ok(reply)
}

/// The next request of a driver that has none out.
fn next_request(driver: &mut Driver) -> Result<Request, NoMemory>
    requires { next_fault driver.old ≡ None }
    ensures request { IfOk result (λ q. q ≡ gives driver.old.most driver.old.driven) }
    ensures out { OnOk result (driver.new ≡ record driver.old { out = true }) }
{
    match driver.next() {
        Ok(request) => Ok(request),
        Err(DriverFault::NoMemory) => Err(NoMemory),
        Err(_) => unreachable!(),
    }
}

/// Hands a driver a response that has no fault.
fn take_response(driver: &mut Driver, response: &Response) -> Result<(), NoMemory>
    requires { took_fault driver.old response.now ≡ None }
    ensures { OnOk result (driver.new ≡ taking driver.old response.now) }
{
    match driver.took(response) {
        Ok(()) => Ok(()),
        Err(DriverFault::NoMemory) => Err(NoMemory),
        Err(_) => unreachable!(),
    }
}

/// Steps one request of the driver, and hands it the reply.
fn ask(device: &mut Device, driver: &mut Driver) -> Result<(), NoMemory>
    requires turns { GoInTurns driver.old.host driver.old.most device.old driver.old }
    requires busy { IsFalse (is_at_rest driver.old.host driver.old.most device.old.journal) }
    ensures { OnOk result (HasAsked driver.old.host driver.old.most device.old device.new driver.new) }
{
    let request = next_request(driver)?;
    let act = Act::Command(request);
    let reply = step_act(device, Actor::Host(driver.host()), &act)?;
    match reply {
        Reply::Answer(response) => {
            take_response(driver, &response)?;
            Ok(())
        }
        _ => unreachable!(),
    }
}

/// Steps the requests of the driver, at least one, until it is idle.
pub(crate) fn settle(device: &mut Device, driver: &mut Driver) -> Result<(), NoMemory>
    requires turns { GoInTurns driver.old.host driver.old.most device.old driver.old }
    requires busy { IsFalse (is_at_rest driver.old.host driver.old.most device.old.journal) }
    ensures gone { OnOk result (HasGone driver.old.host driver.old.most device.old device.new driver.new) }
    ensures idle { OnOk result (IsTrue driver.new.driven.idle) }
{
    ask(device, driver)?;
    while !driver.idle() {
        ask(device, driver)?;
    }
    Ok(())
}
