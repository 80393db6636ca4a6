//! Steps of one of several devices.

ghost use Rattle.device_plain.specs.Devices.{Appends, Enters};
ghost use Rattle.journal_core.specs.Entries.{fits};
ghost use Rattle.journal_core.specs.declared.acts.Act.{Act};
ghost use Rattle.journal_core.specs.declared.acts.Reply.{Reply};
ghost use Rattle.dcd_base.specs.declared.steps.Actor.{Actor};
ghost use Rattle.report.specs.script_codec.specs.Covering.{pass_of as pass_number};
ghost use Rattle.std.specs.List.{AllByRecursion};
ghost use Rattle.std.specs.Prelude.{◌≡◌, ◌<◌, ◌≤◌, IfOk, IsTrue, OnOk, length, slice_get};
ghost use Rattle.tunnel_fabric.specs.Stepping.{AnswersCommand, IsSoundDevice, StepsOne, fits_device, fresh_devices};

use cci_codec::{Request, Response};
use dcd_base::{Actor, NoMemory};
use device_plain::Device;
use device_plain::isolation_laws::law_isolated;
use journal_core::{Act, Reply};
use region_config::Config;
use report::script_codec::pass_of;
use std::alloc::Global;

/// A fresh device of each configuration.
pub(crate) fn fresh(alloc: Global, configs: &[Config]) -> Result<Vec<Device>, NoMemory>
    ensures { IfOk result (λ devices. devices.items ≡ fresh_devices configs.now) }
{
    let mut devices = Vec::new(alloc);
    for config in configs {
        devices.push(Device::new(alloc, config.copy()?)?)?;
    }
    Ok(devices)
}

/// Enters an act of a local line on a device.
fn enter(device: &mut Device, line: u32, actor: Actor, act: &Act) -> Result<(), NoMemory>
    requires { IsTrue (fits device.old.config.hosts actor act.now) }
    ensures { OnOk result (Appends device.old device.new (pass_number device.old.config.hosts 1 actor 0) line actor act.now) }
{
    let act = act.copy()?;
    let hosts = device.control().first_config().hosts();
    let pass = pass_of(hosts, 1, &actor, 0);
    device.enter(pass, line, actor, act)
}

/// Enters an act of a local line on one of the devices.
pub(crate) fn enter_one(
    devices: &mut [Device],
    number: u8,
    line: u32,
    actor: Actor,
    act: &Act,
) -> Result<(), NoMemory>
    requires { IsTrue (fits_device (slice_get devices.old number) actor act.now) }
    ensures { OnOk result ((reply : Reply) × StepsOne devices.old devices.new number line actor act.now reply) }
{
    let device = &mut devices[usize::from(number)];
    enter(device, line, actor, act)
}

/// Takes a command of the Fabric Manager to a device. The reply is a response, with a payload of at most 2,048 bytes.
#[tactic(auto, using(crate::proofs::Answering::answers_command))]
fn command(device: &mut Device, line: u32, act: &Act) -> Result<Reply, NoMemory>
    requires { IsTrue (fits device.old.config.hosts Actor.Manager act.now) }
    ensures entered { IfOk result (λ reply. Enters device.old device.new (pass_number device.old.config.hosts 1 Actor.Manager 0) line Actor.Manager act.now reply) }
    ensures answers { IfOk result (AnswersCommand act.now) }
{
    let hosts = device.control().first_config().hosts();
    let pass = pass_of(hosts, 1, &Actor::Manager, 0);
    let reply = device.step(pass, line, Actor::Manager, act)?;
    // The journal is legal, and its responses are short.
    let _journal = device.journal();
    Ok(reply)
}

/// Takes a command of the Fabric Manager to one of the devices.
fn command_one(devices: &mut [Device], number: u8, line: u32, act: &Act) -> Result<Reply, NoMemory>
    requires { IsTrue (fits_device (slice_get devices.old number) Actor.Manager act.now) }
    ensures entered { IfOk result (StepsOne devices.old devices.new number line Actor.Manager act.now) }
    ensures answers { IfOk result (AnswersCommand act.now) }
{
    let device = &mut devices[usize::from(number)];
    command(device, line, act)
}

/// Takes a request of the Fabric Manager to one of the devices, and answers the device's response.
pub(crate) fn answer_one(
    devices: &mut [Device],
    number: u8,
    line: u32,
    request: Request,
) -> Result<Response, NoMemory>
    requires { number < length devices.old }
    ensures entered { IfOk result (λ s. StepsOne devices.old devices.new number line Actor.Manager (Act.Command request) (Reply.Answer s)) }
    ensures short { IfOk result (λ s. length s.payload ≤ 2048) }
{
    let act = Act::Command(request);
    match command_one(devices, number, line, &act)? {
        Reply::Answer(response) => Ok(response),
        _ => unreachable!(),
    }
}

/// The journal of a device is legal and numbered; no granule of a region that is not shareable ever has two hosts, and each
/// reply to a host is what a device with that host alone replies to its own steps and deliveries. It does nothing.
fn is_sound(device: &Device)
    ensures { IsSoundDevice device.now }
{
    law_isolated();
    // A configuration is sound, and the journal legal.
    let _hosts = device.control().first_config().hosts();
    let _journal = device.journal();
}

/// So it is of all devices. It does nothing.
pub(crate) fn are_sound(devices: &[Device])
    ensures { AllByRecursion IsSoundDevice devices.now }
{
    for device in devices {
        is_sound(device);
    }
}
