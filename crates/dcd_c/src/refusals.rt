//! The rule that a request would break now, and its sentence.

ghost use Rattle.dcd_base.specs.declared.steps.Actor.{Actor};
ghost use Rattle.dcd_c.specs.Asking.{AsksPlace};
ghost use Rattle.dcd_c.specs.Lists.{TellsPlace};
ghost use Rattle.dcd_c.specs.Refusals.{AsksRefusal, AsksRule, PutsRefusal, PutsSentence, refusal_told, refusal_words};
ghost use Rattle.device_plain.specs.Lives.{ByEveryLife};
ghost use Rattle.device_plain.specs.device_rules.specs.Answers.{broken};
ghost use Rattle.journal_core.specs.Entries.{fits};
ghost use Rattle.journal_core.specs.declared.acts.Act.{Act};
ghost use Rattle.dcd_c.specs.declared.faults.Fault.{Fault};
ghost use Rattle.std.specs.Prelude.{◌≡◌, ◌++◌, IfErr, IfOk, IsTrue, OnOk, Some};

use crate::actors::actor_of;
use crate::faults::Fault;
use crate::handles::{Handle, put_in, take_out};
use crate::names::put_words;
use crate::rule_numbers::{rule_number, rule_values, value_count};
use crate::sending::request_of;
use cci_codec::Request;
use dcd_base::{Actor, Bytes, NoMemory};
use dcd_codes::{Rule, code_of, number_of};
use device_plain::LiveDevice;
use journal_core::Act;
use region_config::Config;
use std::alloc::Global;
use text_lines::write_cause;

/// A rule with its code and its values, as C sees it. Where no rule is broken, all is 0 but the size.
#[repr(C)]
#[derive(Clone, Copy, Drop)]
pub struct RefusalTold {
    /// How many bytes the struct has, by the caller and then by the library.
    pub size: u32,
    pub rule: u16,
    pub code: u16,
    pub first: u64,
    pub second: u64,
    pub third: u64,
    /// How many of the three are the rule's.
    pub values: u32,
    pub reserved: u32,
}

/// How many bytes the struct has.
pub(crate) const REFUSAL: u32 = 40;

/// A rule as C sees it.
fn rule_told(rule: &Rule) -> RefusalTold
    ensures { result ≡ refusal_told (Some rule.now) }
{
    let values = rule_values(rule);
    RefusalTold {
        size: REFUSAL,
        rule: rule_number(rule),
        code: number_of(code_of(rule)),
        first: values[0],
        second: values[1],
        third: values[2],
        values: value_count(rule),
        reserved: 0,
    }
}

/// A rule as C sees it, or none.
fn refusal_told(rule: &Option<Rule>) -> RefusalTold
    ensures { result ≡ refusal_told rule.now }
{
    match rule {
        Some(rule) => rule_told(rule),
        None => RefusalTold {
            size: REFUSAL,
            rule: 0,
            code: 0,
            first: 0,
            second: 0,
            third: 0,
            values: 0,
            reserved: 0,
        },
    }
}

/// The rule that the command would break.
fn broken_by(device: &LiveDevice, actor: Actor, request: Request) -> Result<Option<Rule>, Fault>
    requires { IsTrue (fits device.now.config.hosts actor (Act.Command request)) }
    ensures rule { IfOk result (λ rule. ByEveryLife device.now (λ life. rule ≡ broken device.now.config life actor (Act.Command request))) }
    ensures memory { IfErr result (λ fault. fault ≡ Fault.NoMemory) }
{
    match device.control().broken(&actor, &Act::Command(request)) {
        Ok(rule) => Ok(rule),
        Err(NoMemory) => Err(Fault::NoMemory),
    }
}

/// The rule that the message would break.
fn rule_broken(
    device: &LiveDevice,
    alloc: Global,
    number: u8,
    message: &[u8],
) -> Result<Option<Rule>, Fault>
    ensures { AsksRule number message.now device.now result }
{
    match actor_of(device.first_config().hosts(), number) {
        None => Err(Fault::NoActor),
        Some(actor) => {
            let request = request_of(alloc, message)?;
            broken_by(device, actor, request)
        }
    }
}

/// The same as C sees it.
fn refusal_of(
    device: &LiveDevice,
    alloc: Global,
    number: u8,
    message: &[u8],
) -> Result<RefusalTold, Fault>
    ensures { AsksRefusal number message.now device.now result }
{
    match rule_broken(device, alloc, number, message) {
        Ok(rule) => Ok(refusal_told(&rule)),
        Err(fault) => Err(fault),
    }
}

/// The same of the handle's device.
pub(crate) fn refusal_asked(
    handle: &mut Handle,
    alloc: Global,
    number: u8,
    message: &[u8],
) -> Result<RefusalTold, Fault>
    ensures told { AsksPlace (AsksRefusal number message.now) handle.old.place.device result }
    ensures kept { handle.new.place.device ≡ handle.old.place.device }
{
    if !handle.is_open() {
        return Err(Fault::Closed);
    }
    let session = take_out(handle, alloc);
    let outcome = refusal_of(&session.device, alloc, number, message);
    put_in(handle, session);
    outcome
}

/// Appends the sentence of the rule: nothing where none is broken.
fn add_words(out: &mut Bytes, config: &Config, rule: &Option<Rule>) -> Result<(), NoMemory>
    ensures { OnOk result (out.new ≡ out.old ++ refusal_words config.now rule.now) }
{
    match rule {
        Some(rule) => write_cause(config, rule, out),
        None => Ok(()),
    }
}

/// Puts the sentence of the rule into the room.
fn put_rule(
    alloc: Global,
    config: &Config,
    rule: &Option<Rule>,
    room: &mut [u8],
) -> Result<u64, Fault>
    ensures { PutsSentence config.now rule.now room.old room.new result }
{
    let mut words = Bytes::new(alloc);
    match add_words(&mut words, config, rule) {
        Ok(_) => put_words(words.as_slice(), room),
        Err(NoMemory) => Err(Fault::NoMemory),
    }
}

/// Puts the sentence of the rule that the message would break into the room.
fn put_refusal(
    device: &LiveDevice,
    alloc: Global,
    number: u8,
    message: &[u8],
    room: &mut [u8],
) -> Result<u64, Fault>
    ensures { PutsRefusal number message.now room.old room.new device.now result }
{
    match rule_broken(device, alloc, number, message) {
        Ok(rule) => put_rule(alloc, device.first_config(), &rule, room),
        Err(fault) => Err(fault),
    }
}

/// The same of the handle's device.
pub(crate) fn sentence_asked(
    handle: &mut Handle,
    alloc: Global,
    number: u8,
    message: &[u8],
    room: &mut [u8],
) -> Result<u64, Fault>
    ensures told { TellsPlace room.old room.new (PutsRefusal number message.now room.old room.new) handle.old.place.device result }
    ensures kept { handle.new.place.device ≡ handle.old.place.device }
{
    if !handle.is_open() {
        return Err(Fault::Closed);
    }
    let session = take_out(handle, alloc);
    let outcome = put_refusal(&session.device, alloc, number, message, room);
    put_in(handle, session);
    outcome
}
