//! The lines of a list.

ghost use Rattle.cci_codec.specs.Messages.{request_bytes};
ghost use Rattle.hex.specs.Hex.{encode_lower};
ghost use Rattle.pool_planner.specs.PlanPrinting.{IsShortAct, IsSoundStep, act_words, plan_line, plan_lines};
ghost use Rattle.report.specs.Texts.{actor_name, rest_of_line};
ghost use Rattle.std.specs.List.{All};
ghost use Rattle.std.specs.Prelude.{◌≡◌, ◌<◌, ◌^◌, ◌++◌, IfOk, OnOk, decimal, length};

use cci_codec::{Request, encode_request};
use dcd_base::{Actor, Bytes, NoMemory};
use hex::encode;
use itoa::Buffer;
use journal_core::Act;
use std::alloc::Global;

/// Puts a number in decimal digits.
pub(crate) fn write_number(text: &mut Bytes, number: u64) -> Result<(), NoMemory>
    ensures { OnOk result (text.new ≡ text.old ++ decimal number) }
{
    let mut buffer = Buffer::new();
    let digits = buffer.format(number).as_bytes();
    text.extend_from_slice(digits)
}

/// Puts the bytes of a request in hexadecimal digits.
fn write_hex(text: &mut Bytes, request: &Request) -> Result<(), NoMemory>
    requires { length request.now.payload < 2 ^ 21 }
    ensures { OnOk result (text.new ≡ text.old ++ encode_lower (request_bytes request.now)) }
{
    let alloc = text.allocator();
    let mut bytes = Bytes::new(alloc);
    encode_request(request, &mut bytes)?;
    let digits = encode(alloc, bytes.as_slice())?;
    text.extend_from_slice(digits.as_bytes())
}

/// Puts the name of an actor: `h0` to `h15`, `fm` or `sz`.
fn write_actor(text: &mut Bytes, actor: &Actor) -> Result<(), NoMemory>
    ensures { OnOk result (text.new ≡ text.old ++ actor_name actor.now) }
{
    match actor {
        Actor::Host(host) => {
            text.push(b'h')?;
            write_number(text, u64::from(host.0))
        }
        Actor::Manager => text.extend_from_slice(b"fm"),
        Actor::Sanitizer => text.extend_from_slice(b"sz"),
    }
}

/// Puts a space, the whole message of a command, and the end of the line.
fn write_message(text: &mut Bytes, request: &Request) -> Result<(), NoMemory>
    requires { length request.now.payload < 2 ^ 21 }
    ensures { OnOk result (text.new ≡ text.old ++ rest_of_line (act_words (Act.Command request.now))) }
{
    text.push(b' ')?;
    write_hex(text, request)?;
    text.push(b'\n')
}

/// Puts a space, the number of a turn of the sanitizer, and the end of the line.
fn write_turn(text: &mut Bytes, most: u16) -> Result<(), NoMemory>
    ensures { OnOk result (text.new ≡ text.old ++ rest_of_line (act_words (Act.Scrub most))) }
{
    text.push(b' ')?;
    write_number(text, u64::from(most))?;
    text.push(b'\n')
}

/// Puts what stands behind the name of the actor. A list has no loads and stores.
fn write_act(text: &mut Bytes, act: &Act) -> Result<(), NoMemory>
    requires { IsShortAct act.now }
    ensures { OnOk result (text.new ≡ text.old ++ rest_of_line (act_words act.now)) }
{
    match act {
        Act::Command(request) => write_message(text, request),
        Act::Scrub(most) => write_turn(text, *most),
        Act::Load(_) => text.push(b'\n'),
        Act::Store(_, _) => text.push(b'\n'),
    }
}

/// Puts the line of an act.
#[tactic(auto, unfolding(crate::specs::PlanPrinting::plan_line))]
fn write_step(text: &mut Bytes, step: &(Actor, Act)) -> Result<(), NoMemory>
    requires { IsShortAct step.now.1 }
    ensures { OnOk result (text.new ≡ text.old ++ plan_line step.now) }
{
    write_actor(text, &step.0)?;
    write_act(text, &step.1)
}

/// The lines of a list.
#[tactic(auto, unfolding(crate::specs::PlanPrinting::plan_lines))]
pub(crate) fn act_lines(alloc: Global, hosts: u8, acts: &[(Actor, Act)]) -> Result<Bytes, NoMemory>
    requires { All (IsSoundStep hosts) acts.now }
    ensures { IfOk result (λ text. text ≡ plan_lines acts.now) }
{
    let mut text = Bytes::new(alloc);
    for step in acts {
        write_step(&mut text, step)?;
    }
    Ok(text)
}
