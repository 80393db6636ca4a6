//! The passes of a device, and the lines that they do.
ghost use Rattle.std.specs.List.{list_all};
ghost use Rattle.std.specs.Prelude.{◌≡◌, ◌<◌, ◌≤◌, ◌+◌, ◌*◌, [], IfOk, IsTrue, length};
ghost use Rattle.script_runner.specs.script_codec.specs.Scripts.{is_sound_line};
ghost use Rattle.threads_tests.specs.Desks.{AreDesks, actor_at};

use crate::keeper::Desk;
use dcd_base::{Actor, HostId, NoMemory};
use journal_core::{Act, Journal};
use script_runner::script_codec::Line;
use std::alloc::Global;

/// The actor of the pass of a number.
#[tactic(auto, using(crate::proofs::DeskSteps::host_below))]
fn actor_of(hosts: u8, lanes: u8, number: u32) -> Actor
    requires { 0 < lanes }
    ensures { result ≡ actor_at hosts lanes number }
{
    let of_hosts = u32::from(hosts) * u32::from(lanes);
    if number < of_hosts {
        Actor::Host(HostId((number / u32::from(lanes)) as u8))
    } else if number == of_hosts {
        Actor::Manager
    } else {
        Actor::Sanitizer
    }
}

/// The desk of a number, with no call.
fn desk(alloc: Global, hosts: u8, lanes: u8, number: u32) -> Desk
    requires { 0 < lanes }
    ensures { result ≡ record { number = number; actor = actor_at hosts lanes number; calls = [] } }
{
    Desk {
        number,
        actor: actor_of(hosts, lanes, number),
        entries: Journal::new(alloc),
    }
}

/// A desk for each lane of each host, one for the Fabric Manager and one for the sanitizer.
#[tactic(auto, using(crate::proofs::DeskSteps::desk_pushed))]
pub fn desks_of(alloc: Global, hosts: u8, lanes: u8) -> Result<Vec<Desk>, NoMemory>
    requires { 0 < lanes }
    ensures desks { IfOk result (λ desks. AreDesks hosts lanes 0 0 desks.items) }
    ensures count { IfOk result (λ desks. length desks.items ≡ hosts * lanes + 2) }
{
    let mut desks = Vec::new(alloc);
    for number in 0..u32::from(hosts) * u32::from(lanes) + 2 {
        desks.push(desk(alloc, hosts, lanes, number))?;
    }
    Ok(desks)
}

/// A line of one of two hosts with two lanes, or of the sanitizer.
fn line(index: u16) -> Line
    ensures { IsTrue (is_sound_line 2 2 result) }
{
    if index % 5 == 4 {
        return Line::Do {
            actor: Actor::Sanitizer,
            lane: 0,
            act: Act::Scrub(index),
        };
    }
    Line::Do {
        actor: Actor::Host(HostId((index % 2) as u8)),
        lane: (index / 2 % 2) as u8,
        act: Act::Load(u64::from(index)),
    }
}

/// So many lines.
#[tactic(auto, using(crate::proofs::DeskSteps::sound_pushed))]
pub fn lines_of(alloc: Global, count: u16) -> Result<Vec<Line>, NoMemory>
    ensures sound { IfOk result (λ lines. IsTrue (list_all (is_sound_line 2 2) lines.items)) }
    ensures count { IfOk result (λ lines. length lines.items ≡ count) }
{
    let mut lines = Vec::new(alloc);
    for index in 0..count {
        lines.push(line(index))?;
    }
    Ok(lines)
}

/// So many lines, with a mark behind every ten.
#[tactic(auto, using(crate::proofs::DeskSteps::sound_pushed))]
pub fn marked_lines(alloc: Global, count: u16) -> Result<Vec<Line>, NoMemory>
    ensures sound { IfOk result (λ lines. IsTrue (list_all (is_sound_line 2 2) lines.items)) }
    ensures count { IfOk result (λ lines. length lines.items ≤ 2 * count) }
{
    let mut lines = Vec::new(alloc);
    for index in 0..count {
        lines.push(line(index))?;
        if index % 10 == 9 {
            lines.push(Line::Mark)?;
        }
    }
    Ok(lines)
}
