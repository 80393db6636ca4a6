//! The items of a host, and what it is replied on a device that it has alone.

ghost use Rattle.std.specs.Prelude.{◌≡◌, IfOk};

use crate::seeing::{see, see_list};
use cci_codec::{Payload, Request};
use dcd_base::{
    AccessFault, Actor, Bytes, Extent, Extents, HostId, LogId, NoMemory, RegionId, Stamp, Tag,
};
use device_plain::isolation_laws::{Item, Items, SoloReply, own_items};
use device_plain::{SoloFault, solo_replies};
use event_records::{Event, EventKind};
use journal_core::{Act, Effect, Effects, Entry, Journal, Reply};
use region_config::{Config, ConfigFault, RegionSpec};
use std::alloc::Global;
use std::process::Abort;
use std::test::Fail;

const MIB: u64 = 0x10_0000;

/// The block at address 0.
const BLOCK: Extent = Extent {
    start: 0,
    length: MIB,
    tag: Tag([0; 16]),
    sequence: 0,
};

/// An entry of the actor with these effects.
fn entry(actor: Actor, act: Act, effects: Effects) -> Entry {
    Entry {
        pass: 0,
        line: 1,
        actor,
        act,
        reply: Reply::Stored,
        effects,
        stamp: Stamp {
            number: 1,
            count: 0,
        },
    }
}

/// The host is told of an offer of the block.
fn told(host: HostId) -> Effect {
    Effect::Logged(
        LogId::Host(host),
        Event {
            handle: 1,
            kind: EventKind::Add,
            host: u16::from(host.0),
            region: 0,
            more: false,
            extent: BLOCK,
            extents_available: 63,
            tags_available: 32,
        },
    )
}

/// The manager offers each host a block and sets a block size.
fn append_offers(effects: &mut Effects) -> Result<(), NoMemory> {
    effects.push(told(HostId(1)))?;
    effects.push(told(HostId(0)))?;
    effects.push(Effect::Block(RegionId(0), MIB))
}

/// The effects of those offers.
fn offers(alloc: Global) -> Result<Effects, NoMemory> {
    let mut effects = Effects::new(alloc);
    append_offers(&mut effects)?;
    Ok(effects)
}

fn access(alloc: Global, host: u8, act: Act) -> Entry {
    entry(Actor::Host(HostId(host)), act, Effects::new(alloc))
}

/// Enters that the manager offers and sets, host 0 stores, and host 1 loads.
fn enter_three(alloc: Global, journal: &mut Journal) -> Result<(), NoMemory> {
    journal.push(entry(Actor::Manager, Act::Scrub(0), offers(alloc)?))?;
    journal.push(access(alloc, 0, Act::Store(2 * MIB, 7)))?;
    journal.push(access(alloc, 1, Act::Load(0)))
}

/// The journal of those entries.
fn journal(alloc: Global) -> Result<Journal, NoMemory> {
    let mut journal = Journal::new(alloc);
    enter_three(alloc, &mut journal)?;
    Ok(journal)
}

/// What kind of item it is, as a letter.
fn letter_of(item: &Item) -> u8 {
    match item {
        Item::Own(Act::Command(_)) => b'c',
        Item::Own(Act::Store(_, _)) => b's',
        Item::Own(_) => b'l',
        Item::Given(_) => b'g',
        Item::Asked(_) => b'a',
        Item::Taken(_) => b't',
        Item::Block(_, _) => b'b',
    }
}

fn letters_of(alloc: Global, items: &[Item]) -> Result<Bytes, NoMemory> {
    let mut letters = Bytes::new(alloc);
    for item in items {
        letters.push(letter_of(item))?;
    }
    Ok(letters)
}

/// Sees the letters of the items of a host.
fn see_letters(
    rt: &impl Abort,
    alloc: Global,
    journal: &[Entry],
    host: u8,
    expected: &[u8],
) -> Result<(), NoMemory> {
    let items = own_items(alloc, journal, HostId(host))?;
    see_list(
        rt,
        letters_of(alloc, items.as_slice())?.as_slice(),
        expected,
    );
    Ok(())
}

#[test]
fn a_host_has_its_acts_and_what_is_told_to_it(rt: HostRuntime) -> Result<(), Fail> {
    let journal = journal(rt.alloc())?;
    see_letters(&rt, rt.alloc(), journal.as_slice(), 0, b"gbs")?;
    see_letters(&rt, rt.alloc(), journal.as_slice(), 1, b"gbl")?;
    Ok(())
}

/// Two hosts and a region of 16 MiB that is sanitized or not, of blocks of 1 MiB.
fn two_hosts(alloc: Global, sanitize: bool) -> Result<Config, ConfigFault>
    ensures { IfOk result (λ c. c.hosts ≡ 2) }
{
    let region = RegionSpec {
        decode_units: 1,
        length: 16 * MIB,
        block: MIB,
        sizes: MIB,
        handle: 0,
        sanitize,
        shareable: false,
    };
    Config::new(alloc, 2, &[region], &[0, 256 * MIB])
}

/// The response that accepts the block (4802h).
fn response(alloc: Global) -> Result<Act, Fail> {
    let payload = [
        1, 0, 0, 0, 0, 0, 0, 0, // one extent, and no more
        0, 0, 0, 0, 0, 0, 0, 0, 0, 0, 0x10, 0, 0, 0, 0, 0, // 1 MiB at 0
        0, 0, 0, 0, 0, 0, 0, 0,
    ];
    Ok(Act::Command(Request {
        tag: 0,
        opcode: 0x4802,
        payload: Payload::from_slice(alloc, &payload)?,
    }))
}

/// The item of a letter: the block is given or taken, or the host accepts it, stores 7 at 0 or loads from there.
fn item_of(alloc: Global, letter: u8) -> Result<Item, Fail> {
    Ok(match letter {
        b'g' => Item::Given(Extents::from_slice(alloc, &[BLOCK])?),
        b't' => Item::Taken(Extents::from_slice(alloc, &[BLOCK])?),
        b'c' => Item::Own(response(alloc)?),
        b's' => Item::Own(Act::Store(0, 7)),
        _ => Item::Own(Act::Load(0)),
    })
}

/// What it is replied, as a character: success, stored, the word 0 or 7, not granted, not said, or another.
fn sign_of(reply: &SoloReply) -> u8 {
    match reply {
        SoloReply::Unsaid => b'u',
        SoloReply::Said(Reply::Answer(response)) => if response.code == 0 { b'c' } else { b'?' },
        SoloReply::Said(Reply::Word(0)) => b'0',
        SoloReply::Said(Reply::Word(7)) => b'7',
        SoloReply::Said(Reply::Stored) => b's',
        SoloReply::Said(Reply::Refused(AccessFault::NotGranted)) => b'n',
        SoloReply::Said(_) => b'?',
    }
}

fn items_of(alloc: Global, letters: &[u8]) -> Result<Items, Fail> {
    let mut items = Items::new(alloc);
    for letter in letters {
        items.push(item_of(alloc, *letter)?)?;
    }
    Ok(items)
}

/// The characters of replies.
fn signs_of(alloc: Global, replies: &[SoloReply]) -> Result<Bytes, NoMemory> {
    let mut signs = Bytes::new(alloc);
    for reply in replies {
        signs.push(sign_of(reply))?;
    }
    Ok(signs)
}

/// Sees the characters of what host 0 alone is replied to the items of the letters.
fn see_alone(
    rt: &impl Abort,
    alloc: Global,
    config: &Config,
    letters: &[u8],
    expected: &[u8],
) -> Result<(), Fail>
    requires { config.now.hosts ≡ 2 }
{
    let items = items_of(alloc, letters)?;
    let Ok(replies) = solo_replies(alloc, config, HostId(0), items.as_slice()) else {
        return Err("these items are lawful".into());
    };
    see_list(
        rt,
        signs_of(alloc, replies.as_slice())?.as_slice(),
        expected,
    );
    Ok(())
}

/// Whether the region is sanitized, the items, and the replies.
static ALONE: [(bool, &[u8], &[u8]); 3] = [
    (true, b"gcsltlgcl", b"cs7nc0"),
    (false, b"gcl", b"cu"),
    (true, &[b'g'; 64], b""),
];

#[test]
fn a_host_alone_is_replied_what_it_stored_and_nothing_of_others(
    rt: HostRuntime,
) -> Result<(), Fail> {
    for (sanitize, letters, expected) in &ALONE {
        let config = two_hosts(rt.alloc(), *sanitize)?;
        see_alone(&rt, rt.alloc(), &config, *letters, *expected)?;
    }
    Ok(())
}

/// The fault of the items of the letters for host 0 alone.
fn fault_of(alloc: Global, config: &Config, letters: &[u8]) -> Result<Option<SoloFault>, Fail>
    requires { config.now.hosts ≡ 2 }
{
    let items = items_of(alloc, letters)?;
    Ok(solo_replies(alloc, config, HostId(0), items.as_slice()).err())
}

#[test]
fn a_host_alone_is_not_given_more_than_64_extents(rt: HostRuntime) -> Result<(), Fail> {
    let config = two_hosts(rt.alloc(), true)?;
    let fault = fault_of(rt.alloc(), &config, &[b'g'; 65])?;
    see(&rt, &fault, &Some(SoloFault::Unlawful(64)));
    Ok(())
}
