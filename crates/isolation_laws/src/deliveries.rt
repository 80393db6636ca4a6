//! What a host does, and what others bring it.

ghost use Rattle.event_records.specs.Records.{kind_number};
ghost use Rattle.isolation_laws.specs.Solo.{block_item, delivered, acts_for, item_of, items_of, own_items as own_items_of, extents_recorded, told_by};
ghost use Rattle.isolation_laws.specs.declared.items.Item.{Item};
ghost use Rattle.std.specs.Prelude.{◌≡◌, ◌++◌, ◌∷◌, [], IfOk, OnOk, filter_map};

use crate::items::{Item, Items};
use dcd_base::{Actor, Extent, Extents, HostId, LogId, NoMemory};
use event_records::EventKind;
use journal_core::{Effect, Entry};
use std::alloc::Global;

/// The acts of the host in the journal, and what others bring it: offers, requests to give back, removals by force, and
/// new block sizes, in order.
pub fn own_items(alloc: Global, journal: &[Entry], host: HostId) -> Result<Items, NoMemory>
    ensures { IfOk result (λ items. items ≡ own_items_of host journal.now) }
{
    let mut items = Items::new(alloc);
    for i in 0..journal.len() {
        append_items(alloc, &journal[i], &host, &mut items)?;
    }
    Ok(items)
}

/// Puts the items of an entry behind the others.
fn append_items(
    alloc: Global,
    entry: &Entry,
    host: &HostId,
    items: &mut Items,
) -> Result<(), NoMemory>
    ensures { OnOk result (items.new ≡ items.old ++ items_of host.now entry.now) }
{
    if acts_for(host, &entry.actor) {
        return items.push(Item::Own(entry.act.copy()?));
    }
    append_delivered(alloc, entry.effects.as_slice(), host, items)
}

fn acts_for(host: &HostId, actor: &Actor) -> bool
    ensures { result ≡ acts_for host.now actor.now }
{
    match actor {
        Actor::Host(other) => other.0 == host.0,
        _ => false,
    }
}

/// Puts what the effects bring the host behind the others.
fn append_delivered(
    alloc: Global,
    effects: &[Effect],
    host: &HostId,
    items: &mut Items,
) -> Result<(), NoMemory>
    ensures { OnOk result (items.new ≡ items.old ++ delivered host.now effects.now) }
{
    append_given(told_of(alloc, effects, host, &EventKind::Add)?, items)?;
    append_asked(told_of(alloc, effects, host, &EventKind::Release)?, items)?;
    append_taken(told_of(alloc, effects, host, &EventKind::Forced)?, items)?;
    append_blocks(effects, items)
}

/// Puts an offer of the extents, where there are any.
fn append_given(extents: Extents, items: &mut Items) -> Result<(), NoMemory>
    ensures { OnOk result (items.new ≡ items.old ++ item_of (λ xs. Item.Given xs) extents) }
{
    if extents.is_empty() {
        return Ok(());
    }
    items.push(Item::Given(extents))
}

/// Puts a request to give the extents back, where there are any.
fn append_asked(extents: Extents, items: &mut Items) -> Result<(), NoMemory>
    ensures { OnOk result (items.new ≡ items.old ++ item_of (λ xs. Item.Asked xs) extents) }
{
    if extents.is_empty() {
        return Ok(());
    }
    items.push(Item::Asked(extents))
}

/// Puts that the extents are taken by force, where there are any.
fn append_taken(extents: Extents, items: &mut Items) -> Result<(), NoMemory>
    ensures { OnOk result (items.new ≡ items.old ++ item_of (λ xs. Item.Taken xs) extents) }
{
    if extents.is_empty() {
        return Ok(());
    }
    items.push(Item::Taken(extents))
}

/// The extents of the records of this kind that go into the host's log.
fn told_of(
    alloc: Global,
    effects: &[Effect],
    host: &HostId,
    kind: &EventKind,
) -> Result<Extents, NoMemory>
    ensures { IfOk result (λ extents. extents ≡ extents_recorded host.now kind.now effects.now) }
{
    let mut extents = Extents::new(alloc);
    for i in 0..effects.len() {
        append_told(host, kind, &effects[i], &mut extents)?;
    }
    Ok(extents)
}

/// Puts the extent of the effect, where it is a record of this kind in the host's log.
fn append_told(
    host: &HostId,
    kind: &EventKind,
    effect: &Effect,
    extents: &mut Extents,
) -> Result<(), NoMemory>
    ensures { OnOk result (extents.new ≡ extents.old ++ extents_recorded host.now kind.now (effect.now ∷ [])) }
{
    match told_by(host, kind, effect) {
        Some(extent) => extents.push(extent),
        None => Ok(()),
    }
}

/// The extent of the effect, where it is a record of this kind in the host's log.
fn told_by(host: &HostId, kind: &EventKind, effect: &Effect) -> Option<Extent>
    ensures { result ≡ told_by host.now kind.now effect.now }
{
    match effect {
        Effect::Logged(LogId::Host(other), event) => {
            if other.0 == host.0 && number_of(&event.kind) == number_of(kind) {
                Some(event.extent)
            } else {
                None
            }
        }
        _ => None,
    }
}

fn number_of(kind: &EventKind) -> u8
    ensures { result ≡ kind_number kind.now }
{
    match kind {
        EventKind::Add => 0,
        EventKind::Release => 1,
        EventKind::Forced => 2,
        EventKind::RegionUpdated => 3,
        EventKind::AddResponse => 4,
        EventKind::Released => 5,
    }
}

/// Puts the new block sizes among the effects behind the others.
fn append_blocks(effects: &[Effect], items: &mut Items) -> Result<(), NoMemory>
    ensures { OnOk result (items.new ≡ items.old ++ filter_map block_item effects.now) }
{
    for i in 0..effects.len() {
        append_block(&effects[i], items)?;
    }
    Ok(())
}

/// Puts the new block size that the effect is, if it is one.
fn append_block(effect: &Effect, items: &mut Items) -> Result<(), NoMemory>
    ensures { OnOk result (items.new ≡ items.old ++ filter_map block_item (effect.now ∷ [])) }
{
    match effect {
        Effect::Block(region, size) => items.push(Item::Block(*region, *size)),
        _ => Ok(()),
    }
}
