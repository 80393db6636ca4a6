//! Loads and stores at a shard.

ghost use Rattle.journal_core.specs.Accesses.{access_entry};
ghost use Rattle.journal_core.specs.Entries.{is_control};
ghost use Rattle.shard_laws.specs.Accessing.{StoresOwn, StoresIn, word_found as found, held_place as held, refusal_of as refusal, said_at};
ghost use Rattle.shard_laws.specs.Clocks.{later_of as later, next_stamp as next_of};
ghost use Rattle.std.specs.Prelude.{◌≡◌, ◌+◌, ◌/◌, ◌<◌, ◌^◌, IfOk, OnErr, OnOk, false, length};

use crate::numbers::own_number;
use dcd_base::{AccessFault, HostId, NoMemory, Place, Stamp, host_bits};
use granule_mem::Memory;
use journal_core::{Access, Act};

/// The place, where the host holds its granule, or why there is none.
pub(crate) fn held_place(
    memory: &Memory,
    host: HostId,
    at: Result<Place, AccessFault>,
) -> Result<Place, AccessFault>
    requires host { host < 16 }
    requires inside { IfOk at (λ p. p.granule / 16 < length memory.now.holders) }
    ensures value { result ≡ held memory.now host at }
    ensures inside { IfOk result (λ p. p.granule / 16 < length memory.now.holders) }
{
    match at {
        Ok(place) => {
            if host_bits::has(memory.holders(own_number(place.granule)), host) {
                Ok(place)
            } else {
                Err(AccessFault::NotGranted)
            }
        }
        Err(fault) => Err(fault),
    }
}

/// The word at the place.
fn word_found(memory: &Memory, place: &Result<Place, AccessFault>) -> Result<u64, AccessFault>
    requires { IfOk place.now (λ p. p.granule / 16 < length memory.now.holders) }
    ensures { result ≡ found memory.now place.now }
{
    match place {
        Ok(place) => Ok(memory.read(own_number(place.granule), place.word)),
        Err(fault) => Err(*fault),
    }
}

/// Why there is no place, if there is none.
fn refusal_of(place: &Result<Place, AccessFault>) -> Option<AccessFault>
    ensures { result ≡ refusal place.now }
{
    match place {
        Ok(_) => None,
        Err(fault) => Some(*fault),
    }
}

/// Enters a load or a store of a place that is held, or of none. A store of a place writes its word; without memory
/// nothing changes.
pub(crate) fn enter(
    memory: &mut Memory,
    pass: u32,
    line: u32,
    host: HostId,
    act: &Act,
    place: &Result<Place, AccessFault>,
    stamp: Stamp,
) -> Result<Access, NoMemory>
    requires act { is_control act.now ≡ false }
    requires inside { IfOk place.now (λ p. p.granule / 16 < length memory.old.holders) }
    ensures entry { IfOk result
        (λ access. access ≡ access_entry pass line host act.now (said_at memory.old act.now place.now) stamp) }
    ensures words { OnOk result (StoresIn memory.old memory.new act.now place.now) }
    ensures holders { memory.new.holders ≡ memory.old.holders }
    ensures kept { OnErr result (memory.new ≡ memory.old) }
{
    match act {
        Act::Load(dpa) => Ok(Access::load(
            pass,
            line,
            host,
            *dpa,
            &word_found(memory, place),
            stamp,
        )),
        Act::Store(dpa, value) => {
            store(memory, place, *value)?;
            Ok(Access::store(pass, line, host, *dpa, *value, refusal_of(place), stamp))
        }
        _ => unreachable!(),
    }
}

/// Stores a word at the place, if there is one.
fn store(
    memory: &mut Memory,
    place: &Result<Place, AccessFault>,
    value: u64,
) -> Result<(), NoMemory>
    requires { IfOk place.now (λ p. p.granule / 16 < length memory.old.holders) }
    ensures words { OnOk result (StoresOwn memory.old memory.new place.now value) }
    ensures holders { memory.new.holders ≡ memory.old.holders }
    ensures kept { OnErr result (memory.new ≡ memory.old) }
{
    match place {
        Ok(place) => memory.write(own_number(place.granule), place.word, value),
        Err(_) => Ok(()),
    }
}

/// The later of two stamps.
fn later_of(seen: Stamp, clock: Stamp) -> Stamp
    ensures { result ≡ later seen clock }
{
    if clock.number < seen.number || (clock.number == seen.number && clock.count < seen.count) {
        seen
    } else {
        clock
    }
}

/// The stamp of the next load or store: that of the later of both, one count on.
pub(crate) fn next_stamp(seen: Stamp, clock: Stamp) -> Stamp
    requires seen { seen.count + 1 < 2 ^ 64 }
    requires clock { clock.count + 1 < 2 ^ 64 }
    ensures { result ≡ next_of seen clock }
{
    let last = later_of(seen, clock);
    Stamp {
        number: last.number,
        count: last.count + 1,
    }
}
