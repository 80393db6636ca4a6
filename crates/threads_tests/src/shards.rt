//! The loads and stores of a shard.

ghost use Rattle.journal_core.specs.Entries.{is_control};
ghost use Rattle.script_runner.specs.shared_device.specs.block_shard.specs.shard_laws.specs.Belonging.{asked_at, shard_at};
ghost use Rattle.std.specs.Prelude.{◌≡◌, ◌<◌, IfOk, false};

use crate::ledger::Ledger;
use crate::seeing::{see, see_list};
use dcd_base::{AccessFault, Change, Changes, Granule, HostId, Place, Run, Stamp, shard_of};
use journal_core::{Act, Reply};
use media_map::locate;
use region_config::{Config, ConfigFault, RegionSpec};
use script_runner::shared_device::block_shard::Shard;
use script_runner::shared_device::block_shard::shard_laws::{law_at_rest, law_changed, law_merged};
use std::alloc::Global;
use std::test::Fail;

/// 1 MiB.
const M: u64 = 0x10_0000;

/// Where region 1 begins for host 0 and region 0 for host 1.
const BASE: u64 = 0x1000_0000;

fn region(length: u64, shareable: bool) -> RegionSpec {
    RegionSpec {
        decode_units: 1,
        length,
        block: M,
        sizes: M,
        handle: 0,
        sanitize: true,
        shareable,
    }
}

/// Two hosts and regions of 16 and 4 MiB; granules have 1 MiB.
fn two_hosts(alloc: Global) -> Result<Config, ConfigFault>
    ensures { IfOk result (λ c. c.hosts ≡ 2) }
{
    let regions = [region(16 * M, false), region(4 * M, true)];
    Config::new(alloc, 2, &regions, &[0, BASE, BASE, 2 * BASE])
}

fn stamp(number: u64, count: u64) -> Stamp {
    Stamp { number, count }
}

/// What is replied to a load or a store.
#[derive(Clone, Copy, Debug, PartialEq, Eq)]
enum Told {
    Word(u64),
    Stored,
    Refused(AccessFault),
    Other,
}

fn kind_of(reply: &Reply) -> Told {
    match reply {
        Reply::Word(word) => Told::Word(*word),
        Reply::Stored => Told::Stored,
        Reply::Refused(fault) => Told::Refused(*fault),
        _ => Told::Other,
    }
}

fn shard_of_place(at: &Result<Place, AccessFault>) -> u32
    ensures { result ≡ shard_at at.now }
{
    match at {
        Ok(place) => shard_of(place.granule),
        Err(_) => 0,
    }
}

/// A load or a store of host 0 at the shard of this index, which is the line of its entry.
fn enter(
    shard: &mut Shard,
    index: u32,
    config: &Config,
    seen: Stamp,
    act: &Act,
    dpa: u64,
) -> Result<(Told, Stamp), Fail>
    requires shard { (shard.old.config ≡ config.now) × (shard.old.index ≡ index) }
    requires hosts { config.now.hosts ≡ 2 }
    requires act { (is_control act.now ≡ false) × (asked_at act.now ≡ dpa) }
    ensures { (shard.new.config ≡ shard.old.config) × (shard.new.index ≡ shard.old.index) }
{
    let at = locate(config, HostId(0), dpa);
    if shard_of_place(&at) != index {
        return Err("the place is of another shard".into());
    }
    if seen.count > 1000 || shard.clock().count > 1000 {
        return Err("a high count".into());
    }
    let (reply, stamp) = shard.access(seen, 0, index, HostId(0), act, at)?;
    Ok((kind_of(&reply), stamp))
}

fn load(
    shard: &mut Shard,
    index: u32,
    config: &Config,
    seen: Stamp,
    dpa: u64,
) -> Result<(Told, Stamp), Fail>
    requires shard { (shard.old.config ≡ config.now) × (shard.old.index ≡ index) }
    requires hosts { config.now.hosts ≡ 2 }
    ensures { (shard.new.config ≡ shard.old.config) × (shard.new.index ≡ shard.old.index) }
{
    enter(shard, index, config, seen, &Act::Load(dpa), dpa)
}

fn store(
    shard: &mut Shard,
    index: u32,
    config: &Config,
    seen: Stamp,
    dpa: u64,
) -> Result<(Told, Stamp), Fail>
    requires shard { (shard.old.config ≡ config.now) × (shard.old.index ≡ index) }
    requires hosts { config.now.hosts ≡ 2 }
    ensures { (shard.new.config ≡ shard.old.config) × (shard.new.index ≡ shard.old.index) }
{
    enter(shard, index, config, seen, &Act::Store(dpa, 7), dpa)
}

/// The command of this number gives host 0 a granule, and zeroes it if asked to.
fn grant(
    alloc: Global,
    shard: &mut Shard,
    config: &Config,
    number: u64,
    granule: u32,
    zero: bool,
) -> Result<(), Fail>
    requires { shard.old.config ≡ config.now }
    ensures { (shard.new.config ≡ shard.old.config) × (shard.new.index ≡ shard.old.index) }
{
    if granule >= config.granules() {
        return Err("no such granule".into());
    }
    let change = Change {
        run: Run {
            first: Granule(granule),
            count: 1,
        },
        holders: 1,
        zero,
    };
    let changes = Changes::from_slice(alloc, &[change])?;
    shard.change(number, &changes);
    Ok(())
}

/// What is told of an address before and after host 0 holds it, by different seen stamps, and after it is zeroed; and
/// the clock once it is granted.
fn steps_of_one(
    alloc: Global,
    shard: &mut Shard,
    config: &Config,
) -> Result<([(Told, Stamp); 5], Stamp), Fail>
    requires shard { (shard.old.config ≡ config.now) × (shard.old.index ≡ 0) }
    requires hosts { config.now.hosts ≡ 2 }
{
    let refused = load(shard, 0, config, stamp(0, 0), 0)?;
    grant(alloc, shard, config, 1, 0, false)?;
    let granted = shard.clock();
    let stored = store(shard, 0, config, stamp(0, 1), 0)?;
    let ahead = load(shard, 0, config, stamp(1, 4), 0)?;
    let behind = load(shard, 0, config, stamp(0, 9), 0)?;
    grant(alloc, shard, config, 2, 0, true)?;
    let zeroed = load(shard, 0, config, stamp(1, 6), 0)?;
    Ok(([refused, stored, ahead, behind, zeroed], granted))
}

/// What is told of a new shard of index 0.
fn steps_of_new(alloc: Global, config: &Config) -> Result<([(Told, Stamp); 5], Stamp), Fail>
    requires { config.now.hosts ≡ 2 }
{
    steps_of_one(alloc, &mut Shard::new(alloc, 0, config)?, config)
}

fn one_shard(alloc: Global) -> Result<([(Told, Stamp); 5], Stamp), Fail> {
    steps_of_new(alloc, &two_hosts(alloc)?)
}

#[test]
fn a_shard_answers_by_its_own_holders_words_and_clock(rt: HostRuntime) -> Result<(), Fail> {
    law_merged();
    law_changed();
    law_at_rest::<Ledger>();
    let (answers, granted) = one_shard(rt.alloc())?;
    let expected = [
        (Told::Refused(AccessFault::NotGranted), stamp(0, 1)),
        (Told::Stored, stamp(1, 1)),
        (Told::Word(7), stamp(1, 5)),
        (Told::Word(7), stamp(1, 6)),
        (Told::Word(0), stamp(2, 1)),
    ];
    see(&rt, &granted, &stamp(1, 0));
    see_list(&rt, &answers, &expected);
    Ok(())
}
