//! Responses to the offers of a host that has accepted nothing yet.

ghost use Rattle.extent_list.specs.ExtentLists.{count_in};
ghost use Rattle.offer_core.specs.Offerings.{lists_of};
ghost use Rattle.std.specs.Prelude.{◌≡◌, ◌+◌, ◌<◌, ◌≤◌, IfOk, length};

use crate::seeing::{see, see_list};
use dcd_base::{Extent, Extents, HostId, NoMemory, Tag};
use dcd_codes::Refusal::{self, Broken};
use dcd_codes::Rule;
use offer_core::{Answered, Offer, Offers};
use region_config::{Config, ConfigFault, RegionSpec};
use std::alloc::Global;
use std::process::Abort;
use std::test::Fail;

/// 1 MiB, the size of a granule.
const M: u64 = 0x10_0000;

/// Where the shareable region begins for host 0 and the other one for host 1.
const BASE: u64 = 0x1000_0000;

fn region(length: u64, shareable: bool) -> RegionSpec {
    RegionSpec {
        decode_units: 1,
        length,
        block: M,
        sizes: M,
        handle: 0,
        sanitize: true,
        shareable,
    }
}

/// Two hosts, a region of 16 MiB and a shareable one of 8 MiB.
fn two_regions(alloc: Global) -> Result<Config, ConfigFault>
    ensures { IfOk result (λ c. c.hosts ≡ 2) }
{
    let regions = [region(16 * M, false), region(8 * M, true)];
    Config::new(alloc, 2, &regions, &[0, BASE, BASE, 2 * BASE])
}

/// One host and a region of 128 MiB with blocks of 1 MiB.
fn one_region(alloc: Global) -> Result<Config, ConfigFault>
    ensures { IfOk result (λ c. c.hosts ≡ 1) }
{
    Config::new(alloc, 1, &[region(128 * M, false)], &[0])
}

/// An extent from an address on; the bytes of the tag are all equal.
fn extent(start: u64, length: u64, tag: u8, sequence: u16) -> Extent {
    Extent {
        start,
        length,
        tag: Tag([tag; 16]),
        sequence,
    }
}

/// Extents as a message lists them, each a start and a length: tags and sequences are not read.
fn listed(alloc: Global, ranges: &[(u64, u64)]) -> Result<Extents, NoMemory> {
    let mut list = Extents::new(alloc);
    for (start, length) in ranges {
        list.push(extent(*start, *length, 0xEE, 99))?;
    }
    Ok(list)
}

/// Puts an offer of at most eight extents behind the others.
fn offer(offers: &mut Offers, alloc: Global, extents: &[Extent]) -> Result<(), NoMemory>
    requires few { length extents.now ≤ 8 }
    requires room { count_in (lists_of offers.old.offers) ≤ 56 }
    ensures { count_in (lists_of offers.new.offers) ≤ count_in (lists_of offers.old.offers) + 8 }
{
    let extents = Extents::from_slice(alloc, extents)?;
    offers.push(Offer { extents })
}

/// An offer and a later one of at most eight extents each.
fn two_offers(alloc: Global, first: &[Extent], later: &[Extent]) -> Result<Offers, NoMemory>
    requires first { length first.now ≤ 8 }
    requires later { length later.now ≤ 8 }
    ensures { IfOk result (λ offers. count_in (lists_of offers.offers) ≤ 64) }
{
    let mut offers = Offers::new(alloc)?;
    offer(&mut offers, alloc, first)?;
    offer(&mut offers, alloc, later)?;
    Ok(offers)
}

/// What a response comes to, apart from what it accepts.
#[derive(Clone, Copy, Debug, PartialEq, Eq)]
enum Told {
    Held,
    Nothing,
    Accepted(usize),
}

/// The response of host 0; what it accepts comes behind the accepted extents.
fn respond(
    offers: &mut Offers,
    config: &Config,
    list: &Extents,
    more: bool,
    accepted: &mut Extents,
) -> Result<Told, Refusal>
    requires host { 0 < config.now.hosts }
    requires few { count_in (lists_of offers.old.offers) ≤ 64 }
    ensures few { count_in (lists_of offers.new.offers) ≤ 64 }
{
    match offers.respond(config, HostId(0), 0, list, more)? {
        Answered::Held => Ok(Told::Held),
        Answered::Nothing => Ok(Told::Nothing),
        Answered::Done {
            offer: _,
            accepted: taken,
        } => {
            accepted.extend_from_slice(taken.as_slice())?;
            Ok(Told::Accepted(taken.len()))
        }
    }
}

/// The same for a list of ranges, each a start and a length.
fn respond_with(
    offers: &mut Offers,
    config: &Config,
    ranges: &[(u64, u64)],
    more: bool,
    accepted: &mut Extents,
) -> Result<Told, Refusal>
    requires host { 0 < config.now.hosts }
    requires few { count_in (lists_of offers.old.offers) ≤ 64 }
    ensures few { count_in (lists_of offers.new.offers) ≤ 64 }
{
    let list = listed(accepted.allocator(), ranges)?;
    respond(offers, config, &list, more, accepted)
}

/// The ranges of a response, whether more follows, and what it comes to.
type Case = (&'static [(u64, u64)], bool, Result<Told, Refusal>);

/// Sees what each response comes to, one after another, and that a range is held where more follows.
fn see_answers(
    rt: &impl Abort,
    offers: &mut Offers,
    config: &Config,
    cases: &[Case],
    accepted: &mut Extents,
)
    requires host { 0 < config.now.hosts }
    requires few { count_in (lists_of offers.old.offers) ≤ 64 }
{
    for (ranges, more, told) in cases {
        let answer = respond_with(offers, config, ranges, *more, accepted);
        let held = usize::from(*more);
        see(rt, &(answer, offers.held().len()), &(*told, held));
    }
}

/// Sees what the responses come to, and what is accepted.
fn see_accepted(
    rt: &impl Abort,
    alloc: Global,
    offers: &mut Offers,
    config: &Config,
    cases: &[Case],
    expected: &[Extent],
)
    requires host { 0 < config.now.hosts }
    requires few { count_in (lists_of offers.old.offers) ≤ 64 }
{
    let mut accepted = Extents::new(alloc);
    see_answers(rt, offers, config, cases, &mut accepted);
    see_list(rt, accepted.as_slice(), expected);
}

/// Two offers, of 3 MiB from 0 on and of 1 MiB at 5, are answered.
static IN_TURN: [Case; 7] = [
    (&[(5 * M, M)], false, Err(Broken(Rule::NotOffered(0)))),
    (&[(0, 2 * M)], true, Ok(Told::Held)),
    (
        &[(M, M)],
        false,
        Err(Broken(Rule::Overlap { index: 1, with: 0 })),
    ),
    (&[(0, 3 * M)], false, Ok(Told::Accepted(1))),
    (&[(5 * M, M)], false, Ok(Told::Accepted(1))),
    (&[(5 * M, M)], false, Err(Broken(Rule::NotOffered(0)))),
    (&[], false, Ok(Told::Nothing)),
];

/// Sees both offers answered in turn.
fn see_in_turn(rt: &impl Abort, alloc: Global, config: &Config) -> Result<(), NoMemory>
    requires { 0 < config.now.hosts }
{
    let two = [extent(0, 3 * M, 7, 0), extent(5 * M, M, 2, 0)];
    let mut offers = two_offers(alloc, &two[..1], &two[1..])?;
    see(rt, &(offers.len(), offers.extents()), &(2, 2));
    see_accepted(rt, alloc, &mut offers, config, &IN_TURN, &two);
    see(rt, &offers.is_empty(), &true);
    Ok(())
}

#[test]
fn offers_are_answered_oldest_first_and_counted_from_the_held_list(
    rt: HostRuntime,
) -> Result<(), Fail> {
    see_in_turn(&rt, rt.alloc(), &two_regions(rt.alloc())?)?;
    Ok(())
}

/// A response of so many extents of this length, one at each MiB from 0 on.
fn respond_with_row(
    offers: &mut Offers,
    config: &Config,
    row: (u64, u64),
    more: bool,
    accepted: &mut Extents,
) -> Result<Told, Refusal>
    requires host { 0 < config.now.hosts }
    requires few { count_in (lists_of offers.old.offers) ≤ 64 }
    ensures few { count_in (lists_of offers.new.offers) ≤ 64 }
{
    let (extents, length) = row;
    let mut list = Extents::new(accepted.allocator());
    for first in 0..extents {
        list.push(extent(first.saturating_mul(M), length, 0, 0))?;
    }
    respond(offers, config, &list, more, accepted)
}

/// The extents of a row and their length, whether more follows, and what the response comes to.
static ROWS: [((u64, u64), bool, Result<Told, Refusal>); 5] = [
    ((40, 0), true, Ok(Told::Held)),
    ((25, 0), true, Err(Broken(Rule::TooManyListed(65)))),
    ((64, M), false, Err(Broken(Rule::TooManyExtents(65)))),
    ((63, M), false, Ok(Told::Accepted(63))),
    ((0, 0), false, Ok(Told::Accepted(0))),
];

/// Sees what each row comes to, one after another, and how many offers are left and extents accepted.
fn see_rows(rt: &impl Abort, offers: &mut Offers, config: &Config, accepted: &mut Extents)
    requires host { 0 < config.now.hosts }
    requires few { count_in (lists_of offers.old.offers) ≤ 64 }
{
    for (row, more, told) in &ROWS {
        let answer = respond_with_row(offers, config, *row, *more, accepted);
        see(rt, &answer, told);
    }
    see(rt, &(offers.len(), accepted.len()), &(0, 63));
}

/// Sees the rows answered, where 70 MiB and then one are offered.
fn see_long_lists(rt: &impl Abort, alloc: Global, config: &Config) -> Result<(), NoMemory>
    requires { 0 < config.now.hosts }
{
    let (first, later) = (extent(0, 70 * M, 1, 0), extent(100 * M, M, 2, 0));
    let mut offers = two_offers(alloc, &[first], &[later])?;
    see_rows(rt, &mut offers, config, &mut Extents::new(alloc));
    Ok(())
}

#[test]
fn lists_and_held_lists_have_at_most_64_extents(rt: HostRuntime) -> Result<(), Fail> {
    see_long_lists(&rt, rt.alloc(), &one_region(rt.alloc())?)?;
    Ok(())
}

/// An offer of two extents of one tag in the shareable region is answered.
static SHARED: [Case; 3] = [
    (&[(BASE, M)], false, Err(Broken(Rule::NotWhole(0)))),
    (
        &[(BASE, 2 * M)],
        false,
        Err(Broken(Rule::TagIncomplete { listed: 1, need: 2 })),
    ),
    (
        &[(BASE + 3 * M, M), (BASE, 2 * M)],
        false,
        Ok(Told::Accepted(2)),
    ),
];

/// An offering of these extents in the shareable region.
fn shared_offer(alloc: Global, extents: &[Extent]) -> Result<Offers, NoMemory>
    requires { length extents.now ≤ 8 }
    ensures { IfOk result (λ offers. count_in (lists_of offers.offers) ≤ 64) }
{
    let mut offers = Offers::new(alloc)?;
    offer(&mut offers, alloc, extents)?;
    Ok(offers)
}

/// Sees a shared offer answered.
fn see_shared(rt: &impl Abort, alloc: Global, config: &Config) -> Result<(), NoMemory>
    requires { 0 < config.now.hosts }
{
    let two = [extent(BASE, 2 * M, 7, 1), extent(BASE + 3 * M, M, 7, 2)];
    let mut offers = shared_offer(alloc, &two)?;
    see_accepted(rt, alloc, &mut offers, config, &SHARED, &[two[1], two[0]]);
    Ok(())
}

#[test]
fn a_shared_tag_is_accepted_whole(rt: HostRuntime) -> Result<(), Fail> {
    see_shared(&rt, rt.alloc(), &two_regions(rt.alloc())?)?;
    Ok(())
}
