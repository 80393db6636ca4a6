//! What a host gives back, in one message or in several.

ghost use Rattle.extent_list.specs.ExtentLists.{marked};
ghost use Rattle.release_core.specs.Releases.{AnswersRelease, GivesBack, KeepsHeld, give_back_rule};
ghost use Rattle.std.specs.Prelude.{◌≡◌, ◌++◌, ◌+◌, ◌<◌, ◌≤◌, [], IfOk, OnErr, OnOk, false, length, map};

use crate::counting::count_rule;
use extent_list::dcd_codes::dcd_base::limits::LISTED_EXTENTS;
use extent_list::dcd_codes::dcd_base::{Extent, Extents, HostId, NoMemory};
use extent_list::dcd_codes::{Refusal, Rule};
use extent_list::media_map::region_config::Config;
use extent_list::{ExtentList, Owned, Owners, Within, first_unfit, incomplete_among, marked_lists};
use std::alloc::Global;
use std::marker::Model;

/// What a Release Dynamic Capacity does that breaks no rule.
#[derive(Debug, Drop)]
pub enum GivenBack {
    /// More is to come: the extents of the message are held.
    Held,
    /// Nothing is given back.
    Nothing,
    /// These extents leave the host, in the order in which it listed them.
    Done(Extents),
}

/// The extents that one host has listed in Release Dynamic Capacity commands with the More flag.
///
/// It has its memory for 64 extents, which are as many as can be listed, from the start. Contracts see them.
#[derive(Debug, Drop)]
pub struct Releases {
    alloc: Global,
    listed: Vec<Extent>,
}

impl Model for Releases {
    ghost use Rattle.std.specs.Prelude.{◌≤◌, List, vec_capacity};
    ghost use Rattle.extent_list.specs.dcd_codes.specs.dcd_base.specs.declared.capacity.Extent.{Extent};

    ghost Value = { List Extent };

    ghost view = { λ releases. releases.listed.items };

    ghost invariant = { λ releases. 64 ≤ vec_capacity releases.listed };
}

impl Releases {
    /// Nothing is held.
    pub fn new(alloc: Global) -> Result<Releases, NoMemory>
        ensures { IfOk result (λ new. new ≡ []) }
    {
        Ok(Releases {
            alloc,
            listed: Vec::with_capacity(alloc, LISTED_EXTENTS)?,
        })
    }

    /// The same list for itself.
    pub fn copy(&self) -> Result<Releases, NoMemory>
        ensures { IfOk result (λ copy. copy ≡ self.now) }
    {
        let mut copy = Releases::new(self.alloc)?;
        copy.hold(self.listed.as_slice())?;
        Ok(copy)
    }

    /// The allocator that it grows by.
    pub fn allocator(&self) -> Global {
        self.alloc
    }

    /// The extents held so far, in the order in which they were listed.
    pub fn held(&self) -> &[Extent]
        ensures { result.now ≡ self.now }
    {
        self.listed.as_slice()
    }

    /// Holds nothing any more, as after a command whose payload can not be read. The memory stays.
    pub fn drop_held(&mut self)
        ensures { self.new ≡ [] }
    {
        self.listed.clear();
    }

    /// Holds the list of a message behind the held one. Without memory, which is asked for only where more than 64 would be
    /// held, the held list stays.
    pub fn hold(&mut self, list: &[Extent]) -> Result<(), NoMemory>
        ensures held { OnOk result (self.new ≡ self.old ++ list.now) }
        ensures kept { OnErr result (self.new ≡ self.old) }
        ensures full { OnErr result (64 < length self.old + length list.now) }
    {
        self.listed.extend_from_slice(list)?;
        Ok(())
    }

    /// Holds the list of a message behind the held one, where they are 64 at most together. It takes no memory.
    pub fn hold_within(&mut self, list: &[Extent])
        requires { length self.old + length list.now ≤ 64 }
        ensures { self.new ≡ self.old ++ list.now }
    {
        match self.listed.extend_from_slice(list) {
            Ok(()) => (),
            Err(_) => unreachable!(),
        }
    }

    /// What a release gives back with this list of a message behind the held one: each extent with the tag and the
    /// sequence of the accepted extent in which it lies.
    pub fn leaving_of(&self, accepted: &[Extent], list: &Extents) -> Result<Extents, NoMemory>
        ensures { IfOk result (λ leaving. leaving ≡ map (marked accepted.now) (self.now ++ list.now)) }
    {
        marked_lists(
            self.alloc,
            accepted,
            self.listed.as_slice(),
            list.as_slice(),
        )
    }

    /// Reads a Release Dynamic Capacity of the host (4803h, CXL 3.1, 8.2.9.9.9.4): its list of extents and its More
    /// flag.
    ///
    /// The whole list is the held one and then the message's, and indices count through both. `Broken` comes with
    /// the first of these rules that it breaks (order: profile):
    ///
    /// 1. `TooManyListed(n)`: the whole list has n extents, above 64. With `more` nothing further is tried.
    /// 2. For each extent in order: `ZeroLength`; `OutsideRegion`, where it is not within one region of the host;
    ///    `Unaligned`; `NotAccepted`, where it lies in no accepted extent; `Overlap` with the first earlier extent
    ///    with which it shares an address; `NotWhole`, where its region is shareable and it is a part.
    /// 3. `TagIncomplete`, for the first tag of a shareable region of which not all accepted extents are listed.
    /// 4. `TooManyExtents(n)`: without the whole list the host has n extents, accepted and offered, above 64.
    ///
    /// `Held` comes exactly where no rule is broken and `more` is set, and the whole list is held from then on;
    /// `Nothing` where it is not set and the whole list is empty; else `Done` with the whole list, each extent with
    /// the tag and the sequence of the accepted one in which it lies. After these two and after `Broken` nothing is
    /// held. Without memory the held list stays. `offered` is how many extents the host is offered.
    pub fn release(
        &mut self,
        config: &Config,
        host: HostId,
        accepted: &ExtentList,
        offered: usize,
        list: &Extents,
        more: bool,
    ) -> Result<GivenBack, Refusal>
        requires host { host < config.now.hosts }
        requires few { length accepted.now.extents + offered ≤ 64 }
        ensures answer { AnswersRelease config.now host accepted.now.extents offered (self.old ++ list.now) more self.new result }
        ensures refused { KeepsHeld self.old self.new result }
    {
        match broken_rule(config, host, accepted, offered, self.held(), list, more)? {
            Some(rule) => {
                self.drop_held();
                Err(Refusal::Broken(rule))
            }
            None => Ok(self.give_back(accepted.as_slice(), list, more)?),
        }
    }

    /// Does what a release says that breaks no rule, with this list of a message behind the held one: holds the whole
    /// list where more is to come, and else answers it. Without memory the held list stays.
    pub fn give_back(
        &mut self,
        accepted: &[Extent],
        list: &Extents,
        more: bool,
    ) -> Result<GivenBack, NoMemory>
        ensures done { IfOk result (GivesBack accepted.now (self.old ++ list.now) more self.new) }
        ensures kept { OnErr result (self.new ≡ self.old) }
    {
        if more {
            self.hold(list.as_slice())?;
            return Ok(GivenBack::Held);
        }
        let leaving = self.leaving_of(accepted, list)?;
        self.listed.clear();
        if leaving.is_empty() {
            return Ok(GivenBack::Nothing);
        }
        Ok(GivenBack::Done(leaving))
    }
}

/// The first rule of its row that a release breaks (4803h, CXL 3.1, 8.2.9.9.9.4): this list of a message behind the
/// held one. The rules stand at `Releases::release`, in order.
///
/// `offered` is how many extents the host is offered; with the accepted ones they are at most 64. The list is of the
/// host's addresses, in bytes; the tags and sequences in it are not read. Where more messages are to follow, only the
/// length of the list is tried.
pub fn broken_rule(
    config: &Config,
    host: HostId,
    accepted: &ExtentList,
    offered: usize,
    held: &[Extent],
    list: &Extents,
    more: bool,
) -> Result<Option<Rule>, NoMemory>
    requires host { host < config.now.hosts }
    requires few { length accepted.now.extents + offered ≤ 64 }
    ensures { IfOk result (λ found. found ≡ give_back_rule config.now host accepted.now.extents offered (held.now ++ list.now) more) }
{
    let (alloc, list) = (list.allocator(), list.as_slice());
    let listed = held.len() + list.len();
    if listed > LISTED_EXTENTS {
        return Ok(Some(Rule::TooManyListed(listed as u64)));
    }
    if more {
        return Ok(None);
    }
    if held.is_empty() {
        return broken_list_rule(alloc, config, host, accepted, offered, list);
    }
    let whole = followed_by(alloc, held, list)?;
    broken_list_rule(alloc, config, host, accepted, offered, whole.as_slice())
}

/// The first rule that a whole list breaks, to which no more is to come.
fn broken_list_rule(
    alloc: Global,
    config: &Config,
    host: HostId,
    accepted: &ExtentList,
    offered: usize,
    whole: &[Extent],
) -> Result<Option<Rule>, NoMemory>
    requires host { host < config.now.hosts }
    requires few { length accepted.now.extents + offered ≤ 64 }
    requires listed { length whole.now ≤ 64 }
    ensures { IfOk result (λ found. found ≡ give_back_rule config.now host accepted.now.extents offered whole.now false) }
{
    // That extents in regions end at an address, which a configuration says of itself where it is read.
    let _regions = config.regions();
    let owners = Owners::of(accepted.as_slice());
    if let Some(rule) = first_unfit(
        config,
        host,
        &Within::AnyRegion,
        &owners,
        Owned::Accepted,
        whole,
    ) {
        return Ok(Some(rule));
    }
    match incomplete_among(alloc, config, host, &owners, whole)? {
        Some(rule) => Ok(Some(rule)),
        None => count_rule(accepted, &owners, offered, whole),
    }
}

/// The held list and then the message's.
fn followed_by(alloc: Global, held: &[Extent], list: &[Extent]) -> Result<Extents, NoMemory>
    ensures { IfOk result (λ whole. whole ≡ held.now ++ list.now) }
{
    let mut whole = Extents::with_capacity(alloc, held.len() + list.len())?;
    whole.extend_from_slice(held)?;
    whole.extend_from_slice(list)?;
    Ok(whole)
}
