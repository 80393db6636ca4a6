//! The first rule that a response breaks.

ghost use Rattle.extent_list.specs.ExtentLists.{count_in};
ghost use Rattle.offer_core.specs.Offerings.{lists_of};
ghost use Rattle.offer_core.specs.Responses.{respond_rule, response_list_rule};
ghost use Rattle.std.specs.Prelude.{◌≡◌, ◌+◌, ◌<◌, ◌≤◌, IfOk, length};

use crate::offers::Offers;
use extent_list::dcd_codes::Rule;
use extent_list::dcd_codes::dcd_base::limits::LISTED_EXTENTS;
use extent_list::dcd_codes::dcd_base::{Extent, Extents, HostId, NoMemory};
use extent_list::media_map::region_config::Config;
use extent_list::{Owned, Owners, Within, first_unfit, incomplete_among, too_many_extents};

/// The first rule of its row that a response breaks (CXL 3.1, 8.2.9.9.9.3): this list of a message behind the held one.
///
/// `accepted` is the number of extents that the host has accepted; with those of all offers they are at most 64. The
/// list is of the host's addresses, in bytes; the tags and sequences in it are not read. Where more messages are to
/// follow, only the length of the list is tried.
pub fn broken_rule(
    config: &Config,
    host: HostId,
    accepted: usize,
    offers: &Offers,
    list: &[Extent],
    more: bool,
) -> Result<Option<Rule>, NoMemory>
    requires host { host < config.now.hosts }
    requires few { accepted + count_in (lists_of offers.now.offers) ≤ 64 }
    ensures { IfOk result (λ found. found
        ≡ respond_rule config.now host accepted (lists_of offers.now.offers) offers.now.held more list.now) }
{
    let listed = offers.held().len() + list.len();
    if listed > LISTED_EXTENTS {
        return Ok(Some(Rule::TooManyListed(listed as u64)));
    }
    if more {
        return Ok(None);
    }
    if offers.held().is_empty() {
        return broken_list_rule(config, host, accepted, offers, list);
    }
    let mut whole = Extents::with_capacity(offers.allocator(), listed)?;
    whole.extend_from_slice(offers.held())?;
    whole.extend_from_slice(list)?;
    broken_list_rule(config, host, accepted, offers, whole.as_slice())
}

/// The first rule that a whole list breaks, to which no more is to come.
fn broken_list_rule(
    config: &Config,
    host: HostId,
    accepted: usize,
    offers: &Offers,
    whole: &[Extent],
) -> Result<Option<Rule>, NoMemory>
    requires host { host < config.now.hosts }
    requires few { accepted + count_in (lists_of offers.now.offers) ≤ 64 }
    requires listed { length whole.now ≤ 64 }
    ensures { IfOk result (λ found. found ≡ response_list_rule config.now host accepted (lists_of offers.now.offers) whole.now) }
{
    if whole.is_empty() {
        return Ok(too_many_extents(accepted + offers.later_extents()));
    }
    let owners = Owners::of(offers.oldest());
    if let Some(rule) = first_unfit(
        config,
        host,
        &Within::AnyRegion,
        &owners,
        Owned::Offered,
        whole,
    ) {
        return Ok(Some(rule));
    }
    match incomplete_among(offers.allocator(), config, host, &owners, whole)? {
        Some(rule) => Ok(Some(rule)),
        None => Ok(too_many_extents(accepted + whole.len() + offers.later_extents())),
    }
}
