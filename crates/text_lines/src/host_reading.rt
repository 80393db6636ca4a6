//! What the commands of a host say behind their names.

ghost use Rattle.host_payloads.specs.HostPayloads.{HostCountsFit, is_untagged, lists_untagged};
ghost use Rattle.std.specs.List.{list_all};
ghost use Rattle.std.specs.Prelude.{◌≤◌, IfOk, IsTrue, length};
ghost use Rattle.text_lines.specs.Fields.{GivesWords};
ghost use Rattle.text_lines.specs.HostRequests.{clearing_ahead, host_request_ahead, listing_ahead, page_ahead};

use crate::Words;
use crate::commands::HostCommand;
use crate::faults::TextFault;
use crate::fields::{flag, may, named};
use crate::forms::{Clearing, Listing, Page};
use crate::keywords::Keyword;
use crate::lists::{extents, handles};
use dcd_base::ShortList;
use host_payloads::HostRequest;
use std::alloc::Global;

/// A log, whether all of its records are meant, and handles.
#[tactic(auto, unfolding(crate::specs::HostRequests::clearing_ahead))]
pub fn clearing(alloc: Global, words: &mut Words<'_>) -> Result<Clearing, TextFault>
    ensures value { GivesWords (λ x. x) result words.new (clearing_ahead words.old) }
    ensures few { IfOk result (λ x. length x.handles ≤ 255) }
{
    let log = named(words, Keyword::Log, 255)? as u8;
    let all = flag(words, Keyword::All);
    let handles = handles(alloc, words)?;
    Ok(Clearing { log, all, handles })
}

/// The index of the first, and how many are wanted, each at most `most`.
#[tactic(auto, unfolding(crate::specs::HostRequests::page_ahead))]
pub fn page(words: &mut Words<'_>, most: u32) -> Result<Page, TextFault>
    ensures value { GivesWords (λ x. x) result words.new (page_ahead most words.old) }
    ensures first { IfOk result (λ x. x.first ≤ most) }
    ensures count { IfOk result (λ x. x.count ≤ most) }
{
    let first = may(words, Keyword::First, u64::from(most))? as u32;
    let count = named(words, Keyword::Count, u64::from(most))? as u32;
    Ok(Page { first, count })
}

/// Whether more follows, and extents.
#[tactic(auto, unfolding(crate::specs::HostRequests::listing_ahead))]
fn listing(alloc: Global, words: &mut Words<'_>) -> Result<Listing, TextFault>
    ensures value { GivesWords (λ x. x) result words.new (listing_ahead words.old) }
    ensures few { IfOk result (λ x. length x.extents ≤ 2729) }
    ensures untagged { IfOk result (λ x. IsTrue (list_all is_untagged x.extents)) }
{
    let more = flag(words, Keyword::More);
    let extents = extents(alloc, words, 2729)?;
    Ok(Listing { more, extents })
}

/// What the command says.
#[tactic(auto, unfolding(crate::specs::HostRequests::host_request_ahead))]
pub fn host_request(
    alloc: Global,
    command: HostCommand,
    words: &mut Words<'_>,
) -> Result<HostRequest, TextFault>
    ensures value { GivesWords (λ q. q) result words.new (host_request_ahead command words.old) }
    ensures counts { IfOk result (λ q. HostCountsFit q) }
    ensures untagged { IfOk result (λ q. IsTrue (lists_untagged q)) }
{
    match command {
        HostCommand::GetEventRecords => {
            let log = named(words, Keyword::Log, 255)? as u8;
            Ok(HostRequest::GetEvents { log })
        }
        HostCommand::ClearEventRecords => {
            let Clearing { log, all, handles } = clearing(alloc, words)?;
            let handles = ShortList::of_list(handles);
            Ok(HostRequest::ClearEvents { log, all, handles })
        }
        HostCommand::GetConfiguration => {
            let page = page(words, 255)?;
            Ok(HostRequest::GetConfiguration {
                count: page.count as u8,
                first: page.first as u8,
            })
        }
        HostCommand::GetExtentList => {
            let page = page(words, u32::MAX)?;
            Ok(HostRequest::GetExtents {
                count: page.count,
                first: page.first,
            })
        }
        HostCommand::AddResponse => {
            let Listing { more, extents } = listing(alloc, words)?;
            Ok(HostRequest::AddResponse { more, extents })
        }
        HostCommand::Release => {
            let Listing { more, extents } = listing(alloc, words)?;
            Ok(HostRequest::GiveBack { more, extents })
        }
    }
}
