//! What the commands of the Fabric Manager say behind their names.

ghost use Rattle.fm_payloads.specs.ManagerPayloads.{ManagerCountsFit};
ghost use Rattle.std.specs.Prelude.{◌≤◌, IfOk, length};
ghost use Rattle.text_lines.specs.Fields.{GivesWords};
ghost use Rattle.text_lines.specs.ManagerRequests.{add_ahead, capacity_ahead, host_page_ahead, manager_request_ahead, remove_ahead, setting_ahead, spot_ahead};

use crate::Words;
use crate::actors::host;
use crate::commands::ManagerCommand;
use crate::faults::TextFault;
use crate::fields::{flag, may, may_tag, named, tag};
use crate::forms::{Capacity, Clearing, HostPage, Setting, Spot};
use crate::host_reading::{clearing, page};
use crate::keywords::Keyword;
use crate::lists::extents;
use crate::policies::{add_policy, release_flags};
use dcd_base::ShortList;
use fm_payloads::FmRequest;
use std::alloc::Global;

/// A host, the index of the first, and how many are wanted.
#[tactic(auto, unfolding(crate::specs::ManagerRequests::host_page_ahead))]
fn host_page(words: &mut Words<'_>, most: u32) -> Result<HostPage, TextFault>
    ensures value { GivesWords (λ x. x) result words.new (host_page_ahead most words.old) }
    ensures first { IfOk result (λ x. x.page.first ≤ most) }
    ensures count { IfOk result (λ x. x.page.count ≤ most) }
{
    let host = host(words)?;
    let page = page(words, most)?;
    Ok(HostPage { host, page })
}

/// A region, its block size, and whether it sanitizes.
#[tactic(auto, unfolding(crate::specs::ManagerRequests::setting_ahead))]
fn setting(words: &mut Words<'_>) -> Result<Setting, TextFault>
    ensures { GivesWords (λ x. x) result words.new (setting_ahead words.old) }
{
    let region = named(words, Keyword::Region, 255)? as u8;
    let block = named(words, Keyword::Block, u64::MAX)?;
    let sanitize = flag(words, Keyword::Sanitize);
    Ok(Setting {
        region,
        block,
        sanitize,
    })
}

/// A region of a host.
#[tactic(auto, unfolding(crate::specs::ManagerRequests::spot_ahead))]
fn spot(words: &mut Words<'_>) -> Result<Spot, TextFault>
    ensures { GivesWords (λ x. x) result words.new (spot_ahead words.old) }
{
    let host = host(words)?;
    let region = named(words, Keyword::Region, 255)? as u8;
    Ok(Spot { host, region })
}

/// A length, a tag, and extents.
#[tactic(auto, unfolding(crate::specs::ManagerRequests::capacity_ahead))]
fn capacity(alloc: Global, words: &mut Words<'_>) -> Result<Capacity, TextFault>
    ensures value { GivesWords (λ x. x) result words.new (capacity_ahead words.old) }
    ensures few { IfOk result (λ x. length x.extents ≤ 1637) }
{
    let length = may(words, Keyword::Length, u64::MAX)?;
    let tag = may_tag(alloc, words)?;
    let extents = extents(alloc, words, 1637)?;
    Ok(Capacity {
        length,
        tag,
        extents,
    })
}

/// An add: a host, a region, a policy, and what is wanted.
#[tactic(auto, unfolding(crate::specs::ManagerRequests::add_ahead))]
fn add(alloc: Global, words: &mut Words<'_>) -> Result<FmRequest, TextFault>
    ensures value { GivesWords (λ q. q) result words.new (add_ahead words.old) }
    ensures counts { IfOk result (λ q. ManagerCountsFit q) }
{
    let Spot { host, region } = spot(words)?;
    let policy = add_policy(words)?;
    let Capacity {
        length,
        tag,
        extents,
    } = capacity(alloc, words)?;
    Ok(FmRequest::Add {
        host,
        policy,
        region,
        length,
        tag,
        extents,
    })
}

/// A release: a host, a region, the flags, and what is meant.
#[tactic(auto, unfolding(crate::specs::ManagerRequests::remove_ahead))]
fn remove(alloc: Global, words: &mut Words<'_>) -> Result<FmRequest, TextFault>
    ensures value { GivesWords (λ q. q) result words.new (remove_ahead words.old) }
    ensures counts { IfOk result (λ q. ManagerCountsFit q) }
{
    let Spot { host, region } = spot(words)?;
    let flags = release_flags(words)?;
    let Capacity {
        length,
        tag,
        extents,
    } = capacity(alloc, words)?;
    Ok(FmRequest::Remove {
        host,
        flags,
        region,
        length,
        tag,
        extents,
    })
}

/// What the command says.
#[tactic(auto, unfolding(crate::specs::ManagerRequests::manager_request_ahead))]
pub fn manager_request(
    alloc: Global,
    command: ManagerCommand,
    words: &mut Words<'_>,
) -> Result<FmRequest, TextFault>
    ensures value { GivesWords (λ q. q) result words.new (manager_request_ahead command words.old) }
    ensures counts { IfOk result (λ q. ManagerCountsFit q) }
{
    match command {
        ManagerCommand::GetEventRecords => {
            let log = named(words, Keyword::Log, 255)? as u8;
            Ok(FmRequest::GetEvents { log })
        }
        ManagerCommand::ClearEventRecords => {
            let Clearing { log, all, handles } = clearing(alloc, words)?;
            let handles = ShortList::of_list(handles);
            Ok(FmRequest::ClearEvents { log, all, handles })
        }
        ManagerCommand::GetInfo => Ok(FmRequest::GetInfo),
        ManagerCommand::GetRegionConfiguration => {
            let HostPage { host, page } = host_page(words, 255)?;
            Ok(FmRequest::GetRegions {
                host,
                count: page.count as u8,
                first: page.first as u8,
            })
        }
        ManagerCommand::SetRegionConfiguration => {
            let Setting {
                region,
                block,
                sanitize,
            } = setting(words)?;
            Ok(FmRequest::SetRegion {
                region,
                sanitize,
                block,
            })
        }
        ManagerCommand::GetRegionExtentLists => {
            let HostPage { host, page } = host_page(words, u32::MAX)?;
            Ok(FmRequest::GetExtentLists {
                host,
                count: page.count,
                first: page.first,
            })
        }
        ManagerCommand::InitiateAdd => add(alloc, words),
        ManagerCommand::InitiateRelease => remove(alloc, words),
        ManagerCommand::AddReference => {
            let tag = tag(alloc, words)?;
            Ok(FmRequest::AddReference { tag })
        }
        ManagerCommand::RemoveReference => {
            let tag = tag(alloc, words)?;
            Ok(FmRequest::RemoveReference { tag })
        }
        ManagerCommand::ListTags => {
            let page = page(words, u32::MAX)?;
            Ok(FmRequest::ListTags {
                first: page.first,
                count: page.count,
            })
        }
    }
}
