//! 4803h Release Dynamic Capacity, of a host (CXL 3.1, 8.2.9.9.9.4).
//! Row: `give_back_rule`, release_core/specs/Releases.antt.
//! Outcome: `give_back_outcome`, device_rules/specs/ReleaseOutcomes.antt; the reply is empty.
//! Bytes: docs/formats.md, 'Commands of a host'.

ghost use Rattle.host_commands.specs.HostMessages.{AnswersByLists};
ghost use Rattle.host_commands.specs.ReleaseDynamicCapacity.{GivesBack, IsReleased};
ghost use Rattle.extent_list.specs.HostLists.{extent_total};
ghost use Rattle.extent_list.specs.ExtentLists.{count_in};
ghost use Rattle.extent_list.specs.media_map.specs.Places.{is_granular};
ghost use Rattle.host_payloads.specs.declared.requests.HostRequest.{HostRequest};
ghost use Rattle.journal_core.specs.declared.outcome.HeldKind.{HeldKind};
ghost use Rattle.release_core.specs.Releases.{give_back_rule};
ghost use Rattle.std.specs.Prelude.{◌≡◌, ◌++◌, ◌<◌, ◌≤◌, All, IfOk, IsTrue, None};

use crate::held_lists::{append_unhold, held};
use cci_codec::dcd_base::{Bytes, Extent, Extents, HostId, LogId, NoMemory};
use device_commands::host_lists::HostLists;
use device_commands::{Draft, append_leaves, records_to, tags_of};
use event_records::EventKind;
use extent_list::dcd_codes::Refusal;
use extent_list::media_map::region_config::Config;
use journal_core::{Effects, HeldKind};
use release_core::broken_rule;
use std::alloc::Global;

/// What the host gives back: this list behind what it holds of earlier messages, and whether more messages are to
/// follow (CXL 3.1, 8.2.9.9.9.4).
///
/// The first broken rule of the row comes where one is broken. `config` is the configuration that the device was made
/// with, `present` the one with the present blocks. They have the same granules, so that only `present` is read.
#[inline(never)]
pub fn give_back(
    alloc: Global,
    config: &Config,
    present: &Config,
    host: HostId,
    lists: &HostLists,
    more: bool,
    list: &Extents,
) -> Result<Draft, Refusal>
    requires host { host < config.now.hosts }
    requires hosts { present.now.hosts ≡ config.now.hosts }
    requires few { extent_total lists.now ≤ 64 }
    ensures { AnswersByLists config.now present.now host lists.now (HostRequest.GiveBack more list.now) result }
{
    let (accepted, offered, earlier) = (lists.accepted(), lists.offered(), lists.releases());
    if let Some(rule) = broken_rule(present, host, accepted, offered, earlier, list, more)? {
        return Err(Refusal::Broken(rule));
    }
    Ok(given_back(alloc, present, host, lists, more, list)?)
}

/// What a release does that breaks no rule: its list is held where more messages are to follow, and else the whole list leaves.
fn given_back(
    alloc: Global,
    present: &Config,
    host: HostId,
    lists: &HostLists,
    more: bool,
    list: &Extents,
) -> Result<Draft, NoMemory>
    requires host { host < present.now.hosts }
    requires row { give_back_rule present.now host lists.now.accepted (count_in lists.now.offers) (lists.now.releases ++ list.now) more ≡ None }
    ensures { IfOk result (GivesBack present.now host lists.now more list.now) }
{
    // What is made of present blocks is made of granules, in every configuration.
    let _regions = present.regions();
    if more {
        return held(alloc, host, HeldKind::Releases, list);
    }
    let leaving = lists.leaving_of(list)?;
    released(alloc, present, host, lists, leaving.as_slice())
}

/// These extents leave the host.
fn released(
    alloc: Global,
    present: &Config,
    host: HostId,
    lists: &HostLists,
    leaving: &[Extent],
) -> Result<Draft, NoMemory>
    requires host { host < present.now.hosts }
    requires granular { All (λ x. IsTrue (is_granular present.now host x.start x.length)) leaving.now }
    ensures { IfOk result (IsReleased present.now host lists.now leaving.now) }
{
    let tags = tags_of(alloc, leaving)?;
    let (to, kind) = (LogId::Manager, EventKind::Released);
    let log_records = records_to(alloc, to, host, kind, leaving)?;
    let mut changes = Effects::new(alloc);
    append_unhold(host, HeldKind::Releases, lists.releases(), &mut changes)?;
    append_leaves(present, host, false, leaving, &mut changes)?;
    Ok(Draft {
        payload: Bytes::new(alloc),
        changes,
        tags,
        log_records,
    })
}
