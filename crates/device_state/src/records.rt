//! What effects make of the logs and the block sizes.

ghost use Rattle.device_state.specs.Entered.{with_log, log_by, put_in};
ghost use Rattle.device_rules.specs.Logs.{same_log};
ghost use Rattle.device_state.specs.Changes.{AreLogged, log_changed, log_told};
ghost use Rattle.device_state.specs.StateAfter.{part_of};
ghost use Rattle.device_state.specs.Updates.{IsOfLog};
ghost use Rattle.event_log.specs.LogStates.{with_missed};
ghost use Rattle.extent_list.specs.media_map.specs.region_config.specs.Blocks.{with_block};
ghost use Rattle.extent_list.specs.media_map.specs.region_config.specs.Granules.{is_supported, region_spec};
ghost use Rattle.std.specs.Prelude.{◌≡◌, ◌<◌, Some, length, true};

use crate::state::State;
use cci_codec::dcd_base::{HostId, LogId, RegionId};
use event_log::EventLog;
use event_records::Event;
use journal_core::Effect;

impl State {
    /// The log gets the record, unless it is full.
    pub(crate) fn enter_record(&mut self, log: LogId, event: &Event)
        requires { IsOfLog (length self.old.hosts.items) log }
        ensures logs { AreLogged (Effect.Logged log event.now) self.old self.new }
        ensures kept { self.new ≡ record self.old { hosts = self.new.hosts; manager = self.new.manager } }
    {
        match log {
            LogId::Host(host) => self.enter_record_of_host(host, event),
            LogId::Manager => put(&mut self.manager, *event),
        }
    }

    /// The log of the host gets the record, unless it is full.
    fn enter_record_of_host(&mut self, host: HostId, event: &Event)
        requires { host < length self.old.hosts.items }
        ensures hosts { self.new.hosts.items ≡ with_log self.old host (put_in (part_of self.old host).log event.now) }
        ensures kept { self.new ≡ record self.old { hosts = self.new.hosts } }
    {
        put(&mut self.hosts[usize::from(host.0)].log, *event);
    }

    /// The log counts a record that it has not.
    pub(crate) fn count_missed(&mut self, log: LogId)
        requires { IsOfLog (length self.old.hosts.items) log }
        ensures logs { AreLogged (Effect.Missed log) self.old self.new }
        ensures kept { self.new ≡ record self.old { hosts = self.new.hosts; manager = self.new.manager } }
    {
        match log {
            LogId::Host(host) => self.count_missed_of_host(host),
            LogId::Manager => self.manager.count_missed(),
        }
    }

    /// The log of the host counts a record that it has not.
    fn count_missed_of_host(&mut self, host: HostId)
        requires { host < length self.old.hosts.items }
        ensures hosts { self.new.hosts.items ≡ with_log self.old host (with_missed (part_of self.old host).log) }
        ensures kept { self.new ≡ record self.old { hosts = self.new.hosts } }
    {
        self.hosts[usize::from(host.0)].log.count_missed();
    }

    /// Changes the log that the effect changes, which is this one.
    pub(crate) fn change_log_of(&mut self, log: LogId, effect: &Effect)
        requires known { IsOfLog (length self.old.hosts.items) log }
        requires told { log_told effect.now ≡ Some log }
        ensures logs { AreLogged effect.now self.old self.new }
        ensures kept { self.new ≡ record self.old { hosts = self.new.hosts; manager = self.new.manager } }
    {
        match log {
            LogId::Host(host) => self.change_log_of_host(host, effect),
            LogId::Manager => change_log(&mut self.manager, effect),
        }
    }

    /// Changes the log of the host.
    fn change_log_of_host(&mut self, host: HostId, effect: &Effect)
        requires { host < length self.old.hosts.items }
        ensures hosts { self.new.hosts.items ≡ with_log self.old host (log_changed (part_of self.old host).log effect.now) }
        ensures kept { self.new ≡ record self.old { hosts = self.new.hosts } }
    {
        change_log(&mut self.hosts[usize::from(host.0)].log, effect);
    }

    /// The region has blocks of this size, which it supports.
    pub(crate) fn set_block(&mut self, region: RegionId, size: u64)
        requires known { region < length self.old.present.regions }
        requires supported { is_supported (region_spec self.old.present region) size ≡ true }
        ensures { self.new ≡ record self.old { present = with_block self.old.present region size } }
    {
        let sanitize = self.present.region(region).sanitize;
        let _ = self.present.set_block_size(region, size, sanitize, 0);
    }
}

/// The log that the effect changes.
fn log_of(effect: &Effect) -> Option<LogId>
    ensures { result ≡ log_told effect.now }
{
    match effect {
        Effect::Logged(log, _) => Some(*log),
        Effect::Missed(log) => Some(*log),
        Effect::Cleared(log, _) => Some(*log),
        Effect::Reset(log) => Some(*log),
        _ => None,
    }
}

/// Changes the log of this name as the effect says, where the effect is one of that log.
pub fn change_log_named(log: &mut EventLog, name: &LogId, effect: &Effect)
    ensures { log.new ≡ log_by name.now log.old effect.now }
{
    match log_of(effect) {
        Some(told) => {
            if is_log(&told, name) {
                change_log(log, effect);
            }
        }
        None => (),
    }
}

/// Whether both are the same log.
fn is_log(first: &LogId, second: &LogId) -> bool
    ensures { result ≡ same_log first.now second.now }
{
    match (first, second) {
        (LogId::Host(a), LogId::Host(b)) => a.0 == b.0,
        (LogId::Manager, LogId::Manager) => true,
        _ => false,
    }
}

/// Changes a log as the effect says that changes it.
fn change_log(log: &mut EventLog, effect: &Effect)
    ensures { log.new ≡ log_changed log.old effect.now }
{
    match effect {
        Effect::Logged(_, event) => put(log, *event),
        Effect::Missed(_) => log.count_missed(),
        Effect::Cleared(_, count) => log.drop_oldest(usize::from(*count)),
        Effect::Reset(_) => log.reset_missed(),
        _ => (),
    }
}

/// The log gets the record, unless it is full.
fn put(log: &mut EventLog, event: Event)
    ensures { log.new ≡ put_in log.old event }
{
    let _ = log.put(event);
}
