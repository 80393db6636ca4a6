//! The control without entries: a configuration, and what the device keeps.

ghost use Rattle.control_core.specs.Deciding.{IsDecidedBy};
ghost use Rattle.control_core.specs.Pasts.{ByEveryPast, EntersStep, IsOfStep, IsPast};
ghost use Rattle.control_core.specs.Steps.{MayStep};
ghost use Rattle.device_commands.specs.device_rules.specs.ChangedRuns.{AreChanges, LiesIn};
ghost use Rattle.journal_core.specs.Entries.{effects};
ghost use Rattle.extent_list.specs.media_map.specs.region_config.specs.Granules.{granule_total};
ghost use Rattle.std.specs.Prelude.{◌≡◌, ◌+◌, ◌<◌, ◌≤◌, [], All, IfOk, OnOk};

use crate::changing::changes_of;
use crate::decided::Decided;
use crate::host_steps::host_step;
use crate::manager_steps::manager_step;
use crate::scrub_steps::scrub_step;
use cci_codec::dcd_base::{Actor, Changes, NoMemory};
use device_commands::host_lists::HostLists;
use extent_list::media_map::region_config::Config;
use journal_core::{Act, Effect, Effects};
use manager_commands::device_state::State;
use std::alloc::Global;
use std::marker::Model;

/// What a device keeps, and no entry of what led to it: it can decide and enter steps for ever.
///
/// Contracts see the configuration that it was made with and what is kept. What they say of the past they say by every
/// legal journal that leads to what is kept, of which there is one at all times.
#[derive(Drop)]
pub struct LiveControl {
    pub(crate) alloc: Global,
    pub(crate) config: Config,
    pub(crate) state: State,
}

impl Model for LiveControl {
    ghost use Rattle.control_core.specs.Pasts.{LiveControlled};
    ghost use Rattle.manager_commands.specs.device_state.specs.StateAfter.{IsReached};

    ghost Value = { LiveControlled };

    ghost view = { λ c. record { config = c.config; state = c.state } };

    ghost invariant = { λ c. IsReached c.config c.state };
}

impl LiveControl {
    /// A fresh control of this configuration: nothing is offered, accepted or logged.
    pub fn new(alloc: Global, config: Config) -> Result<LiveControl, NoMemory>
        ensures config { IfOk result (λ live. live.config ≡ config) }
        ensures fresh { IfOk result (λ live. IsPast config [] live.state) }
    {
        // A configuration is sound.
        let _hosts = config.hosts();
        let state = State::new(alloc, &config)?;
        Ok(LiveControl {
            alloc,
            config,
            state,
        })
    }

    /// The configuration that it was made with, whose blocks are the first ones.
    pub fn first_config(&self) -> &Config
        ensures { result.now ≡ self.now.config }
    {
        &self.config
    }

    /// Where it takes its memory from.
    pub fn allocator(&self) -> Global {
        self.alloc
    }

    /// What a command or a scrub that fits its actor comes to. `after` is lent for the lists of a host as the step leaves them.
    pub fn decide(
        &self,
        actor: &Actor,
        act: &Act,
        after: &mut HostLists,
    ) -> Result<Decided, NoMemory>
        requires { MayStep self.now.config actor.now act.now }
        ensures { IfOk result (λ d. ByEveryPast self.now (λ past. IsDecidedBy self.now.config past actor.now act.now d)) }
    {
        match actor {
            Actor::Host(host) => match act {
                Act::Command(request) => {
                    host_step(self.alloc, &self.config, &self.state, *host, request, after)
                }
                _ => unreachable!(),
            },
            Actor::Manager => match act {
                Act::Command(request) => {
                    manager_step(self.alloc, &self.config, &self.state, request, after)
                }
                _ => unreachable!(),
            },
            Actor::Sanitizer => match act {
                Act::Scrub(most) => scrub_step(self.alloc, &self.config, &self.state, *most),
                _ => unreachable!(),
            },
        }
    }

    /// The runs whose holders the effects of a step change or whose words they zero, with the holders after it.
    #[inline(always)]
    pub fn changes_by(&self, new: &Effects) -> Result<Changes, NoMemory>
        requires { IsOfStep self.now new.now }
        ensures changes { IfOk result (λ changes. ByEveryPast self.now (λ past. AreChanges self.now.config (effects past) new.now changes)) }
        ensures inside { IfOk result (λ changes. All (LiesIn (granule_total self.now.config)) changes) }
    {
        let changes = changes_of(self.alloc, &self.config, &self.state, new.as_slice())?;
        Ok(changes)
    }

    /// Makes room for a tag that a step opens.
    pub fn make_room(&mut self) -> Result<(), NoMemory>
        ensures room { OnOk result (0 < self.new.state.tags.spare) }
        ensures config { self.new.config ≡ self.old.config }
        ensures tags { self.new.state.tags.entries ≡ self.old.state.tags.entries }
        ensures spare { self.old.state.tags.spare ≤ self.new.state.tags.spare }
        ensures kept { self.new.state ≡ record self.old.state { tags = self.new.state.tags } }
    {
        self.state.make_room()
    }

    /// Enters the effects of a step. It takes no memory.
    ///
    /// There is room for a tag, which it may use.
    #[inline(always)]
    pub fn enter(&mut self, new: &[Effect])
        requires room { 0 < self.old.state.tags.spare }
        requires step { IsOfStep self.old new.now }
        ensures config { self.new.config ≡ self.old.config }
        ensures entered { EntersStep self.old self.new new.now }
        ensures room_left { self.old.state.tags.spare ≤ self.new.state.tags.spare + 1 }
    {
        self.state.enter(&self.config, new);
    }
}
