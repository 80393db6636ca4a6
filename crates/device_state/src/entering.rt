//! A step is entered: its effects change what the device keeps.

ghost use Rattle.device_state.specs.Entered.{IsEntered};
ghost use Rattle.device_state.specs.EnteredLists.{Fits, lists_of};
ghost use Rattle.device_state.specs.Updates.{IsOfDevice};
ghost use Rattle.extent_list.specs.media_map.specs.region_config.specs.Granules.{granule_total, region_spec, with_blocks};
ghost use Rattle.std.specs.Prelude.{◌≡◌, ◌+◌, ◌<◌, ◌≤◌, All, OnOk, length};

use crate::state::State;
use cci_codec::dcd_base::NoMemory;
use extent_list::media_map::region_config::Config;
use journal_core::Effect;

impl State {
    /// Takes the memory for the tag that a step may open. Nothing else of a step takes memory when it is entered.
    pub fn make_room(&mut self) -> Result<(), NoMemory>
        ensures room { OnOk result (0 < self.new.tags.spare) }
        ensures entries { self.new.tags.entries ≡ self.old.tags.entries }
        ensures spare { self.old.tags.spare ≤ self.new.tags.spare }
        ensures kept { self.new ≡ record self.old { tags = self.new.tags } }
    {
        self.tags.make_room()
    }

    /// Changes every part of what is kept by the effects of a step, each in turn. Takes no memory.
    ///
    /// There is a place for all that they add, which a step of a legal journal always finds.
    pub fn enter(&mut self, config: &Config, effects: &[Effect])
        requires hosts { length self.old.hosts.items ≡ config.now.hosts }
        requires granules { length self.old.granules.states ≡ granule_total config.now }
        requires present { self.old.present ≡ with_blocks config.now (λ r. (region_spec self.old.present r).block) }
        requires of_device { All (IsOfDevice config.now) effects.now }
        requires fits { Fits config.now (lists_of self.old) 1 effects.now }
        requires spare { 0 < self.old.tags.spare }
        ensures entered { IsEntered config.now effects.now self.old self.new }
        ensures spare { self.old.tags.spare ≤ self.new.tags.spare + 1 }
    {
        // There are 16 hosts at most.
        let _hosts = config.hosts();
        self.change_all(config, effects);
        self.list_all(config, effects);
        self.count_changes(effects);
    }
}
