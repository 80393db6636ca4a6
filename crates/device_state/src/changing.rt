//! What the effects of a step make of the granules, the holders, the logs and the block sizes.

ghost use Rattle.device_state.specs.Entered.{holders_by, present_by};
ghost use Rattle.device_state.specs.Granules.{CellsAfter, CellsOver, IsLastRegion};
ghost use Rattle.device_state.specs.Stages.{ArePartsAfter, PartsOver};
ghost use Rattle.device_state.specs.Updates.{IsOfDevice};
ghost use Rattle.extent_list.specs.media_map.specs.region_config.specs.Granules.{granule_total};
ghost use Rattle.std.specs.Prelude.{◌≡◌, All, fold, length};

use crate::granules::{leave, offer_all, soil, take};
use crate::regions::LastRegion;
use crate::state::State;
use extent_list::media_map::region_config::Config;
use journal_core::Effect;

impl State {
    /// Changes all but lists and tags, by each effect in turn. What an answer or the end of a tag makes of granules is told by the
    /// offers and the tags before the step.
    pub(crate) fn change_all(&mut self, config: &Config, effects: &[Effect])
        requires hosts { length self.old.hosts.items ≡ config.now.hosts }
        requires granules { length self.old.granules.states ≡ granule_total config.now }
        requires of_device { All (IsOfDevice config.now) effects.now }
        requires of_present { All (IsOfDevice self.old.present) effects.now }
        ensures cells { CellsOver config.now effects.now self.old self.new.granules }
        ensures present { self.new.present ≡ fold present_by self.old.present effects.now }
        ensures holders { self.new.holders ≡ fold holders_by self.old.holders effects.now }
        ensures parts { PartsOver effects.now self.old self.new }
        ensures tags { self.new.tags ≡ self.old.tags }
    {
        let mut last = LastRegion::none();
        for effect in effects {
            self.change(config, &mut last, effect);
        }
    }

    /// Changes all but lists and tags by the effect.
    fn change(&mut self, config: &Config, last: &mut LastRegion, effect: &Effect)
        requires hosts { length self.old.hosts.items ≡ config.now.hosts }
        requires granules { length self.old.granules.states ≡ granule_total config.now }
        requires last { IsLastRegion config.now last.old }
        requires of_device { IsOfDevice config.now effect.now }
        requires of_present { IsOfDevice self.old.present effect.now }
        ensures last { IsLastRegion config.now last.new }
        ensures cells { CellsAfter config.now effect.now self.old self.new.granules }
        ensures present { self.new.present ≡ present_by self.old.present effect.now }
        ensures holders { self.new.holders ≡ holders_by self.old.holders effect.now }
        ensures parts { ArePartsAfter effect.now self.old self.new }
        ensures tags { self.new.tags ≡ self.old.tags }
    {
        // There are 16 hosts at most.
        let _hosts = config.hosts();
        match effect {
            Effect::Offer(host, extents) => {
                offer_all(&mut self.granules, config, last, *host, extents.as_slice());
            }
            Effect::Answer(host, _) => self.unoffer_oldest(config, last, *host),
            Effect::Take(host, run) => {
                take(&mut self.granules, config, last, *host, run);
                self.holders.set(*host, *run, true);
            }
            Effect::Leave(host, run) => {
                leave(&mut self.granules, config, last, run);
                self.holders.set(*host, *run, false);
            }
            Effect::Zero(run) => self.granules.zero(*run),
            Effect::Soil(run) => soil(&mut self.granules, config, last, run),
            Effect::Logged(log, event) => self.enter_record(*log, event),
            Effect::Missed(log) => self.count_missed(*log),
            Effect::Cleared(log, _) => self.change_log_of(*log, effect),
            Effect::Reset(log) => self.change_log_of(*log, effect),
            Effect::TagEnd(tag) => self.settle_tag(tag),
            Effect::Block(region, size) => self.set_block(*region, *size),
            // These change lists and tags alone.
            Effect::Hold(..) | Effect::Unhold(..) | Effect::Ref(..) => (),
        }
    }
}
