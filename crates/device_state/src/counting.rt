//! How often the accepted lists changed.

ghost use Rattle.device_state.specs.Entered.{with_lists};
ghost use Rattle.device_state.specs.Stages.{AreCounted, AreMoved};
ghost use Rattle.device_state.specs.StateAfter.{part_of};
ghost use Rattle.extent_list.specs.HostLists.{next_generation};
ghost use Rattle.std.specs.List.{list_any};
ghost use Rattle.std.specs.Prelude.{◌≡◌, ◌==◌, ◌<◌, ◌≤◌, length, option_to_list};
ghost use Rattle.device_rules.specs.Hosts.{moves};

use crate::state::State;
use cci_codec::dcd_base::HostId;
use journal_core::Effect;

impl State {
    /// Counts a change for each host of which the effects change the accepted list, once however many do.
    pub(crate) fn count_changes(&mut self, effects: &[Effect])
        requires { length self.old.hosts.items ≤ 16 }
        ensures counted { AreCounted effects.now self.old self.new }
        ensures kept { self.new ≡ record self.old { hosts = self.new.hosts } }
    {
        let moved = moved_hosts(effects);
        for i in 0..self.hosts.len() {
            if moved[i] {
                self.count_change(HostId(i as u8));
            }
        }
    }

    /// Counts a change of what the host has accepted.
    fn count_change(&mut self, host: HostId)
        requires { host < length self.old.hosts.items }
        ensures hosts { self.new.hosts.items ≡ with_lists self.old host (record (part_of self.old host).lists { generation = next_generation (part_of self.old host).lists.generation }) }
        ensures kept { self.new ≡ record self.old { hosts = self.new.hosts } }
    {
        self.hosts[usize::from(host.0)].lists.count_change();
    }
}

/// Of each host, by its number, whether an effect changes what it has accepted.
fn moved_hosts(effects: &[Effect]) -> [bool; 256]
    ensures { AreMoved effects.now result }
{
    let mut moved = [false; 256];
    for i in 0..effects.len() {
        if let Some(host) = moved_host(&effects[i]) {
            moved[usize::from(host.0)] = true;
        }
    }
    moved
}

/// The host of which the effect changes what it has accepted.
fn moved_host(effect: &Effect) -> Option<HostId>
    ensures { (h : HostId) → moves h effect.now ≡ list_any (λ k. k == h) (option_to_list result) }
{
    match effect {
        Effect::Answer(host, extents) => {
            if extents.is_empty() {
                return None;
            }
            Some(*host)
        }
        Effect::Leave(host, _) => Some(*host),
        // These change no accepted list.
        Effect::Offer(..)
        | Effect::Take(..)
        | Effect::Zero(..)
        | Effect::Soil(..)
        | Effect::Hold(..)
        | Effect::Unhold(..)
        | Effect::Logged(..)
        | Effect::Missed(..)
        | Effect::Cleared(..)
        | Effect::Reset(..)
        | Effect::Ref(..)
        | Effect::TagEnd(..)
        | Effect::Block(..) => None,
    }
}
