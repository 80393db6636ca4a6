//! What each effect makes of a host's lists. None of these calls takes memory.

ghost use Rattle.extent_list.specs.ExtentLists.{count_in, cut_all};
ghost use Rattle.extent_list.specs.HostLists.{next_generation};
ghost use Rattle.std.specs.Prelude.{◌≡◌, ◌++◌, ◌∷◌, ◌+◌, ◌^◌, ◌<◌, ◌≤◌, [], All, drop, length};

use crate::changes::next_generation;
use crate::lists::HostLists;
use extent_list::dcd_codes::dcd_base::Extent;

impl HostLists {
    /// These extents are offered, behind all other offers, of which there are fewer than 64, and together 64 extents at most.
    pub fn enter_offer(&mut self, extents: &[Extent])
        requires offers { length self.old.offers < 64 }
        requires extents { count_in self.old.offers + length extents.now ≤ 64 }
        ensures { self.new ≡ record self.old { offers = self.old.offers ++ extents.now ∷ [] } }
    {
        self.offers.push_within(extents);
    }

    /// These extents are accepted behind the others, 128 at most together.
    pub fn enter_accepted(&mut self, extents: &[Extent])
        requires { length self.old.accepted + length extents.now ≤ 128 }
        ensures { self.new ≡ record self.old { accepted = self.old.accepted ++ extents.now } }
    {
        self.accepted.add_all(extents);
    }

    /// The oldest offer is answered, where there is one.
    pub fn drop_oldest(&mut self)
        ensures { self.new ≡ record self.old { offers = drop 1 self.old.offers } }
    {
        self.offers.drop_oldest();
    }

    /// These extents leave the accepted ones one after another, each where it lies in one when its turn comes. With the accepted
    /// ones they are 128 at most, and each ends below 2^64.
    pub fn enter_leaves(&mut self, leaving: &[Extent])
        requires few { length self.old.accepted + length leaving.now ≤ 128 }
        requires ends { All (λ x. x.start + x.length < 2 ^ 64) leaving.now }
        ensures { self.new ≡ record self.old { accepted = cut_all leaving.now self.old.accepted } }
    {
        self.accepted.leave_all(leaving);
    }

    /// Responses with More hold these extents behind those that they hold, 64 at most together.
    pub fn hold_responses(&mut self, list: &[Extent])
        requires { length self.old.responses + length list.now ≤ 64 }
        ensures { self.new ≡ record self.old { responses = self.old.responses ++ list.now } }
    {
        self.offers.hold_within(list);
    }

    /// Releases with More hold these extents behind those that they hold, 64 at most together.
    pub fn hold_releases(&mut self, list: &[Extent])
        requires { length self.old.releases + length list.now ≤ 64 }
        ensures { self.new ≡ record self.old { releases = self.old.releases ++ list.now } }
    {
        self.releases.hold_within(list);
    }

    /// Counts a change of the accepted list.
    pub fn count_change(&mut self)
        ensures { self.new ≡ record self.old { generation = next_generation self.old.generation } }
    {
        self.generation = next_generation(self.generation);
    }
}
