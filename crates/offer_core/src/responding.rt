//! What a response does to the offers.

ghost use Rattle.extent_list.specs.ExtentLists.{count_in, marked};
ghost use Rattle.offer_core.specs.Answers.{AnswersOldest, Leaves, NeverBroken, Responds};
ghost use Rattle.offer_core.specs.InOrder.{IsInOrder};
ghost use Rattle.offer_core.specs.Offerings.{lists_of, oldest_of};
ghost use Rattle.std.specs.Prelude.{◌≡◌, ◌++◌, ◌+◌, ◌<◌, ◌≤◌, [], IfOk, OnErr, false, map};

use crate::answered::Answered;
use crate::offer::Offer;
use crate::offers::Offers;
use crate::row::broken_rule;
use extent_list::dcd_codes::Refusal;
use extent_list::dcd_codes::dcd_base::{Extents, HostId, NoMemory};
use extent_list::marked_lists;
use extent_list::media_map::region_config::Config;

impl Offers {
    /// The host's response to its oldest offer (CXL 3.1, 8.2.9.9.9.3): this list of a message behind the held one,
    /// and whether more messages are to follow.
    ///
    /// `accepted` is the number of extents that the host has accepted; with those of all offers they are at most 64.
    /// The list is of the host's addresses, in bytes; the tags and sequences in it are not read. `Broken(rule)` names
    /// the first broken rule of the row: the held list is let go then, and nothing else changes. At `NoMemory`
    /// nothing changes. A response in one message that lists extents of the oldest offer whole, in order and each at
    /// most once, and in a shareable region all of them or none, is never `Broken`.
    ///
    /// It is `broken_rule` and then `answer`, for callers that need no more than both.
    pub fn respond(
        &mut self,
        config: &Config,
        host: HostId,
        accepted: usize,
        list: &Extents,
        more: bool,
    ) -> Result<Answered, Refusal>
        requires host { host < config.now.hosts }
        requires few { accepted + count_in (lists_of self.old.offers) ≤ 64 }
        ensures answer { AnswersOldest config.now host accepted self.old more list.now self.new result }
        ensures left { Leaves self.old self.new result }
        ensures complete { NeverBroken result (IsInOrder config.now host self.old more list.now) }
        ensures fewer { count_in (lists_of self.new.offers) ≤ count_in (lists_of self.old.offers) }
    {
        // That regions lie apart, which a configuration says of itself where it is read, is what `complete` rests on.
        let _regions = config.regions();
        match broken_rule(config, host, accepted, self, list.as_slice(), more)? {
            Some(rule) => {
                self.drop_held();
                Err(Refusal::Broken(rule))
            }
            None => Ok(self.answer(list, more)?),
        }
    }

    /// Does what a response says that breaks no rule, with this list of a message behind the held one: holds the whole
    /// list where more messages are to follow, and else answers the oldest offer. Without memory nothing changes.
    ///
    /// Where there is no offer, nothing is listed.
    #[tactic(auto, using(crate::proofs::Counting::fewer_behind))]
    pub fn answer(&mut self, list: &Extents, more: bool) -> Result<Answered, NoMemory>
        requires offered { more ≡ false → self.old.offers ≡ [] → self.old.held ++ list.now ≡ [] }
        ensures done { IfOk result (λ answered. Responds self.old more list.now self.new answered) }
        ensures kept { OnErr result (self.new ≡ self.old) }
        ensures fewer { count_in (lists_of self.new.offers) ≤ count_in (lists_of self.old.offers) }
    {
        if more {
            self.hold(list.as_slice())?;
            return Ok(Answered::Held);
        }
        if self.is_empty() {
            self.drop_held();
            return Ok(Answered::Nothing);
        }
        let accepted = self.accepted_of(list)?;
        let extents = Extents::from_slice(self.allocator(), self.oldest())?;
        self.drop_held();
        self.drop_oldest();
        Ok(Answered::Done {
            offer: Offer { extents },
            accepted,
        })
    }

    /// What a response accepts of the oldest offer with this list of a message behind the held one: each extent with the
    /// tag and the sequence of the offered extent in which it lies.
    pub fn accepted_of(&self, list: &Extents) -> Result<Extents, NoMemory>
        ensures { IfOk result (λ accepted. accepted ≡ map (marked (oldest_of (lists_of self.now.offers))) (self.now.held ++ list.now)) }
    {
        marked_lists(
            self.allocator(),
            self.oldest(),
            self.held(),
            list.as_slice(),
        )
    }
}
