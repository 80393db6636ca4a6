//! What a plan leaves, and which rules its acts may break.

ghost use Rattle.isolation_laws.specs.device_rules.specs.Legal.{Legal};
ghost use Rattle.journal_core.specs.declared.entries.Entry.{Entry};
ghost use Rattle.plan_rules.specs.ActsLeft.{ActsLeaveAll};
ghost use Rattle.plan_rules.specs.WholePlans.{PlansMeetDemands, PlansWantRoomOnly};
ghost use Rattle.region_config.specs.Configurations.{Configuration};
ghost use Rattle.region_config.specs.Soundness.{IsSound};
ghost use Rattle.std.specs.Prelude.{List};

/// A plan without a fault leaves what was demanded: each demanded host has the demanded blocks and gained or lost only
/// what it had to, a dead host has nothing, and everybody else has what it had. It does nothing.
pub fn law_meets()
    ensures { (c : Configuration) → IsSound c → (journal : List Entry) → Legal c journal → PlansMeetDemands c journal }
{}

/// Where an act of the list of a plan is refused, it is for too many extents or for a full log alone: what is lost and
/// zeroed first breaks no rule, and what is gained then is free. It does nothing.
pub fn law_of_room()
    ensures { (c : Configuration) → IsSound c → (journal : List Entry) → Legal c journal → PlansWantRoomOnly c journal }
{}

/// Behind every legal journal each act of a plan leaves what it is to leave: the lists of the hosts that it does not
/// name, and of the host that it names all but what the act is for. It does nothing.
pub fn law_acts_leave()
    ensures { (c : Configuration) → IsSound c → ActsLeaveAll c }
{}
