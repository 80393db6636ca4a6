//! What a plan depends on, and what follows where it has no fault.

ghost use Rattle.plan_rules.specs.declared.demands.Demands.{Demands};
ghost use Rattle.isolation_laws.specs.device_rules.specs.Legal.{Legal};
ghost use Rattle.journal_core.specs.declared.entries.Entry.{Entry};
ghost use Rattle.plan_rules.specs.PlanAlike.{PlanAlike, replayed};
ghost use Rattle.plan_rules.specs.Holding.{Step, stepped};
ghost use Rattle.plan_rules.specs.Listing.{planned};
ghost use Rattle.plan_rules.specs.Planning.{AllSucceed, plan_fault};
ghost use Rattle.region_config.specs.Configurations.{Configuration};
ghost use Rattle.std.specs.Prelude.{◌≡◌, List, None};

/// Journals that are alike go on so by a list of acts, and the commands and scrubs of a legal journal, taken again from
/// the first on, are alike with it. It does nothing.
pub fn law_plan_alike()
    ensures replayed { (c : Configuration) (journal : List Entry) → Legal c journal → PlanAlike (replayed c journal) journal }
    ensures acts { (c : Configuration) (a b : List Entry) (acts : List Step) → PlanAlike a b → PlanAlike (stepped c a acts) (stepped c b acts) }
{}

/// Over journals that are alike the plan is the same list, and has the same fault. It does nothing.
pub fn law_same_plan()
    ensures list { (c : Configuration) (a b : List Entry) (q : Demands) → PlanAlike a b → planned c a q ≡ planned c b q }
    ensures fault { (c : Configuration) (a b : List Entry) (q : Demands) → PlanAlike a b → plan_fault c a q ≡ plan_fault c b q }
{}

/// Where a plan has no fault, each act of its list is answered Success. It does nothing.
pub fn law_succeeds()
    ensures { (c : Configuration) (journal : List Entry) (q : Demands) → plan_fault c journal q ≡ None → AllSucceed c journal (planned c journal q) }
{}
