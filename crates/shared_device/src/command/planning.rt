//! A plan of the control, and what it makes of the control and of a shard.

ghost use Rattle.control_core.specs.Steps.{MayStep};
ghost use Rattle.control_core.specs.device_rules.specs.ChangedRuns.{LiesIn};
ghost use Rattle.block_shard.specs.journal_core.specs.declared.entries.Entry.{Entry};
ghost use Rattle.region_config.specs.Granules.{granule_total};
ghost use Rattle.block_shard.specs.shard_laws.specs.Changing.{MakesChanges};
ghost use Rattle.block_shard.specs.shard_laws.specs.Owed.{FollowsEffects};
ghost use Rattle.shared_device.specs.Entering.{HasOneMore, IsNextStep, IsOfCall, IsSameControl};
ghost use Rattle.std.specs.Prelude.{◌≡◌, ℕ, All, IfOk, List};

use crate::cells::{ControlCell, ShardCell};
use block_shard::journal_core::{Act, Reply};
use block_shard::shard_laws::law_changed;
use control_core::Plan;
use dcd_base::{Actor, NoMemory};

/// Decides a step, and copies its reply. Without memory the control has other room at most.
pub(crate) fn prepared(
    cell: &mut ControlCell,
    pass: u32,
    line: u32,
    actor: Actor,
    act: Act,
) -> Result<(Plan, Reply), NoMemory>
    requires { MayStep cell.old.config actor act }
    ensures same { IsSameControl cell.old cell.new }
    ensures step { IfOk result (λ made. IsNextStep cell.new made.0) }
    ensures call { IfOk result (λ made. IsOfCall pass line actor act made.0.entry) }
    ensures reply { IfOk result (λ made. made.1 ≡ made.0.entry.reply) }
{
    let plan = cell.commands.control.prepare(pass, line, actor, act)?;
    let reply = plan.entry().reply.copy()?;
    Ok((plan, reply))
}

/// Enters the step of a plan.
pub(crate) fn entered(cell: &mut ControlCell, plan: Plan)
    requires { IsNextStep cell.old plan }
    ensures { HasOneMore cell.old cell.new plan.entry }
{
    cell.commands.control.apply(plan);
    // The entries of a control are legal.
    let _entries = cell.commands.control.entries();
}

/// Makes the changes of a plan, as far as they are of the shard. It takes no memory.
pub(crate) fn change(cell: &mut ShardCell, plan: &Plan)
    requires { All (LiesIn (granule_total cell.old.config)) plan.now.changes }
    ensures made { MakesChanges cell.old cell.new plan.now.entry.stamp.number plan.now.changes }
    ensures follows { (k : ℕ) (log : List Entry) → FollowsEffects k cell.old cell.new log plan.now.entry plan.now.changes }
{
    cell.shard.change(plan.number(), plan.changes());
    law_changed();
}
