//! A fresh control that takes again what a device had done.

ghost use Rattle.device_plain.specs.device_rules.specs.Legal.{Legal};
ghost use Rattle.journal_core.specs.Entries.{fits};
ghost use Rattle.device_plain.specs.kept_journal.specs.Lending.{lent_entry};
ghost use Rattle.journal_core.specs.Merging.{Rising};
ghost use Rattle.plan_rules.specs.PlanAlike.{replayed as taken_again, with_act_of};
ghost use Rattle.std.specs.Prelude.{◌≡◌, [], IfOk, IsTrue, OnOk};

use dcd_base::NoMemory;
use device_plain::control_core::Control;
use device_plain::kept_journal::{KeptEntries, Lender, Lent};
use journal_core::Act;
use region_config::Config;
use std::alloc::Global;

/// Takes the act of an entry again, where it is a command or a scrub.
fn again(control: &mut Control, entry: &Lent<'_>) -> Result<(), NoMemory>
    requires { IsTrue (fits control.old.config.hosts (lent_entry entry.now).actor (lent_entry entry.now).act) }
    ensures config { control.new.config ≡ control.old.config }
    ensures entries { OnOk result (control.new.entries ≡ with_act_of control.old.config control.old.entries (lent_entry entry.now)) }
{
    let act = entry.act()?;
    match act {
        Act::Command(_) | Act::Scrub(_) => {
            control.step(0, 0, entry.actor(), &act)?;
            Ok(())
        }
        Act::Load(_) | Act::Store(_, _) => Ok(()),
    }
}

/// Takes the commands and scrubs of the entries that are lent again. None is left then.
fn take_all<J: Lender>(control: &mut Control, journal: &mut J) -> Result<(), NoMemory>
    requires legal { Legal control.old.config (J.rest journal.old) }
    requires fresh { control.old.entries ≡ [] }
    ensures config { control.new.config ≡ control.old.config }
    ensures entries { OnOk result (control.new.entries ≡ taken_again control.old.config (J.rest journal.old)) }
{
    while let Some(entry) = journal.peek() {
        again(control, &entry)?;
        journal.skip();
    }
    Ok(())
}

/// A fresh control with the commands and scrubs of the entries.
pub(crate) fn replayed(
    alloc: Global,
    config: &Config,
    entries: &KeptEntries,
) -> Result<Control, NoMemory>
    requires legal { Legal config.now entries.now.entries }
    requires rising { Rising entries.now.entries }
    ensures config { IfOk result (λ control. control.config ≡ config.now) }
    ensures entries { IfOk result (λ control. control.entries ≡ taken_again config.now entries.now.entries) }
{
    let mut control = Control::new(alloc, config.copy()?)?;
    let mut journal = entries.lend();
    take_all(&mut control, &mut journal)?;
    Ok(control)
}
