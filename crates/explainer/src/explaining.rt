//! The explanation of a text.

ghost use Rattle.explainer.specs.Explaining.{IsExplained};
ghost use Rattle.explainer.specs.Explanations.{end_explained, entries_explained, explanation};
ghost use Rattle.journal_core.specs.Entries.{effects};
ghost use Rattle.script_text.specs.script_codec.specs.Writing.{IsWritable};
ghost use Rattle.std.specs.Prelude.{◌≡◌, ◌++◌, IfOk, OnOk};

use crate::entries::write_entries;
use crate::logs::write_logs;
use crate::states::write_state;
use dcd_base::{Bytes, NoMemory};
use journal_check::control_core::Control;
use journal_check::device_plain::Device;
use journal_check::replay;
use script_text::script_codec::Script;
use std::alloc::Global;

/// The entries of a device in words.
fn entries_of(alloc: Global, script: &Script, device: &Device) -> Result<Bytes, NoMemory>
    requires { IsWritable script.now }
    ensures { IfOk result (λ bytes. bytes ≡ entries_explained script.now device.now.journal) }
{
    let mut out = Bytes::new(alloc);
    let mut journal = device.journal();
    write_entries(alloc, script, &mut journal, &mut out)?;
    Ok(out)
}

/// Appends what is left in the logs, and the state.
fn write_end(control: &Control, out: &mut Bytes) -> Result<(), NoMemory>
    ensures { OnOk result (out.new ≡ out.old ++ end_explained control.now.config (effects control.now.entries)) }
{
    write_logs(control, out)?;
    write_state(control, out)
}

/// The explanation of the journal of a device that has the script's configuration.
#[tactic(auto, unfolding(crate::specs::Explanations::explanation))]
fn explained(alloc: Global, script: &Script, device: &Device) -> Result<Bytes, NoMemory>
    requires script { IsWritable script.now }
    requires config { device.now.config ≡ script.now.config }
    ensures { IfOk result (λ bytes. bytes ≡ explanation script.now device.now.journal) }
{
    let mut out = entries_of(alloc, script, device)?;
    write_end(device.control(), &mut out)?;
    Ok(out)
}

/// The explanation of a script and of a text that a run of it printed; or the number of the first line of the text, from 1,
/// that stands in no such text, as `journal_check` answers it.
///
/// For each entry it has the number and the line of the script in the readable form, and below it what was answered in the
/// words of the specification, each line of that with four spaces before it; then the records that are left in the logs,
/// and the state. `NoMemory` may come in place of any answer.
pub fn explain(alloc: Global, script: &Script, text: &[u8]) -> Result<Result<Bytes, u32>, NoMemory>
    requires { IsWritable script.now }
    ensures { IfOk result (λ answer. IsExplained script.now text.now answer) }
{
    match replay(alloc, script, text)? {
        Ok(device) => {
            let bytes = explained(alloc, script, &device)?;
            Ok(Ok(bytes))
        }
        Err(line) => Ok(Err(line)),
    }
}
