//! The device that took the steps of a text, or the first wrong line.

ghost use Rattle.device_plain.specs.device_rules.specs.Legal.{Legal};
ghost use Rattle.journal_check.specs.Claims.{behind_line};
ghost use Rattle.journal_check.specs.Following.{IsFollowed};
ghost use Rattle.journal_check.specs.Replaying.{IsCompared, IsReplayed};
ghost use Rattle.journal_core.specs.Merging.{Numbered};
ghost use Rattle.report.specs.script_codec.specs.Scripts.{IsScript};
ghost use Rattle.report.specs.script_codec.specs.Writing.{IsWritable};
ghost use Rattle.std.specs.Prelude.{◌≡◌, ◌==◌, ◌+◌, ◌<◌, ◌≤◌, ◌^◌, IfOk, count_by, length, take};

use crate::comparing::compare;
use crate::following::follow;
use dcd_base::NoMemory;
use device_plain::Device;
use report::script_codec::Script;
use std::alloc::Global;

/// How many line feeds there are.
fn feeds(bytes: &[u8]) -> usize
    ensures { result ≡ count_by (λ byte. byte == 10) bytes.now }
{
    bytes.iter().filter(|byte| **byte == b'\n').count()
}

/// The number of the line that goes on behind so many bytes.
fn line_behind(text: &[u8], bytes: usize) -> u64
    requires { bytes ≤ length text.now }
    ensures { result ≡ count_by (λ byte. byte == 10) (take bytes text.now) + 1 }
{
    let (front, _) = text.split_at(bytes);
    feeds(front) as u64 + 1
}

/// The number of the first wrong line of a text, by the device that took the steps that it claims: up to the last line of
/// the script, if `all`, or else up to a line of the text that claims none that can come next.
#[tactic(auto, using(crate::proofs::Checked::checked_yes, crate::proofs::Checked::checked_no, crate::proofs::Checked::checked_some, crate::proofs::Checked::few_steps))]
fn first_wrong(script: &Script, text: &[u8], device: &Device, all: bool) -> Option<u64>
    requires script { IsScript script.now }
    requires config { device.now.config ≡ script.now.config }
    requires legal { Legal device.now.config device.now.journal }
    requires numbered { Numbered device.now.journal }
    requires followed { IsFollowed script.now (behind_line text.now) device.now.journal all }
    ensures { IsCompared script.now text.now device.now.journal result }
{
    let (agreed, same) = compare(device, text);
    if all {
        if same {
            None
        } else {
            Some(line_behind(text, agreed))
        }
    } else {
        Some(line_behind(text, agreed).min(device.len() + 2))
    }
}

/// The number of a line in 32 bits, into which each line of a printed text fits.
fn short(first: Option<u64>) -> Result<Option<u32>, NoMemory>
    ensures { IfOk result (λ short. short ≡ first) }
{
    match first {
        None => Ok(None),
        Some(line) => match u32::try_from(line) {
            Ok(line) => Ok(Some(line)),
            Err(_) => Err(NoMemory),
        },
    }
}

/// The number of the first wrong line in 32 bits.
#[tactic(auto, using(crate::proofs::Checked::compared_short))]
fn compared(
    script: &Script,
    text: &[u8],
    device: &Device,
    all: bool,
) -> Result<Option<u32>, NoMemory>
    requires script { IsScript script.now }
    requires config { device.now.config ≡ script.now.config }
    requires legal { Legal device.now.config device.now.journal }
    requires numbered { Numbered device.now.journal }
    requires followed { IsFollowed script.now (behind_line text.now) device.now.journal all }
    ensures { IfOk result (λ first. IsCompared script.now text.now device.now.journal first) }
{
    short(first_wrong(script, text, device, all))
}

/// The device that took the steps which a text tells, in the order in which it tells them; or the number of the first wrong
/// line, as `check` answers it. Its journal covers the script, and the text is that journal's.
///
/// `NoMemory` may come in place of any answer.
pub fn replay(alloc: Global, script: &Script, text: &[u8]) -> Result<Result<Device, u32>, NoMemory>
    requires { IsWritable script.now }
    ensures { IfOk result (λ answer. IsReplayed script.now text.now answer) }
{
    let (device, all) = follow(alloc, script, text)?;
    match compared(script, text, &device, all)? {
        None => Ok(Ok(device)),
        Some(line) => Ok(Err(line)),
    }
}
