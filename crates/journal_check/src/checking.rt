//! The first wrong line of a text.

ghost use Rattle.journal_check.specs.FirstWrong.{IfNoneWrong, IsChecked, TellsLawful};
ghost use Rattle.report.specs.script_codec.specs.Writing.{IsWritable};
ghost use Rattle.std.specs.Prelude.{IfOk};

use crate::replaying::replay;
use dcd_base::NoMemory;
use device_plain::device_rules::law_exclusive;
use device_plain::isolation_laws::law_isolated;
use report::script_codec::Script;
use std::alloc::Global;

/// Each legal journal of the script's device is exclusive and isolated. It does nothing.
fn is_lawful(script: &Script, _text: &[u8])
    ensures { TellsLawful script.now _text.now }
{
    law_exclusive();
    law_isolated();
    // A configuration is sound.
    let _hosts = script.config.hosts();
}

/// The number of the first line of the text, counted from 1, that stands in no text of a legal journal which covers the
/// script and has the lines before it; or `None`, where the text is that of such a journal.
///
/// Lines end in a line feed. A line without one is wrong, and so is one that is missing or stands behind the last. The
/// order of the entries is the one that the text claims, whatever it is: each line of a pass has to come after those of
/// that pass before it. `NoMemory` may come in place of any answer.
#[tactic(auto, using(crate::proofs::Checked::right_text))]
pub fn check(alloc: Global, script: &Script, text: &[u8]) -> Result<Option<u32>, NoMemory>
    requires { IsWritable script.now }
    ensures checked { IfOk result (λ first. IsChecked script.now text.now first) }
    ensures lawful { IfOk result (λ first. IfNoneWrong first (TellsLawful script.now text.now)) }
{
    is_lawful(script, text);
    match replay(alloc, script, text)? {
        Ok(_) => Ok(None),
        Err(line) => Ok(Some(line)),
    }
}
