//! The policies of adds and of releases, printed.

ghost use Rattle.std.specs.Prelude.{◌≡◌, ◌++◌, ◌<◌, ◌≤◌, false, true, [], ◌∷◌, OnOk};
ghost use Rattle.text_lines.specs.Parts.{Part};
ghost use Rattle.text_lines.specs.Policies.{add_policy_text, are_named, release_policy_text};
ghost use Rattle.script_text.specs.LinePrinting.{AddsParts};

use crate::words::{write_flag, write_key, write_named_count, write_word};
use dcd_base::{Bytes, NoMemory};
use text_lines::{Keyword, law_hexadecimal, write_hexadecimal};

/// The name of a policy of an add, below 4.
fn add_policy_name(policy: u8) -> &'static [u8]
    requires { policy < 4 }
    ensures { add_policy_text policy ≡ result.now ∷ [] }
{
    match policy {
        0 => b"free".as_slice(),
        1 => b"contiguous".as_slice(),
        2 => b"prescriptive".as_slice(),
        _ => b"enable-shared-access".as_slice(),
    }
}

/// Appends the name of a policy of an add, below 4.
fn write_named_policy(policy: u8, out: &mut Bytes) -> Result<(), NoMemory>
    requires { policy < 4 }
    ensures { OnOk result (AddsParts out.old out.new (Part.AddPolicy policy ∷ [])) }
{
    write_word(add_policy_name(policy), out)?;
    Ok(())
}

/// Appends a keyword and the number of a policy of an add that has no name.
fn write_other_policy(policy: u8, out: &mut Bytes) -> Result<(), NoMemory>
    requires { 4 ≤ policy }
    ensures { OnOk result (AddsParts out.old out.new (Part.AddPolicy policy ∷ [])) }
{
    write_named_count(Keyword::Policy, 255, policy as u64, out)?;
    Ok(())
}

/// Appends the policy of an add: its name, or a keyword and its number.
pub fn write_add_policy(policy: u8, out: &mut Bytes) -> Result<(), NoMemory>
    ensures { OnOk result (AddsParts out.old out.new (Part.AddPolicy policy ∷ [])) }
{
    if policy < 4 {
        write_named_policy(policy, out)
    } else {
        write_other_policy(policy, out)
    }
}

/// The name of a policy of a release, below 2.
fn release_policy_name(policy: u8) -> &'static [u8]
    requires { policy < 2 }
    ensures { result.now ≡ release_policy_text policy }
{
    if policy == 0 {
        b"tag-based".as_slice()
    } else {
        b"prescriptive".as_slice()
    }
}

/// Whether flags of a release have a name.
fn is_named(flags: u8) -> bool
    ensures { result ≡ are_named flags }
{
    flags < 64 && flags % 16 < 2
}

/// Appends the flags of a release that have a name: that of the policy, and what is set.
fn write_named_flags(flags: u8, out: &mut Bytes) -> Result<(), NoMemory>
    requires { are_named flags ≡ true }
    ensures { OnOk result (AddsParts out.old out.new (Part.ReleaseFlags flags ∷ [])) }
{
    write_word(release_policy_name(flags % 16), out)?;
    write_flag(Keyword::Forced, flags / 16 % 2 == 1, out)?;
    write_flag(Keyword::Sanitize, flags / 32 % 2 == 1, out)?;
    Ok(())
}

/// Appends a keyword and the flags of a release as a number.
fn write_other_flags(flags: u8, out: &mut Bytes) -> Result<(), NoMemory>
    requires { are_named flags ≡ false }
    ensures { OnOk result (AddsParts out.old out.new (Part.ReleaseFlags flags ∷ [])) }
{
    let number = flags as u64;
    law_hexadecimal(number);
    write_key(Keyword::Flags, out)?;
    out.push(b' ')?;
    write_hexadecimal(number, out)?;
    Ok(())
}

/// Appends the flags of a release: the name of the policy and what is set, or a keyword and all of them as a number.
pub fn write_release_flags(flags: u8, out: &mut Bytes) -> Result<(), NoMemory>
    ensures { OnOk result (AddsParts out.old out.new (Part.ReleaseFlags flags ∷ [])) }
{
    if is_named(flags) {
        write_named_flags(flags, out)
    } else {
        write_other_flags(flags, out)
    }
}
