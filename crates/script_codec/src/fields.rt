//! Fields of a script: each reader answers a value and the place behind it.

ghost use Rattle.script_codec.specs.Fields.{GivesField, skip as skipped, part as part_of, number_from};
ghost use Rattle.script_codec.specs.Moving.{IsWithin};
ghost use Rattle.std.specs.Int.{w8, w16, w32, w64};
ghost use Rattle.std.specs.Prelude.{◌≡◌, ◌+◌, ◌≤◌, IfErr, IfOk, length};

use crate::faults::ScriptFault;

/// The place behind so many bytes, which may be anything.
#[tactic(auto, unfolding(crate::specs::Fields::skip))]
pub fn skip(bytes: &[u8], at: usize, count: usize) -> Result<usize, ScriptFault>
    requires { at ≤ length bytes.now }
    ensures value { GivesField (λ next. next) result (skipped count bytes.now at) }
    ensures within { IfOk result (λ next. next ≤ length bytes.now) }
    ensures fault { IfErr result (IsWithin (length bytes.now)) }
    ensures behind { IfOk result (λ next. next ≡ at + count) }
{
    if bytes.len() - at < count {
        return Err(ScriptFault::Truncated(bytes.len() as u64));
    }
    Ok(at + count)
}

/// So many bytes from a place on.
pub fn part(bytes: &[u8], at: usize, count: usize) -> &[u8]
    requires { at + count ≤ length bytes.now }
    ensures value { result.now ≡ part_of count bytes.now at }
    ensures size { length result.now ≡ count }
{
    let (_, rest) = bytes.split_at(at);
    let (part, _) = rest.split_at(count);
    part
}

/// A byte.
#[tactic(auto, unfolding(crate::specs::Fields::number_from))]
pub fn u8_at(bytes: &[u8], at: usize) -> Result<(u8, usize), ScriptFault>
    requires { at ≤ length bytes.now }
    ensures value { GivesField (λ x. x) result (number_from w8 bytes.now at) }
    ensures within { IfOk result (λ x. x.1 ≤ length bytes.now) }
    ensures fault { IfErr result (IsWithin (length bytes.now)) }
{
    let next = skip(bytes, at, 1)?;
    let field = part(bytes, at, 1);
    Ok((field[0], next))
}

/// A number of two bytes.
#[tactic(auto, unfolding(crate::specs::Fields::number_from))]
pub fn u16_at(bytes: &[u8], at: usize) -> Result<(u16, usize), ScriptFault>
    requires { at ≤ length bytes.now }
    ensures value { GivesField (λ x. x) result (number_from w16 bytes.now at) }
    ensures within { IfOk result (λ x. x.1 ≤ length bytes.now) }
    ensures fault { IfErr result (IsWithin (length bytes.now)) }
{
    let next = skip(bytes, at, 2)?;
    let field = part(bytes, at, 2);
    Ok((cci_codec::dcd_base::u16_at(field, 0), next))
}

/// A number of four bytes.
#[tactic(auto, unfolding(crate::specs::Fields::number_from))]
pub fn u32_at(bytes: &[u8], at: usize) -> Result<(u32, usize), ScriptFault>
    requires { at ≤ length bytes.now }
    ensures value { GivesField (λ x. x) result (number_from w32 bytes.now at) }
    ensures within { IfOk result (λ x. x.1 ≤ length bytes.now) }
    ensures fault { IfErr result (IsWithin (length bytes.now)) }
{
    let next = skip(bytes, at, 4)?;
    let field = part(bytes, at, 4);
    Ok((cci_codec::dcd_base::u32_at(field, 0), next))
}

/// A number of eight bytes.
#[tactic(auto, unfolding(crate::specs::Fields::number_from))]
pub fn u64_at(bytes: &[u8], at: usize) -> Result<(u64, usize), ScriptFault>
    requires { at ≤ length bytes.now }
    ensures value { GivesField (λ x. x) result (number_from w64 bytes.now at) }
    ensures within { IfOk result (λ x. x.1 ≤ length bytes.now) }
    ensures fault { IfErr result (IsWithin (length bytes.now)) }
{
    let next = skip(bytes, at, 8)?;
    let field = part(bytes, at, 8);
    Ok((cci_codec::dcd_base::u64_at(field, 0), next))
}
