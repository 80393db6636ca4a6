//! Numbers and members of a JSON value.

ghost use Rattle.plan_rules.specs.DemandTexts.{HasMembers, IsTold, IsWhole, MemberIs};
ghost use Rattle.serde_json.specs.View.{view};
ghost use Rattle.std.specs.Prelude.{◌↔◌, IsTrue};

use crate::demand_faults::DemandFault;
use serde_json::Value;

/// The number from 0 to 4294967295 that the value is, written without a fraction or an exponent.
pub(crate) fn number_in(value: &Value) -> Result<u32, DemandFault>
    ensures { IsTold (IsWhole (view value.now)) result }
{
    match value.as_u64() {
        Some(n) => match u32::try_from(n) {
            Ok(n) => Ok(n),
            Err(_) => Err(DemandFault::BadShape),
        },
        None => Err(DemandFault::BadShape),
    }
}

/// Whether it is an object with so many members.
#[tactic(auto, using(crate::proofs::Counted::members_counted))]
pub(crate) fn has_members(value: &Value, count: usize) -> bool
    ensures { IsTrue result ↔ HasMembers count (view value.now) }
{
    match value.as_object() {
        Some(members) => members.len() == count,
        None => false,
    }
}

/// The number that the member of this key is.
pub(crate) fn number_at(value: &Value, key: &str) -> Result<u32, DemandFault>
    ensures { IsTold (λ n. MemberIs (view value.now) key.now (λ found. IsWhole found n)) result }
{
    match value.get(key) {
        Some(found) => number_in(found),
        None => Err(DemandFault::BadShape),
    }
}
