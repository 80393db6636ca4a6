//! Demands out of a JSON text.

ghost use Rattle.plan_rules.specs.DemandTexts.{IsArrayOf, IsReadAsDemands, IsTold, IsWhole, MemberIs, StatesDemand, StatesDemands};
ghost use Rattle.serde_json.specs.View.{view};
ghost use Rattle.std.specs.List.{AllZip};
ghost use Rattle.std.specs.Prelude.{codes, map};

use crate::demand_faults::DemandFault;
use crate::demands::{Demand, Demands};
use crate::members::{has_members, number_at, number_in};
use dcd_base::Seq;
use serde_json::Value;
use serde_json::error::Category;
use std::alloc::Global;

/// The demand that the value states: an object with exactly `host`, `region` and `blocks`.
fn demand_in(value: &Value) -> Result<Demand, DemandFault>
    ensures { IsTold (StatesDemand (view value.now)) result }
{
    if !has_members(value, 3) {
        return Err(DemandFault::BadShape);
    }
    let host = number_at(value, "host")?;
    let region = number_at(value, "region")?;
    let blocks = number_at(value, "blocks")?;
    Ok(Demand {
        host,
        region,
        blocks,
    })
}

/// The demands that the values state, in order.
fn each_demand(alloc: Global, values: &[Value]) -> Result<Seq<Demand>, DemandFault>
    ensures { IsTold (AllZip StatesDemand (map view values.now)) result }
{
    let mut demands = Seq::new(alloc);
    for value in values {
        demands.push(demand_in(value)?)?;
    }
    Ok(demands)
}

/// The numbers that the values are, in order.
fn each_number(alloc: Global, values: &[Value]) -> Result<Seq<u32>, DemandFault>
    ensures { IsTold (AllZip IsWhole (map view values.now)) result }
{
    let mut numbers = Seq::new(alloc);
    for value in values {
        numbers.push(number_in(value)?)?;
    }
    Ok(numbers)
}

/// The demands that the value is an array of.
fn demands_in(alloc: Global, value: &Value) -> Result<Seq<Demand>, DemandFault>
    ensures { IsTold (λ xs. IsArrayOf StatesDemand xs (view value.now)) result }
{
    match value.as_array() {
        Some(values) => each_demand(alloc, values.as_slice()),
        None => Err(DemandFault::BadShape),
    }
}

/// The numbers that the value is an array of.
fn numbers_in(alloc: Global, value: &Value) -> Result<Seq<u32>, DemandFault>
    ensures { IsTold (λ xs. IsArrayOf IsWhole xs (view value.now)) result }
{
    match value.as_array() {
        Some(values) => each_number(alloc, values.as_slice()),
        None => Err(DemandFault::BadShape),
    }
}

/// The demands in the member `demands`.
fn demanded_at(alloc: Global, value: &Value) -> Result<Seq<Demand>, DemandFault>
    ensures { IsTold (λ xs. MemberIs (view value.now) (codes "demands") (IsArrayOf StatesDemand xs)) result }
{
    match value.get("demands") {
        Some(found) => demands_in(alloc, found),
        None => Err(DemandFault::BadShape),
    }
}

/// The hosts in the member `dead`.
fn dead_at(alloc: Global, value: &Value) -> Result<Seq<u32>, DemandFault>
    ensures { IsTold (λ xs. MemberIs (view value.now) (codes "dead") (IsArrayOf IsWhole xs)) result }
{
    match value.get("dead") {
        Some(found) => numbers_in(alloc, found),
        None => Err(DemandFault::BadShape),
    }
}

/// What the value states: an object with exactly `demands` and `dead`.
fn stated_in(alloc: Global, value: &Value) -> Result<Demands, DemandFault>
    ensures { IsTold (StatesDemands (view value.now)) result }
{
    if !has_members(value, 2) {
        return Err(DemandFault::BadShape);
    }
    let demands = demanded_at(alloc, value)?;
    let dead = dead_at(alloc, value)?;
    Ok(Demands { demands, dead })
}

/// The demands that the bytes state as JSON: an object with exactly the members `demands`, an array of objects with
/// exactly `host`, `region` and `blocks`, and `dead`, an array of hosts. Members come in any order.
///
/// All numbers are whole, written without a fraction or an exponent, from 0 to 4294967295; `-0` is none. Of a member
/// that comes twice the last counts. `NotJson` comes exactly where the bytes are no UTF-8 or have no value: no JSON,
/// more than 127 levels, or a number anywhere that is above the greatest binary64. `BadShape` comes exactly where their
/// value has another shape. `NoMemory` may come in place of any answer.
pub fn read_demands(alloc: Global, bytes: &[u8]) -> Result<Demands, DemandFault>
    ensures { IsReadAsDemands bytes.now result }
{
    match Value::from_slice(alloc, bytes) {
        Ok(value) => stated_in(alloc, &value),
        Err(error) => match error.classify() {
            Category::Memory => Err(DemandFault::NoMemory),
            _ => Err(DemandFault::NotJson),
        },
    }
}
