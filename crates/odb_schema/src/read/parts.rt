//! The members of types, columns and tables that are numbers and booleans.

ghost use Rattle.std.specs.Prelude.{◌≡◌, int_le};
ghost use Rattle.serde_json.specs.View.{members_view, view};
ghost use Rattle.odb_schema.specs.Represented.Fault.{Gives};
ghost use Rattle.odb_schema.specs.Json as json;
ghost use Rattle.odb_schema.specs.SchemaText as model;
ghost use Rattle.odb_schema.specs.Represented.Parts as parts;

use super::leaf::{member, read_between, read_bool, read_integer};
use crate::fault::SchemaFault;
use serde_json::{Map, Value};

/// Reads `min` of a type: 0 or 1.
pub fn read_min(members: &Map<String, Value>) -> Result<u32, SchemaFault>
    ensures { Gives (λ min. min) result (parts.min_of (members_view members.now.entries)) }
{
    match member("min", members) {
        None => Ok(1),
        Some(value) => Ok(read_between(0, Some(1), value)? as u32),
    }
}

/// Reads `max` of a type: from 1 to 4,294,967,295, or `None` where it is "unlimited".
pub fn read_max(members: &Map<String, Value>) -> Result<Option<u32>, SchemaFault>
    ensures { Gives (λ max. max) result (parts.max_of (members_view members.now.entries)) }
{
    match member("max", members) {
        None => Ok(Some(1)),
        Some(value) => max_in(value),
    }
}

/// Reads `maxRows` of a table: at least 1, or `None` where it is not given.
pub fn read_max_rows(members: &Map<String, Value>) -> Result<Option<u64>, SchemaFault>
    ensures { Gives (λ max. max) result (parts.max_rows_of (members_view members.now.entries)) }
{
    match member("maxRows", members) {
        None => Ok(None),
        Some(value) => Ok(Some(read_between(1, None, value)?)),
    }
}

fn max_in(value: &Value) -> Result<Option<u32>, SchemaFault>
    ensures { Gives (λ max. max) result (model.read_max (view value.now)) }
{
    match value.as_str() {
        Some("unlimited") => Ok(None),
        Some(_) => Err(SchemaFault::BadType),
        None => Ok(Some(read_between(1, Some(4_294_967_295), value)? as u32)),
    }
}

/// Reads a boolean member with a default.
pub fn read_flag(
    key: &str,
    default: bool,
    members: &Map<String, Value>,
) -> Result<bool, SchemaFault>
    ensures { Gives (λ flag. flag) result
        (parts.flag_of key.now default (members_view members.now.entries)) }
{
    match member(key, members) {
        None => Ok(default),
        Some(value) => read_bool(value),
    }
}

/// Reads an optional integer, which stands with one atomic type alone.
fn read_bound(
    key: &str,
    stands: bool,
    members: &Map<String, Value>,
) -> Result<Option<i64>, SchemaFault>
    ensures { Gives (λ bound. bound) result
        (json.if_given (model.read_with stands model.read_integer)
        (json.get_member key.now (members_view members.now.entries))) }
{
    match member(key, members) {
        None => Ok(None),
        Some(value) => Ok(Some(bound_in(stands, value)?)),
    }
}

fn bound_in(stands: bool, value: &Value) -> Result<i64, SchemaFault>
    ensures { Gives (λ bound. bound) result (model.read_with stands model.read_integer (view value.now)) }
{
    let bound = read_integer(value)?;
    if !stands {
        return Err(SchemaFault::BadType);
    }
    Ok(bound)
}

/// Reads the lower and the upper bound at two keys, which stand with one atomic type alone.
pub fn read_bounds(
    low: &str,
    high: &str,
    stands: bool,
    members: &Map<String, Value>,
) -> Result<(Option<i64>, Option<i64>), SchemaFault>
    ensures { Gives (λ bounds. bounds) result
        (parts.bounds_of low.now high.now stands (members_view members.now.entries)) }
{
    let least = read_bound(low, stands, members)?;
    let largest = read_bound(high, stands, members)?;
    if !are_in_order(least, largest) {
        return Err(SchemaFault::BadType);
    }
    Ok((least, largest))
}

fn are_in_order(least: Option<i64>, largest: Option<i64>) -> bool
    ensures { result ≡ model.in_order int_le least largest }
{
    match (least, largest) {
        (Some(least), Some(largest)) => least <= largest,
        _ => true,
    }
}
