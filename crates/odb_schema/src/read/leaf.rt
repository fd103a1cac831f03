//! Reading what JSON gives: texts, booleans, integers, and members of objects. [P 0.1]

ghost use Rattle.std.specs.Prelude.{◌≡◌, ok_or, option_map, nat_le, true, unwrap_or};
ghost use Rattle.serde_json.specs.View.{items_view, members_view, view};
ghost use Rattle.odb_schema.specs.Json as json;
ghost use Rattle.odb_schema.specs.SchemaText as model;
ghost use Rattle.odb_schema.specs.Represented.Fault.{Gives};

use crate::fault::SchemaFault;
use serde_json::{Map, Value};

/// Reads the text that a string is.
pub fn read_string(value: &Value) -> Result<&str, SchemaFault>
    ensures { Gives (λ text. text.now) result (model.read_string (view value.now)) }
{
    value.as_str().ok_or(SchemaFault::Syntax)
}

/// Reads the boolean that `true` or `false` is.
pub fn read_bool(value: &Value) -> Result<bool, SchemaFault>
    ensures { Gives (λ boolean. boolean) result (model.read_bool (view value.now)) }
{
    value.as_bool().ok_or(SchemaFault::Syntax)
}

/// Reads the integer that a number without fraction and exponent is, if it fits 64 bits.
pub fn read_integer(value: &Value) -> Result<i64, SchemaFault>
    ensures { Gives (λ integer. integer) result
        (model.read_integer (view value.now)) }
{
    value.as_i64().ok_or(SchemaFault::Syntax)
}

/// Reads the members of an object.
pub fn read_object(value: &Value) -> Result<&Map<String, Value>, SchemaFault>
    ensures { Gives (λ members. members_view members.now.entries) result
        (model.read_object (view value.now)) }
{
    value.as_object().ok_or(SchemaFault::Syntax)
}

/// Reads the members of an array.
pub fn read_array(value: &Value) -> Result<&[Value], SchemaFault>
    ensures { Gives (λ items. items_view items.now) result
        (ok_or (json.as_array (view value.now)) model.syntax) }
{
    match value.as_array() {
        None => Err(SchemaFault::Syntax),
        Some(items) => Ok(items.as_slice()),
    }
}

/// Returns the member that has to be there.
pub fn needed<'a>(key: &str, members: &'a Map<String, Value>) -> Result<&'a Value, SchemaFault>
    ensures { Gives (λ value. view value.now) result
        (json.needed model.syntax key.now (members_view members.now.entries)) }
{
    member(key, members).ok_or(SchemaFault::Syntax)
}

/// Returns the member of an object at a key, if there is one. O(log n) for n members.
pub fn member<'a>(key: &str, members: &'a Map<String, Value>) -> Option<&'a Value>
    ensures { option_map (λ value. view value.now) result
        ≡ json.get_member key.now (members_view members.now.entries) }
{
    members.get(key)
}

/// Reads an integer from `low` to `high`, both of which are within; without `high` to 2^63-1.
pub fn read_between(low: u64, high: Option<u64>, value: &Value) -> Result<u64, SchemaFault>
    ensures { Gives (λ number. number) result (model.read_between low high (view value.now)) }
{
    let integer = read_integer(value)?;
    match u64::try_from(integer) {
        Ok(number) if low <= number && is_at_most(number, high) => Ok(number),
        _ => Err(SchemaFault::BadType),
    }
}

fn is_at_most(number: u64, high: Option<u64>) -> bool
    ensures { result ≡ unwrap_or (option_map (nat_le number) high) true }
{
    match high {
        None => true,
        Some(high) => number <= high,
    }
}
