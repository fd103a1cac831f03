//! Numbers that are left out: those that aren't integers from -(2^63) to 2^63-1. [P 0.1, 8.2]
ghost use Rattle.std.specs.Prelude.{◌≡◌};
ghost use Rattle.serde_json.specs.View.{view, items_view, members_view};
ghost use Rattle.odb_wire.specs.Message.{has_left_out, items_left_out, members_left_out};

use serde_json::{Map, Value};

/// Returns whether a number that is no integer from -(2^63) to 2^63-1 stands anywhere in the value. It goes
/// through the whole value.
#[cycle(left_out)]
pub fn has_left_out_number(value: &Value) -> bool
    ensures { result ≡ has_left_out (view value.now) }
{
    match value {
        Value::Number(number) => !number.is_i64(),
        Value::Array(items) => items_have(items),
        Value::Object(members) => members_have(members),
        _ => false,
    }
}

#[cycle(left_out)]
fn items_have(items: &Vec<Value>) -> bool
    ensures { result ≡ items_left_out (items_view items.now.items) }
{
    for item in items {
        if has_left_out_number(item) {
            return true;
        }
    }
    false
}

#[cycle(left_out)]
fn members_have(members: &Map<String, Value>) -> bool
    ensures { result ≡ members_left_out (members_view members.now.entries) }
{
    for (_, member) in members.iter() {
        if has_left_out_number(member) {
            return true;
        }
    }
    false
}
