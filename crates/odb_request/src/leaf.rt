//! The members of the objects that requests are.

ghost use Rattle.serde_json.specs.View.{items_view, members_view, view};
ghost use Rattle.odb_json.specs.Represented.Fault.{Gives};
ghost use Rattle.odb_request.specs.Represented.Parts.{lone_object};
ghost use Rattle.odb_request.specs.Requests as model;

use odb_atoms::Error;
use odb_json::OpFault;
use serde_json::{Map, Value};

pub const SYNTAX: OpFault = OpFault::Failed(Error::SyntaxError);

/// Returns the one member of an array, if it is an object.
fn lone_object(items: &[Value]) -> Result<&Map<String, Value>, OpFault>
    ensures { Gives (λ members. members_view members.now.entries) result
        (lone_object (items_view items.now)) }
{
    match items {
        [value] => value.as_object().ok_or(SYNTAX),
        _ => Err(SYNTAX),
    }
}

/// Returns the members of an object, or of the one object of an array.
pub fn request_object(value: &Value) -> Result<&Map<String, Value>, OpFault>
    ensures { Gives (λ members. members_view members.now.entries) result
        (model.request_object (view value.now)) }
{
    match value.as_array() {
        Some(items) => lone_object(items),
        None => value.as_object().ok_or(SYNTAX),
    }
}
