//! Reading what JSON gives: texts, booleans, numbers, and members of objects. [P 4.1]

ghost use Rattle.std.specs.Prelude.{◌≡◌, map, ok_or, string_bytes};
ghost use Rattle.std.specs.List.{list_any};
ghost use Rattle.serde_json.specs.View.{items_view, members_view, view};
ghost use Rattle.odb_atoms.specs.Error.{syntax_error};
ghost use Rattle.odb_atoms.specs.Text.{same_text};
ghost use Rattle.odb_schema.specs.Json as json;
ghost use Rattle.odb_json.specs.ConditionNotation.{read_text};
ghost use Rattle.odb_json.specs.Operation as model;
ghost use Rattle.odb_json.specs.Represented.Fault.{Gives, Reads};
ghost use Rattle.odb_json.specs.Represented.Parts as parts;

use crate::atom::SYNTAX;
use crate::fault::OpFault;
use odb_schema::{is_id, member};
use serde_json::{Map, Value};
use std::alloc::Global;

/// Reads the text that a string is.
pub fn read_text(value: &Value) -> Result<&str, OpFault>
    ensures { Gives (λ text. text.now) result (read_text (view value.now)) }
{
    value.as_str().ok_or(SYNTAX)
}

/// Reads the boolean that `true` or `false` is.
pub fn read_bool(value: &Value) -> Result<bool, OpFault>
    ensures { Gives (λ boolean. boolean) result (model.read_bool (view value.now)) }
{
    value.as_bool().ok_or(SYNTAX)
}

/// Reads the members of an array; `SyntaxError` for all else. O(1).
pub fn read_array(value: &Value) -> Result<&[Value], OpFault>
    ensures { Gives (λ items. items_view items.now) result
        (ok_or (json.as_array (view value.now)) syntax_error) }
{
    match value.as_array() {
        None => Err(SYNTAX),
        Some(items) => Ok(items.as_slice()),
    }
}

/// Reads the members of an object; `SyntaxError` for all else. O(1).
pub fn read_object(value: &Value) -> Result<&Map<String, Value>, OpFault>
    ensures { Gives (λ members. members_view members.now.entries) result
        (ok_or (json.as_object (view value.now)) syntax_error) }
{
    value.as_object().ok_or(SYNTAX)
}

/// Reads an integer of at least 0 that fits 63 bits.
pub fn read_natural(value: &Value) -> Result<u64, OpFault>
    ensures { Gives (λ number. number) result (model.read_natural (view value.now)) }
{
    match value.as_i64().map(u64::try_from) {
        Some(Ok(number)) => Ok(number),
        _ => Err(SYNTAX),
    }
}

/// Reads a text that is an id (RFC 7047, section 3.1, `<id>`).
pub fn read_id(alloc: Global, value: &Value) -> Result<String, OpFault>
    ensures { Reads (λ id. string_bytes id) result (model.read_id (view value.now)) }
{
    let id = read_text(value)?;
    if !is_id(id) {
        return Err(SYNTAX);
    }
    Ok(String::from_str(alloc, id)?)
}

/// Returns the member that has to be there.
pub fn needed<'a>(key: &str, members: &'a Map<String, Value>) -> Result<&'a Value, OpFault>
    ensures { Gives (λ value. view value.now) result
        (json.needed syntax_error key.now (members_view members.now.entries)) }
{
    member(key, members).ok_or(SYNTAX)
}

/// Refuses a member that isn't among the known ones, with `SyntaxError`. O(n) comparisons of names for each
/// member, with n known ones.
pub fn no_other(known: &[&str], members: &Map<String, Value>) -> Result<(), OpFault>
    ensures { Gives (λ none. none) result
        (parts.no_other (map (λ name. name.now) known.now) (members_view members.now.entries)) }
{
    if !are_known(known, members) {
        return Err(SYNTAX);
    }
    Ok(())
}

fn are_known(known: &[&str], members: &Map<String, Value>) -> bool
    ensures { result
        ≡ parts.are_known (map (λ name. name.now) known.now) (members_view members.now.entries) }
{
    for (name, _) in members.iter() {
        if !is_known(known, name.as_str()) {
            return false;
        }
    }
    true
}

fn is_known(known: &[&str], name: &str) -> bool
    ensures { result ≡ list_any (same_text name.now) (map (λ name. name.now) known.now) }
{
    is_among(known, name)
}

fn is_among(names: &[&str], name: &str) -> bool
    ensures { result ≡ list_any (λ other. same_text name.now other.now) names.now }
{
    names.iter().any(|other| name == *other)
}
