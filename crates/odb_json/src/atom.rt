//! Atoms (RFC 7047, section 5.1, `<atom>`), in a transaction or outside. [P 2.2, 2.3, 4.1]

ghost use Rattle.std.specs.Prelude.{option_map};
ghost use Rattle.serde_json.specs.View.{view};
ghost use Rattle.odb_atoms.specs.Represented.Atom.{atom_of, kind_in, uuid_of};
ghost use Rattle.odb_schema.specs.Notation as notation;
ghost use Rattle.odb_json.specs.Operation.{read_own_uuid};
ghost use Rattle.odb_json.specs.Represented.Fault.{Gives, Reads};
ghost use Rattle.odb_json.specs.Represented.Parts.{name_content, uuid_content};

use crate::fault::OpFault;
use crate::names::Names;
use odb_atoms::{Atom, Error, Kind};
use odb_schema::{is_id, parse_uuid, tagged, text_in};
use serde_json::Value;
use std::alloc::Global;
use uuid::Uuid;

/// What reads nothing.
pub const SYNTAX: OpFault = OpFault::Failed(Error::SyntaxError);

/// Returns the UUID that stands after "uuid".
fn read_uuid_content(content: &Value) -> Result<Uuid, OpFault>
    ensures { Gives uuid_of result (uuid_content (view content.now)) }
{
    let Some(text) = content.as_str() else {
        return Err(SYNTAX);
    };
    parse_uuid(text).ok_or(SYNTAX)
}

/// Returns the UUID of the name that stands after "named-uuid".
fn read_name_content(content: &Value, names: Option<&Names>) -> Result<Uuid, OpFault>
    ensures { Gives uuid_of result
        (name_content (option_map (λ n. n.now) names.entry) (view content.now)) }
{
    let Some(name) = content.as_str() else {
        return Err(SYNTAX);
    };
    let Some(names) = names else {
        return Err(SYNTAX);
    };
    if !is_id(name) {
        return Err(SYNTAX);
    }
    names
        .get(name)
        .ok_or(OpFault::Failed(Error::UnknownUuidName))
}

/// Reads `["uuid", text]` or `["named-uuid", name]`.
fn read_uuid(value: &Value, names: Option<&Names>) -> Result<Uuid, OpFault>
    ensures { Gives uuid_of result
        (notation.read_uuid (option_map (λ n. n.now) names.entry) (view value.now)) }
{
    if let Some(content) = tagged("uuid", value) {
        return read_uuid_content(content);
    }
    match tagged("named-uuid", value) {
        Some(content) => read_name_content(content, names),
        None => Err(SYNTAX),
    }
}

/// Reads the identifier that an insert has of its own (ovsdb-server(7), 5.2.1, `uuid`): its text of 36
/// characters, or `["uuid", text]`; `SyntaxError` for all else. O(1).
pub fn read_own_uuid(value: &Value) -> Result<Uuid, OpFault>
    ensures { Gives uuid_of result (read_own_uuid (view value.now)) }
{
    match value.as_str() {
        Some(text) => parse_uuid(text).ok_or(SYNTAX),
        None => read_uuid(value, None),
    }
}

/// Reads an atom of the kind. O(its length + log n) for n names.
pub fn read_atom(
    alloc: Global,
    kind: Kind,
    value: &Value,
    names: Option<&Names>,
) -> Result<Atom, OpFault>
    ensures { Reads atom_of result
        (notation.read_atom (option_map (λ n. n.now) names.entry) (kind_in kind) (view value.now)) }
{
    match kind {
        Kind::Integer => match value.as_i64() {
            Some(integer) => Ok(Atom::Integer(integer)),
            None => Err(SYNTAX),
        },
        Kind::Boolean => match value.as_bool() {
            Some(boolean) => Ok(Atom::Boolean(boolean)),
            None => Err(SYNTAX),
        },
        Kind::Text => match text_in(value) {
            Some(text) => Ok(Atom::Text(String::from_str(alloc, text)?)),
            None => Err(SYNTAX),
        },
        Kind::Uuid => Ok(Atom::Uuid(read_uuid(value, names)?)),
    }
}
