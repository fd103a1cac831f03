//! Atoms in the notation of RFC 7047, section 5.1 (`<atom>`), outside transactions.

ghost use Rattle.serde_json.specs.View.{view};
ghost use Rattle.odb_atoms.specs.Represented.Atom.{atom_of, kind_in, uuid_of};
ghost use Rattle.odb_schema.specs.Represented.Fault.{Gives, Reads};
ghost use Rattle.odb_schema.specs.Represented.Parts as parts;

use crate::fault::SchemaFault;
use crate::notation::{parse_uuid, tagged, text_in};
use odb_atoms::{Atom, Kind};
use serde_json::Value;
use std::alloc::Global;
use uuid::Uuid;

/// Reads `["uuid", text]`.
fn read_uuid(value: &Value) -> Result<Uuid, SchemaFault>
    ensures { Gives uuid_of result (parts.uuid_in (view value.now)) }
{
    let Some(content) = tagged("uuid", value) else {
        return Err(SchemaFault::BadType);
    };
    let Some(text) = content.as_str() else {
        return Err(SchemaFault::BadType);
    };
    parse_uuid(text).ok_or(SchemaFault::BadType)
}

/// Reads a string without U+0000.
fn read_text(value: &Value) -> Result<&str, SchemaFault>
    ensures { Gives (λ text. text.now) result (parts.text_in (view value.now)) }
{
    text_in(value).ok_or(SchemaFault::BadType)
}

/// Reads an atom of the kind.
pub fn read_atom(alloc: Global, kind: Kind, value: &Value) -> Result<Atom, SchemaFault>
    ensures { Reads atom_of result (parts.atom_in (kind_in kind) (view value.now)) }
{
    match kind {
        Kind::Integer => match value.as_i64() {
            Some(integer) => Ok(Atom::Integer(integer)),
            None => Err(SchemaFault::BadType),
        },
        Kind::Boolean => match value.as_bool() {
            Some(boolean) => Ok(Atom::Boolean(boolean)),
            None => Err(SchemaFault::BadType),
        },
        Kind::Text => {
            let text = read_text(value)?;
            Ok(Atom::Text(String::from_str(alloc, text)?))
        }
        Kind::Uuid => Ok(Atom::Uuid(read_uuid(value)?)),
    }
}
