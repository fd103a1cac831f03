//! Base types (RFC 7047, section 3.2, `<base-type>`). [P 1.2, 1.5]

ghost use Rattle.std.specs.Prelude.{◌≡◌};
ghost use Rattle.serde_json.specs.View.{members_view, view};
ghost use Rattle.odb_atoms.specs.Represented.Atom.{kind_in};
ghost use Rattle.odb_atoms.specs.Represented.ColType.{base_of};
ghost use Rattle.odb_schema.specs.SchemaText as model;
ghost use Rattle.odb_schema.specs.Represented.Fault.{Gives, Reads};
ghost use Rattle.odb_schema.specs.Represented.Parts as parts;
ghost use Rattle.odb_schema.specs.Represented.Reader.{known_to};

use super::enumeration::read_enum;
use super::leaf::{member, needed, read_object, read_string};
use super::parts::read_bounds;
use super::reader::Reader;
use super::reference::read_reference;
use crate::fault::SchemaFault;
use crate::text::read_kind;
use odb_atoms::{Base, Enumeration, Kind};
use serde_json::{Map, Value};
use std::alloc::Global;

/// Reads `type` of a base type that is an object.
fn read_base_kind(members: &Map<String, Value>) -> Result<Kind, SchemaFault>
    ensures { Gives kind_in result (parts.kind_of (members_view members.now.entries)) }
{
    let name = read_string(needed("type", members)?)?;
    read_kind(name)
}

/// Reads `enum`, where it is given.
fn read_allowed(
    alloc: Global,
    kind: Kind,
    members: &Map<String, Value>,
) -> Result<Option<Enumeration>, SchemaFault>
    ensures { Reads (λ allowed. allowed) result
        (parts.enum_of (kind_in kind) (members_view members.now.entries)) }
{
    match member("enum", members) {
        None => Ok(None),
        Some(value) => Ok(Some(read_enum(alloc, kind, value)?)),
    }
}

impl Reader<'_> {
    /// Reads an atomic type with its constraints.
    fn read_constraints(&self, members: &Map<String, Value>) -> Result<Base, SchemaFault>
        ensures { Reads base_of result
            (parts.base_in (known_to self.entry.now) (members_view members.now.entries)) }
    {
        let kind = read_base_kind(members)?;
        let allowed = read_allowed(self.alloc, kind, members)?;
        let integers = read_bounds("minInteger", "maxInteger", kind == Kind::Integer, members)?;
        let lengths = read_bounds("minLength", "maxLength", kind == Kind::Text, members)?;
        let reference = read_reference(self.alloc, self.tables, kind, members)?;
        Ok(Base {
            kind,
            allowed,
            min_integer: integers.0,
            max_integer: integers.1,
            min_length: lengths.0,
            max_length: lengths.1,
            reference,
        })
    }

    /// Reads a base type: the name of an atomic type, or an object.
    pub fn read_base(&self, value: &Value) -> Result<Base, SchemaFault>
        ensures { Reads base_of result
            (model.read_base (known_to self.entry.now) (view value.now)) }
    {
        match value.as_str() {
            Some(name) => Ok(Base::plain(read_kind(name)?)),
            None => self.read_constraints(read_object(value)?),
        }
    }
}
