//! Types of columns (RFC 7047, section 3.2, `<type>`). [P 1.2, 1.5]

ghost use Rattle.std.specs.Prelude.{◌≡◌, codes, option_map};
ghost use Rattle.serde_json.specs.View.{members_view, view};
ghost use Rattle.odb_atoms.specs.Represented.Atom.{kind_in};
ghost use Rattle.odb_atoms.specs.Represented.ColType.{base_of, type_of};
ghost use Rattle.odb_schema.specs.SchemaText as model;
ghost use Rattle.odb_schema.specs.Represented.Fault.{Reads};
ghost use Rattle.odb_schema.specs.Represented.Parts as parts;
ghost use Rattle.odb_schema.specs.Represented.Reader.{known_to};

use super::leaf::{member, needed, read_object};
use super::parts::{read_max, read_min};
use super::reader::Reader;
use crate::fault::SchemaFault;
use crate::text::read_kind;
use odb_atoms::{Base, ColType, Kind};
use serde_json::{Map, Value};

impl Reader<'_> {
    /// Reads `key` of a type that is an object.
    fn read_key(&self, members: &Map<String, Value>) -> Result<Base, SchemaFault>
        ensures { Reads base_of result
            (parts.key_of (known_to self.entry.now) (members_view members.now.entries)) }
    {
        self.read_base(needed("key", members)?)
    }

    /// Reads `value`, where it is given.
    fn read_value(&self, members: &Map<String, Value>) -> Result<Option<Base>, SchemaFault>
        ensures { Reads (option_map base_of) result
            (parts.value_of (known_to self.entry.now) (members_view members.now.entries)) }
    {
        match member("value", members) {
            None => Ok(None),
            Some(value) => Ok(Some(self.read_base(value)?)),
        }
    }

    /// Reads a type that is an object.
    fn read_type_members(&self, members: &Map<String, Value>) -> Result<ColType, SchemaFault>
        ensures { Reads type_of result
            (parts.type_in (known_to self.entry.now) (members_view members.now.entries)) }
    {
        let key = self.read_key(members)?;
        let value = self.read_value(members)?;
        let min = read_min(members)?;
        let max = read_max(members)?;
        Ok(ColType {
            key,
            value,
            min,
            max,
        })
    }

    /// Reads a type: the name of an atomic type for a scalar, or an object.
    pub fn read_type(&self, value: &Value) -> Result<ColType, SchemaFault>
        ensures { Reads type_of result
            (model.read_type (known_to self.entry.now) (view value.now)) }
    {
        match value.as_str() {
            Some(name) => Ok(ColType::scalar(read_kind(name)?)),
            None => self.read_type_members(read_object(value)?),
        }
    }
}
