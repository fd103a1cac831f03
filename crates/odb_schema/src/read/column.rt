//! Columns (RFC 7047, section 3.2, `<column-schema>`). [P 1.2, 1.5]

ghost use Rattle.std.specs.Prelude.{◌≡◌, IfOk};
ghost use Rattle.serde_json.specs.View.{members_view, view};
ghost use Rattle.odb_atoms.specs.Represented.ColType.{type_of};
ghost use Rattle.odb_schema.specs.SchemaText as model;
ghost use Rattle.odb_schema.specs.Represented.Fault.{Reads};
ghost use Rattle.odb_schema.specs.Represented.Names.{ColumnsAscend};
ghost use Rattle.odb_schema.specs.Represented.Parts as parts;
ghost use Rattle.odb_schema.specs.Represented.Reader.{known_to};

use super::leaf::{needed, read_object};
use super::parts::read_flag;
use super::reader::Reader;
use crate::fault::SchemaFault;
use crate::schema::Column;
use crate::text::is_name;
use odb_atoms::ColType;
use serde_json::{Map, Value};

impl Reader<'_> {
    /// Reads `type` of a column.
    fn read_column_type(&self, members: &Map<String, Value>) -> Result<ColType, SchemaFault>
        ensures { Reads type_of result
            (parts.column_type_of (known_to self.entry.now) (members_view members.now.entries)) }
    {
        self.read_type(needed("type", members)?)
    }

    /// Returns the column with the name, of the members of its object.
    fn column_of(&self, name: &str, members: &Map<String, Value>) -> Result<Column, SchemaFault>
        ensures { Reads (λ column. column) result
            (parts.column_in (known_to self.entry.now) name.now (members_view members.now.entries)) }
    {
        let column_type = self.read_column_type(members)?;
        let is_ephemeral = read_flag("ephemeral", false, members)?;
        let is_mutable = read_flag("mutable", true, members)?;
        let name = String::from_str(self.alloc, name)?;
        Ok(Column::new(name, column_type, is_ephemeral, is_mutable))
    }

    /// Reads the column with the name.
    fn read_column(&self, name: &str, value: &Value) -> Result<Column, SchemaFault>
        ensures { Reads (λ column. column) result
            (model.read_column (known_to self.entry.now) (name.now, view value.now)) }
    {
        if !is_name(name) {
            return Err(SchemaFault::BadId);
        }
        self.column_of(name, read_object(value)?)
    }

    /// Reads the columns of a table, by ascending name.
    pub fn read_columns(&self, columns: &Map<String, Value>) -> Result<Vec<Column>, SchemaFault>
        ensures exact { Reads (λ v. v.items) result
            (parts.columns_in (known_to self.entry.now) (members_view columns.now.entries)) }
        ensures ascending { IfOk result (λ v. ColumnsAscend v.items) }
    {
        let mut read = Vec::with_capacity(self.alloc, columns.len())?;
        for (name, value) in columns.iter() {
            read.push(self.read_column(name.as_str(), value)?)?;
        }
        Ok(read)
    }
}
