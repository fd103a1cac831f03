//! Tables (RFC 7047, section 3.2, `<table-schema>`). [P 1.2, 1.5]

ghost use Rattle.std.specs.Prelude.{◌≡◌, IfOk};
ghost use Rattle.serde_json.specs.View.{members_view, view};
ghost use Rattle.odb_schema.specs.SchemaText as model;
ghost use Rattle.odb_schema.specs.Represented.Fault.{Reads};
ghost use Rattle.odb_schema.specs.Represented.Names.{ColumnsAscend, TablesAscend};
ghost use Rattle.odb_schema.specs.Represented.Parts as parts;
ghost use Rattle.odb_schema.specs.Represented.Reader.{known_to};

use super::index::read_indexes;
use super::leaf::{needed, read_object};
use super::parts::{read_flag, read_max_rows};
use super::reader::Reader;
use crate::fault::SchemaFault;
use crate::schema::{Column, TableSchema};
use crate::text::is_name;
use serde_json::{Map, Value};

impl Reader<'_> {
    /// Reads `columns` of a table, by ascending name.
    fn read_table_columns(&self, members: &Map<String, Value>) -> Result<Vec<Column>, SchemaFault>
        ensures exact { Reads (λ v. v.items) result
            (parts.columns_of (known_to self.entry.now) (members_view members.now.entries)) }
        ensures ascending { IfOk result (λ v. ColumnsAscend v.items) }
    {
        let columns = read_object(needed("columns", members)?)?;
        self.read_columns(columns)
    }

    /// Returns the table with the name, of the members of its object.
    fn table_of(&self, name: &str, members: &Map<String, Value>) -> Result<TableSchema, SchemaFault>
        ensures { Reads (λ table. table) result
            (parts.table_in (known_to self.entry.now) name.now (members_view members.now.entries)) }
    {
        let columns = self.read_table_columns(members)?;
        let max_rows = read_max_rows(members)?;
        let is_root = read_flag("isRoot", false, members)?;
        let indexes = read_indexes(self.alloc, &columns, members)?;
        let name = String::from_str(self.alloc, name)?;
        Ok(TableSchema::new(name, columns, max_rows, is_root, indexes))
    }

    /// Reads the table with the name.
    fn read_table(&self, name: &str, value: &Value) -> Result<TableSchema, SchemaFault>
        ensures { Reads (λ table. table) result
            (model.read_table (known_to self.entry.now) (name.now, view value.now)) }
    {
        if !is_name(name) {
            return Err(SchemaFault::BadId);
        }
        self.table_of(name, read_object(value)?)
    }

    /// Reads the tables, by ascending name.
    pub fn read_tables(&self) -> Result<Vec<TableSchema>, SchemaFault>
        ensures exact { Reads (λ v. v.items) result
            (parts.tables_in (members_view self.entry.now.tables.now.entries)) }
        ensures ascending { IfOk result (λ v. TablesAscend v.items) }
    {
        let mut read = Vec::with_capacity(self.alloc, self.tables.len())?;
        for (name, value) in self.tables.iter() {
            read.push(self.read_table(name.as_str(), value)?)?;
        }
        Ok(read)
    }
}
