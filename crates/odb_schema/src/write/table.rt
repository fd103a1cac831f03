//! Tables (RFC 7047, section 3.2, `<table-schema>`). [P 1.6]

ghost use Rattle.std.specs.Prelude.{◌≡◌, IfOk, OnOk, map, string_bytes};
ghost use Rattle.serde_json.specs.View.{view};
ghost use Rattle.odb_schema.specs.Json.{array_of, string};
ghost use Rattle.odb_schema.specs.SchemaText as model;
ghost use Rattle.odb_schema.specs.Represented.Members as written;
ghost use Rattle.odb_schema.specs.Represented.Members.{onto};
ghost use Rattle.odb_schema.specs.Represented.Names.{names_of};

use super::column::write_columns;
use super::leaf::Object;
use crate::schema::TableSchema;
use serde_json::Value;
use std::alloc::{AllocError, Global};

fn write_names(alloc: Global, names: &[String]) -> Result<Vec<Value>, AllocError>
    ensures { IfOk result (λ v. map view v.items ≡ map string (map string_bytes names.now)) }
{
    let mut items = Vec::with_capacity(alloc, names.len())?;
    for name in names {
        items.push(Value::try_from_str(alloc, name.as_str())?)?;
    }
    Ok(items)
}

fn write_index(alloc: Global, names: &Vec<String>) -> Result<Value, AllocError>
    ensures { IfOk result (λ v. view v ≡ model.write_index (names_of names.now)) }
{
    Ok(Value::from(write_names(alloc, names)?))
}

fn write_indexes(alloc: Global, indexes: &[Vec<String>]) -> Result<Vec<Value>, AllocError>
    ensures { IfOk result (λ v. map view v.items ≡ map model.write_index (map names_of indexes.now)) }
{
    let mut items = Vec::with_capacity(alloc, indexes.len())?;
    for index in indexes {
        items.push(write_index(alloc, index)?)?;
    }
    Ok(items)
}

impl Object {
    fn put_indexes(&mut self, indexes: &[Vec<String>]) -> Result<(), AllocError>
        ensures { OnOk result (self.new
            ≡ onto (written.indexes_members (map names_of indexes.now)) self.old) }
    {
        if indexes.is_empty() {
            return Ok(());
        }
        let indexes = Value::from(write_indexes(self.alloc(), indexes)?);
        self.put("indexes", indexes)
    }

    fn put_max_rows(&mut self, max_rows: Option<u64>) -> Result<(), AllocError>
        ensures { OnOk result (self.new ≡ onto (written.max_rows_members max_rows) self.old) }
    {
        match max_rows {
            None => Ok(()),
            Some(max_rows) => self.put("maxRows", Value::from(max_rows)),
        }
    }
}

fn write_table(alloc: Global, table: &TableSchema) -> Result<Value, AllocError>
    ensures { IfOk result (λ v. view v ≡ model.write_table table.now) }
{
    let mut object = Object::new(alloc);
    object.put_indexes(table.indexes())?;
    object.put_flag(!table.is_marked_root(), "isRoot", true)?;
    object.put_max_rows(table.max_rows())?;
    let columns = write_columns(alloc, table.columns())?;
    object.put("columns", columns)?;
    Ok(object.into_value())
}

/// Writes the tables of a schema.
pub fn write_tables(alloc: Global, tables: &[TableSchema]) -> Result<Value, AllocError>
    ensures { IfOk result (λ v. view v ≡ written.tables_object tables.now) }
{
    let mut object = Object::new(alloc);
    for place in (0..tables.len()).rev() {
        let table = &tables[place];
        object.put(table.name(), write_table(alloc, table)?)?;
    }
    Ok(object.into_value())
}
