//! Rows in operations (RFC 7047, section 5.1, `<row>`): those that are written, and those that
//! `wait` compares with. [P 4.1]

ghost use Rattle.std.specs.Prelude.{◌≡◌, Some, map};
ghost use Rattle.serde_json.specs.View.{items_view, members_view, view};
ghost use Rattle.odb_atoms.specs.Atom.{uuids};
ghost use Rattle.odb_atoms.specs.ColType.{scalar};
ghost use Rattle.odb_atoms.specs.First.{each};
ghost use Rattle.odb_atoms.specs.Represented.ColType.{type_of};
ghost use Rattle.odb_cond.specs.Represented.Clause.{selector_of};
ghost use Rattle.odb_schema.specs.Json.{items_list};
ghost use Rattle.odb_schema.specs.Schema as model_schema;
ghost use Rattle.odb_json.specs.ColumnValue as column_value;
ghost use Rattle.odb_json.specs.Operation as model;
ghost use Rattle.odb_json.specs.Represented.Fault.{Gives, Reads};
ghost use Rattle.odb_json.specs.Represented.Row.{cell_of, cells_of, written};

use crate::column::{selector, type_of};
use crate::fault::OpFault;
use crate::leaf::{needed, read_array, read_object};
use crate::mutation::changeable;
use crate::names::Names;
use crate::value::{read_by_kind, read_value};
use odb_atoms::{ColType, Error, Kind};
use odb_cond::Selector;
use odb_schema::{ColumnId, TableSchema};
use serde_json::{Map, Value};
use std::alloc::Global;

/// What a row is written by, which says what columns it may name.
#[derive(Clone, Copy)]
pub enum WrittenBy {
    /// `insert`: any declared column.
    Insert,
    /// `update`: any declared column that can change.
    Update,
}

/// Returns the column with the name, if `insert` may give it a value: `_uuid` and `_version` are
/// `constraint violation`.
fn insertable(table: &TableSchema, name: &str) -> Result<ColumnId, OpFault>
    ensures { Gives (λ column. column) result (model.insertable table.now.columns name.now) }
{
    match selector(table, name) {
        Some(Selector::Declared(place)) => Ok(ColumnId::at(place)),
        Some(_) => Err(OpFault::Failed(Error::ConstraintViolation)),
        None => Err(OpFault::Failed(Error::UnknownColumn)),
    }
}

/// Returns the column with the name, if the row may name it.
fn writable(table: &TableSchema, name: &str, writing: WrittenBy) -> Result<ColumnId, OpFault>
    ensures { Gives (λ column. column) result (written writing table.now.columns name.now) }
{
    match writing {
        WrittenBy::Insert => insertable(table, name),
        WrittenBy::Update => changeable(table, name),
    }
}

/// What the row of an `insert` or `update` is read by.
#[derive(Clone, Copy)]
struct RowReader<'a> {
    alloc: Global,
    table: &'a TableSchema,
    writing: WrittenBy,
    names: &'a Names,
}

impl RowReader<'_> {
    /// Reads a column of a row and its value.
    fn read_cell(self, name: &str, value: &Value) -> Result<(ColumnId, odb_atoms::Value), OpFault>
        ensures { Reads (λ cell. cell) result
            (model.read_cell self.entry.names.now self.entry.table.now.columns
            (written self.entry.writing self.entry.table.now.columns) name.now (view value.now)) }
    {
        let uuid = ColType::scalar(Kind::Uuid);
        let cell = self.read_member(name, value, &uuid);
        drop(uuid);
        cell
    }

    /// Reads what `read_cell` reads. `uuid` is the type of `_uuid` and `_version`.
    fn read_member(
        self,
        name: &str,
        value: &Value,
        uuid: &ColType,
    ) -> Result<(ColumnId, odb_atoms::Value), OpFault>
        requires { type_of uuid.now ≡ scalar uuids }
        ensures { Reads (λ cell. cell) result
            (model.read_cell self.entry.names.now self.entry.table.now.columns
            (written self.entry.writing self.entry.table.now.columns) name.now (view value.now)) }
    {
        let column = writable(self.table, name, self.writing)?;
        let column_type = type_of(self.table, Selector::Declared(column.place()), uuid);
        let value = read_value(self.alloc, value, column_type, Some(self.names))?;
        Ok((column, value))
    }

    /// Reads the columns of a row and their values, by ascending name.
    fn read_cells(
        self,
        members: &Map<String, Value>,
    ) -> Result<Vec<(ColumnId, odb_atoms::Value)>, OpFault>
        ensures { Reads (λ v. v.items) result
            (model.read_cells self.entry.names.now self.entry.table.now.columns
            (written self.entry.writing self.entry.table.now.columns) (members_view members.now.entries)) }
    {
        let mut row = Vec::with_capacity(self.alloc, members.len())?;
        for (name, value) in members.iter() {
            row.push(self.read_cell(name.as_str(), value)?)?;
        }
        Ok(row)
    }
}

/// Reads the row that `insert` or `update` writes (RFC 7047, section 5.1, `<row>`): the columns that it
/// names and their values, by ascending name. `names` are the identifiers that the names of the
/// transaction stand for.
///
/// The first of these faults is returned: an object, else `syntax error`; then by ascending name a
/// column that the table doesn't have (`unknown column`), or that may not be written, as `_uuid`,
/// `_version`, and in `update` an immutable one (`constraint violation`); and the faults of its
/// value, as `read_value` says them. `Memory` may come in place of any of these.
///
/// O(n log c) comparisons of names for n members and c columns, and what `read_value` takes.
pub fn read_row(
    alloc: Global,
    value: &Value,
    table: &TableSchema,
    writing: WrittenBy,
    names: &Names,
) -> Result<Vec<(ColumnId, odb_atoms::Value)>, OpFault>
    ensures { Reads (λ v. v.items) result
        (model.read_row names.now table.now.columns (written writing table.now.columns)
        (view value.now)) }
{
    let reader = RowReader {
        alloc,
        table,
        writing,
        names,
    };
    reader.read_cells(read_object(value)?)
}

/// Reads a value of the column's kind.
fn read_of_column(
    alloc: Global,
    value: &Value,
    table: &TableSchema,
    column: Selector,
    names: &Names,
) -> Result<odb_atoms::Value, OpFault>
    ensures { Reads (λ v. v) result (column_value.read_by_kind (Some names.now)
        (model_schema.selector_type table.now.columns (selector_of column)) (view value.now)) }
{
    let uuid = ColType::scalar(Kind::Uuid);
    let read = read_by_kind(alloc, value, type_of(table, column, &uuid), Some(names));
    drop(uuid);
    read
}

/// Reads a column of a row of `wait` and its value.
fn read_expected_cell(
    alloc: Global,
    name: &str,
    value: &Value,
    table: &TableSchema,
    names: &Names,
) -> Result<(Selector, odb_atoms::Value), OpFault>
    ensures { Reads cell_of result
        (model.read_expected_cell names.now table.now.columns name.now (view value.now)) }
{
    let column = selector(table, name).ok_or(OpFault::Failed(Error::UnknownColumn))?;
    let value = read_of_column(alloc, value, table, column, names)?;
    Ok((column, value))
}

/// Reads the columns of a row of `wait` and their values, by ascending name.
fn read_expected_cells(
    alloc: Global,
    members: &Map<String, Value>,
    table: &TableSchema,
    names: &Names,
) -> Result<Vec<(Selector, odb_atoms::Value)>, OpFault>
    ensures { Reads cells_of result
        (model.read_expected_cells names.now table.now.columns
        (members_view members.now.entries)) }
{
    let mut row = Vec::with_capacity(alloc, members.len())?;
    for (name, value) in members.iter() {
        row.push(read_expected_cell(alloc, name.as_str(), value, table, names)?)?;
    }
    Ok(row)
}

/// Reads a row of `wait`.
fn read_expected(
    alloc: Global,
    value: &Value,
    table: &TableSchema,
    names: &Names,
) -> Result<Vec<(Selector, odb_atoms::Value)>, OpFault>
    ensures { Reads cells_of result
        (model.read_expected names.now table.now.columns (view value.now)) }
{
    read_expected_cells(alloc, read_object(value)?, table, names)
}

/// Reads the rows of an array.
fn read_all(
    alloc: Global,
    items: &[Value],
    table: &TableSchema,
    names: &Names,
) -> Result<Vec<Vec<(Selector, odb_atoms::Value)>>, OpFault>
    ensures { Reads (λ v. map cells_of v.items) result
        (each (model.read_expected names.now table.now.columns) (items_list (items_view items.now))) }
{
    let mut rows = Vec::with_capacity(alloc, items.len())?;
    for item in items {
        rows.push(read_expected(alloc, item, table, names)?)?;
    }
    Ok(rows)
}

/// Reads `rows` of `wait`.
pub fn read_expected_rows(
    alloc: Global,
    members: &Map<String, Value>,
    table: &TableSchema,
    names: &Names,
) -> Result<Vec<Vec<(Selector, odb_atoms::Value)>>, OpFault>
    ensures { Reads (λ v. map cells_of v.items) result
        (model.read_expected_rows names.now table.now.columns (members_view members.now.entries)) }
{
    let items = read_array(needed("rows", members)?)?;
    read_all(alloc, items, table, names)
}
