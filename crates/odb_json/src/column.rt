//! The columns that operations name, `_uuid` and `_version` among them (RFC 7047, section 5.1,
//! `<column>`). [P 4.1]

ghost use Rattle.std.specs.Prelude.{◌≡◌, [], codes, map, option_map};
ghost use Rattle.std.specs.List.{list_any};
ghost use Rattle.serde_json.specs.View.{items_view, members_view, view};
ghost use Rattle.odb_atoms.specs.Atom.{uuids};
ghost use Rattle.odb_atoms.specs.ColType as model_type;
ghost use Rattle.odb_atoms.specs.Row.{same_selector};
ghost use Rattle.odb_atoms.specs.Represented.ColType.{type_of};
ghost use Rattle.odb_cond.specs.Represented.Clause.{selector_of};
ghost use Rattle.odb_schema.specs.Schema as model_schema;
ghost use Rattle.odb_schema.specs.Json.{get_member, items_list};
ghost use Rattle.odb_json.specs.ConditionNotation.{read_selector};
ghost use Rattle.odb_json.specs.Operation as model;
ghost use Rattle.odb_json.specs.Represented.Fault.{Gives, Reads};

use crate::atom::SYNTAX;
use crate::fault::OpFault;
use crate::leaf::{read_array, read_text};
use odb_atoms::{ColType, Error};
use odb_cond::Selector;
use odb_schema::{Column, TableSchema, member};
use serde_json::{Map, Value};
use std::alloc::Global;

/// Returns the column of the table with the name.
pub fn selector(table: &TableSchema, name: &str) -> Option<Selector>
    ensures { option_map selector_of result ≡ model_schema.selector table.now.columns name.now }
{
    match name {
        "_uuid" => Some(Selector::Uuid),
        "_version" => Some(Selector::Version),
        _ => match table.column(name) {
            Some(column) => Some(Selector::Declared(column.place())),
            None => None,
        },
    }
}

/// Reads the column that a string names.
pub fn read_selector(table: &TableSchema, value: &Value) -> Result<Selector, OpFault>
    ensures { Gives selector_of result (read_selector table.now.columns (view value.now)) }
{
    let name = read_text(value)?;
    selector(table, name).ok_or(OpFault::Failed(Error::UnknownColumn))
}

/// Returns the type of a column of the table, where `uuid` is the type of `_uuid` and of `_version`.
pub fn type_of<'a>(table: &'a TableSchema, column: Selector, uuid: &'a ColType) -> &'a ColType
    requires { type_of uuid.now ≡ model_type.scalar uuids }
    ensures { type_of result.now
        ≡ model_schema.selector_type table.now.columns (selector_of column) }
{
    match column {
        Selector::Uuid | Selector::Version => uuid,
        Selector::Declared(place) => match table.columns().get(place) {
            Some(column) => column.column_type(),
            None => uuid,
        },
    }
}

/// Returns `_uuid`, `_version` and each declared column.
fn all_columns(alloc: Global, table: &TableSchema) -> Result<Vec<Selector>, OpFault>
    ensures { Reads (λ v. map selector_of v.items) result (Ok (model.all_columns table.now.columns)) }
{
    let mut columns = Vec::new(alloc);
    columns.push(Selector::Uuid)?;
    columns.push(Selector::Version)?;
    for place in 0..table.columns().len() {
        columns.push(Selector::Declared(place))?;
    }
    Ok(columns)
}

/// Returns whether the column is among the columns.
fn is_among(columns: &[Selector], column: Selector) -> bool
    ensures { result
        ≡ list_any (λ other. same_selector (selector_of column) (selector_of other)) columns.now }
{
    columns.iter().any(|other| column == *other)
}

/// Returns the columns that the strings name, none of them twice.
///
/// There are at most 258 columns, so that what was read stays that short, and the search in it too.
fn distinct_columns(
    alloc: Global,
    table: &TableSchema,
    items: &[Value],
) -> Result<Vec<Selector>, OpFault>
    ensures { Reads (λ v. map selector_of v.items) result
        (model.distinct_columns table.now.columns [] (items_list (items_view items.now))) }
{
    let mut columns = Vec::new(alloc);
    for item in items {
        let column = read_selector(table, item)?;
        if is_among(&columns, column) {
            return Err(SYNTAX);
        }
        columns.push(column)?;
    }
    Ok(columns)
}

/// Reads the member `columns` of `select`, of `wait` or of a monitor's request: the columns that its
/// strings name, in their order, and where it is left out `_uuid`, `_version` and each declared
/// column by ascending name (RFC 7047, section 5.2.2).
///
/// The first of these faults is returned: an array, else `syntax error`; then from the front a
/// string (`syntax error`) that names a column of the table (`unknown column`) and stands for the
/// first time (`syntax error`). `Memory` may come in place of any of these.
///
/// O(log c) comparisons of names for each of n names and c columns, and O(n²) of places, where a
/// name is repeated by the 259th at the latest.
pub fn read_columns(
    alloc: Global,
    table: &TableSchema,
    members: &Map<String, Value>,
) -> Result<Vec<Selector>, OpFault>
    ensures { Reads (λ v. map selector_of v.items) result
        (model.read_columns table.now.columns
        (get_member (codes "columns") (members_view members.now.entries))) }
{
    match member("columns", members) {
        None => all_columns(alloc, table),
        Some(value) => distinct_columns(alloc, table, read_array(value)?),
    }
}
