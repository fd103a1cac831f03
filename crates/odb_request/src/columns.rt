//! The columns of requests, in the order of their names (RFC 7047, section 4.1.5, `columns`).

ghost use Rattle.std.specs.Prelude.{◌≡◌, Ok, OnOk, IfOk, codes, map};
ghost use Rattle.std.specs.List.{position};
ghost use Rattle.std.specs.Ordering.{is_lt};
ghost use Rattle.serde_json.specs.View.{members_view};
ghost use Rattle.odb_atoms.specs.Text.{text_cmp};
ghost use Rattle.odb_cond.specs.Represented.Clause.{selector_of};
ghost use Rattle.odb_json.specs.Represented.Fault.{Reads};
ghost use Rattle.odb_request.specs.Represented.Parts.{asked_columns, but_uuid, monitored_as};
ghost use Rattle.odb_request.specs.Requests as model;
ghost use Rattle.odb_schema.specs.Json.{get_member};
ghost use Rattle.odb_schema.specs.Schema.{selector_name};

use odb_cond::Selector;
use odb_json::{OpFault, read_columns};
use odb_schema::{TableSchema, member};
use serde_json::{Map, Value};
use std::alloc::{AllocError, Global};

/// Returns the name of a column of the table.
pub fn name_of<'a>(table: &'a TableSchema, column: Selector) -> &'a str
    ensures { result.now ≡ selector_name table.now.columns (selector_of column) }
{
    match column {
        Selector::Uuid => "_uuid",
        Selector::Version => "_version",
        Selector::Declared(place) => match table.columns().get(place) {
            Some(column) => column.name(),
            None => "",
        },
    }
}

/// Returns whether the column's name is before the other's.
fn is_before(table: &TableSchema, column: Selector, other: Selector) -> bool
    ensures { result ≡ is_lt (text_cmp (selector_name table.now.columns (selector_of column))
        (selector_name table.now.columns (selector_of other))) }
{
    name_of(table, column).cmp(name_of(table, other)).is_lt()
}

/// Returns the place of the first column whose name is after this one's.
fn place_of(table: &TableSchema, column: Selector, columns: &[Selector]) -> Option<usize>
    ensures { result ≡ position (λ other.
        is_lt (text_cmp (selector_name table.now.columns (selector_of column))
        (selector_name table.now.columns (selector_of other)))) columns.now }
{
    columns
        .iter()
        .position(|other| is_before(table, column, *other))
}

/// Puts the column in its place by its name.
fn put(table: &TableSchema, column: Selector, columns: &mut Vec<Selector>) -> Result<(), AllocError>
    ensures { OnOk result (map (monitored_as table.now.columns) columns.new.items
        ≡ model.place_column (monitored_as table.now.columns column)
        (map (monitored_as table.now.columns) columns.old.items)) }
{
    let place = place_of(table, column, columns).unwrap_or(columns.len());
    columns.insert(place, column)?;
    Ok(())
}

/// Returns the columns in the order of their names.
fn in_order(
    alloc: Global,
    table: &TableSchema,
    columns: &[Selector],
) -> Result<Vec<Selector>, AllocError>
    ensures { IfOk result (λ v. map (monitored_as table.now.columns) v.items
        ≡ model.in_order (map (monitored_as table.now.columns) columns.now)) }
{
    let mut sorted = Vec::with_capacity(alloc, columns.len())?;
    let mut place = columns.len();
    while place > 0 {
        place -= 1;
        put(table, columns[place], &mut sorted)?;
    }
    Ok(sorted)
}

/// Returns `_version` and each declared column.
fn all_but_uuid(alloc: Global, table: &TableSchema) -> Result<Vec<Selector>, OpFault>
    ensures { Reads (λ v. map selector_of v.items) result (Ok (but_uuid table.now.columns)) }
{
    let mut columns = Vec::new(alloc);
    columns.push(Selector::Version)?;
    for place in 0..table.columns().len() {
        columns.push(Selector::Declared(place))?;
    }
    Ok(columns)
}

/// Returns the columns that are asked for, in the order in which they are named.
fn asked_columns(
    alloc: Global,
    table: &TableSchema,
    members: &Map<String, Value>,
) -> Result<Vec<Selector>, OpFault>
    ensures { Reads (λ v. map selector_of v.items) result
        (asked_columns table.now.columns
        (get_member (codes "columns") (members_view members.now.entries))) }
{
    if member("columns", members).is_none() {
        return all_but_uuid(alloc, table);
    }
    read_columns(alloc, table, members)
}

/// Reads the columns that are asked for, in the order of their names.
pub fn read_monitored(
    alloc: Global,
    table: &TableSchema,
    members: &Map<String, Value>,
) -> Result<Vec<Selector>, OpFault>
    ensures { Reads (λ v. map (monitored_as table.now.columns) v.items) result
        (model.read_monitored table.now.columns
        (get_member (codes "columns") (members_view members.now.entries))) }
{
    let columns = asked_columns(alloc, table, members)?;
    Ok(in_order(alloc, table, &columns)?)
}
