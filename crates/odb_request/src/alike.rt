//! Whether two lists of columns are the same, names and types included.

ghost use Rattle.std.specs.Prelude.{◌≡◌, map};
ghost use Rattle.std.specs.Bool.{Decides};
ghost use Rattle.odb_atoms.specs.Atom.{uuids};
ghost use Rattle.odb_atoms.specs.ColType.{scalar};
ghost use Rattle.odb_atoms.specs.Represented.ColType.{type_of};
ghost use Rattle.odb_cond.specs.Represented.Clause.{selector_of};
ghost use Rattle.odb_request.specs.Represented.Parts.{monitored_as};
ghost use Rattle.odb_schema.specs.Schema.{column_type, selector_name, selector_type};

use crate::columns::name_of;
use crate::types::same_type;
use odb_atoms::{ColType, Kind};
use odb_cond::Selector;
use odb_schema::TableSchema;

/// Returns whether it is the type of a column that the schema hasn't.
fn is_missing(column: &ColType) -> bool
    ensures { Decides result (type_of column.now ≡ scalar uuids) }
{
    same_type(column, &ColType::scalar(Kind::Uuid))
}

/// Returns whether the columns at the place have the same type.
fn same_declared(table: &TableSchema, other: &TableSchema, place: usize) -> bool
    ensures { Decides result
        (column_type table.now.columns place ≡ column_type other.now.columns place) }
{
    match (table.columns().get(place), other.columns().get(place)) {
        (Some(column), Some(other)) => same_type(column.column_type(), other.column_type()),
        (Some(column), None) => is_missing(column.column_type()),
        (None, Some(other)) => is_missing(other.column_type()),
        (None, None) => true,
    }
}

/// Returns whether the column has the same type in both tables.
fn same_type_of(table: &TableSchema, other: &TableSchema, column: Selector) -> bool
    ensures { Decides result (selector_type table.now.columns (selector_of column)
        ≡ selector_type other.now.columns (selector_of column)) }
{
    match column {
        Selector::Uuid | Selector::Version => true,
        Selector::Declared(place) => same_declared(table, other, place),
    }
}

/// Returns whether the column has the same name in both tables.
fn same_name_of(table: &TableSchema, other: &TableSchema, column: Selector) -> bool
    ensures { Decides result (selector_name table.now.columns (selector_of column)
        ≡ selector_name other.now.columns (selector_of column)) }
{
    name_of(table, column) == name_of(other, column)
}

/// Returns whether the column is the same in both tables.
fn same_in(table: &TableSchema, other: &TableSchema, column: Selector) -> bool
    ensures { Decides result
        (monitored_as table.now.columns column ≡ monitored_as other.now.columns column) }
{
    same_name_of(table, other, column) && same_type_of(table, other, column)
}

/// Returns whether the two columns are the same.
fn same_column(
    table: &TableSchema,
    column: Selector,
    other_table: &TableSchema,
    other: Selector,
) -> bool
    ensures { Decides result
        (monitored_as table.now.columns column ≡ monitored_as other_table.now.columns other) }
{
    column == other && same_in(table, other_table, column)
}

/// Returns whether the two lists have the same columns, one by one.
pub fn same_columns(
    table: &TableSchema,
    columns: &[Selector],
    other: &TableSchema,
    others: &[Selector],
) -> bool
    ensures { Decides result (map (monitored_as table.now.columns) columns.now
        ≡ map (monitored_as other.now.columns) others.now) }
{
    if columns.len() != others.len() {
        return false;
    }
    for place in 0..columns.len() {
        if !same_column(table, columns[place], other, others[place]) {
            return false;
        }
    }
    true
}
