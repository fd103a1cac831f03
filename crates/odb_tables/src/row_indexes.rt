//! The row indexes of the tables of a schema.
ghost use Rattle.std.specs.Prelude.{OnOk, IfOk};
ghost use Rattle.odb_tables.specs.Represented.RowIndex.{AreForNoRows};

use crate::facet::Facet;
use crate::row_index::RowIndex;
use odb_atoms::{Base, ColType};
use odb_schema::{Schema, TableSchema};
use std::alloc::{AllocError, Global};
use std::hash::RandomState;

/// Makes for each table, without rows, an index by each of its `indexes`, and by each column that refers to rows
/// (RFC 7047, section 3.2). O(the schema).
pub(crate) fn row_indexes_of(
    alloc: Global,
    schema: &Schema,
    hashing: RandomState,
) -> Result<Vec<RowIndex>, AllocError>
    ensures { IfOk result (λ indexes. AreForNoRows indexes.items) }
{
    let mut row_indexes = Vec::new(alloc);
    let tables = schema.tables();
    for place in 0..tables.len() {
        add_by_values(alloc, &mut row_indexes, place, &tables[place], hashing)?;
        add_by_mentions(alloc, &mut row_indexes, place, &tables[place])?;
    }
    Ok(row_indexes)
}

fn add_by_values(
    alloc: Global,
    row_indexes: &mut Vec<RowIndex>,
    place: usize,
    table: &TableSchema,
    hashing: RandomState,
) -> Result<(), AllocError>
    ensures { AreForNoRows row_indexes.old.items → OnOk result (AreForNoRows row_indexes.new.items) }
{
    for names in table.indexes() {
        let places = places_of(alloc, table, names.as_slice())?;
        add_index(alloc, row_indexes, place, Facet::Values(hashing, places))?;
    }
    Ok(())
}

fn add_by_mentions(
    alloc: Global,
    row_indexes: &mut Vec<RowIndex>,
    place: usize,
    table: &TableSchema,
) -> Result<(), AllocError>
    ensures { AreForNoRows row_indexes.old.items → OnOk result (AreForNoRows row_indexes.new.items) }
{
    let columns = table.columns();
    for column in 0..columns.len() {
        if refers(columns[column].column_type()) {
            add_index(alloc, row_indexes, place, Facet::Mentions(column))?;
        }
    }
    Ok(())
}

fn add_index(
    alloc: Global,
    row_indexes: &mut Vec<RowIndex>,
    table: usize,
    facet: Facet,
) -> Result<(), AllocError>
    ensures { AreForNoRows row_indexes.old.items → OnOk result (AreForNoRows row_indexes.new.items) }
{
    let new = RowIndex::new(alloc, table, facet);
    match row_indexes.push(new) {
        Ok(()) => Ok(()),
        Err(_) => Err(AllocError),
    }
}

/// Returns the places of the columns of these names, as far as the table has them.
fn places_of(
    alloc: Global,
    table: &TableSchema,
    names: &[String],
) -> Result<Vec<usize>, AllocError> {
    let mut places = Vec::with_capacity(alloc, names.len())?;
    for name in names {
        if let Some(column) = table.column(name.as_str()) {
            places.push(column.place())?;
        }
    }
    Ok(places)
}

/// Returns whether an element, a key or a value of the column's values refers to a row.
fn refers(column: &ColType) -> bool {
    if is_reference(&column.key) {
        return true;
    }
    match &column.value {
        Some(value) => is_reference(value),
        None => false,
    }
}

fn is_reference(base: &Base) -> bool {
    base.reference.is_some()
}
