//! The first constraint that a draft breaks: `min`, `maxRows` or an index (RFC 7047, section 3.2). [P 5, 15.2]

use crate::cause::{Detail, Found};
use odb_schema::{Column, Schema, TableId, TableSchema};
use odb_tables::Draft;
use std::alloc::{AllocError, Global};
use uuid::Uuid;

/// Returns the first column of a touched row with fewer elements than its `min`; else the first table with more rows than its
/// `maxRows`; else the first index whose columns have the same values in two rows.
pub(crate) fn broken_limit(
    alloc: Global,
    draft: &Draft,
    schema: &Schema,
) -> Result<Found, AllocError> {
    for (place, table) in schema.tables().iter().enumerate() {
        if let Some(column) = short_in(alloc, draft, TableId::at(place), table)? {
            return Ok(Found::of(place, Detail::Column(column)));
        }
    }
    for (place, table) in schema.tables().iter().enumerate() {
        if has_too_many(draft, TableId::at(place), table) {
            return Ok(Found::of(place, Detail::Whole));
        }
    }
    for (place, table) in schema.tables().iter().enumerate() {
        if let Some(index) = twins_in(alloc, draft, TableId::at(place), table)? {
            return Ok(Found::of(place, Detail::Index(index)));
        }
    }
    Ok(Found::nothing())
}

/// Returns the first column of a touched row of the table that has too few elements.
fn short_in(
    alloc: Global,
    draft: &Draft,
    id: TableId,
    table: &TableSchema,
) -> Result<Option<usize>, AllocError> {
    let touched = draft.touched(alloc, id)?;
    for uuid in &touched {
        if let Some(column) = short_column(draft, id, table.columns(), *uuid) {
            return Ok(Some(column));
        }
    }
    Ok(None)
}

/// Returns the first column with too few elements of the row, if it is there.
fn short_column(draft: &Draft, id: TableId, columns: &[Column], uuid: Uuid) -> Option<usize> {
    let row = draft.get(id, uuid)?;
    for (place, column) in columns.iter().enumerate() {
        if row.get(place)?.len() < column.column_type().min as usize {
            return Some(place);
        }
    }
    None
}

/// Returns whether the table has more rows than its `maxRows`.
fn has_too_many(draft: &Draft, id: TableId, table: &TableSchema) -> bool {
    match table.max_rows() {
        Some(most) => draft.row_count(id) as u64 > most,
        None => false,
    }
}

/// Returns the first index of the table whose columns have the same values in two rows.
fn twins_in(
    alloc: Global,
    draft: &Draft,
    id: TableId,
    table: &TableSchema,
) -> Result<Option<usize>, AllocError> {
    for (place, index) in table.indexes().iter().enumerate() {
        let columns = places_of(alloc, table, index)?;
        if draft.has_new_twins(id, &columns)? {
            return Ok(Some(place));
        }
    }
    Ok(None)
}

/// Returns the places of the columns that the index names.
fn places_of(
    alloc: Global,
    table: &TableSchema,
    index: &Vec<String>,
) -> Result<Vec<usize>, AllocError> {
    let mut places = Vec::with_capacity(alloc, index.len())?;
    for name in index {
        if let Some(column) = table.column(name.as_str()) {
            places.push(column.place())?;
        }
    }
    Ok(places)
}
