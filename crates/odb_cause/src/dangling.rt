//! The column with a strong reference to a row that isn't there (RFC 7047, section 3.2, `refType`). [P 5, 15.2]

use crate::cause::{Detail, Found};
use odb_atoms::{Atom, Base, ColType, Entries, Value};
use odb_schema::{Schema, TableId};
use odb_tables::Draft;
use std::alloc::{AllocError, Global};
use uuid::Uuid;

/// Returns the first column of a touched row with a strong reference to a row that isn't there; else the first column with
/// a strong reference to a touched row that isn't there.
pub(crate) fn dangling_column(
    alloc: Global,
    draft: &Draft,
    schema: &Schema,
) -> Result<Found, AllocError> {
    for place in 0..draft.len() {
        let table = TableId::at(place);
        let touched = draft.touched(alloc, table)?;
        for uuid in &touched {
            if let Some(column) = dangling_in(draft, schema, table, *uuid) {
                return Ok(Found::of(place, Detail::Column(column)));
            }
        }
    }
    for place in 0..draft.len() {
        let table = TableId::at(place);
        let touched = draft.touched(alloc, table)?;
        for uuid in &touched {
            if draft.get(table, *uuid).is_none() {
                let found = referring(draft, schema, table, *uuid)?;
                if found.table.is_some() {
                    return Ok(found);
                }
            }
        }
    }
    Ok(Found::nothing())
}

/// Returns the first column with a strong reference to no row, of the row, if it is there.
fn dangling_in(draft: &Draft, schema: &Schema, table: TableId, uuid: Uuid) -> Option<usize> {
    let row = draft.get(table, uuid)?;
    let columns = schema.tables().get(table.place())?.columns();
    for (place, column) in columns.iter().enumerate() {
        if dangles(draft, schema, column.column_type(), row.get(place)?) {
            return Some(place);
        }
    }
    None
}

/// Returns whether a value of the type has a strong reference to a row that isn't there.
fn dangles(draft: &Draft, schema: &Schema, column: &ColType, value: &Value) -> bool {
    let keys = strong_target(schema, &column.key);
    match value.entries() {
        Entries::Set(atoms) => atoms.iter().any(|atom| is_missing(draft, keys, atom)),
        Entries::Map(pairs) => {
            let values = match &column.value {
                Some(base) => strong_target(schema, base),
                None => None,
            };
            pairs.iter().any(|pair| is_missing(draft, keys, &pair.0)
                || is_missing(draft, values, &pair.1))
        }
    }
}

/// Returns whether the atom names a row that the table doesn't have.
fn is_missing(draft: &Draft, table: Option<TableId>, atom: &Atom) -> bool {
    let (Some(table), Atom::Uuid(uuid)) = (table, atom) else {
        return false;
    };
    draft.get(table, *uuid).is_none()
}

/// Returns the table to which atoms of the base type have strong references.
fn strong_target(schema: &Schema, base: &Base) -> Option<TableId> {
    match &base.reference {
        Some(reference) if !reference.weak => schema.table(reference.table.as_str()),
        _ => None,
    }
}

/// Returns the first column of which a value has a strong reference to this row of the target.
fn referring(
    draft: &Draft,
    schema: &Schema,
    target: TableId,
    uuid: Uuid,
) -> Result<Found, AllocError> {
    for (place, table) in schema.tables().iter().enumerate() {
        for (column, declared) in table.columns().iter().enumerate() {
            if refers_strongly(schema, declared.column_type(), target)
                && !draft
                    .referrers(TableId::at(place), column, uuid)?
                    .is_empty()
            {
                return Ok(Found::of(place, Detail::Column(column)));
            }
        }
    }
    Ok(Found::nothing())
}

/// Returns whether values of the type may have strong references to rows of the target.
fn refers_strongly(schema: &Schema, column: &ColType, target: TableId) -> bool {
    if strong_target(schema, &column.key) == Some(target) {
        return true;
    }
    match &column.value {
        Some(base) => strong_target(schema, base) == Some(target),
        None => false,
    }
}
