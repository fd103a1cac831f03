//! The text of a cause, for the log. [P 15.2]

use odb_core::{Cause, Detail, Stage};
use odb_schema::{Schema, TableSchema};
use std::fmt;

/// The text that says why a transaction failed, with names of the schema: nothing else of a request, and nothing of a row.
#[derive(Clone, Copy)]
pub(crate) struct CauseText<'a> {
    pub(crate) cause: Cause,
    pub(crate) schema: &'a Schema,
}

impl fmt::Display for CauseText<'_> {
    fn fmt<W: fmt::Write>(&self, f: &mut fmt::Formatter<W>) -> fmt::Result {
        match self.cause.stage {
            Stage::Operation(place) => write!(f, "operation {}", place.saturating_add(1))?,
            Stage::Commit => f.write_str("commit")?,
        }
        if let Some(table) = self.table() {
            write!(f, ", table {}", table.name())?;
            write_detail(f, table, self.cause.detail)?;
        }
        write!(f, ": {}", self.cause.error)
    }
}

impl CauseText<'_> {
    /// Returns the table for which it failed, if it was for one.
    fn table(&self) -> Option<&TableSchema> {
        self.schema.tables().get(self.cause.table?)
    }
}

/// Writes what of the table it failed for.
fn write_detail<W: fmt::Write>(
    f: &mut fmt::Formatter<W>,
    table: &TableSchema,
    detail: Detail,
) -> fmt::Result {
    match detail {
        Detail::Whole => Ok(()),
        Detail::Column(place) => match table.columns().get(place) {
            Some(column) => write!(f, ", column {}", column.name()),
            None => Ok(()),
        },
        Detail::Index(place) => match table.indexes().get(place) {
            Some(columns) => write_index(f, place, columns),
            None => Ok(()),
        },
    }
}

/// Writes an index: its number, from 1, and the names of its columns.
fn write_index<W: fmt::Write>(
    f: &mut fmt::Formatter<W>,
    place: usize,
    columns: &Vec<String>,
) -> fmt::Result {
    write!(f, ", index {} (", place.saturating_add(1))?;
    for (place, column) in columns.iter().enumerate() {
        if place > 0 {
            f.write_str(", ")?;
        }
        f.write_str(column.as_str())?;
    }
    f.write_str(")")
}
