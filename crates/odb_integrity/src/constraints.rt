//! The numbers of elements and of rows (RFC 7047, section 3.2, `min` and `maxRows`). [P 5]
ghost use Rattle.std.specs.Prelude.{◌≡◌, nat_le, not};
ghost use Rattle.std.specs.List.{list_all, list_any};
ghost use Rattle.std.specs.Prelude.{length, zip};
ghost use Rattle.odb_tables.specs.Database.{table_at};
ghost use Rattle.odb_integrity.specs.Settlement as model;
ghost use Rattle.odb_integrity.specs.Settlement.{any_row, at_row, is_short, row_count, within_max_rows};
ghost use Rattle.odb_integrity.specs.Touched.{Covers};

use crate::references::columns_of;
use crate::row_id::RowId;
use odb_atoms::{Row, Value};
use odb_schema::{Column, Schema, TableId, TableSchema};
use odb_tables::Draft;

/// Returns whether a column of a row has fewer elements than its `min`. No row but those of the list may have
/// one. O(the rows of the list and their columns).
pub(crate) fn has_too_few(draft: &Draft, schema: &Schema, rows: &[RowId]) -> bool
    requires { Covers (model.has_too_few schema.now) draft.now.now rows.now }
    ensures { result ≡ any_row (model.has_too_few schema.now) draft.now.now }
{
    for row in rows {
        if is_short(draft, schema, *row) {
            return true;
        }
    }
    false
}

fn is_short(draft: &Draft, schema: &Schema, id: RowId) -> bool
    ensures { result ≡ at_row (model.has_too_few schema.now) draft.now.now id }
{
    match draft.get(id.table(), id.uuid()) {
        Some(row) => is_one_short(columns_of(schema, id.table()), row.columns()),
        None => false,
    }
}

fn is_one_short(columns: &[Column], values: &[Value]) -> bool
    ensures { result ≡ list_any is_short (zip columns.now values.now) }
{
    for (column, value) in columns.iter().zip(values) {
        if has_fewer(column, value) {
            return true;
        }
    }
    false
}

fn has_fewer(column: &Column, value: &Value) -> bool
    ensures { result ≡ is_short (column.now, value.now) }
{
    value.len() < column.column_type().min as usize
}

/// Returns whether a table has more rows than its `maxRows`. O(rows touched) and O(tables).
pub(crate) fn has_too_many(draft: &Draft, schema: &Schema) -> bool
    requires { length draft.now.now ≡ length schema.now.tables }
    ensures { result ≡ not (list_all within_max_rows (zip schema.now.tables draft.now.now)) }
{
    for (place, table) in schema.tables().iter().enumerate() {
        if exceeds_max_rows(draft, TableId::at(place), table) {
            return true;
        }
    }
    false
}

fn exceeds_max_rows(draft: &Draft, id: TableId, table: &TableSchema) -> bool
    ensures { result ≡ not (within_max_rows (table.now, table_at draft.now.now id)) }
{
    match table.max_rows() {
        Some(max_rows) => draft.row_count(id) as u64 > max_rows,
        None => false,
    }
}

/// Returns whether there are more rows than these in all. O(rows touched) and O(tables).
pub(crate) fn exceeds_limit(draft: &Draft, max_rows: usize) -> bool
    ensures { result ≡ not (nat_le (row_count draft.now.now) max_rows) }
{
    let mut left = max_rows;
    for place in 0..draft.len() {
        let count = draft.row_count(TableId::at(place));
        if count > left {
            return true;
        }
        left -= count;
    }
    false
}
