//! The rows of a draft.
ghost use Rattle.std.specs.Prelude.{◌≡◌, ◌++◌, ◌<◌, length, map, IfOk, OnOk, ℕ};
ghost use Rattle.std.specs.List.{All};
ghost use Rattle.odb_atoms.specs.FinMap as finite;
ghost use Rattle.odb_integrity.specs.Settlement.{row_ids};
ghost use Rattle.odb_integrity.specs.Steps.{without_rows};
ghost use Rattle.odb_integrity.specs.Touched.{SameAt, SameBut};
ghost use Rattle.odb_tables.specs.Database.{table_at};

use crate::row_id::RowId;
use odb_schema::TableId;
use odb_tables::Draft;
use std::alloc::{AllocError, Global};
use std::collections::BTreeSet;

/// Returns the rows that the draft has now: table by table, in each by ascending identifier. O(n log n) for
/// n rows.
pub(crate) fn rows_of(alloc: Global, draft: &Draft) -> Result<Vec<RowId>, AllocError>
    ensures { IfOk result (λ rows. rows.items ≡ row_ids draft.now.now) }
{
    let mut rows = Vec::new(alloc);
    for place in 0..draft.len() {
        append_table(draft, TableId::at(place), &mut rows)?;
    }
    Ok(rows)
}

fn append_table(draft: &Draft, table: TableId, rows: &mut Vec<RowId>) -> Result<(), AllocError>
    ensures { OnOk result
        (rows.new.items
        ≡ rows.old.items ++ map (λ uuid. (table, uuid)) (finite.keys (table_at draft.now.now table))) }
{
    let uuids = draft.uuids(table)?;
    for uuid in &uuids {
        rows.push(RowId::new(table, *uuid))?;
    }
    Ok(())
}

/// Returns the rows that the draft touched; the others are as they were. O(rows touched) and O(tables).
pub(crate) fn touched_rows(alloc: Global, draft: &Draft) -> Result<Vec<RowId>, AllocError>
    ensures { IfOk result (λ rows. SameBut rows.items draft.now.old draft.now.now) }
{
    let mut rows = Vec::new(alloc);
    for place in 0..draft.len() {
        append_touched(alloc, draft, TableId::at(place), &mut rows)?;
    }
    Ok(rows)
}

fn append_touched(
    alloc: Global,
    draft: &Draft,
    table: TableId,
    rows: &mut Vec<RowId>,
) -> Result<(), AllocError>
    ensures table { OnOk result (SameAt table rows.new.items draft.now.old draft.now.now) }
    ensures others { OnOk result ((k : ℕ) → SameAt k rows.old.items draft.now.old draft.now.now → SameAt k rows.new.items draft.now.old draft.now.now) }
{
    let uuids = draft.touched(alloc, table)?;
    for uuid in &uuids {
        rows.push(RowId::new(table, *uuid))?;
    }
    Ok(())
}

/// Returns the rows of the set, in its order. O(rows).
pub(crate) fn in_order(alloc: Global, set: &BTreeSet<RowId>) -> Result<Vec<RowId>, AllocError>
    ensures { IfOk result (λ rows. rows.items ≡ set.now.keys) }
{
    let mut rows = Vec::new(alloc);
    for row in set {
        rows.push(*row)?;
    }
    Ok(rows)
}

/// Takes the rows out of the draft. O(1) for each. After an error some may be out.
pub(crate) fn remove_all(draft: &mut Draft, rows: &[RowId]) -> Result<(), AllocError>
    requires in_tables { All (λ x. x.0 < length draft.old.now) rows.now }
    ensures removed { OnOk result (draft.new.now ≡ without_rows rows.now draft.old.now) }
    ensures base { draft.new.old ≡ draft.old.old }
{
    let _tables = draft.len();
    for row in rows {
        draft.remove(row.table(), row.uuid())?;
    }
    Ok(())
}
