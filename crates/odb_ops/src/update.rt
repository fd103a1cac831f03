//! `update` (RFC 7047, section 5.2.3). [P 4.2]
ghost use Rattle.std.specs.Prelude.{◌≡◌, ◌<◌, IfOk, OnOk, Some, length, map};
ghost use Rattle.odb_atoms.specs.Represented.Atom.{uuid_of};
ghost use Rattle.odb_ops.specs.Execution.{count, on_matching, replaced};
ghost use Rattle.odb_ops.specs.Represented.Parts.{all_rewritten, rewritten, with_rows};
ghost use Rattle.odb_tables.specs.Database.{table_at};
ghost use Rattle.odb_tables.specs.Matching.{matching};

use crate::insert::set;
use crate::results::{self, OperationResult};
use odb_atoms::{Row, Value};
use odb_json::Update;
use odb_schema::{ColumnId, TableId};
use odb_tables::Draft;
use std::alloc::{AllocError, Global};
use uuid::Uuid;

/// Writes a copy of each value into its column, where the first counts of those for the same column.
fn write(alloc: Global, row: &mut Row, given: &[(ColumnId, Value)]) -> Result<(), AllocError>
    ensures { OnOk result (row.new ≡ replaced given.now row.old) }
{
    for place in (0..given.len()).rev() {
        let cell = &given[place];
        set(row, cell.0, cell.1.try_copy(alloc)?);
    }
    Ok(())
}

/// Writes the values into the row of an identifier, if the table has it.
fn rewrite(
    alloc: Global,
    draft: &mut Draft,
    table: TableId,
    uuid: Uuid,
    given: &[(ColumnId, Value)],
) -> Result<(), AllocError>
    requires { table < length draft.old.old }
    ensures row { OnOk result (draft.new
        ≡ rewritten (λ r. Some (replaced given.now r)) table (uuid_of uuid) draft.old) }
    ensures base { draft.new.old ≡ draft.old.old }
{
    let Some(row) = draft.get(table, uuid) else {
        return Ok(());
    };
    let mut row = row.try_copy(alloc)?;
    write(alloc, &mut row, given)?;
    let places = places_of(alloc, given)?;
    draft.put_over(table, uuid, row, places.as_slice())
}

/// Returns the places of the columns.
fn places_of(alloc: Global, given: &[(ColumnId, Value)]) -> Result<Vec<usize>, AllocError>
    ensures { IfOk result (λ places. places.items ≡ map (λ cell. cell.0) given.now) }
{
    let mut places = Vec::with_capacity(alloc, given.len())?;
    for cell in given {
        places.push(cell.0.place())?;
    }
    Ok(places)
}

/// Does the same for each of these rows.
fn rewrite_all(
    alloc: Global,
    draft: &mut Draft,
    table: TableId,
    uuids: &[Uuid],
    given: &[(ColumnId, Value)],
) -> Result<(), AllocError>
    requires { table < length draft.old.old }
    ensures rows { OnOk result (draft.new
        ≡ all_rewritten (λ r. Some (replaced given.now r)) table (map uuid_of uuids.now) draft.old) }
    ensures base { draft.new.old ≡ draft.old.old }
{
    for uuid in uuids {
        rewrite(alloc, draft, table, *uuid, given)?;
    }
    Ok(())
}

/// Writes the values into each row that matches; the result is how many they are.
pub fn update(
    alloc: Global,
    draft: &mut Draft,
    asked: &Update,
) -> Result<OperationResult, AllocError>
    requires { asked.now.table < length draft.old.old }
    ensures result { IfOk result (λ v. v
        ≡ count (matching asked.now.conditions (table_at draft.old.now asked.now.table))) }
    ensures draft { OnOk result (draft.new
        ≡ with_rows asked.now.table
        (on_matching asked.now.conditions (replaced asked.now.row.items) (table_at draft.old.now asked.now.table)) draft.old) }
    ensures base { draft.new.old ≡ draft.old.old }
{
    let found = draft.matching(asked.table, &asked.conditions)?;
    rewrite_all(
        alloc,
        draft,
        asked.table,
        found.as_slice(),
        asked.row.as_slice(),
    )?;
    results::count(alloc, found.as_slice())
}
