//! `delete` (RFC 7047, section 5.2.5). [P 4.2]
ghost use Rattle.std.specs.Prelude.{◌≡◌, ◌<◌, IfOk, OnOk, length, map};
ghost use Rattle.odb_atoms.specs.Represented.Atom.{uuid_of};
ghost use Rattle.odb_ops.specs.Execution.{count};
ghost use Rattle.odb_ops.specs.Represented.Parts.{without_found, without_rows};
ghost use Rattle.odb_tables.specs.Database.{table_at};
ghost use Rattle.odb_tables.specs.Matching.{matching};

use crate::results::{self, OperationResult};
use odb_json::Delete;
use odb_schema::TableId;
use odb_tables::Draft;
use std::alloc::{AllocError, Global};
use uuid::Uuid;

/// Takes each of the rows out of the table.
fn remove_all(draft: &mut Draft, table: TableId, uuids: &[Uuid]) -> Result<(), AllocError>
    requires { table < length draft.old.old }
    ensures ok { OnOk result (draft.new ≡ without_rows table (map uuid_of uuids.now) draft.old) }
    ensures base { draft.new.old ≡ draft.old.old }
{
    for uuid in uuids {
        draft.remove(table, *uuid)?;
    }
    Ok(())
}

/// Takes the rows that match out of the table; the result is how many they are.
pub fn delete(
    alloc: Global,
    draft: &mut Draft,
    asked: &Delete,
) -> Result<OperationResult, AllocError>
    requires { asked.now.table < length draft.old.old }
    ensures result { IfOk result (λ v. v
        ≡ count (matching asked.now.conditions (table_at draft.old.now asked.now.table))) }
    ensures draft { OnOk result (draft.new
        ≡ without_found asked.now.table (matching asked.now.conditions (table_at draft.old.now asked.now.table)) draft.old) }
    ensures base { draft.new.old ≡ draft.old.old }
{
    let found = draft.matching(asked.table, &asked.conditions)?;
    remove_all(draft, asked.table, found.as_slice())?;
    results::count(alloc, found.as_slice())
}
