//! `insert` (RFC 7047, section 5.2.1). [P 4.2]
ghost use Rattle.std.specs.Prelude.{◌≡◌, ◌<◌, ◌||◌, IfOk, OnOk, length, map, slice_set};
ghost use Rattle.odb_atoms.specs.ColType.{default_of};
ghost use Rattle.odb_atoms.specs.Represented.Atom.{uuid_of};
ghost use Rattle.odb_atoms.specs.Uuid.{zero_uuid};
ghost use Rattle.odb_json.specs.Represented.Fault.{Reads};
ghost use Rattle.odb_ops.specs.Execution as model;
ghost use Rattle.odb_ops.specs.Represented.Draft.{begun};
ghost use Rattle.odb_ops.specs.Represented.Parts.{insert_row, with_value};

use crate::context::Target;
use crate::results::{self, OperationResult};
use odb_atoms::{Error, Row, Value, default_of};
use odb_json::OpFault;
use odb_schema::{Column, ColumnId, TableId};
use odb_tables::Draft;
use std::alloc::{AllocError, Global};
use uuid::Uuid;

/// Puts a value into a column of a row; a column past the row's is passed over. O(1).
pub fn set(row: &mut Row, column: ColumnId, value: Value)
    ensures { row.new ≡ with_value column value row.old }
{
    if column.place() < row.columns().len() {
        drop(row.replace(column.place(), value));
    }
}

/// Returns the defaults of the columns.
fn defaults(alloc: Global, columns: &[Column]) -> Result<Vec<Value>, AllocError>
    ensures { IfOk result (λ values. values.items ≡ map (λ c. default_of c.type) columns.now) }
{
    let mut values = Vec::with_capacity(alloc, columns.len())?;
    for column in columns {
        values.push(default_of(alloc, column.column_type())?)?;
    }
    Ok(values)
}

/// Returns a row that no commit has written yet.
fn unwritten(values: Vec<Value>) -> Row
    ensures { result ≡ record { version = zero_uuid; columns = values.items } }
{
    Row::new(Uuid::nil(), values)
}

/// Puts each value into its column, where the first counts of those for the same column.
fn set_all(row: &mut Row, mut given: Vec<(ColumnId, Value)>)
    ensures { row.new ≡ model.replaced given.items row.old }
{
    while let Some((column, value)) = given.pop() {
        set(row, column, value);
    }
}

/// Returns the values given, and the default for each other column.
#[tactic(auto, using(crate::proofs::Rows::given_row))]
fn new_row(
    alloc: Global,
    columns: &[Column],
    given: Vec<(ColumnId, Value)>,
) -> Result<Row, AllocError>
    ensures { IfOk result (λ row. row ≡ model.new_row columns.now given.items) }
{
    let mut row = unwritten(defaults(alloc, columns)?);
    set_all(&mut row, given);
    Ok(row)
}

/// Returns whether the table has a row with the identifier, or had one that was deleted.
fn has_used(draft: &Draft, table: TableId, uuid: Uuid) -> bool
    ensures { result ≡ model.has_used (begun draft.now) table (uuid_of uuid) }
{
    draft.get(table, uuid).is_some() || draft.was_removed(table, uuid)
}

/// Returns whether each column admits its value.
fn all_admit(columns: &[Column], values: &[Value]) -> bool
    ensures { result ≡ model.all_admit columns.now values.now }
{
    columns.iter().zip(values).all(|(column, value)| value.admit(column.column_type()).is_ok())
}

/// Puts a row of these values, and defaults for the other columns, into the table; its result.
///
/// The first of these faults is returned: an identifier that a row of the table has or had
/// (`duplicate uuid`), and a value that its column doesn't admit (`constraint violation`).
pub fn insert(
    target: &Target<'_>,
    draft: &mut Draft,
    uuid: Uuid,
    given: Vec<(ColumnId, Value)>,
) -> Result<OperationResult, OpFault>
    requires { target.now.table < length draft.old.old }
    ensures row { Reads (λ v. (draft.new, v)) result
        (insert_row target.entry.now.columns.now target.entry.now.table (uuid_of uuid) given.items draft.old) }
    ensures base { draft.new.old ≡ draft.old.old }
{
    if has_used(draft, target.table, uuid) {
        return Err(OpFault::Failed(Error::DuplicateUuid));
    }
    let row = new_row(target.alloc, target.columns, given)?;
    if !all_admit(target.columns, row.columns()) {
        return Err(OpFault::Failed(Error::ConstraintViolation));
    }
    draft.put(target.table, uuid, row)?;
    Ok(results::inserted(target.alloc, uuid)?)
}
