//! Strong references to rows that aren't there (RFC 7047, section 3.2, `refType`). [P 5]
ghost use Rattle.std.specs.Prelude.{◌≡◌, not, IfOk};
ghost use Rattle.std.specs.List.{list_any};
ghost use Rattle.odb_integrity.specs.Settlement as model;
ghost use Rattle.odb_integrity.specs.Settlement.{at_row, is_there};
ghost use Rattle.odb_integrity.specs.Touched.{Covers};

use crate::references::strong_of_row;
use crate::row_id::RowId;
use odb_schema::Schema;
use odb_tables::Draft;
use std::alloc::{AllocError, Global};

/// Returns whether a row of the list has a strong reference to a row that isn't there. No other row may have one.
/// O(their atoms).
pub(crate) fn has_dangling(
    alloc: Global,
    draft: &Draft,
    schema: &Schema,
    rows: &[RowId],
) -> Result<bool, AllocError>
    requires { Covers (model.dangles schema.now draft.now.now) draft.now.now rows.now }
    ensures { IfOk result (λ dangling. dangling ≡ model.has_dangling schema.now draft.now.now) }
{
    for row in rows {
        if dangles(alloc, draft, schema, *row)? {
            return Ok(true);
        }
    }
    Ok(false)
}

fn dangles(alloc: Global, draft: &Draft, schema: &Schema, id: RowId) -> Result<bool, AllocError>
    ensures { IfOk result (λ dangling.
        dangling ≡ at_row (model.dangles schema.now draft.now.now) draft.now.now id) }
{
    match draft.get(id.table(), id.uuid()) {
        Some(row) => {
            let referents = strong_of_row(alloc, schema, id, row)?;
            Ok(is_one_missing(draft, &referents))
        }
        None => Ok(false),
    }
}

/// Returns whether one of the rows isn't there. O(the rows).
pub(crate) fn is_one_missing(draft: &Draft, rows: &[RowId]) -> bool
    ensures { result ≡ list_any (λ x. not (is_there draft.now.now x)) rows.now }
{
    rows.iter().any(|row| is_missing(draft, *row))
}

/// Returns whether the row isn't there. O(1).
pub(crate) fn is_missing(draft: &Draft, row: RowId) -> bool
    ensures { result ≡ not (is_there draft.now.now row) }
{
    draft.get(row.table(), row.uuid()).is_none()
}
