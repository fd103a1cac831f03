//! The table for which a commit failed, and what of it (RFC 7047, section 3.2). [P 5, 15.2]
ghost use Rattle.std.specs.Prelude.{IfOk, IfSome};
ghost use Rattle.odb_cause.specs.Cause.{SettlesTo};
ghost use Rattle.odb_integrity.specs.Settled.{IsSettled};
ghost use Rattle.odb_tables.specs.Typed.{IsTyped};

use crate::cause::{Cause, Found, Stage};
use crate::dangling::dangling_column;
use crate::limits::broken_limit;
use odb_atoms::Error;
use odb_integrity::settle;
use odb_schema::Schema;
use odb_tables::Draft;
use std::alloc::{AllocError, Global};

/// Returns why what the operations left can't be settled, if it can't be. The draft's rows have to be of the schema, and the
/// database that it began with settled.
pub(crate) fn in_commit(
    alloc: Global,
    mut draft: Draft,
    schema: &Schema,
    max_rows: usize,
) -> Result<Option<Cause>, AllocError>
    requires typed { IsTyped schema.now draft.now }
    requires base { IsSettled schema.now draft.old }
    ensures { IfOk result (λ cause. IfSome cause (SettlesTo schema.now max_rows draft.entry.now)) }
{
    match settle(alloc, &mut draft, schema, max_rows)? {
        Ok(()) => Ok(None),
        Err(error) => {
            let Found { table, detail } = found_in(alloc, &draft, schema, error)?;
            Ok(Some(Cause {
                stage: Stage::Commit,
                table,
                detail,
                error,
            }))
        }
    }
}

/// Returns for what a draft, as its settlement left it, had this error.
fn found_in(
    alloc: Global,
    draft: &Draft,
    schema: &Schema,
    error: Error,
) -> Result<Found, AllocError> {
    match error {
        Error::ReferentialIntegrityViolation => dangling_column(alloc, draft, schema),
        Error::ConstraintViolation => broken_limit(alloc, draft, schema),
        _ => Ok(Found::nothing()),
    }
}
