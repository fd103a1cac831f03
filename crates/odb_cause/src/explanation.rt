//! Tries a transaction for the sake of its cause. [P 15.2]
ghost use Rattle.std.specs.Prelude.{◌≡◌, IfOk, IfSome, map};
ghost use Rattle.serde_json.specs.View.{view};
ghost use Rattle.odb_cause.specs.Cause.{IsCauseOf};
ghost use Rattle.odb_commit.specs.Sound.{IsSound};
ghost use Rattle.odb_ops.specs.Represented.Context.{context_of};
ghost use Rattle.odb_tables.specs.Draft.{draft_of};

use crate::cause::Cause;
use crate::commit::in_commit;
use crate::failing::in_operation;
use odb_ops::{Context, Ran, run};
use odb_schema::Schema;
use odb_tables::Draft;
use serde_json::Value;
use std::alloc::{AllocError, Global};

/// Returns why a transaction fails on the database of a draft in which nothing is changed yet, with at most so many rows; and
/// nothing where it goes through or waits (RFC 7047, section 4.1.3). The database stays as it is, and has to be sound, as
/// for `odb_commit::transact`.
///
/// The operation is the one whose result is the error that the transaction is answered; the error is that of its settlement
/// where all operations go through. The table of an operation is the one that it names. Its column is the first that can't be
/// read or written in its `where`, `mutations`, `row` or `rows`, else the one that all of its mutations change. The table, the column and
/// the index of a commit are the first that are found to have a strong reference to no row, too few elements, too many rows,
/// or the same values twice.
///
/// It costs what the transaction does, O(tables), and for its settlement O(the rows touched, and their columns) and what
/// `Draft::referrers` and `Draft::has_new_twins` cost.
pub fn explain(
    alloc: Global,
    mut draft: Draft,
    schema: &Schema,
    operations: &[Value],
    max_rows: usize,
    context: &Context,
) -> Result<Option<Cause>, AllocError>
    requires fresh { draft ≡ draft_of draft.old }
    requires sound { IsSound schema.now draft.old }
    ensures { IfOk result (λ cause. IfSome cause (IsCauseOf schema.now max_rows (context_of context.entry.now) draft.entry.old (map view operations.now))) }
{
    match run(alloc, &mut draft, schema, operations, context)? {
        Ran::Finished(_) => in_commit(alloc, draft, schema, max_rows),
        Ran::Failed(results) => in_operation(alloc, schema, operations, results.as_slice()),
        Ran::Waiting(_) => Ok(None),
    }
}
