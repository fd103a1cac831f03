//! Settlement at the end of a transaction (RFC 7047, section 3.2, and 4.1.3, "commit"). [P 5]
ghost use Rattle.std.specs.Prelude.{◌≡◌, length, true, IfOk, Ok};
ghost use Rattle.odb_integrity.specs.Represented.{answer_of};
ghost use Rattle.odb_integrity.specs.Settled.{IsSettled};
ghost use Rattle.odb_integrity.specs.Settlement as model;
ghost use Rattle.odb_tables.specs.Typed.{IsTyped};

use crate::constraints::{exceeds_limit, has_too_few, has_too_many};
use crate::dangling::has_dangling;
use crate::gained::append_all;
use crate::garbage::collect_garbage;
use crate::indexes::has_duplicates;
use crate::pruning::prune;
use crate::referrers::mentioning_missing;
use crate::rows::touched_rows;
use odb_atoms::Error;
use odb_schema::Schema;
use odb_tables::Draft;
use std::alloc::{AllocError, Global};

/// Settles what a transaction left in the draft, as its commit does (RFC 7047, section 3.2; and
/// ovsdb-server(7)), or returns the first fault, in this order:
///
/// 1. Rows of tables that aren't root go out, unless another row that stays has a strong reference to
///    them. Rows that refer to each other strongly keep each other, and none keeps itself.
/// 2. `ReferentialIntegrityViolation`, where a strong reference leads to no row.
/// 3. Weak references to rows that aren't there are taken out; of a map the whole pair.
/// 4. `ConstraintViolation`, where a column then has fewer elements than its `min`, a table more rows
///    than its `maxRows`, or two rows of a table the same values in all columns of an index.
/// 5. `ResourcesExhausted`, where there are more than `max_rows` rows in all.
///
/// A fault leaves the draft somewhere on this way: it is to be dropped then. Rows that don't change aren't
/// put. The draft's rows have to be of the schema, and the database that it began with settled.
///
/// It costs what the transaction touched: O(rows touched, and their columns), O(tables) and O(columns of the schema).
/// For each column of a touched row that may refer to rows, its values before and now are compared, but where the draft keeps
/// the column in all rows of the table (`Draft::keeps`); where they differ it costs O(n) for the n atoms in them, and O(log n) for each that one of the two has alone. These n are gone over
/// once, but twice in a column of maps, and in one that pairs weak references with strong ones once more. All that a
/// new row names is looked up. Beyond that settlement looks at these rows, and at no others:
///
/// - for each index, the touched rows of its table, and of the others those that may have the same values in its
///   columns as one that is new or has another value there, at what `Draft::has_new_twins` costs;
/// - where a touched row isn't there any more, the rows that still refer to it, with all their atoms, as
///   `Draft::referrers` lists them for each column that refers to its table;
/// - of tables that aren't root, the new rows, and those to which a touched row lost a strong reference,
///   but for rows to which a touched row gained one; and the rows to which rows that go out
///   referred. For each the rows that refer to it are listed in the same way, and gone over until one is
///   found that keeps it;
/// - all rows in place of these, where the schema has tables that aren't root, and a column pairs weak
///   references with strong ones.
///
/// An error of the outer result says that memory was refused.
#[tactic(auto, unfolding(crate::specs::Settlement::settle))]
pub fn settle(
    alloc: Global,
    draft: &mut Draft,
    schema: &Schema,
    max_rows: usize,
) -> Result<Result<(), Error>, AllocError>
    requires typed { IsTyped schema.now draft.old.now }
    requires base { IsSettled schema.now draft.old.old }
    ensures settled { IfOk result (λ settled.
        answer_of settled draft.new.now ≡ model.settle schema.now max_rows draft.old.now) }
    ensures base { draft.new.old ≡ draft.old.old }
{
    let mut suspects = collect_garbage(alloc, draft, schema)?;
    let touched = touched_rows(alloc, draft)?;
    let mentioning = mentioning_missing(alloc, draft, schema, &touched)?;
    append_all(&mentioning, &mut suspects)?;
    if has_dangling(alloc, draft, schema, &suspects)? {
        return Ok(Err(Error::ReferentialIntegrityViolation));
    }
    prune(alloc, draft, schema, &touched, &mentioning)?;
    constrained(alloc, draft, schema, max_rows)
}

/// Returns the first constraint that the draft breaks, if it breaks one.
fn constrained(
    alloc: Global,
    draft: &Draft,
    schema: &Schema,
    max_rows: usize,
) -> Result<Result<(), Error>, AllocError>
    requires length { length draft.now.now ≡ length schema.now.tables }
    requires base { IsSettled schema.now draft.now.old }
    ensures { IfOk result (λ tested.
        answer_of tested draft.now.now ≡ model.constrained schema.now max_rows draft.now.now) }
{
    let touched = touched_rows(alloc, draft)?;
    if has_too_few(draft, schema, &touched) {
        return Ok(Err(Error::ConstraintViolation));
    }
    if has_too_many(draft, schema) {
        return Ok(Err(Error::ConstraintViolation));
    }
    if has_duplicates(alloc, draft, schema)? {
        return Ok(Err(Error::ConstraintViolation));
    }
    if exceeds_limit(draft, max_rows) {
        return Ok(Err(Error::ResourcesExhausted));
    }
    Ok(Ok(()))
}
