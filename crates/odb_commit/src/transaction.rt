//! Transactions: operations, settlement, and the change that is left (RFC 7047, section 4.1.3). [P 6.1]
ghost use Rattle.std.specs.Prelude.{◌≡◌, ◌++◌, ◌∷◌, [], IfOk, map};
ghost use Rattle.serde_json.specs.View.{view};
ghost use Rattle.odb_atoms.specs.Represented.Atom.{uuid_of};
ghost use Rattle.odb_atoms.specs.Uuid.{uuid_from};
ghost use Rattle.odb_commit.specs.Represented.Outcome.{Answers};
ghost use Rattle.odb_commit.specs.Sound.{IsSound};
ghost use Rattle.odb_commit.specs.Transaction as model;
ghost use Rattle.odb_integrity.specs.Settlement.{settle};
ghost use Rattle.odb_ops.specs.Represented.Context.{context_of};
ghost use Rattle.odb_ops.specs.Represented.Ran.{results_of};
ghost use Rattle.odb_tables.specs.Draft.{draft_of};
ghost use Rattle.odb_tables.specs.Typed.{IsTyped};

use odb_integrity::settle;
use odb_ops::{Context, OperationResult, Ran, failure, run};
use odb_schema::Schema;
use odb_tables::{ChangeSet, Draft};
use serde_json::Value;
use std::alloc::{AllocError, Global};
use uuid::Uuid;

/// What became of a transaction.
#[derive(Drop)]
pub enum Outcome {
    /// It went through: its results, and what it changes, which may be nothing.
    Done {
        results: Vec<OperationResult>,
        change: ChangeSet,
    },
    /// An operation failed, or its settlement: nothing is changed.
    Failed {
        results: Vec<OperationResult>,
    },
    /// A `wait` isn't met, and has time until this moment, in milliseconds, or for ever; nothing is
    /// changed.
    Waiting {
        deadline: Option<u64>,
    },
}

/// Carries a transaction out on the database of a draft in which nothing is changed yet, as the commit of this number
/// (RFC 7047, section 4.1.3).
///
/// The operations run one after another; then the database is settled, with at most so many rows. Each row
/// that is new or has another value in a column has the number as its `_version`. The database stays as it
/// is: what is left is the change, which `Db::install` makes. The database has to be sound, as empty tables
/// are; with the change it is sound again.
///
/// What the operations and the settlement cost, and O(rows touched).
pub fn transact(
    alloc: Global,
    mut draft: Draft,
    schema: &Schema,
    operations: &[Value],
    number: u64,
    max_rows: usize,
    context: &Context,
) -> Result<Outcome, AllocError>
    requires fresh { draft ≡ draft_of draft.old }
    requires sound { IsSound schema.now draft.old }
    ensures outcome { IfOk result (λ outcome. Answers schema.now draft.entry.old outcome
        (model.transact schema.now max_rows number (context_of context.entry.now) draft.entry.old (map view operations.now))) }
{
    match run(alloc, &mut draft, schema, operations, context)? {
        Ran::Finished(results) => finish(alloc, draft, schema, results, number, max_rows),
        Ran::Failed(results) => Ok(Outcome::Failed { results }),
        Ran::Waiting(deadline) => Ok(Outcome::Waiting { deadline }),
    }
}

/// Settles what the operations left.
fn finish(
    alloc: Global,
    mut draft: Draft,
    schema: &Schema,
    results: Vec<OperationResult>,
    number: u64,
    max_rows: usize,
) -> Result<Outcome, AllocError>
    requires old { IsSound schema.now draft.old }
    requires now { IsTyped schema.now draft.now }
    ensures { IfOk result (λ outcome. Answers schema.now draft.entry.old outcome
        (model.settled number draft.entry.old (results_of results) (settle schema.now max_rows draft.entry.now))) }
{
    match settle(alloc, &mut draft, schema, max_rows)? {
        Ok(()) => Ok(Outcome::Done {
            results,
            change: draft.commit(version(number))?,
        }),
        Err(error) => Ok(Outcome::Failed {
            results: with(results, failure(alloc, error)?)?,
        }),
    }
}

/// Returns the results with one more.
fn with(
    mut results: Vec<OperationResult>,
    last: OperationResult,
) -> Result<Vec<OperationResult>, AllocError>
    ensures { IfOk result (λ all. results_of all ≡ results_of results ++ (last ∷ [])) }
{
    results.push(last)?;
    Ok(results)
}

/// Returns the `_version` of the rows that the commit of this number changes.
fn version(number: u64) -> Uuid
    ensures { uuid_of result ≡ uuid_from number }
{
    Uuid::from_u128(u128::from(number))
}
