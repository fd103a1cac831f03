//! Transactions: their operations, one after another, on a draft (RFC 7047, sections 4.1.3 and
//! 5.2). [P 6.1]
ghost use Rattle.std.specs.Prelude.{◌≡◌, ◌<◌, ◌+◌, ◌++◌, ◌∷◌, [], IfOk, List, length, map, replicate, ℕ};
ghost use Rattle.serde_json.specs.View.{view};
ghost use Rattle.odb_atoms.specs.Represented.Atom.{uuid_of};
ghost use Rattle.odb_atoms.specs.Represented.Error.{error_of};
ghost use Rattle.odb_ops.specs.Execution as model;
ghost use Rattle.odb_ops.specs.Represented.Context.{context_of};
ghost use Rattle.odb_ops.specs.Represented.Draft.{begun, naming};
ghost use Rattle.odb_ops.specs.Represented.Parts.{AreTaken};
ghost use Rattle.odb_ops.specs.Represented.Ran.{Answers, Ends};
ghost use Rattle.odb_ops.specs.Represented.Stop.{Carried, stop_of};
ghost use Rattle.odb_schema.specs.Json.{null};
ghost use Rattle.odb_tables.specs.Typed.{IsTyped};

use crate::context::{Context, Setting};
use crate::fresh::{next_uuid, remaining_uuids};
use crate::names::names_of;
use crate::operation::perform;
use crate::results::{self, OperationResult};
use crate::stop::Stop;
use odb_atoms::Error;
use odb_json::{Names, read_op};
use odb_schema::Schema;
use odb_tables::Draft;
use serde_json::Value;
use std::alloc::{AllocError, Global};
use uuid::Uuid;

/// What became of a transaction's operations, with their results.
#[derive(Drop)]
pub enum Ran {
    /// All went through.
    Finished(Vec<OperationResult>),
    /// One failed: its result names the error, and those of the later ones are null.
    Failed(Vec<OperationResult>),
    /// A `wait` isn't met, and has time until this moment, in milliseconds, or for ever.
    Waiting(Option<u64>),
}

/// Reads an operation, whole, and carries it out.
fn read_and_perform(
    setting: &Setting<'_>,
    draft: &mut Draft,
    taken: &mut Names,
    uuid: Uuid,
    operation: &Value,
) -> Result<OperationResult, Stop>
    requires tables { length draft.old.old ≡ length setting.now.schema.now.tables }
    requires typed { IsTyped setting.now.schema.now draft.old.now }
    ensures ran { (named : List (List ℕ)) → AreTaken taken.old named
        → Carried setting.entry.now.schema.now result taken.new draft.new
        (model.read_and_perform setting.entry.now.schema.now (context_of setting.entry.now.context.now)
        setting.entry.now.names.now (uuid_of uuid)
        (naming named draft.old) (view operation.now)) }
    ensures base { draft.new.old ≡ draft.old.old }
{
    let op = read_op(setting.alloc, operation, setting.schema, setting.names)?;
    perform(setting, draft, taken, uuid, op)
}

/// Returns the results, and a `null` for each of the later operations.
fn with_nulls(
    alloc: Global,
    mut results: Vec<OperationResult>,
    nulls: usize,
) -> Result<Vec<OperationResult>, AllocError>
    ensures { IfOk result (λ v. v.items ≡ results.items ++ replicate nulls null) }
{
    for _ in 0..nulls {
        results.push(results::not_reached(alloc)?)?;
    }
    Ok(results)
}

/// Returns the results with the error of the operation that failed, and null for each later one.
fn with_failure(
    alloc: Global,
    mut results: Vec<OperationResult>,
    error: Error,
    later: usize,
) -> Result<Vec<OperationResult>, AllocError>
    ensures { IfOk result (λ v. v.items
        ≡ results.items ++ (model.error_result (error_of error) ∷ replicate later null)) }
{
    results.push(results::failure(alloc, error)?)?;
    with_nulls(alloc, results, later)
}

/// Returns how a transaction ends when an operation fails or must wait, with `later` operations after it.
fn stopped(
    alloc: Global,
    results: Vec<OperationResult>,
    stop: Stop,
    later: usize,
) -> Result<Ran, AllocError>
    ensures { IfOk result (λ ran. Ends ran results.items (stop_of stop) later) }
{
    match stop {
        Stop::Memory => Err(AllocError),
        Stop::Fails(error) => Ok(Ran::Failed(with_failure(alloc, results, error, later)?)),
        Stop::MustWait(moment) => Ok(Ran::Waiting(moment)),
    }
}

/// Carries the operations out, where the names stand for these identifiers.
fn run_all(
    setting: &Setting<'_>,
    draft: &mut Draft,
    operations: &[Value],
) -> Result<Ran, AllocError>
    requires tables { length draft.old.old ≡ length setting.now.schema.now.tables }
    requires typed { IsTyped setting.now.schema.now draft.old.now }
    ensures ran { IfOk result (λ ran. Answers ran draft.new.now
        (model.run_from setting.entry.now.schema.now (context_of setting.entry.now.context.now) setting.entry.now.names.now
        (map uuid_of setting.entry.now.context.now.fresh.now) (begun draft.old) (map view operations.now))) }
    ensures base { draft.new.old ≡ draft.old.old }
{
    let alloc = setting.alloc;
    let mut taken = Names::new(alloc);
    let mut left = setting.context.fresh;
    let mut results = Vec::with_capacity(alloc, operations.len())?;
    for (place, operation) in operations.iter().enumerate() {
        let uuid = next_uuid(left);
        left = remaining_uuids(operation, left);
        match read_and_perform(setting, draft, &mut taken, uuid, operation) {
            Ok(result) => results.push(result)?,
            Err(stop) => return stopped(alloc, results, stop, operations.len() - 1 - place),
        }
    }
    Ok(Ran::Finished(results))
}

/// Carries the operations out on the draft, one after another (RFC 7047, section 5.2).
#[tactic(auto, unfolding(crate::specs::Execution::run))]
pub fn run(
    alloc: Global,
    draft: &mut Draft,
    schema: &Schema,
    operations: &[Value],
    context: &Context,
) -> Result<Ran, AllocError>
    requires typed { IsTyped schema.now draft.old.now }
    ensures ran { IfOk result (λ ran. Answers ran draft.new.now
        (model.run schema.now (context_of context.entry.now) (begun draft.old)
        (map view operations.now))) }
    ensures base { draft.new.old ≡ draft.old.old }
{
    let names = names_of(alloc, operations, context.fresh)?;
    // It has as many tables as its database had, which is what each operation rests on.
    let _tables = draft.len();
    let setting = Setting {
        alloc,
        schema,
        context,
        names: &names,
    };
    run_all(&setting, draft, operations)
}
