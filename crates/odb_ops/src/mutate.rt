//! `mutate` (RFC 7047, section 5.2.4). [P 4.2]
ghost use Rattle.std.specs.Prelude.{◌≡◌, ◌<◌, ◌++◌, ◌∷◌, [], IfErr, IfOk, Ok, OnOk, false, length, map, option_map, option_to_list, true};
ghost use Rattle.std.specs.Result.{result_ok};
ghost use Rattle.odb_atoms.specs.ColType.{has_kind, scalar};
ghost use Rattle.odb_atoms.specs.Atom.{uuids};
ghost use Rattle.odb_atoms.specs.FinMap as finite;
ghost use Rattle.odb_atoms.specs.FinSet as set;
ghost use Rattle.odb_atoms.specs.Represented.Atom.{uuid_of};
ghost use Rattle.odb_atoms.specs.Represented.ColType.{type_of};
ghost use Rattle.odb_atoms.specs.Represented.Error as error;
ghost use Rattle.odb_atoms.specs.Row.{cell, declared};
ghost use Rattle.odb_atoms.specs.Uuid.{zero_uuid};
ghost use Rattle.odb_atoms.specs.Value.{set_of};
ghost use Rattle.odb_json.specs.Represented.Fault.{Reads};
ghost use Rattle.odb_json.specs.Suited.{are_taken};
ghost use Rattle.odb_mutate.specs.Mutation as model;
ghost use Rattle.odb_mutate.specs.Represented.Mutation.{answered, error_of};
ghost use Rattle.odb_mutate.specs.MutationTyping.{takes};
ghost use Rattle.odb_ops.specs.Execution.{first_fault, mutated};
ghost use Rattle.odb_ops.specs.Represented.Merged.{all_of};
ghost use Rattle.odb_ops.specs.Represented.Parts.{AllFit, all_faults, all_rewritten, mutate_rows, rewritten, row_fault, with_value};
ghost use Rattle.odb_schema.specs.Schema.{column_type};
ghost use Rattle.odb_tables.specs.Database.{table_at};
ghost use Rattle.odb_tables.specs.Typed.{fits};

use crate::context::Target;
use crate::insert::set;
use crate::merging::{Run, halves, one_run, runs_of, type_at};
use crate::results::{self, OperationResult};
use odb_atoms::{ColType, Error, Kind, Row, Value};
use odb_json::{Mutate, OpFault};
use odb_mutate::{Mutation, MutationFault};
use odb_schema::{Column, ColumnId};
use odb_tables::Draft;
use std::alloc::{AllocError, Global};
use uuid::Uuid;

/// Returns the value of a column, and nothing where the column is past the row's.
fn value_at<'a>(row: &'a Row, place: usize, nothing: &'a Value) -> &'a Value
    requires { nothing.now ≡ set_of set.empty }
    ensures { result.now ≡ cell zero_uuid row.now (declared place) }
{
    match row.get(place) {
        Some(value) => value,
        None => nothing,
    }
}

/// Returns what the mutation makes of its column of the row.
fn new_value(
    alloc: Global,
    row: &Row,
    columns: &[Column],
    mutation: &Mutation,
) -> Result<Result<Value, MutationFault>, AllocError>
    requires fits { fits columns.now row.now ≡ true }
    requires suits { takes (column_type columns.now mutation.now.column) mutation.now.mutator
        mutation.now.value ≡ true }
    ensures { IfOk result (λ v. answered (λ v. v) v
        ≡ model.mutate mutation.now.mutator mutation.now.value
        (column_type columns.now mutation.now.column)
        (cell zero_uuid row.now (declared mutation.now.column))) }
{
    let nothing = Value::empty_set(alloc);
    let uuid = ColType::scalar(Kind::Uuid);
    let value = value_at(row, mutation.column(), &nothing);
    let column_type = type_at(columns, mutation.column(), &uuid);
    let made = mutation.on(alloc, value, column_type);
    drop(uuid);
    made
}

/// Makes the mutation of its column of the row; a row that has a fault stays as it is.
fn mutate_column(
    alloc: Global,
    row: &mut Row,
    columns: &[Column],
    mutation: &Mutation,
) -> Result<Result<(), MutationFault>, AllocError>
    requires fits { fits columns.now row.old ≡ true }
    requires suits { takes (column_type columns.now mutation.now.column) mutation.now.mutator
        mutation.now.value ≡ true }
    ensures done { IfOk result (λ done. answered (λ _. row.new) done
        ≡ mutated columns.now (mutation.now ∷ []) row.old) }
    ensures kept { IfOk result (λ done. IfErr done (λ _. row.new ≡ row.old)) }
{
    match new_value(alloc, row, columns, mutation)? {
        Ok(value) => {
            set(row, ColumnId::at(mutation.column()), value);
            Ok(Ok(()))
        }
        Err(fault) => Ok(Err(fault)),
    }
}

/// Makes the mutations of the row in their order, up to the first that has a fault.
fn mutate_each(
    alloc: Global,
    row: &mut Row,
    columns: &[Column],
    mutations: &[Mutation],
) -> Result<Result<(), MutationFault>, AllocError>
    requires fits { fits columns.now row.old ≡ true }
    requires suit { are_taken columns.now mutations.now ≡ true }
    ensures { IfOk result (λ done. answered (λ _. row.new) done ≡ mutated columns.now mutations.now row.old) }
{
    for mutation in mutations {
        if let Err(fault) = mutate_column(alloc, row, columns, mutation)? {
            return Ok(Err(fault));
        }
    }
    Ok(Ok(()))
}

/// Makes the one mutation that stands for all of the run, and returns whether there is one and it has no
/// fault. If not, the row stays as it is.
fn mutate_at_once(
    alloc: Global,
    row: &mut Row,
    columns: &[Column],
    run: &Run<'_>,
) -> Result<bool, AllocError>
    requires fits { fits columns.now row.old ≡ true }
    requires suit { are_taken columns.now run.now ≡ true }
    ensures done { IfOk result (λ done. done ≡ true → mutated columns.now run.entry.now row.old ≡ Ok row.new) }
    ensures kept { IfOk result (λ done. done ≡ false → row.new ≡ row.old) }
{
    let Some(merged) = run.merged(columns) else {
        return Ok(false);
    };
    match mutate_column(alloc, row, columns, merged)? {
        Ok(()) => Ok(true),
        Err(_) => Ok(false),
    }
}

/// Makes the mutations at once, where one can be made of them that has no fault. If not, it returns `false`,
/// and the row stays as it is.
fn merge_and_mutate(
    alloc: Global,
    row: &mut Row,
    columns: &[Column],
    mutations: &[Mutation],
) -> Result<bool, AllocError>
    requires fits { fits columns.now row.old ≡ true }
    requires suit { are_taken columns.now mutations.now ≡ true }
    ensures done { IfOk result (λ done. done ≡ true → mutated columns.now mutations.now row.old ≡ Ok row.new) }
    ensures kept { IfOk result (λ done. done ≡ false → row.new ≡ row.old) }
{
    match one_run(alloc, columns, mutations)? {
        Some(run) => mutate_at_once(alloc, row, columns, &run),
        None => Ok(false),
    }
}

/// Makes the mutations in their order, up to the first that has a fault: at once, or else the first half
/// and then the last. So the fault is found in O(log m) times the cost of making the m mutations at once.
fn mutate_by_halves(
    alloc: Global,
    row: &mut Row,
    columns: &[Column],
    mutations: &[Mutation],
) -> Result<Result<(), MutationFault>, AllocError>
    requires fits { fits columns.now row.old ≡ true }
    requires suit { are_taken columns.now mutations.now ≡ true }
    ensures { IfOk result (λ done. answered (λ _. row.new) done ≡ mutated columns.now mutations.now row.old) }
{
    if mutations.len() < 2 {
        return mutate_each(alloc, row, columns, mutations);
    }
    if merge_and_mutate(alloc, row, columns, mutations)? {
        return Ok(Ok(()));
    }
    let (front, back) = halves(mutations);
    match mutate_by_halves(alloc, row, columns, front)? {
        Ok(()) => mutate_by_halves(alloc, row, columns, back),
        Err(fault) => Ok(Err(fault)),
    }
}

/// Makes the mutations of a run in their order, up to the first that has a fault.
fn mutate_run(
    alloc: Global,
    row: &mut Row,
    columns: &[Column],
    run: &Run<'_>,
) -> Result<Result<(), MutationFault>, AllocError>
    requires fits { fits columns.now row.old ≡ true }
    requires suit { are_taken columns.now run.now ≡ true }
    ensures { IfOk result (λ done. answered (λ _. row.new) done ≡ mutated columns.now run.entry.now row.old) }
{
    if mutate_at_once(alloc, row, columns, run)? {
        return Ok(Ok(()));
    }
    mutate_by_halves(alloc, row, columns, run.mutations())
}

/// Returns the row with the mutations made in their order, or the fault of the first that has one.
fn mutated_row(
    alloc: Global,
    row: &Row,
    columns: &[Column],
    runs: &[Run<'_>],
) -> Result<Result<Row, MutationFault>, AllocError>
    requires fits { fits columns.now row.now ≡ true }
    requires suit { are_taken columns.now (all_of runs.now) ≡ true }
    ensures { IfOk result (λ new. answered (λ r. r) new ≡ mutated columns.now (all_of runs.entry.now) row.now) }
{
    let mut row = row.try_copy(alloc)?;
    for run in runs {
        if let Err(fault) = mutate_run(alloc, &mut row, columns, run)? {
            return Ok(Err(fault));
        }
    }
    Ok(Ok(row))
}

/// Returns of two faults the one that the operation has before the other.
fn earlier(fault: Option<MutationFault>, other: Option<MutationFault>) -> Option<MutationFault>
    ensures { option_map error_of result
        ≡ first_fault (option_to_list (option_map error_of fault)
        ++ option_to_list (option_map error_of other)) }
{
    match (fault, other) {
        (None, other) => other,
        (fault, None) => fault,
        (Some(fault), Some(other)) => Some(fault.min(other)),
    }
}

/// Returns the places of the columns that the mutations are of.
fn places_of(alloc: Global, mutations: &[Mutation]) -> Result<Vec<usize>, AllocError>
    ensures { IfOk result (λ places. places.items ≡ map (λ m. m.column) mutations.now) }
{
    let mut places = Vec::with_capacity(alloc, mutations.len())?;
    for mutation in mutations {
        places.push(mutation.column())?;
    }
    Ok(places)
}

/// Mutates the row of an identifier, if the table has it. A row that has a fault stays as it is. The places are those of the
/// columns that the runs are of.
fn mutate_one(
    target: &Target<'_>,
    draft: &mut Draft,
    uuid: Uuid,
    runs: &[Run<'_>],
    places: &[usize],
) -> Result<Option<MutationFault>, AllocError>
    requires inside { target.now.table < length draft.old.old }
    requires fit { AllFit target.now.columns.now (table_at draft.old.now target.now.table) }
    requires suit { are_taken target.now.columns.now (all_of runs.now) ≡ true }
    requires places { places.now ≡ map (λ m. m.column) (all_of runs.now) }
    ensures row { OnOk result (draft.new
        ≡ rewritten (λ r. result_ok (mutated target.entry.now.columns.now (all_of runs.entry.now) r)) target.entry.now.table (uuid_of uuid)
        draft.old) }
    ensures fault { IfOk result (λ fault. option_map error_of fault
        ≡ row_fault (mutated target.entry.now.columns.now (all_of runs.entry.now))
        (finite.get (table_at draft.old.now target.entry.now.table) (uuid_of uuid))) }
    ensures base { draft.new.old ≡ draft.old.old }
{
    let Some(row) = draft.get(target.table, uuid) else {
        return Ok(None);
    };
    match mutated_row(target.alloc, row, target.columns, runs)? {
        Ok(row) => {
            draft.put_over(target.table, uuid, row, places)?;
            Ok(None)
        }
        Err(fault) => Ok(Some(fault)),
    }
}

/// Does the same for each of these rows, and returns the fault that the operation has, if some row has one.
fn mutate_all(
    target: &Target<'_>,
    draft: &mut Draft,
    uuids: &[Uuid],
    runs: &[Run<'_>],
    places: &[usize],
) -> Result<Option<MutationFault>, AllocError>
    requires inside { target.now.table < length draft.old.old }
    requires fit { AllFit target.now.columns.now (table_at draft.old.now target.now.table) }
    requires suit { are_taken target.now.columns.now (all_of runs.now) ≡ true }
    requires places { places.now ≡ map (λ m. m.column) (all_of runs.now) }
    ensures rows { OnOk result (draft.new
        ≡ all_rewritten (λ r. result_ok (mutated target.entry.now.columns.now (all_of runs.entry.now) r)) target.entry.now.table
        (map uuid_of uuids.now) draft.old) }
    ensures fault { IfOk result (λ fault. option_map error_of fault
        ≡ first_fault
        (all_faults (mutated target.entry.now.columns.now (all_of runs.entry.now)) target.entry.now.table (map uuid_of uuids.now) draft.old)) }
    ensures base { draft.new.old ≡ draft.old.old }
{
    let mut first = None;
    for uuid in uuids {
        let fault = mutate_one(target, draft, *uuid, runs, places)?;
        first = earlier(first, fault);
    }
    Ok(first)
}

/// Returns the error that a fault of a mutation is to its operation.
fn error_in(fault: MutationFault) -> Error
    ensures { error.error_of result ≡ error_of fault }
{
    match fault {
        MutationFault::DomainError => Error::DomainError,
        MutationFault::RangeError => Error::RangeError,
        MutationFault::ResourcesExhausted => Error::ResourcesExhausted,
        MutationFault::ConstraintViolation => Error::ConstraintViolation,
    }
}

/// Makes the mutations of each row that matches; the result is how many they are.
///
/// Where rows have faults, the first of them in this order is returned: `domain error`, `range
/// error`, `resources exhausted`, `constraint violation`. The draft isn't of use then.
///
/// What `Draft::matching` costs, and O(m log m) for m mutations. For each row that matches a copy of the
/// row, and of each mutation a new value of its column; but insertions of sets into one column that stand
/// next to each other make one value, in O(n log n) comparisons of atoms for n elements there are then.
/// Their elements are put together once for all rows, in O(n log^2 n) comparisons for n elements, and
/// O(log m) times more for each row in which one of them has a fault.
pub fn mutate(
    target: &Target<'_>,
    draft: &mut Draft,
    asked: &Mutate,
) -> Result<OperationResult, OpFault>
    requires inside { target.now.table < length draft.old.old }
    requires fit { AllFit target.now.columns.now (table_at draft.old.now target.now.table) }
    requires suit { are_taken target.now.columns.now asked.now.mutations.items ≡ true }
    ensures rows { Reads (λ v. (draft.new, v)) result
        (mutate_rows target.entry.now.columns.now target.entry.now.table asked.now.conditions asked.now.mutations.items draft.old) }
    ensures base { draft.new.old ≡ draft.old.old }
{
    let found = draft.matching(target.table, &asked.conditions)?;
    let uuids = found.as_slice();
    let runs = runs_of(target.alloc, target.columns, asked.mutations.as_slice())?;
    let places = places_of(target.alloc, asked.mutations.as_slice())?;
    match mutate_all(target, draft, uuids, runs.as_slice(), places.as_slice())? {
        None => Ok(results::count(target.alloc, uuids)?),
        Some(fault) => Err(OpFault::Failed(error_in(fault))),
    }
}
