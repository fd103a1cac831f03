//! The operation that failed (RFC 7047, section 4.1.3), by the results. [P 6.1, 15.2]
ghost use Rattle.std.specs.Prelude.{◌≡◌, true, IfOk, IfSome, map, option_and_then, slice_get};
ghost use Rattle.serde_json.specs.View.{view};
ghost use Rattle.serde_json.specs.Written.{compact_text};
ghost use Rattle.odb_atoms.specs.Represented.Error.{error_of};
ghost use Rattle.odb_cause.specs.Cause.{FailedAt, IsErrorAt, table_named_by};
ghost use Rattle.odb_ops.specs.Execution.{error_result};

use crate::cause::{Cause, Detail, Stage};
use crate::columns::{column_of, names_in};
use odb_atoms::Error;
use odb_ops::{OperationResult, failure};
use odb_schema::{Schema, member};
use serde_json::Value;
use std::alloc::{AllocError, Global};

/// Returns the cause that the results tell, if one of them is an error. O(results), and O(members of the operation).
pub(crate) fn in_operation(
    alloc: Global,
    schema: &Schema,
    operations: &[Value],
    results: &[OperationResult],
) -> Result<Option<Cause>, AllocError>
    ensures { IfOk result (λ cause. IfSome cause (FailedAt schema.now (map view operations.now) results.now)) }
{
    for place in 0..results.len() {
        if let Some(error) = error_at(alloc, results, place)? {
            let table = table_of(schema, operations, place);
            let detail = detail_of(alloc, schema, operations, place, table)?;
            return Ok(Some(Cause {
                stage: Stage::Operation(place),
                table,
                detail,
                error,
            }));
        }
    }
    Ok(None)
}

/// Returns the error that the result at this place is, if it is one.
fn error_at(
    alloc: Global,
    results: &[OperationResult],
    place: usize,
) -> Result<Option<Error>, AllocError>
    ensures { IfOk result (λ error. IfSome error (λ e. IsErrorAt results.now place (error_of e))) }
{
    match results.get(place) {
        Some(result) => error_said(alloc, result.text()),
        None => Ok(None),
    }
}

/// Returns the error whose result this text is, if it is one's.
fn error_said(alloc: Global, text: &[u8]) -> Result<Option<Error>, AllocError>
    ensures { IfOk result (λ error. IfSome error (λ e. text.now ≡ compact_text (error_result (error_of e)))) }
{
    let errors = [
        Error::SyntaxError,
        Error::UnknownOperation,
        Error::UnknownTable,
        Error::UnknownColumn,
        Error::UnknownUuidName,
        Error::DuplicateUuidName,
        Error::DuplicateUuid,
        Error::ConstraintViolation,
        Error::DomainError,
        Error::RangeError,
        Error::ResourcesExhausted,
        Error::TimedOut,
        Error::NotSupported,
        Error::Aborted,
        Error::NotOwner,
    ];
    for error in &errors {
        if says(alloc, text, *error)? {
            return Ok(Some(*error));
        }
    }
    Ok(None)
}

/// Returns whether the text is the result of an operation that fails with this error.
fn says(alloc: Global, text: &[u8], error: Error) -> Result<bool, AllocError>
    ensures { IfOk result (λ says. says ≡ true → text.now ≡ compact_text (error_result (error_of error))) }
{
    let said = failure(alloc, error)?;
    Ok(said.text() == text)
}

/// Returns the place of the table that the operation at this place names, if the schema has it.
fn table_of(schema: &Schema, operations: &[Value], place: usize) -> Option<usize>
    ensures { result ≡ option_and_then (table_named_by schema.now) (slice_get (map view operations.now) place) }
{
    match operations.get(place) {
        Some(operation) => table_named_by(schema, operation),
        None => None,
    }
}

/// Returns the place of the table that the operation names, if the schema has it.
fn table_named_by(schema: &Schema, operation: &Value) -> Option<usize>
    ensures { result ≡ table_named_by schema.now (view operation.now) }
{
    let name = member("table", operation.as_object()?)?.as_str()?;
    match schema.table(name) {
        Some(table) => Some(table.place()),
        None => None,
    }
}

/// Returns what of the table the operation at this place failed for.
fn detail_of(
    alloc: Global,
    schema: &Schema,
    operations: &[Value],
    place: usize,
    table: Option<usize>,
) -> Result<Detail, AllocError> {
    let (Some(operation), Some(table)) = (operations.get(place), table) else {
        return Ok(Detail::Whole);
    };
    let Some(table) = schema.tables().get(table) else {
        return Ok(Detail::Whole);
    };
    let names = names_in(alloc, operations)?;
    match column_of(alloc, table, &names, operation)? {
        Some(column) => Ok(Detail::Column(column.place())),
        None => Ok(Detail::Whole),
    }
}
