//! The results of operations (RFC 7047, section 5.2), as the text that is sent.
ghost use Rattle.std.specs.Prelude.{◌≡◌, ◌∷◌, [], IfOk, codes, false, map, pos};
ghost use Rattle.serde_json.specs.View.{view};
ghost use Rattle.serde_json.specs.Written.{compact_text, has_float};
ghost use Rattle.odb_atoms.specs.FinMap as finite;
ghost use Rattle.odb_atoms.specs.Represented.Atom.{uuid_of};
ghost use Rattle.odb_atoms.specs.Represented.Error.{error_of};
ghost use Rattle.odb_ops.specs.Execution as model;
ghost use Rattle.odb_ops.specs.Execution.{empty_result, error_result};
ghost use Rattle.odb_ops.specs.Represented.Results.{rows_of};
ghost use Rattle.odb_tables.specs.Database.{Table};
ghost use Rattle.odb_schema.specs.Json.{null, object_of, of_integer};
ghost use Rattle.odb_schema.specs.Notation as notation;

use crate::meaning::{Meaning, SelectedRows};
use odb_atoms::Error;
use odb_schema::write_uuid;
use serde_json::{Map, Value, json};
use std::alloc::{AllocError, Global};
use std::marker::Model;
use uuid::Uuid;

/// The result of an operation: a member of the reply's `result` (RFC 7047, section 4.1.3), as compact text.
///
/// Contracts see the data that the text is of.
#[derive(Drop)]
pub struct OperationResult {
    text: Vec<u8>,
    meaning: Meaning,
}

impl Model for OperationResult {
    ghost use Rattle.std.specs.Prelude.{◌≡◌};
    ghost use Rattle.serde_json.specs.Data.{Data};
    ghost use Rattle.serde_json.specs.Written.{compact_text};
    ghost use Rattle.odb_schema.specs.JsonCode.{data_code};

    ghost Value = { Data };

    ghost coded = { data_code };

    ghost view = { λ r. r.meaning.said };

    ghost invariant = { λ r. r.text.items ≡ compact_text r.meaning.said };
}

impl OperationResult {
    /// Takes the text of these rows. O(1).
    pub(crate) fn of_rows(text: Vec<u8>, rows: &SelectedRows<'_>) -> OperationResult
        requires { text.items ≡ compact_text (rows_of rows.now) }
        ensures { result ≡ rows_of rows.entry.now }
    {
        OperationResult {
            text,
            meaning: Meaning::of_rows(rows),
        }
    }

    /// Returns the compact text. O(1).
    pub fn text(&self) -> &[u8]
        ensures { result.now ≡ compact_text self.now }
    {
        self.text.as_slice()
    }
}

/// Prints a result. O(its bytes).
fn printed(alloc: Global, value: &Value) -> Result<OperationResult, AllocError>
    requires { has_float (view value.now) ≡ false }
    ensures { IfOk result (λ r. r ≡ view value.now) }
{
    let text = value.to_vec(alloc)?;
    Ok(OperationResult {
        text,
        meaning: Meaning::of(value),
    })
}

/// Returns `{}`, the result of the operations that give none. O(1).
pub fn nothing(alloc: Global) -> Result<OperationResult, AllocError>
    ensures { IfOk result (λ r. r ≡ empty_result) }
{
    printed(alloc, &Value::from(Map::new(alloc)))
}

/// Returns `null`, the result of an operation that isn't carried out. O(1).
pub fn not_reached(alloc: Global) -> Result<OperationResult, AllocError>
    ensures { IfOk result (λ r. r ≡ null) }
{
    printed(alloc, &Value::Null)
}

/// Returns `{"count": rows}`.
fn count_value(alloc: Global, rows: usize) -> Result<Value, AllocError>
    ensures { IfOk result (λ v. view v ≡ object_of ((codes "count", of_integer (pos rows)) ∷ [])) }
{
    json!(in alloc; {"count": rows})
}

fn counted(alloc: Global, rows: usize) -> Result<OperationResult, AllocError>
    ensures { IfOk result (λ r. r ≡ object_of ((codes "count", of_integer (pos rows)) ∷ [])) }
{
    let value = count_value(alloc, rows)?;
    printed(alloc, &value)
}

/// Returns `{"count": n}` for n identifiers, the result of `update`, `mutate` and `delete`. O(1).
pub fn count(alloc: Global, uuids: &[Uuid]) -> Result<OperationResult, AllocError>
    ensures { IfOk result (λ r. (rows : Table) → map uuid_of uuids.now ≡ finite.keys rows
        → r ≡ model.count rows) }
{
    counted(alloc, uuids.len())
}

/// Returns `{"uuid": uuid}`.
fn uuid_value(alloc: Global, uuid: Uuid) -> Result<Value, AllocError>
    ensures { IfOk result (λ v. view v
        ≡ object_of ((codes "uuid", notation.write_uuid (uuid_of uuid)) ∷ [])) }
{
    let uuid = write_uuid(alloc, uuid)?;
    json!(in alloc; {"uuid": uuid})
}

/// Returns `{"uuid": uuid}`, the result of `insert`. O(1).
pub fn inserted(alloc: Global, uuid: Uuid) -> Result<OperationResult, AllocError>
    ensures { IfOk result (λ r. r
        ≡ object_of ((codes "uuid", notation.write_uuid (uuid_of uuid)) ∷ [])) }
{
    let value = uuid_value(alloc, uuid)?;
    printed(alloc, &value)
}

/// Returns `{"error": name}`.
fn error_value(alloc: Global, error: Error) -> Result<Value, AllocError>
    ensures { IfOk result (λ v. view v ≡ error_result (error_of error)) }
{
    let name = Value::try_from_str(alloc, error.name())?;
    json!(in alloc; {"error": name})
}

/// Returns `{"error": name}`, the result of an operation that fails. O(1).
pub fn failure(alloc: Global, error: Error) -> Result<OperationResult, AllocError>
    ensures { IfOk result (λ r. r ≡ error_result (error_of error)) }
{
    let value = error_value(alloc, error)?;
    printed(alloc, &value)
}
