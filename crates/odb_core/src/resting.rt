//! Transactions that rest on one table while they wait (RFC 7047, section 5.2.6).

ghost use Rattle.std.specs.Prelude.{◌≡◌, ◌∷◌, map, option_map, string_bytes, IfErr, IfOk};
ghost use Rattle.std.specs.List.{list_any};
ghost use Rattle.serde_json.specs.View.{view};
ghost use Rattle.odb_rpc.specs.Message.{operations_of};
ghost use Rattle.odb_schema.specs.Json.{string_member};
ghost use Rattle.odb_wire.specs.Shown.{request_data};
ghost use Rattle.odb_core.specs.Stuck as stuck;

use crate::submitted::Submitted;
use odb_schema::member;
use serde_json::Value;
use std::alloc::{AllocError, Global};

/// A transaction that waits, and the name of the table on which its operations rest, if they rest on one.
#[derive(Drop)]
pub(crate) struct Resting {
    pub(crate) submitted: Submitted,
    pub(crate) table: Option<String>,
    ghost rests: { option_map string_bytes table ≡ stuck.waits_on (operations_of (request_data submitted.request)) },
}

impl Resting {
    /// Finds the table. Where memory is refused the transaction comes back. O(operations).
    pub(crate) fn new(
        alloc: Global,
        submitted: Submitted,
    ) -> Result<Resting, (Submitted, AllocError)>
        ensures ok { IfOk result (λ resting. resting.submitted ≡ submitted) }
        ensures err { IfErr result (λ back. back.0 ≡ submitted) }
    {
        match copy_of(alloc, table_of(submitted.operations())) {
            Ok(table) => Ok(Resting { submitted, table }),
            Err(refused) => Err((submitted, refused)),
        }
    }

    /// Returns the transaction, by value.
    pub(crate) fn into_submitted(self) -> Submitted
        ensures { result ≡ self.submitted }
    {
        self.submitted
    }
}

/// Makes an equal name, where there is one.
fn copy_of(alloc: Global, name: Option<&str>) -> Result<Option<String>, AllocError>
    ensures { IfOk result (λ copy. option_map string_bytes copy ≡ option_map (λ text. text.now) name.entry) }
{
    match name {
        Some(name) => Ok(Some(String::from_str(alloc, name)?)),
        None => Ok(None),
    }
}

/// Returns the name of the table on which the operations rest. O(operations).
fn table_of(operations: &[Value]) -> Option<&str>
    ensures { option_map (λ text. text.now) result ≡ stuck.waits_on (map view operations.now) }
{
    let [first, later @ ..] = operations else {
        return None;
    };
    table_before(first, later)
}

/// Returns the name of the table of the first operation, where it is a `wait` and no later one is. Else the transaction may
/// wait for something else, too.
fn table_before<'a>(first: &'a Value, later: &[Value]) -> Option<&'a str>
    ensures { option_map (λ text. text.now) result ≡ stuck.waits_on (view first.now ∷ map view later.now) }
{
    if !is_wait(first) {
        return None;
    }
    if has_wait(later) {
        return None;
    }
    string_member("table", first)
}

/// Returns whether one of the operations is a `wait`.
fn has_wait(operations: &[Value]) -> bool
    ensures { result ≡ list_any (λ operation. stuck.is_wait (view operation)) operations.now }
{
    operations.iter().any(|operation| is_wait(operation))
}

/// Returns whether the operation is a `wait`, whatever else it is. O(log n) comparisons of names for n members.
fn is_wait(operation: &Value) -> bool
    ensures { result ≡ stuck.is_wait (view operation.now) }
{
    match string_member("op", operation) {
        Some(op) => op == "wait",
        None => false,
    }
}

/// Returns the member of an object, where it is a string.
fn string_member<'a>(key: &str, value: &'a Value) -> Option<&'a str>
    ensures { option_map (λ text. text.now) result ≡ string_member key.now (view value.now) }
{
    member(key, value.as_object()?)?.as_str()
}
