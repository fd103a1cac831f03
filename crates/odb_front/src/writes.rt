//! What may not be done on `_Server`: it is read alone. [P 15.3]
ghost use Rattle.std.specs.Prelude.{◌≡◌, ◌++◌, ◌∷◌, map, IfOk};
ghost use Rattle.serde_json.specs.Data.{string};
ghost use Rattle.std.specs.List.{list_any};
ghost use Rattle.serde_json.specs.View.{view};
ghost use Rattle.odb_wire.specs.Shown.{request_data};
ghost use Rattle.odb_front.specs.Front as front;
ghost use Rattle.odb_front.specs.Writes as writes;

use crate::destination::is_text;
use odb_rpc::operations;
use odb_wire::Request;
use serde_json::{Value, json};
use std::alloc::{AllocError, Global};

/// Returns whether an operation writes: it is an `insert`, `update`, `mutate` or `delete`, whatever else it has.
pub(crate) fn is_write(operation: &Value) -> bool
    ensures { result ≡ writes.is_write (view operation.now) }
{
    match operation.get("op").and_then(Value::as_str) {
        Some(op) => is_name_of_write(op),
        None => false,
    }
}

fn is_name_of_write(op: &str) -> bool
    ensures { result ≡ writes.is_name_of_write op.now }
{
    op == "insert" || op == "update" || op == "mutate" || op == "delete"
}

/// Returns whether one of the operations of a `transact` writes. O(operations).
pub fn has_writes(request: &Request) -> bool
    ensures { result ≡ writes.has_writes (request_data request.now) }
{
    any_writes(operations(request))
}

fn any_writes(operations: &[Value]) -> bool
    ensures { result ≡ list_any (λ o. writes.is_write (view o)) operations.now }
{
    operations.iter().any(|operation| is_write(operation))
}

/// Returns how many operations come after the first that writes; 0 where none does. O(operations).
pub fn after_write(operations: &[Value]) -> usize
    ensures { result ≡ writes.after_write (map view operations.now) }
{
    let mut left = operations;
    while let [operation, rest @ ..] = left {
        if is_write(operation) {
            return rest.len();
        }
        left = rest;
    }
    0
}

/// Returns the `params` of a request that names a database, with another name in its place, and of a `transact` with its
/// operations as `readable` has them. O(bytes of the request).
pub fn params_for(alloc: Global, request: &Request, name: &str) -> Result<Vec<Value>, AllocError>
    ensures { IfOk result (λ params. map view params.items ≡ writes.params_for name.now (request_data request.now)) }
{
    params_by(alloc, request.method(), operations(request), name)
}

fn params_by(
    alloc: Global,
    method: &str,
    others: &[Value],
    name: &str,
) -> Result<Vec<Value>, AllocError>
    ensures { IfOk result (λ params. map view params.items ≡ writes.params_by name.now method.now (map view others.now)) }
{
    let others = if method == "transact" {
        readable(alloc, others)?
    } else {
        copies(alloc, others)?
    };
    with_name(alloc, name, others)
}

fn with_name(alloc: Global, name: &str, others: Vec<Value>) -> Result<Vec<Value>, AllocError>
    ensures { IfOk result (λ params. map view params.items ≡ string name.now ∷ map view others.items) }
{
    let mut others = others;
    let mut params = Vec::with_capacity(alloc, 1)?;
    params.push(json!(in alloc; name)?)?;
    params.append(&mut others)?;
    Ok(params)
}

fn copies(alloc: Global, values: &[Value]) -> Result<Vec<Value>, AllocError>
    ensures { IfOk result (λ copies. map view copies.items ≡ map view values.now) }
{
    let mut copies = Vec::with_capacity(alloc, values.len())?;
    for value in values {
        copies.push(value.clone()?)?;
    }
    Ok(copies)
}

/// Returns the operations with an `abort` in the place of each that writes, so that what comes before the first is done and
/// nothing is written. O(bytes of the operations).
fn readable(alloc: Global, operations: &[Value]) -> Result<Vec<Value>, AllocError>
    ensures { IfOk result (λ read. map view read.items ≡ writes.readable (map view operations.now)) }
{
    let mut read = Vec::with_capacity(alloc, operations.len())?;
    for operation in operations {
        read.push(read_only(alloc, operation)?)?;
    }
    Ok(read)
}

fn read_only(alloc: Global, operation: &Value) -> Result<Value, AllocError>
    ensures { IfOk result (λ read. view read ≡ writes.read_only (view operation.now)) }
{
    if is_write(operation) {
        return abort(alloc);
    }
    operation.clone()
}

fn abort(alloc: Global) -> Result<Value, AllocError>
    ensures { IfOk result (λ operation. view operation ≡ writes.abort) }
{
    json!(in alloc; {"op": "abort"})
}

/// Returns a reply in which an `abort` ended the transaction that so many operations follow, with `not allowed` in the place
/// of `aborted`; any other reply as it is. O(bytes of the reply).
pub fn with_refusal(alloc: Global, reply: Vec<u8>, after: usize) -> Result<Vec<u8>, AllocError>
    ensures { IfOk result (λ text. text.items ≡ writes.with_refusal reply.items after) }
{
    let end = ended_by(alloc, b"aborted", after)?;
    if !has_end(reply.as_slice(), end.as_slice()) {
        return Ok(reply);
    }
    let mut refused = reply;
    refused.truncate(refused.len().saturating_sub(end.len()));
    let end = ended_by(alloc, b"not allowed", after)?;
    refused.extend_from_slice(end.as_slice())?;
    Ok(refused)
}

/// Returns how a reply ends in which an operation has this error, and so many come after it.
fn ended_by(alloc: Global, error: &[u8], after: usize) -> Result<Vec<u8>, AllocError>
    ensures { IfOk result (λ text. text.items ≡ writes.ended_by error.now after) }
{
    let mut text = Vec::from_slice(alloc, b"{\"error\":\"")?;
    text.extend_from_slice(error)?;
    text.extend_from_slice(b"\"}")?;
    let mut text = with_nulls(text, after)?;
    text.extend_from_slice(b"]}")?;
    Ok(text)
}

fn with_nulls(text: Vec<u8>, count: usize) -> Result<Vec<u8>, AllocError>
    ensures { IfOk result (λ longer. longer.items ≡ text.items ++ writes.nulls count) }
{
    let mut longer = text;
    for added in 0..count {
        longer.extend_from_slice(b",null")?;
    }
    Ok(longer)
}

/// Returns whether a text ends so.
pub(crate) fn has_end(text: &[u8], end: &[u8]) -> bool
    ensures { result ≡ front.has_end end.now text.now }
{
    let begin = text.len().saturating_sub(end.len());
    &text[begin..] == end
}
