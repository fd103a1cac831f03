//! What the second database is told of locks. [P 15.4]
ghost use Rattle.std.specs.Prelude.{◌≡◌, IfOk};
ghost use Rattle.serde_json.specs.View.{view};
ghost use Rattle.serde_json.specs.Written.{compact_text};
ghost use Rattle.odb_wire.specs.Message.{params_of};
ghost use Rattle.odb_wire.specs.Shown.{request_data};
ghost use Rattle.odb_front.specs.Locks as locks;

use odb_rpc::Printable;
use odb_wire::Request;
use serde_json::{Value, json};
use std::alloc::{AllocError, Global};

/// Returns the text of what is submitted to the second database in the place of a request about a lock: the same under this id.
/// O(bytes of the request).
pub fn request_as(alloc: Global, request: &Request, id: &str) -> Result<Vec<u8>, AllocError>
    ensures { IfOk result (λ text. text.items ≡ compact_text (locks.request_as id.now (request_data request.now))) }
{
    let message = message_as(alloc, request, id)?;
    printed(alloc, &message)
}

/// Prints a message; an error where it has a number that is left out.
fn printed(alloc: Global, message: &Value) -> Result<Vec<u8>, AllocError>
    ensures { IfOk result (λ text. text.items ≡ compact_text (view message.now)) }
{
    match Printable::of(message) {
        Some(message) => message.to_vec(alloc),
        None => Err(AllocError),
    }
}

fn message_as(alloc: Global, request: &Request, id: &str) -> Result<Value, AllocError>
    ensures { IfOk result (λ message. view message ≡ locks.request_as id.now (request_data request.now)) }
{
    let params = params_or_null(request)?;
    message_of(alloc, id, request.method(), params)
}

fn message_of(alloc: Global, id: &str, method: &str, params: Value) -> Result<Value, AllocError>
    ensures { IfOk result (λ message. view message ≡ locks.message id.now method.now (view params)) }
{
    json!(in alloc; {"id": id, "method": method, "params": params})
}

fn params_or_null(request: &Request) -> Result<Value, AllocError>
    ensures { IfOk result (λ params. view params ≡ params_of (request_data request.now)) }
{
    match request.params() {
        Some(params) => params.clone(),
        None => Ok(Value::Null),
    }
}
