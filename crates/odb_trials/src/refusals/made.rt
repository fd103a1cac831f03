//! Cores and requests for what is played. Where memory is refused they are made once more.
ghost use Rattle.std.specs.Prelude.{IfOk};
ghost use Rattle.odb_hub.specs.Guarded.{IsNew};

use crate::refusals::scripts::NET;
use odb_core::Core;
use odb_hub::Submission;
use odb_rpc::inserts;
use odb_schema::Schema;
use odb_wire::{Framer, MAX_MESSAGE, Message, Request};
use std::alloc::{AllocError, Global};
use std::hash::RandomState;
use uuid::Uuid;

/// Returns the schema.
pub(crate) fn schema(alloc: Global) -> Result<Schema, AllocError> {
    match read_schema(alloc) {
        Ok(schema) => Ok(schema),
        Err(_) => read_schema(alloc),
    }
}

fn read_schema(alloc: Global) -> Result<Schema, AllocError> {
    match Schema::read(alloc, NET.as_bytes()) {
        Ok(schema) => Ok(schema),
        Err(_) => Err(AllocError),
    }
}

/// Returns a core of the schema without sessions. Where memory is refused it is made of what came back.
pub(crate) fn core(alloc: Global, hashing: RandomState) -> Result<Core, AllocError>
    ensures { IfOk result (λ core. IsNew core) }
{
    let (schema, hashing) = match Core::new(alloc, schema(alloc)?, hashing) {
        Ok(core) => return Ok(core),
        Err((schema, hashing, _)) => (schema, hashing),
    };
    match Core::new(alloc, schema, hashing) {
        Ok(core) => Ok(core),
        Err(_) => Err(AllocError),
    }
}

/// Returns the request of a text, before whose inserts there were so many. Their identifiers are those of a script.
pub(crate) fn submission(
    alloc: Global,
    text: &[u8],
    inserts: usize,
) -> Result<Submission, AllocError> {
    match read_submission(alloc, text, inserts) {
        Ok(submission) => Ok(submission),
        Err(_) => read_submission(alloc, text, inserts),
    }
}

fn read_submission(alloc: Global, text: &[u8], inserts: usize) -> Result<Submission, AllocError> {
    let mut framer = Framer::new(alloc, MAX_MESSAGE);
    let fed = framer.feed(text)?;
    for message in fed.messages {
        if let Message::Request(request) = message {
            return with_identifiers(alloc, request, inserts);
        }
    }
    Err(AllocError)
}

fn with_identifiers(
    alloc: Global,
    request: Request,
    before: usize,
) -> Result<Submission, AllocError> {
    let count = inserts(&request);
    let mut fresh = Vec::with_capacity(alloc, count)?;
    for made in 0..count {
        fresh.push(identifier(before.saturating_add(made)))?;
    }
    Ok(Submission::new(request, fresh))
}

/// Returns the identifier of an insert, before which there were so many.
fn identifier(before: usize) -> Uuid {
    Uuid::from_u128(0x4000_8000_0000_0000_0001 + before as u128)
}
