//! Cores, requests and messages for trials.
ghost use Rattle.std.specs.Prelude.{IfOk};
ghost use Rattle.odb_hub.specs.Guarded.{IsNew};

use odb_core::{Core, Out};
use odb_hub::Submission;
use odb_rpc::inserts;
use odb_schema::Schema;
use odb_wire::{Framer, MAX_MESSAGE, Message, Request};
use std::alloc::{AllocError, Global};
use std::hash::RandomState;
use uuid::Uuid;

/// A schema with one table of one column.
pub(crate) const NET: &[u8] =
    b"{\"name\":\"net\",\"version\":\"1.0.0\",\"tables\":{\"T\":{\"isRoot\":true,\"columns\":{\"k\":{\"type\":\"integer\"}}}}}";

/// Returns a core of the schema, without sessions.
pub(crate) fn core(alloc: Global, hashing: RandomState, schema: &[u8]) -> Result<Core, AllocError>
    ensures { IfOk result (λ core. IsNew core) }
{
    let Ok(schema) = Schema::read(alloc, schema) else {
        return Err(AllocError);
    };
    match Core::new(alloc, schema, hashing) {
        Ok(core) => Ok(core),
        Err(_) => Err(AllocError),
    }
}

/// Returns the request of this text.
pub(crate) fn request(alloc: Global, text: &[u8]) -> Result<Submission, AllocError> {
    let mut framer = Framer::new(alloc, MAX_MESSAGE);
    let fed = framer.feed(text)?;
    for message in fed.messages {
        if let Message::Request(request) = message {
            return submission(alloc, request);
        }
    }
    Err(AllocError)
}

fn submission(alloc: Global, request: Request) -> Result<Submission, AllocError> {
    let count = inserts(&request);
    let mut fresh = Vec::with_capacity(alloc, count)?;
    for made in 0..count {
        fresh.push(Uuid::nil())?;
    }
    Ok(Submission::new(request, fresh))
}

/// Adds a message to a text, after those before it.
pub(crate) fn add_message(text: &mut Vec<u8>, out: &Out) -> Result<(), AllocError> {
    text.extend_from_slice(out.before.as_slice())?;
    if let Some(body) = &out.body {
        text.extend_from_slice(body.as_slice())?;
    }
    text.extend_from_slice(out.after.as_slice())
}
