//! Replies to requests about monitors that are granted. [P 9.5, 9.6]
ghost use Rattle.std.specs.Prelude.{◌≡◌, false, IfOk};
ghost use Rattle.odb_queue.specs.Represented.Item.{item_of};
ghost use Rattle.odb_sessions.specs.Represented.Origin.{granted};
ghost use Rattle.odb_wire.specs.Message.{has_left_out, id_of};
ghost use Rattle.odb_wire.specs.Shown.{request_data};

use odb_queue::{Finished, replied};
use odb_wire::Request;
use serde_json::{Map, Value};
use std::alloc::{AllocError, Global};
use std::marker::Model;

/// The reply `{}` to a request. Contracts see the request.
#[derive(Drop)]
pub(crate) struct Granted {
    reply: Finished,
}

impl Model for Granted {
    ghost use Rattle.std.specs.Prelude.{◌≡◌};
    ghost use Rattle.odb_queue.specs.Represented.Item.{item_of};
    ghost use Rattle.odb_schema.specs.Json.{Data};
    ghost use Rattle.odb_schema.specs.JsonCode.{data_code};
    ghost use Rattle.odb_sessions.specs.Represented.Origin.{granted, request_of};

    ghost Value = { Data };

    ghost coded = { data_code };

    ghost view = { λ g. request_of g.reply.meaning.answers };

    ghost invariant = { λ g. item_of g.reply ≡ granted (request_of g.reply.meaning.answers) };
}

impl Granted {
    /// Grants this request. O(n) for an id of n bytes.
    pub(crate) fn new(alloc: Global, request: &Request) -> Result<Granted, AllocError>
        requires { has_left_out (id_of (request_data request.now)) ≡ false }
        ensures { IfOk result (λ made. made ≡ request_data request.now) }
    {
        let reply = replied(alloc, request, &Value::Object(Map::new(alloc)))?;
        Ok(Granted { reply })
    }

    /// Returns the reply, finished. O(1).
    pub(crate) fn finished(self) -> Finished
        ensures { item_of result ≡ granted self }
    {
        let Granted { reply } = self;
        reply
    }
}
