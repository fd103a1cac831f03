//! Replies that are begun, and wait for their results. [P 7.3, 9.8, 10.1]
ghost use Rattle.std.specs.Prelude.{◌≡◌, false, IfOk};
ghost use Rattle.serde_json.specs.Written.{compact_text};
ghost use Rattle.odb_atoms.specs.Represented.Atom.{uuid_of};
ghost use Rattle.odb_rpc.specs.Message.{reply};
ghost use Rattle.odb_rpc.specs.Since.{since_result};
ghost use Rattle.odb_sessions.specs.Represented.Composed.{IsFrame};
ghost use Rattle.odb_wire.specs.Message.{has_left_out, id_of};
ghost use Rattle.odb_wire.specs.Shown.{request_data};

use crate::composing::Envelope;
use crate::granted::Granted;
use odb_rpc::{after_result, after_updates, before_result, before_since, reply_id};
use odb_wire::Request;
use std::alloc::{AllocError, Global};
use std::marker::Model;
use uuid::Uuid;

/// A request whose reply is due, with the text with which that begins. Contracts see the request.
pub struct Origin {
    before: Vec<u8>,
    request: Granted,
}

impl Model for Origin {
    ghost use Rattle.odb_schema.specs.Json.{Data};
    ghost use Rattle.odb_schema.specs.JsonCode.{data_code};
    ghost use Rattle.odb_sessions.specs.Represented.Origin.{BeginsReply};

    ghost Value = { Data };

    ghost coded = { data_code };

    ghost view = { λ o. o.request };

    ghost invariant = { λ o. BeginsReply o.before.items o.request };
}

impl Origin {
    /// Makes the reply to this request. O(n) for an id of n bytes.
    pub(crate) fn new(alloc: Global, request: &Request) -> Result<Origin, AllocError>
        requires { has_left_out (id_of (request_data request.now)) ≡ false }
        ensures { IfOk result (λ origin. origin ≡ request_data request.now) }
    {
        let before = before_result(alloc, reply_id(request))?;
        let request = Granted::new(alloc, request)?;
        Ok(Origin { before, request })
    }

    /// Returns the reply, with the result that is composed of the job. O(n) for an id of n bytes. An error says that memory was
    /// refused.
    pub fn reply(&self, alloc: Global, place: usize) -> Result<Envelope, AllocError>
        ensures { IfOk result (λ message. IsFrame message place (λ d. compact_text (reply (id_of self.now) d))) }
    {
        let before = self.before.clone()?;
        let after = Vec::from_slice(alloc, after_result())?;
        Ok(Envelope {
            before,
            place,
            after,
        })
    }

    /// Makes the reply to who named a commit: whether that was found, the number of the newest commit, and what is
    /// composed of the job. O(n) for an id of n bytes. An error says that memory was refused.
    pub fn numbered_reply(
        &self,
        alloc: Global,
        found: bool,
        number: Uuid,
        place: usize,
    ) -> Result<Envelope, AllocError>
        ensures { IfOk result (λ message. IsFrame message place (λ d. compact_text (reply (id_of self.now) (since_result found (uuid_of number) d)))) }
    {
        let before = before_since(self.before.clone()?, found, number)?;
        let after = Vec::from_slice(alloc, after_updates())?;
        Ok(Envelope {
            before,
            place,
            after,
        })
    }
}

// Written, and not derived, so that each end of a scope is one call to prove.
impl Drop for Origin {
    fn drop(self) {
        let Origin {
            before: _,
            request: _,
        } = self;
    }
}
