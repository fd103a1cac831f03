//! Transactions as they are submitted (RFC 7047, section 4.1.3).

ghost use Rattle.std.specs.Prelude.{◌≡◌, false, map, IfErr, IfOk};
ghost use Rattle.serde_json.specs.View.{view};
ghost use Rattle.serde_json.specs.Written.{compact_text};
ghost use Rattle.odb_rpc.specs.Message.{operations_of};
ghost use Rattle.odb_wire.specs.Message.{has_left_out, id_of};
ghost use Rattle.odb_wire.specs.Shown.{request_data};

use odb_locks::SessionId;
use odb_rpc::{operations, reply_id};
use odb_wire::Request;
use serde_json::Value;
use std::alloc::{AllocError, Global};
use uuid::Uuid;

/// A transaction as it was submitted.
#[derive(Drop)]
pub(crate) struct Submitted {
    /// Who asked for it.
    pub(crate) session: SessionId,
    pub(crate) request: Request,
    /// The text of the request's id.
    pub(crate) id: Vec<u8>,
    /// Identifiers for its inserts.
    pub(crate) fresh: Vec<Uuid>,
    /// When it arrived, in milliseconds.
    pub(crate) arrival: u64,
    ghost whole: { has_left_out (id_of (request_data request)) ≡ false },
    ghost printed: { id.items ≡ compact_text (id_of (request_data request)) },
}

impl Submitted {
    /// Submits a request of a session with identifiers for its inserts. Where memory is refused the request comes
    /// back.
    pub(crate) fn new(
        alloc: Global,
        session: SessionId,
        request: Request,
        fresh: &[Uuid],
        arrival: u64,
    ) -> Result<Submitted, (Request, AllocError)>
        requires { has_left_out (id_of (request_data request)) ≡ false }
        ensures session { IfOk result (λ s. s.session ≡ session) }
        ensures request { IfOk result (λ s. s.request ≡ request) }
        ensures fresh { IfOk result (λ s. s.fresh.items ≡ fresh.now) }
        ensures arrival { IfOk result (λ s. s.arrival ≡ arrival) }
        ensures err { IfErr result (λ back. back.0 ≡ request) }
    {
        match parts(alloc, &request, fresh) {
            Ok((id, fresh)) => Ok(Submitted {
                session,
                request,
                id,
                fresh,
                arrival,
            }),
            Err(refused) => Err((request, refused)),
        }
    }

    /// Returns the request, by value.
    pub(crate) fn into_request(self) -> Request
        ensures { result ≡ self.request }
    {
        self.request
    }

    /// Returns its operations (RFC 7047, section 4.1.3).
    pub(crate) fn operations(&self) -> &[Value]
        ensures { map view result.now ≡ operations_of (request_data self.now.request) }
    {
        operations(&self.request)
    }
}

/// Returns the text of the request's id, and a copy of the identifiers.
fn parts(
    alloc: Global,
    request: &Request,
    fresh: &[Uuid],
) -> Result<(Vec<u8>, Vec<Uuid>), AllocError>
    requires { has_left_out (id_of (request_data request.now)) ≡ false }
    ensures id { IfOk result (λ parts. parts.0.items ≡ compact_text (id_of (request_data request.now))) }
    ensures fresh { IfOk result (λ parts. parts.1.items ≡ fresh.now) }
{
    let id = reply_id(request).to_vec(alloc)?;
    let fresh = Vec::from_slice(alloc, fresh)?;
    Ok((id, fresh))
}
