//! What is submitted.
ghost use Rattle.std.specs.Prelude.{◌≡◌, ◌≤◌, vec_len};
ghost use Rattle.odb_rpc.specs.Message.{inserts_of};
ghost use Rattle.odb_wire.specs.Shown.{request_data};

use odb_wire::Request;
use uuid::Uuid;

/// A request or a notification, with an identifier for each of its inserts.
#[derive(Drop)]
pub struct Submission {
    pub request: Request,
    pub fresh: Vec<Uuid>,
    ghost enough: { inserts_of (request_data request) ≤ vec_len fresh },
}

impl Submission {
    /// Makes the request with at least as many identifiers as it has inserts.
    pub fn new(request: Request, fresh: Vec<Uuid>) -> Submission
        requires { inserts_of (request_data request) ≤ vec_len fresh }
        ensures { (result.request ≡ request) × (result.fresh ≡ fresh) }
    {
        Submission { request, fresh }
    }
}
