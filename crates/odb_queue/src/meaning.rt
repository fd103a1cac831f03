//! What a finished text means, which proofs alone read. It takes no memory, and its calls do nothing at run time.
ghost use Rattle.std.specs.Prelude.{◌≡◌};
ghost use Rattle.std.specs.Borrow.{ftrue};
ghost use Rattle.serde_json.specs.Data.{Data};
ghost use Rattle.odb_service.specs.Session.{Answers};
ghost use Rattle.odb_service.specs.WorldCode.{answers_code};
ghost use Rattle.odb_schema.specs.JsonCode.{data_code};
ghost use Rattle.odb_queue.specs.Represented.Printed.{out_of, reply_of};

use odb_locks::Notice;
use odb_ops::OperationResult;
use odb_rpc::Failure;
use odb_schema::Schema;
use odb_wire::Request;
use serde_json::Value;
use std::marker::Model;

/// What a message is printed from.
#[derive(Drop)]
pub(crate) enum Printed<'a> {
    /// The reply to a request that is done at once, by a server of the schema.
    AtOnce(&'a Request, &'a Schema),
    /// The reply of a success, with this result.
    Success(&'a Request, &'a Value),
    /// The reply of a failure.
    Failure(&'a Request, &'a Failure),
    /// A notice of locks, which replies to no request.
    Notice(&'a Notice),
}

/// What the reply of a transaction is printed from.
#[derive(Drop)]
pub(crate) struct Transacted<'a> {
    pub request: &'a Request,
    pub results: &'a [OperationResult],
}

/// Which request a message replies to, and the message as data.
#[derive(Drop)]
pub struct MessageMeaning {
    pub ghost answers: { Answers } by { answers_code },
    pub ghost message: { Data } by { data_code },
}

impl Model for MessageMeaning {
    ghost also_owns = { λ _. ftrue };
}

// It owns nothing.
unsafe impl Send for MessageMeaning {}

impl MessageMeaning {
    /// Returns the meaning of what is printed from these.
    pub(crate) fn of(_printed: &Printed<'_>) -> MessageMeaning
        ensures { (result.answers ≡ (out_of _printed.now).answers)
            × (result.message ≡ (out_of _printed.now).message) }
    {
        MessageMeaning {}
    }

    /// Returns the meaning of the reply of a transaction.
    pub(crate) fn of_results(_transacted: &Transacted<'_>) -> MessageMeaning
        ensures { (result.answers ≡ (reply_of _transacted.entry.now).answers)
            × (result.message ≡ (reply_of _transacted.entry.now).message) }
    {
        MessageMeaning {}
    }
}
