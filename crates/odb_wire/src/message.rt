//! Messages of JSON-RPC 1.0: requests, notifications and responses. [P 0.1, 7.2]
ghost use Rattle.std.specs.Prelude.{◌≡◌, Some, None, IsTrue, IfSome, IfOk, option_map, is_some, codes, if◌then◌else◌};
ghost use Rattle.serde_json.specs.View.{view};
ghost use Rattle.serde_json.specs.Find.{get};
ghost use Rattle.odb_wire.specs.Message.{method_of, is_notification, is_message, has_left_out};
ghost use Rattle.odb_wire.specs.Kind.{is_response};
ghost use Rattle.odb_wire.specs.Stream.{message_of};

use crate::left_out::has_left_out_number;
use serde_json::Value;
use std::alloc::{AllocError, Global};

/// A request or a notification: an object with a text `method`. A notification has no `id`, or `id` null. It keeps the
/// whole message; of a repeated member the last counts.
#[derive(Drop)]
pub struct Request {
    message: Value,
    ghost named: { IsTrue (is_some (method_of (view message))) },
}

/// A response: an object without `method`, and with `result` or `error`.
#[derive(Drop)]
pub struct Response {
    value: Value,
    ghost answers: { IsTrue (is_response (view value)) },
}

/// A message of a stream, under its kind.
#[derive(Drop)]
pub enum Message {
    Request(Request),
    Notification(Request),
    Response(Response),
}

impl Request {
    ghost use Rattle.odb_wire.specs.Shown.{request_data};

    /// Returns the whole message.
    pub fn message(&self) -> &Value
        ensures { view result.now ≡ request_data self.now }
    {
        &self.message
    }

    /// Returns the member `method`.
    pub fn method(&self) -> &str
        ensures { Some result.now ≡ method_of (request_data self.now) }
    {
        self.message.get("method").and_then(Value::as_str).unwrap()
    }

    /// Returns the member `params`, if there is one.
    pub fn params(&self) -> Option<&Value>
        ensures { option_map (λ v. view v.now) result ≡ get (codes "params") (request_data self.now) }
    {
        self.message.get("params")
    }

    /// Returns the member `id`, if there is one.
    pub fn id(&self) -> Option<&Value>
        ensures { option_map (λ v. view v.now) result ≡ get (codes "id") (request_data self.now) }
    {
        self.message.get("id")
    }

    /// Returns whether `id` is absent or null: then there is no reply.
    pub fn is_notification(&self) -> bool
        ensures { result ≡ is_notification (request_data self.now) }
    {
        match self.id() {
            Some(id) => id.is_null(),
            None => true,
        }
    }

    /// Returns whether a number that is no integer from -(2^63) to 2^63-1 stands anywhere in the message.
    /// Each call goes through the whole message.
    pub fn has_left_out_number(&self) -> bool
        ensures { result ≡ has_left_out (request_data self.now) }
    {
        has_left_out_number(self.message())
    }
}

impl Response {
    ghost use Rattle.odb_wire.specs.Shown.{response_data};

    /// Returns the whole message.
    pub fn message(&self) -> &Value
        ensures { view result.now ≡ response_data self.now }
    {
        &self.value
    }
}

impl Message {
    ghost use Rattle.odb_wire.specs.Shown.{message_data, IsOfItsKind};

    /// Reads the message that an object's text is, if it is one.
    pub(crate) fn read(alloc: Global, text: &[u8]) -> Result<Option<Message>, AllocError>
        ensures data { IfOk result (λ found. option_map message_data found ≡ message_of text.now) }
        ensures kind { IfOk result (λ found. IfSome found IsOfItsKind) }
    {
        match Value::from_slice(alloc, text) {
            Ok(value) => Ok(Message::of(value)),
            Err(error) => if error.is_memory() {
                Err(AllocError)
            } else {
                Ok(None)
            },
        }
    }

    fn of(message: Value) -> Option<Message>
        ensures data { option_map message_data result ≡ (if is_message (view message) then Some (view message) else None) }
        ensures kind { IfSome result IsOfItsKind }
    {
        match message.get("method") {
            Some(method) => {
                if !method.is_string() {
                    return None;
                }
                let request = Request { message };
                if request.is_notification() {
                    Some(Message::Notification(request))
                } else {
                    Some(Message::Request(request))
                }
            }
            None => {
                if message.get("result").is_some() || message.get("error").is_some() {
                    Some(Message::Response(Response { value: message }))
                } else {
                    None
                }
            }
        }
    }
}
