//! Replies to requests, and notices, as they are queued. [P 7.3, 8.1]
ghost use Rattle.std.specs.Prelude.{◌≡◌, false, if◌then◌else◌, codes, map, Option, Some, IsSome, IfOk, option_map};
ghost use Rattle.serde_json.specs.Data.{Data};
ghost use Rattle.serde_json.specs.View.{view};
ghost use Rattle.serde_json.specs.Written.{compact_text, has_float};
ghost use Rattle.odb_wire.specs.Message.{has_left_out, id_of};
ghost use Rattle.odb_wire.specs.Shown.{request_data};
ghost use Rattle.odb_service.specs.Session.{no_request, say, to};
ghost use Rattle.odb_service.specs.World as world;
ghost use Rattle.odb_queue.specs.Represented.Answer.{answer_of, at_once, call_at, said};
ghost use Rattle.odb_queue.specs.Represented.Item.{item_of};
ghost use Rattle.odb_queue.specs.Represented.Post.{post_of, told_of};
ghost use Rattle.odb_locks.specs.Represented.Notice.{notice_of, notices_of};
ghost use Rattle.odb_rpc.specs.Message as message;
ghost use Rattle.odb_rpc.specs.Represented.Call.{call_view, called};
ghost use Rattle.odb_rpc.specs.Represented.Failure.{failure_of};
ghost use Rattle.odb_rpc.specs.Represented.Printable.{printable_data};
ghost use Rattle.odb_schema.specs.Json.{array_of};
ghost use Rattle.odb_schema.specs.SchemaText.{write_schema};

use crate::finished::Finished;
use crate::meaning::{MessageMeaning, Printed, Transacted};
use crate::post::Post;
use crate::results::results_text;
use crate::served_schema::ServedSchema;
use odb_locks::Notice;
use odb_ops::OperationResult;
use odb_rpc::{
    Call, CallFault, Failure, Printable, array_of_one, failure, reply, reply_id, reply_printed,
};
use odb_wire::Request;
use serde_json::Value;
use std::alloc::{AllocError, Global};

/// Returns the reply to a call that is done at once: `echo`, `list_dbs`, `get_schema`, or a request that is
/// refused before anything is done. `None` where there is no reply, and for any other call. O(n)
/// for a reply of n bytes.
pub fn answer_at_once(
    alloc: Global,
    served: &ServedSchema,
    request: &Request,
    call: Result<Call<'_>, CallFault>,
) -> Result<Option<Finished>, AllocError>
    requires { call_view served.now.name (write_schema served.now) (request_data request.now) call
        ≡ call_at served.now (request_data request.now) }
    ensures { IfOk result (λ item. (found : Option Data)
        → at_once (call_at served.now (request_data request.now)) ≡ Some found
        → option_map item_of item ≡ option_map (said (request_data request.now)) found) }
{
    let Some(text) = answer_text(alloc, served, request, call)? else {
        return Ok(None);
    };
    Ok(Some(Finished {
        text,
        is_reply: true,
        meaning: MessageMeaning::of(&Printed::AtOnce(request, served.schema())),
    }))
}

fn answer_text(
    alloc: Global,
    served: &ServedSchema,
    request: &Request,
    call: Result<Call<'_>, CallFault>,
) -> Result<Option<Vec<u8>>, AllocError>
    ensures { IfOk result (λ text. option_map (λ bytes. bytes.items) text ≡ option_map compact_text
        (answer_of (call_view served.now.name (write_schema served.now) (request_data request.now) call.entry))) }
{
    match call {
        Ok(call) => called_text(alloc, served, reply_id(request), call),
        Err(fault) => Ok(Some(failure(alloc, reply_id(request), Failure::from(fault))?)),
    }
}

fn called_text(
    alloc: Global,
    served: &ServedSchema,
    id: Printable<'_>,
    call: Call<'_>,
) -> Result<Option<Vec<u8>>, AllocError>
    ensures { IfOk result (λ text. option_map (λ bytes. bytes.items) text ≡ option_map compact_text
        (answer_of (called served.now.name (write_schema served.now) (printable_data id.entry) call.entry))) }
{
    match call {
        Call::ListDatabases => {
            let names = array_of_one(alloc, served.schema().name())?;
            Ok(Some(success(alloc, id, names.as_slice())?))
        }
        Call::GetSchema => Ok(Some(success(alloc, id, served.text())?)),
        Call::Echo(params) => Ok(Some(reply(alloc, id, params)?)),
        Call::Transact(_) => Ok(None),
        Call::Monitor(_) => Ok(None),
        Call::Lock(_) => Ok(None),
        Call::Steal(_) => Ok(None),
        Call::Unlock(_) => Ok(None),
        Call::Cancel(_) => Ok(None),
        Call::PassedOver => Ok(None),
    }
}

/// Returns the reply of a success, for a result that is printed already, as compact text. O(n) for a text of n bytes.
fn success(alloc: Global, id: Printable<'_>, printed: &[u8]) -> Result<Vec<u8>, AllocError>
    ensures { IfOk result (λ text. (d : Data) → printed.now ≡ compact_text d
        → text.items ≡ compact_text (message.reply (printable_data id.entry) d)) }
{
    let id_text = id.to_vec(alloc)?;
    reply_printed(alloc, id_text.as_slice(), printed)
}

/// Returns the reply of a success, with this result (RFC 7047, section 4). O(n) for a text of n bytes.
pub fn replied(alloc: Global, request: &Request, value: &Value) -> Result<Finished, AllocError>
    requires id { has_left_out (id_of (request_data request.now)) ≡ false }
    requires value { has_float (view value.now) ≡ false }
    ensures { IfOk result (λ item. item_of item
        ≡ say (to (request_data request.now)) (message.reply (id_of (request_data request.now)) (view value.now))) }
{
    let id = reply_id(request).to_vec(alloc)?;
    let printed = value.to_vec(alloc)?;
    let text = reply_printed(alloc, id.as_slice(), printed.as_slice())?;
    Ok(Finished {
        text,
        is_reply: true,
        meaning: MessageMeaning::of(&Printed::Success(request, value)),
    })
}

/// Returns the reply of a transaction with these results (RFC 7047, section 4.1.3), where the request's id is printed
/// already, as compact text. Each result's text is copied once. O(n) for a text of n bytes.
pub fn replied_as(
    alloc: Global,
    request: &Request,
    id: &[u8],
    results: &[OperationResult],
) -> Result<Finished, AllocError>
    requires printed { id.now ≡ compact_text (id_of (request_data request.now)) }
    ensures { IfOk result (λ item. item_of item
        ≡ say (to (request_data request.now)) (message.reply (id_of (request_data request.now)) (array_of results.now))) }
{
    let text = results_text(alloc, id, results)?;
    Ok(Finished {
        text,
        is_reply: true,
        meaning: MessageMeaning::of_results(&Transacted { request, results }),
    })
}

/// Returns the reply of a failure (RFC 7047, section 4). O(n) for a text of n bytes.
pub fn failed(alloc: Global, request: &Request, why: Failure) -> Result<Finished, AllocError>
    requires id { has_left_out (id_of (request_data request.now)) ≡ false }
    ensures { IfOk result (λ item. item_of item
        ≡ say (to (request_data request.now)) (message.failure (id_of (request_data request.now)) (failure_of why))) }
{
    let text = failure(alloc, reply_id(request), why)?;
    Ok(Finished {
        text,
        is_reply: true,
        meaning: MessageMeaning::of(&Printed::Failure(request, &why)),
    })
}

/// Prints the notices as they are sent (RFC 7047, sections 4.1.9 and 4.1.10), in their order. O(n) for
/// texts of n bytes.
pub fn notices(alloc: Global, notices: &[Notice]) -> Result<Vec<Post>, AllocError>
    ensures { IfOk result (λ posts. map post_of posts.items ≡ map told_of (notices_of notices.now)) }
{
    let mut posts = Vec::with_capacity(alloc, notices.len())?;
    for notice in notices {
        posts.push_reserved(Post {
            session: notice.session,
            item: noticed(alloc, notice)?,
        });
    }
    Ok(posts)
}

/// Prints a notice as it is sent. O(n) for a text of n bytes.
fn noticed(alloc: Global, notice: &Notice) -> Result<Finished, AllocError>
    ensures { IfOk result (λ item. item_of item
        ≡ say no_request (world.notice_of (notice_of notice.now))) }
{
    let params = array_of_one(alloc, notice.name.as_str())?;
    let text = odb_rpc::notice(alloc, method(notice), params.as_slice())?;
    Ok(Finished {
        text,
        is_reply: false,
        meaning: MessageMeaning::of(&Printed::Notice(notice)),
    })
}

fn method(notice: &Notice) -> &'static str
    ensures { result.now ≡ (if notice.now.stolen then codes "stolen" else codes "locked") }
{
    if notice.stolen { "stolen" } else { "locked" }
}
