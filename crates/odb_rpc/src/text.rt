//! Replies and notifications as they are sent (RFC 7047, section 4). [P 0.2, 7.3]
ghost use Rattle.std.specs.Prelude.{◌≡◌, ◌++◌, ◌∷◌, [], List, IfOk, codes};
ghost use Rattle.serde_json.specs.Data.{Data, string};
ghost use Rattle.serde_json.specs.Written.{compact_text};
ghost use Rattle.odb_atoms.specs.Represented.Atom.{uuid_of};
ghost use Rattle.odb_atoms.specs.Uuid.{uuid_text};
ghost use Rattle.odb_schema.specs.Json.{array_of};
ghost use Rattle.odb_rpc.specs.Message.{failure, failure_data, notification, one, reply};
ghost use Rattle.odb_rpc.specs.Represented.Failure.{failure_of};
ghost use Rattle.odb_rpc.specs.Represented.Printable.{printable_data};
ghost use Rattle.odb_rpc.specs.Represented.Texts.{response_text};

use crate::error::Failure;
use crate::printable::Printable;
use json::Writer;
use std::alloc::{AllocError, Global};
use uuid::Uuid;

/// Returns the reply of a success (RFC 7047, section 4): `{"error":null,"id":ID,"result":RESULT}`. O(n) for
/// a text of n bytes.
pub fn reply(alloc: Global, id: Printable<'_>, value: Printable<'_>) -> Result<Vec<u8>, AllocError>
    ensures { IfOk result (λ text. text.items
        ≡ compact_text (reply (printable_data id.entry) (printable_data value.entry))) }
{
    let id_text = id.to_vec(alloc)?;
    let printed = value.to_vec(alloc)?;
    reply_printed(alloc, id_text.as_slice(), printed.as_slice())
}

/// Returns the same, for an id and a result that are printed already: as compact text. O(n) for a text of n bytes.
pub fn reply_printed(alloc: Global, id: &[u8], printed: &[u8]) -> Result<Vec<u8>, AllocError>
    ensures { IfOk result (λ text. (i d : Data) → id.now ≡ compact_text i → printed.now ≡ compact_text d
        → text.items ≡ compact_text (reply i d)) }
{
    response(alloc, b"null", id, printed)
}

/// Returns the reply of a failure: `{"error":ERROR,"id":ID,"result":null}`. The error is the name alone of
/// `unknown method`, `unknown database`, `unknown monitor` and `canceled`, and `{"error":NAME}` of
/// every other one. O(n) for a text of n bytes.
pub fn failure(alloc: Global, id: Printable<'_>, why: Failure) -> Result<Vec<u8>, AllocError>
    ensures { IfOk result (λ text. text.items
        ≡ compact_text (failure (printable_data id.entry) (failure_of why))) }
{
    let id_text = id.to_vec(alloc)?;
    let error = error_text(alloc, why)?;
    response(alloc, error.as_slice(), id_text.as_slice(), b"null")
}

/// Returns a notification (RFC 7047, section 4): `{"id":null,"method":METHOD,"params":PARAMS}`, for
/// `params` that are printed already: an array, as compact text. O(n) for a text of n bytes.
pub fn notice(alloc: Global, method: &str, params: &[u8]) -> Result<Vec<u8>, AllocError>
    ensures { IfOk result (λ text. (ds : List Data) → params.now ≡ compact_text (array_of ds)
        → text.items ≡ compact_text (notification method.now ds)) }
{
    let mut text = Vec::from_slice(alloc, b"{\"id\":null,\"method\":")?;
    text = with_string(text, method)?;
    text.extend_from_slice(b",\"params\":")?;
    text.extend_from_slice(params)?;
    text.push(b'}')?;
    Ok(text)
}

/// Returns the compact text of the array of one string: the result of `list_dbs` (RFC 7047, section 4.1.1),
/// and the `params` of `locked` and `stolen` (4.1.9, 4.1.10). O(n) for a text of n bytes.
pub fn array_of_one(alloc: Global, name: &str) -> Result<Vec<u8>, AllocError>
    ensures { IfOk result (λ text. text.items ≡ compact_text (array_of (string name.now ∷ []))) }
{
    let mut text = Vec::from_slice(alloc, b"[")?;
    text = with_string(text, name)?;
    text.push(b']')?;
    Ok(text)
}

fn response(alloc: Global, error: &[u8], id: &[u8], printed: &[u8]) -> Result<Vec<u8>, AllocError>
    ensures { IfOk result (λ text. text.items ≡ response_text error.now id.now printed.now) }
{
    let size = error
        .len()
        .saturating_add(id.len())
        .saturating_add(printed.len())
        .saturating_add(26);
    let mut text = Vec::with_capacity(alloc, size)?;
    text.extend_from_slice(b"{\"error\":")?;
    text.extend_from_slice(error)?;
    text.extend_from_slice(b",\"id\":")?;
    text.extend_from_slice(id)?;
    text.extend_from_slice(b",\"result\":")?;
    text.extend_from_slice(printed)?;
    text.push(b'}')?;
    Ok(text)
}

fn error_text(alloc: Global, failure: Failure) -> Result<Vec<u8>, AllocError>
    ensures { IfOk result (λ text. text.items ≡ compact_text (failure_data (failure_of failure))) }
{
    match failure {
        Failure::UnknownMethod => with_string(Vec::new(alloc), "unknown method"),
        Failure::UnknownDatabase => with_string(Vec::new(alloc), "unknown database"),
        Failure::UnknownMonitor => with_string(Vec::new(alloc), "unknown monitor"),
        Failure::Canceled => with_string(Vec::new(alloc), "canceled"),
        Failure::Failed(error) => named_error(alloc, error.name()),
    }
}

fn named_error(alloc: Global, name: &str) -> Result<Vec<u8>, AllocError>
    ensures { IfOk result (λ text. text.items ≡ compact_text (one (codes "error") (string name.now))) }
{
    let mut text = Vec::from_slice(alloc, b"{\"error\":")?;
    text = with_string(text, name)?;
    text.push(b'}')?;
    Ok(text)
}

/// Adds the text of an identifier, with its digits in lower case (RFC 7047, section 5.1, `<uuid>`).
pub(crate) fn with_identifier(text: Vec<u8>, identifier: Uuid) -> Result<Vec<u8>, AllocError>
    ensures { IfOk result (λ longer. longer.items ≡ text.items ++ compact_text (string (uuid_text (uuid_of identifier)))) }
{
    let mut buffer = [0; 36];
    // By its number, since that is what contracts say of an identifier.
    let by_number = Uuid::from_u128(identifier.as_u128());
    let content = by_number.hyphenated().encode_lower(&mut buffer);
    with_string(text, content)
}

#[tactic(auto, using(crate::proofs::Texts::one_printed))]
fn with_string(text: Vec<u8>, content: &str) -> Result<Vec<u8>, AllocError>
    ensures { IfOk result (λ longer. longer.items ≡ text.items ++ compact_text (string content.now)) }
{
    let mut writer = Writer::new(text);
    writer.string(content)?;
    Ok(writer.into_inner())
}
