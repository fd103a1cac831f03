//! Replies and notifications around a body that several of them share: what comes before it, and
//! what after it (RFC 7047, sections 4.1.5 and 4.1.6; ovsdb-server(7), 4.1.14).
ghost use Rattle.std.specs.Prelude.{◌≡◌, ◌++◌, ◌∷◌, [], IfOk};
ghost use Rattle.serde_json.specs.Data.{Data};
ghost use Rattle.serde_json.specs.Written.{compact_text};
ghost use Rattle.odb_request.specs.Represented.Notation.{notation_of};
ghost use Rattle.odb_request.specs.Request.{update_method};
ghost use Rattle.odb_rpc.specs.Message.{notification, reply};
ghost use Rattle.odb_rpc.specs.Represented.Printable.{printable_data};
ghost use Rattle.odb_rpc.specs.Represented.Shared.{after_result, after_updates};

use crate::printable::Printable;
use odb_request::Notation;
use std::alloc::{AllocError, Global};

/// How many bytes stand around a monitor's id before table updates at most.
pub(crate) const MOST_AROUND: usize = 96;

/// Returns what comes before the result in the reply of a success (RFC 7047, section 4):
/// `{"error":null,"id":ID,"result":`. The result's compact text comes next, and then
/// `after_result`.
///
/// O(n) for an id of n bytes.
pub fn before_result(alloc: Global, id: Printable<'_>) -> Result<Vec<u8>, AllocError>
    ensures { IfOk result (λ text. (d : Data)
        → text.items ++ (compact_text d ++ after_result) ≡ compact_text (reply (printable_data id.entry) d)) }
{
    let id_text = id.to_vec(alloc)?;
    before_result_printed(alloc, id_text.as_slice())
}

/// Returns the same, for an id that is printed already: as compact text. O(n) for an id of n bytes.
pub fn before_result_printed(alloc: Global, id: &[u8]) -> Result<Vec<u8>, AllocError>
    ensures { IfOk result (λ text. (i d : Data) → id.now ≡ compact_text i
        → text.items ++ (compact_text d ++ after_result) ≡ compact_text (reply i d)) }
{
    let mut text = Vec::from_slice(alloc, b"{\"error\":null,\"id\":")?;
    text.extend_from_slice(id)?;
    text.extend_from_slice(b",\"result\":")?;
    Ok(text)
}

/// Returns what comes after the result in a reply: `}`. O(1).
pub fn after_result() -> &'static [u8]
    ensures { result.now ≡ after_result }
{
    b"}"
}

/// Returns what comes before the table updates in a notification (RFC 7047, section 4.1.6; ovsdb-server(7),
/// 4.1.14) of the monitor with this id, which is printed already, as compact text:
/// `{"id":null,"method":METHOD,"params":[ID,`. The updates' compact text comes next, and then `after_updates`. The method is
/// `update` or, of `monitor_cond`, `update2`.
///
/// O(n) for an id of n bytes.
pub fn before_updates(
    alloc: Global,
    notation: Notation,
    monitor: &[u8],
) -> Result<Vec<u8>, AllocError>
    ensures { IfOk result (λ text. (i d : Data) → monitor.now ≡ compact_text i → text.items ++ (compact_text d ++ after_updates)
        ≡ compact_text (notification (update_method (notation_of notation)) (i ∷ d ∷ []))) }
{
    let room = monitor.len().saturating_add(MOST_AROUND);
    let mut text = Vec::with_capacity(alloc, room)?;
    text.extend_from_slice(b"{\"id\":null,\"method\":\"")?;
    text.extend_from_slice(notation.update_method().as_bytes())?;
    text.extend_from_slice(b"\",\"params\":[")?;
    text.extend_from_slice(monitor)?;
    text.push(b',')?;
    Ok(text)
}

/// Returns what comes after the table updates in a notification: `]}`. O(1).
pub fn after_updates() -> &'static [u8]
    ensures { result.now ≡ after_updates }
{
    b"]}"
}
