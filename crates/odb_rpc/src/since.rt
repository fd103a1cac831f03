//! Texts around table updates that have the number of a commit: those of the reply to `monitor_cond_since`, and of
//! `update3` (ovsdb-server(7), 4.1.15 and 4.1.16). [P 9.8]
ghost use Rattle.std.specs.Prelude.{◌≡◌, ◌++◌, IfOk};
ghost use Rattle.serde_json.specs.Data.{Data};
ghost use Rattle.serde_json.specs.Written.{compact_text};
ghost use Rattle.odb_atoms.specs.Represented.Atom.{uuid_of};
ghost use Rattle.odb_rpc.specs.Message.{reply};
ghost use Rattle.odb_rpc.specs.Represented.Shared.{after_result, after_updates};
ghost use Rattle.odb_rpc.specs.Represented.Since.{before_found};
ghost use Rattle.odb_rpc.specs.Since.{since_result, update3};

use crate::shared::MOST_AROUND;
use crate::text::with_identifier;
use std::alloc::{AllocError, Global};
use uuid::Uuid;

/// Makes what comes before the table updates in the reply of `monitor_cond_since` (ovsdb-server(7), 4.1.15), of what
/// comes before the result: it says whether the client's commit was found, and which one is the newest, as in
/// `{"error":null,"id":ID,"result":[FOUND,"NUMBER",`. The updates' compact text comes next, and then `after_updates`.
/// O(1).
pub fn before_since(before: Vec<u8>, found: bool, number: Uuid) -> Result<Vec<u8>, AllocError>
    ensures { IfOk result (λ text. (id d : Data)
        → ((r : Data) → before.items ++ (compact_text r ++ after_result) ≡ compact_text (reply id r))
        → text.items ++ (compact_text d ++ after_updates) ≡ compact_text (reply id (since_result found (uuid_of number) d))) }
{
    let mut text = before;
    text.extend_from_slice(before_found(found))?;
    text = with_identifier(text, number)?;
    text.push(b',')?;
    Ok(text)
}

/// Returns what comes before the number of the newest commit.
fn before_found(found: bool) -> &'static [u8]
    ensures { result.now ≡ before_found found }
{
    if found {
        return b"[true,";
    }
    b"[false,"
}

/// Makes what comes before the table updates in an `update3` (ovsdb-server(7), 4.1.16) of the monitor with this id, which is
/// printed already, as compact text; it says which commit is the newest: `{"id":null,"method":"update3","params":[ID,"NUMBER",`.
/// The updates' compact text comes next, and then `after_updates`.
///
/// O(n) for an id of n bytes.
pub fn before_update3(alloc: Global, monitor: &[u8], number: Uuid) -> Result<Vec<u8>, AllocError>
    ensures { IfOk result (λ text. (i d : Data) → monitor.now ≡ compact_text i
        → text.items ++ (compact_text d ++ after_updates) ≡ compact_text (update3 i (uuid_of number) d)) }
{
    let room = monitor.len().saturating_add(MOST_AROUND);
    let mut text = Vec::with_capacity(alloc, room)?;
    text.extend_from_slice(b"{\"id\":null,\"method\":\"update3\",\"params\":[")?;
    text.extend_from_slice(monitor)?;
    text.push(b',')?;
    text = with_identifier(text, number)?;
    text.push(b',')?;
    Ok(text)
}
