//! The identifiers of inserts. [P 6.2]
ghost use Rattle.std.specs.Prelude.{◌≡◌, map, option_map};
ghost use Rattle.serde_json.specs.View.{view};
ghost use Rattle.odb_atoms.specs.Represented.Atom.{uuid_of};
ghost use Rattle.odb_ops.specs.Execution as model;
ghost use Rattle.odb_schema.specs.Json as json;

use odb_json::{is_insert, read_own_uuid};
use odb_schema::member;
use serde_json::Value;
use uuid::Uuid;

/// Returns the member of an object, where it is a string.
pub fn string_member<'a>(key: &str, value: &'a Value) -> Option<&'a str>
    ensures { option_map (λ text. text.now) result ≡ json.string_member key.now (view value.now) }
{
    member(key, value.as_object()?)?.as_str()
}

/// Returns the first of the identifiers that are left, and zero where there is none.
pub fn next_uuid(fresh: &[Uuid]) -> Uuid
    ensures { uuid_of result ≡ model.first_fresh (map uuid_of fresh.now) }
{
    match fresh.first() {
        Some(uuid) => *uuid,
        None => Uuid::nil(),
    }
}

/// Returns what an insert has of its own under `uuid` (ovsdb-server(7), 5.2.1), where it can be read. O(log n)
/// comparisons of names for n members.
fn own_uuid(operation: &Value) -> Option<Uuid>
    ensures { option_map uuid_of result ≡ model.own_uuid (view operation.now) }
{
    match read_own_uuid(member("uuid", operation.as_object()?)?) {
        Ok(uuid) => Some(uuid),
        Err(_) => None,
    }
}

/// Returns the identifier of an insert: its own, or the first of those that are left.
pub fn identifier_of(operation: &Value, fresh: &[Uuid]) -> Uuid
    ensures { uuid_of result ≡ model.identifier_of (view operation.now) (map uuid_of fresh.now) }
{
    match own_uuid(operation) {
        Some(uuid) => uuid,
        None => next_uuid(fresh),
    }
}

/// Returns the identifiers that are left after the operation.
pub fn remaining_uuids<'a>(operation: &Value, fresh: &'a [Uuid]) -> &'a [Uuid]
    ensures { map uuid_of result.now
        ≡ model.fresh_after (view operation.now) (map uuid_of fresh.now) }
{
    match fresh {
        [_, rest @ ..] if is_insert(operation) => rest,
        _ => fresh,
    }
}
