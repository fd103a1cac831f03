//! The names that a transaction gives to the rows that it inserts (RFC 7047, section 5.2.1,
//! `uuid-name`). [P 6.2]
ghost use Rattle.std.specs.Prelude.{◌≡◌, cond, codes, IfOk, OnOk, map, option_map, string_bytes};
ghost use Rattle.serde_json.specs.View.{view};
ghost use Rattle.odb_atoms.specs.Represented.Atom.{uuid_of};
ghost use Rattle.odb_json.specs.Operation.{is_insert};
ghost use Rattle.odb_json.specs.Represented.Fault.{Reads};
ghost use Rattle.odb_ops.specs.Execution as model;
ghost use Rattle.odb_ops.specs.Represented.Parts.{bound, claimed};
ghost use Rattle.odb_schema.specs.Json.{string_member};

use crate::fresh::{identifier_of, remaining_uuids, string_member};
use odb_atoms::Error;
use odb_json::{Names, OpFault, is_insert};
use serde_json::Value;
use std::alloc::{AllocError, Global};
use uuid::Uuid;

/// Lets the name stand for the identifier, unless it stands for another.
fn bind(alloc: Global, names: &mut Names, name: Option<&str>, uuid: Uuid) -> Result<(), AllocError>
    ensures { OnOk result (names.new
        ≡ bound (option_map (λ text. text.now) name.entry) (uuid_of uuid) names.old) }
{
    let Some(name) = name else {
        return Ok(());
    };
    if names.get(name).is_some() {
        return Ok(());
    }
    let name = String::from_str(alloc, name)?;
    drop(names.insert(name, uuid)?);
    Ok(())
}

/// Does the same for the name of an operation, if it is an insert.
fn bind_insert(
    alloc: Global,
    names: &mut Names,
    operation: &Value,
    uuid: Uuid,
) -> Result<(), AllocError>
    ensures { OnOk result (names.new
        ≡ cond (is_insert (view operation.now))
        (bound (string_member (codes "uuid-name") (view operation.now)) (uuid_of uuid) names.old)
        names.old) }
{
    if !is_insert(operation) {
        return Ok(());
    }
    bind(alloc, names, string_member("uuid-name", operation), uuid)
}

/// Returns what the names of a transaction stand for: each insert takes the next identifier, in whose place
/// one has its own, and a name stands for that of the first insert that has it. O(log n) for each of
/// n names.
pub fn names_of(alloc: Global, operations: &[Value], fresh: &[Uuid]) -> Result<Names, AllocError>
    ensures { IfOk result (λ names. names
        ≡ model.names_of (map view operations.now) (map uuid_of fresh.now)) }
{
    let mut names = Names::new(alloc);
    let mut left = fresh;
    for operation in operations {
        bind_insert(alloc, &mut names, operation, identifier_of(operation, left))?;
        left = remaining_uuids(operation, left);
    }
    Ok(names)
}

/// Takes the name of an insert, where it has one, which no insert may have had (`duplicate uuid-name`).
/// O(log n) for n names that were taken.
pub fn claim(taken: &mut Names, name: Option<String>, uuid: Uuid) -> Result<(), OpFault>
    ensures { Reads (λ _. taken.new) result
        (claimed (option_map string_bytes name) (uuid_of uuid) taken.old) }
{
    let Some(name) = name else {
        return Ok(());
    };
    if taken.get(name.as_str()).is_some() {
        return Err(OpFault::Failed(Error::DuplicateUuidName));
    }
    drop(taken.insert(name, uuid)?);
    Ok(())
}
