//! Sets of atoms in the notation of RFC 7047, section 5.1 (`<set>`), and `enum` (section 3.2). [P 1.5]

ghost use Rattle.std.specs.Prelude.{◌≡◌, map};
ghost use Rattle.serde_json.specs.View.{items_view, view};
ghost use Rattle.odb_atoms.specs.Represented.Atom.{atom_of, kind_in};
ghost use Rattle.odb_schema.specs.SchemaText as model;
ghost use Rattle.odb_schema.specs.Represented.Fault.{Reads};
ghost use Rattle.odb_schema.specs.Represented.Parts as parts;

use super::atom::read_atom;
use crate::fault::SchemaFault;
use crate::notation::tagged;
use odb_atoms::{Atom, Enumeration, Kind};
use serde_json::Value;
use std::alloc::Global;

/// Reads the atoms of an array, in its order.
fn read_atoms(alloc: Global, kind: Kind, items: &[Value]) -> Result<Vec<Atom>, SchemaFault>
    ensures { Reads (λ v. map atom_of v.items) result
        (parts.atoms_in (kind_in kind) (items_view items.now)) }
{
    let mut atoms = Vec::with_capacity(alloc, items.len())?;
    for item in items {
        atoms.push(read_atom(alloc, kind, item)?)?;
    }
    Ok(atoms)
}

/// Reads the set of an array's atoms, of which none may stand twice.
fn read_elements(
    alloc: Global,
    kind: Kind,
    items: &[Value],
) -> Result<odb_atoms::Value, SchemaFault>
    ensures { Reads (λ v. v) result
        (parts.as_value (parts.elements_in (kind_in kind) (items_view items.now))) }
{
    let atoms = read_atoms(alloc, kind, items)?;
    match odb_atoms::Value::set(atoms) {
        Ok(set) => Ok(set),
        Err(_) => Err(SchemaFault::BadType),
    }
}

/// Reads a set, or an atom alone for one element.
fn read_set(alloc: Global, kind: Kind, value: &Value) -> Result<odb_atoms::Value, SchemaFault>
    ensures { Reads (λ v. v) result
        (parts.as_value (parts.set_in (kind_in kind) (view value.now))) }
{
    let Some(content) = tagged("set", value) else {
        return Ok(odb_atoms::Value::one(read_atom(alloc, kind, value)?));
    };
    match content.as_array() {
        None => Err(SchemaFault::BadType),
        Some(items) => read_elements(alloc, kind, items.as_slice()),
    }
}

/// Returns the JSON kinds that a value has: all but null, an object, and a number that is no integer.
fn is_value_json(value: &Value) -> bool
    ensures { result ≡ model.is_value_json (view value.now) }
{
    match value {
        Value::Null | Value::Object(_) => false,
        Value::Number(_) => value.as_i64().is_some(),
        Value::Bool(_) | Value::String(_) | Value::Array(_) => true,
    }
}

/// Reads `enum`: at least one atom of the kind.
pub fn read_enum(alloc: Global, kind: Kind, value: &Value) -> Result<Enumeration, SchemaFault>
    ensures { Reads (λ allowed. allowed) result (model.read_enum (kind_in kind) (view value.now)) }
{
    if !is_value_json(value) {
        return Err(SchemaFault::Syntax);
    }
    let atoms = read_set(alloc, kind, value)?;
    if atoms.is_empty() {
        return Err(SchemaFault::BadType);
    }
    Ok(Enumeration::new(atoms))
}
