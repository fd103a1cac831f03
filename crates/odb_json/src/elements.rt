//! Sets (RFC 7047, section 5.1, `<set>`). [P 2.3]

ghost use Rattle.std.specs.Prelude.{◌≡◌, ◌++◌, map, option_map, IfOk};
ghost use Rattle.serde_json.specs.View.{items_view, view};
ghost use Rattle.odb_atoms.specs.FinSet as set;
ghost use Rattle.odb_atoms.specs.Represented.Atom.{atom_of, kind_in};
ghost use Rattle.odb_atoms.specs.Represented.Error.{error_of};
ghost use Rattle.odb_schema.specs.Notation as notation;
ghost use Rattle.odb_json.specs.Represented.Fault.{Reads};
ghost use Rattle.odb_json.specs.Represented.Parts as parts;
ghost use Rattle.odb_json.specs.Represented.Parts.{set_value};

use crate::atom::{SYNTAX, read_atom};
use crate::fault::OpFault;
use crate::names::Names;
use odb_atoms::{Atom, Error, Kind};
use odb_schema::tagged;
use serde_json::Value;
use std::alloc::{AllocError, Global};

/// The elements in front of the first fault, and that fault.
#[derive(Drop)]
struct FrontElements {
    elements: Vec<Atom>,
    fault: Option<Error>,
}

/// Reads an element and adds it to those in front, or says what its fault is.
fn append(
    alloc: Global,
    kind: Kind,
    value: &Value,
    names: Option<&Names>,
    elements: &mut Vec<Atom>,
) -> Result<Option<Error>, AllocError>
    ensures elements { IfOk result (λ _. map atom_of elements.new.items
        ≡ map atom_of elements.old.items
        ++ (parts.atom_front (option_map (λ n. n.now) names.entry) (kind_in kind)
        (view value.now)).0) }
    ensures fault { IfOk result (λ fault. option_map error_of fault
        ≡ (parts.atom_front (option_map (λ n. n.now) names.entry) (kind_in kind)
        (view value.now)).1) }
{
    match read_atom(alloc, kind, value, names) {
        Ok(atom) => {
            elements.push(atom)?;
            Ok(None)
        }
        Err(OpFault::Failed(error)) => Ok(Some(error)),
        Err(OpFault::Memory) => Err(AllocError),
    }
}

fn read_front(
    alloc: Global,
    kind: Kind,
    items: &[Value],
    names: Option<&Names>,
) -> Result<FrontElements, AllocError>
    ensures elements { IfOk result (λ front. map atom_of front.elements.items
        ≡ (parts.elements_front (option_map (λ n. n.now) names.entry) (kind_in kind)
        (items_view items.now)).0) }
    ensures fault { IfOk result (λ front. option_map error_of front.fault
        ≡ (parts.elements_front (option_map (λ n. n.now) names.entry) (kind_in kind)
        (items_view items.now)).1) }
{
    let mut elements = Vec::with_capacity(alloc, items.len())?;
    for item in items {
        let fault = append(alloc, kind, item, names, &mut elements)?;
        if fault.is_some() {
            return Ok(FrontElements { elements, fault });
        }
    }
    Ok(FrontElements {
        elements,
        fault: None,
    })
}

/// Reads the set of an array's elements, of which none may stand twice. Those in front of the first fault
/// are sorted before it counts, since one among them that stands twice is an earlier fault.
fn read_elements(
    alloc: Global,
    kind: Kind,
    items: &[Value],
    names: Option<&Names>,
) -> Result<odb_atoms::Value, OpFault>
    ensures { Reads (λ v. v) result (set_value (notation.read_elements
        (option_map (λ n. n.now) names.entry) (kind_in kind) set.empty (items_view items.now))) }
{
    let front = read_front(alloc, kind, items, names)?;
    let Ok(set) = odb_atoms::Value::set(front.elements) else {
        return Err(SYNTAX);
    };
    match front.fault {
        None => Ok(set),
        Some(error) => Err(OpFault::Failed(error)),
    }
}

/// Reads a set, or an atom alone for one element. O(n log n) comparisons for n elements.
pub fn read_set(
    alloc: Global,
    kind: Kind,
    value: &Value,
    names: Option<&Names>,
) -> Result<odb_atoms::Value, OpFault>
    ensures { Reads (λ v. v) result (set_value
        (notation.read_set (option_map (λ n. n.now) names.entry) (kind_in kind) (view value.now))) }
{
    let Some(content) = tagged("set", value) else {
        return Ok(odb_atoms::Value::one(read_atom(alloc, kind, value, names)?));
    };
    match content.as_array() {
        None => Err(SYNTAX),
        Some(items) => read_elements(alloc, kind, items.as_slice(), names),
    }
}
