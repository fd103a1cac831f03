//! Lists of elements that become sets. [P 3.3]

ghost use Rattle.std.specs.Prelude.{◌≡◌, ◌++◌, ◌∷◌, [], false, map, filter, not, None, OnOk};
ghost use Rattle.odb_atoms.specs.Members.{has, set_fault};
ghost use Rattle.odb_atoms.specs.Represented.Atom.{atom_of};
ghost use Rattle.odb_atoms.specs.Value as model;
ghost use Rattle.odb_atoms.specs.Value.{atoms, is_map};
ghost use Rattle.odb_mutate.specs.Represented.Kinds.{HasOneElement, elements_in};

use odb_atoms::{Atom, Entries, Value};
use odb_chunks::Items;
use std::alloc::{AllocError, Global};

/// Returns the elements of a set, in ascending order.
pub fn of(value: &Value) -> Items<'_, Atom>
    requires { is_map value.now ≡ false }
    ensures { map atom_of result ≡ elements_in value.now }
{
    match value.entries() {
        Entries::Set(elements) => elements,
        Entries::Map(_) => unreachable!(),
    }
}

/// Returns the one element of a set.
pub fn lone(value: &Value) -> &Atom
    requires { HasOneElement value.now }
    ensures { elements_in value.now ≡ atom_of result.now ∷ [] }
{
    let Some(element) = of(value).lone() else {
        unreachable!();
    };
    element
}

/// Adds copies of the elements that the value doesn't have to the list. O(log n) comparisons for
/// each of them, for a value of n elements or keys.
pub fn append_others(
    alloc: Global,
    elements: &Items<'_, Atom>,
    value: &Value,
    list: &mut Vec<Atom>,
) -> Result<(), AllocError>
    ensures { OnOk result
        (map atom_of list.new.items
        ≡ map atom_of list.old.items
        ++ map atom_of (filter (λ a. not (has value.now (atom_of a))) elements.now)) }
{
    for element in elements.iter() {
        if !value.contains(element) {
            list.push(element.try_copy(alloc)?)?;
        }
    }
    Ok(())
}

/// Adds to the list copies of those elements that the value has. O(log n) comparisons for each of
/// them, for a value of n elements or keys.
pub fn append_common(
    alloc: Global,
    elements: &Items<'_, Atom>,
    value: &Value,
    list: &mut Vec<Atom>,
) -> Result<(), AllocError>
    ensures { OnOk result
        (map atom_of list.new.items
        ≡ map atom_of list.old.items
        ++ map atom_of (filter (λ a. has value.now (atom_of a)) elements.now)) }
{
    for element in elements.iter() {
        if value.contains(element) {
            list.push(element.try_copy(alloc)?)?;
        }
    }
    Ok(())
}

/// Makes the set of distinct elements of one kind.
pub fn set_of(elements: Vec<Atom>) -> Value
    requires { set_fault (map atom_of elements.items) ≡ None }
    ensures { result ≡ model.set_of (atoms (map atom_of elements.items)) }
{
    match Value::set(elements) {
        Ok(value) => value,
        Err(_) => unreachable!(),
    }
}
