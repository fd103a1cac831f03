//! Lists of pairs that become maps. [P 3.3]

ghost use Rattle.std.specs.Prelude.{◌≡◌, ◌++◌, map, filter, filter_map, not, option_to_list, None, IfOk, OnOk};
ghost use Rattle.odb_atoms.specs.FinMap as finite;
ghost use Rattle.odb_atoms.specs.Members.{has, map_fault};
ghost use Rattle.odb_atoms.specs.Represented.Atom.{atom_of};
ghost use Rattle.odb_atoms.specs.Represented.Value.{pair_of};
ghost use Rattle.odb_atoms.specs.Value as model;
ghost use Rattle.odb_mutate.specs.Represented.Kinds.{has_at, pair_at};

use odb_atoms::{Atom, Value};
use odb_chunks::Items;
use std::alloc::{AllocError, Global};

/// Adds copies of the pairs whose key the value doesn't have to the list. O(log n) comparisons for
/// each of them, for a value of n elements or keys.
pub fn append_others(
    alloc: Global,
    pairs: &Items<'_, (Atom, Atom)>,
    value: &Value,
    list: &mut Vec<(Atom, Atom)>,
) -> Result<(), AllocError>
    ensures { OnOk result
        (map pair_of list.new.items
        ≡ map pair_of list.old.items
        ++ map pair_of (filter (λ p. not (has value.now (atom_of p.0))) pairs.now)) }
{
    for pair in pairs.iter() {
        if !value.contains(&pair.0) {
            list.push(copy_of(alloc, pair)?)?;
        }
    }
    Ok(())
}

/// Adds to the list copies of those pairs that the map has. O(log n) comparisons for each of them,
/// for a map of n pairs.
pub fn append_common(
    alloc: Global,
    pairs: &Items<'_, (Atom, Atom)>,
    value: &Value,
    list: &mut Vec<(Atom, Atom)>,
) -> Result<(), AllocError>
    ensures { OnOk result
        (map pair_of list.new.items
        ≡ map pair_of list.old.items
        ++ map pair_of (filter (λ p. has_at value.now (pair_of p)) pairs.now)) }
{
    for pair in pairs.iter() {
        if has_pair(value, pair) {
            list.push(copy_of(alloc, pair)?)?;
        }
    }
    Ok(())
}

/// Adds to the list copies of the map's own pairs at the keys. O(log n) comparisons for each key, for
/// a map of n pairs.
pub fn append_at(
    alloc: Global,
    keys: &Items<'_, Atom>,
    value: &Value,
    list: &mut Vec<(Atom, Atom)>,
) -> Result<(), AllocError>
    ensures { OnOk result
        (map pair_of list.new.items
        ≡ map pair_of list.old.items ++ filter_map (pair_at value.now) (map atom_of keys.now)) }
{
    for key in keys.iter() {
        append_one_at(alloc, key, value, list)?;
    }
    Ok(())
}

/// Adds to the list a copy of the map's own pair at the key, if there is one.
fn append_one_at(
    alloc: Global,
    key: &Atom,
    value: &Value,
    list: &mut Vec<(Atom, Atom)>,
) -> Result<(), AllocError>
    ensures { OnOk result
        (map pair_of list.new.items
        ≡ map pair_of list.old.items ++ option_to_list (pair_at value.now (atom_of key.now))) }
{
    let Some(at_key) = value.get(key) else {
        return Ok(());
    };
    list.push((key.try_copy(alloc)?, at_key.try_copy(alloc)?))?;
    Ok(())
}

/// Returns whether the map has the pair.
fn has_pair(value: &Value, pair: &(Atom, Atom)) -> bool
    ensures { result ≡ has_at value.now (pair_of pair.now) }
{
    match value.get(&pair.0) {
        Some(at_key) => *at_key == pair.1,
        None => false,
    }
}

fn copy_of(alloc: Global, pair: &(Atom, Atom)) -> Result<(Atom, Atom), AllocError>
    ensures { IfOk result (λ copy. pair_of copy ≡ pair_of pair.now) }
{
    Ok((pair.0.try_copy(alloc)?, pair.1.try_copy(alloc)?))
}

/// Makes the map of pairs of one kind each, with distinct keys.
pub fn map_of(pairs: Vec<(Atom, Atom)>) -> Value
    requires { map_fault (map pair_of pairs.items) ≡ None }
    ensures { result ≡ model.map_of (finite.from_entries (map pair_of pairs.items)) }
{
    match Value::map(pairs) {
        Ok(value) => value,
        Err(_) => unreachable!(),
    }
}
