//! Differences of values (ovsdb-server(7), "update2 notification"): what turns one value of a
//! column into another. [P 9.2]

ghost use Rattle.std.specs.Prelude.{◌≡◌, IfOk};
ghost use Rattle.odb_atoms.specs.Difference as model;
ghost use Rattle.odb_atoms.specs.Value.{is_map};
ghost use Rattle.odb_atoms.specs.Represented.ColType.{type_of};
ghost use Rattle.odb_atoms.specs.Represented.Value.{AreAscending, HaveAscendingKeys, map_in, set_in};

use crate::atom::Atom;
use crate::column_type::ColType;
use crate::entry;
use crate::value::{Entries, Value};
use odb_chunks::Items;
use std::alloc::{AllocError, Global};

/// Returns what leads from the old value of a column to the new one (ovsdb-server(7), "update2
/// notification"): with `max` 1 the new value itself; of sets the elements that are in exactly one
/// of the two; of maps the pairs whose key is in one alone, and, where both have the key with other
/// values, the new pair.
///
/// Both values are of the column's kind: two sets, or two maps. (Of a set and a map, which no
/// column mixes, the result is the new one.) Applied to the old value, the difference gives the new
/// one.
///
/// O(m + n), and the bytes copied.
pub fn difference(
    alloc: Global,
    old: &Value,
    new: &Value,
    column: &ColType,
) -> Result<Value, AllocError>
    ensures value { IfOk result (λ d. d ≡ model.difference old.now new.now (type_of column.now)) }
    ensures undone { IfOk result (λ d.
        is_map old.now ≡ is_map new.now
        → model.apply old.now d (type_of column.now) ≡ new.now) }
{
    if column.is_single() {
        new.try_copy(alloc)
    } else {
        changed(alloc, old, new)
    }
}

impl Value {
    /// Returns what the difference makes of this value of a column (ovsdb-server(7), "update2
    /// notification"): with `max` 1 the difference itself; of sets the elements that are in exactly
    /// one of the two; of maps this value's pairs and those of the difference, without the pairs
    /// that both have, and with the difference's pair where both have the key.
    ///
    /// Both values are of the column's kind: two sets, or two maps. (Of a set and a map, which no
    /// column mixes, the result is the difference.) `difference` says that it is undone here.
    ///
    /// O(m + n), and the bytes copied.
    pub fn apply(
        &self,
        alloc: Global,
        change: &Value,
        column: &ColType,
    ) -> Result<Value, AllocError>
        ensures { IfOk result (λ v. v ≡ model.apply self.now change.now (type_of column.now)) }
    {
        // What leads from one value to another leads back: what is in exactly one of the two.
        difference(alloc, self, change, column)
    }
}

/// Returns the elements that are in exactly one of two sets, or the pairs by which two maps differ: those whose
/// key one alone has, and where both have the key with other values the second's. Of a set and a map it is
/// the second. O(m + n), and the bytes copied; where the second has less than a sixteenth of the first's entries, and that has
/// 512 or more, O(m + n / 256 + m log n) for m of the second and n of the first, once the first came of such a call.
pub fn changed(alloc: Global, left: &Value, right: &Value) -> Result<Value, AllocError>
    ensures { IfOk result (λ d. d ≡ model.changed left.now right.now) }
{
    match (left.entries(), right.entries()) {
        (Entries::Set(old), Entries::Set(new)) => {
            let Some(chunks) = left.element_chunks() else {
                return changed_elements(alloc, &old, &new);
            };
            let Some(few) = entry::few_for(old.len(), chunks.len(), &new) else {
                return changed_elements(alloc, &old, &new);
            };
            Value::of_element_chunks(alloc, entry::changed_in_chunks(alloc, chunks, few)?)
        }
        (Entries::Map(old), Entries::Map(new)) => {
            let Some(chunks) = left.pair_chunks() else {
                return changed_pairs(alloc, &old, &new);
            };
            let Some(few) = entry::few_for(old.len(), chunks.len(), &new) else {
                return changed_pairs(alloc, &old, &new);
            };
            Value::of_pair_chunks(alloc, entry::changed_in_chunks(alloc, chunks, few)?)
        }
        _ => right.try_copy(alloc),
    }
}

/// Makes the set of the elements that are in exactly one of two sets.
fn changed_elements(
    alloc: Global,
    old: &Items<'_, Atom>,
    new: &Items<'_, Atom>,
) -> Result<Value, AllocError>
    requires old { AreAscending old.now }
    requires new { AreAscending new.now }
    ensures { IfOk result (λ d. d ≡ model.changed (set_in old.now) (set_in new.now)) }
{
    Ok(Value::of_elements(entry::changed(alloc, old, new)?))
}

/// Makes the map of the pairs by which two maps differ.
fn changed_pairs(
    alloc: Global,
    old: &Items<'_, (Atom, Atom)>,
    new: &Items<'_, (Atom, Atom)>,
) -> Result<Value, AllocError>
    requires old { HaveAscendingKeys old.now }
    requires new { HaveAscendingKeys new.now }
    ensures { IfOk result (λ d. d ≡ model.changed (map_in old.now) (map_in new.now)) }
{
    Ok(Value::of_pairs(entry::changed(alloc, old, new)?))
}
