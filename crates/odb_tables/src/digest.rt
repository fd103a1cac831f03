//! Digests: numbers by which rows with certain values in some columns are found.
ghost use Rattle.std.specs.Prelude.{◌≡◌, [], ◌∷◌, IfSome, IsTrue, map};
ghost use Rattle.odb_atoms.specs.Represented.Atom.{atom_of};
ghost use Rattle.odb_atoms.specs.Represented.Value.{pair_of};
ghost use Rattle.odb_atoms.specs.Row as model_row;
ghost use Rattle.odb_atoms.specs.Row.{cell, declared};
ghost use Rattle.odb_atoms.specs.Uuid as model_uuid;
ghost use Rattle.odb_atoms.specs.Uuid.{zero_uuid};
ghost use Rattle.odb_cond.specs.Condition.{holds, holds_all};
ghost use Rattle.odb_tables.specs.Indexed.{cells_at};
ghost use Rattle.odb_tables.specs.Represented.Digest as spec;

use crate::key::Key;
use crate::row_test::required;
use odb_atoms::{Atom, Entries, Row, Value};
use odb_chunks::Items;
use odb_cond::{Clause, Where};
use std::hash::{BuildHasher, DefaultHasher, Hash, Hasher, RandomState};

/// Returns the digest of what the row has in the columns at the places. Rows with the same values there have
/// the same; others seldom have. O(the bytes of the values).
pub(crate) fn of_row(hashing: RandomState, places: &[usize], row: &Row) -> Key
    ensures { result ≡ spec.digest hashing (cells_at places.now row.now) }
{
    let mut state = hashing.build_hasher();
    for place in places {
        feed_cell(&mut state, row, *place);
    }
    Key::of_hash(state.finish())
}

/// Returns the digest of what each row that matches has in the columns at the places, where the conditions ask
/// a value of each of these columns by `==`. O(the conditions) for each place, and the bytes of the values.
pub(crate) fn of_matches(hashing: RandomState, places: &[usize], conditions: &Where) -> Option<Key>
    ensures { IfSome result (λ key. (u : model_uuid.Uuid) (r : model_row.Row)
        → IsTrue (holds_all conditions.now u r) → key ≡ spec.digest hashing (cells_at places.now r)) }
{
    let mut state = hashing.build_hasher();
    for place in places {
        let value = conditions.required(*place)?;
        feed_value(&mut state, value);
    }
    Some(Key::of_hash(state.finish()))
}

/// Returns the digest of what each row of which the condition holds has in the columns at the places, where there is one
/// such column, and the condition asks a value of it by `==`. O(the bytes of the value).
pub(crate) fn of_asked(hashing: RandomState, places: &[usize], condition: &Clause) -> Option<Key>
    ensures { IfSome result (λ key. (u : model_uuid.Uuid) (r : model_row.Row)
        → IsTrue (holds condition.now u r) → key ≡ spec.digest hashing (cells_at places.now r)) }
{
    let [place] = places else {
        return None;
    };
    let value = required(condition, *place)?;
    Some(of_value(hashing, value))
}

/// Returns the digest of what a row has that has this value in the only column. O(the bytes of the value).
fn of_value(hashing: RandomState, value: &Value) -> Key
    ensures { result ≡ spec.digest hashing (value.now ∷ []) }
{
    let mut state = hashing.build_hasher();
    feed_value(&mut state, value);
    Key::of_hash(state.finish())
}

/// Feeds what the row has in the column at the place.
fn feed_cell(state: &mut DefaultHasher, row: &Row, place: usize)
    ensures { state.new ≡ spec.after_value state.old (cell zero_uuid row.now (declared place)) }
{
    match row.get(place) {
        Some(value) => feed_value(state, value),
        None => {}
    }
}

/// Feeds a hasher the atoms of a value: those of a set in their order, of a map each key with its value after it. O(the value's bytes).
pub fn feed_value(state: &mut DefaultHasher, value: &Value)
    ensures { state.new ≡ spec.after_value state.old value.now }
{
    match value.entries() {
        Entries::Set(elements) => feed_elements(state, &elements),
        Entries::Map(pairs) => feed_pairs(state, &pairs),
    }
}

fn feed_elements(state: &mut DefaultHasher, elements: &Items<'_, Atom>)
    ensures { state.new ≡ spec.after_atoms state.old (map atom_of elements.now) }
{
    for element in elements.iter() {
        feed_atom(state, element);
    }
}

fn feed_pairs(state: &mut DefaultHasher, pairs: &Items<'_, (Atom, Atom)>)
    ensures { state.new ≡ spec.after_pairs state.old (map pair_of pairs.now) }
{
    for pair in pairs.iter() {
        feed_atom(state, &pair.0);
        feed_atom(state, &pair.1);
    }
}

fn feed_atom(state: &mut DefaultHasher, atom: &Atom)
    ensures { state.new ≡ spec.after_atom state.old (atom_of atom.now) }
{
    match atom {
        Atom::Integer(integer) => integer.hash(state),
        Atom::Boolean(boolean) => boolean.hash(state),
        Atom::Text(text) => text.as_str().hash(state),
        Atom::SharedText(text) => text.as_str().hash(state),
        Atom::Uuid(uuid) => Key::of(*uuid).hash(state),
    }
}
