//! Tests of rows: what rows of a table are looked for.
ghost use Rattle.std.specs.Prelude.{◌≡◌, Bool, false, true, IfSome, IsTrue};
ghost use Rattle.std.specs.Bool.{OnTrue};
ghost use Rattle.odb_atoms.specs.FinSet as set;
ghost use Rattle.std.specs.List.{list_all, list_any};
ghost use Rattle.odb_atoms.specs.Represented.Atom.{atom_of, uuid_of};
ghost use Rattle.odb_atoms.specs.Represented.Value.{pair_of};
ghost use Rattle.odb_tables.specs.Represented.Facet.{is_tag};
ghost use Rattle.odb_tables.specs.Represented.RowTest.{have_same_at as same_at, is_in};
ghost use Rattle.odb_atoms.specs.Row.{cell, declared};
ghost use Rattle.odb_atoms.specs.Row as model_row;
ghost use Rattle.odb_atoms.specs.Uuid as model_uuid;
ghost use Rattle.odb_atoms.specs.Uuid.{zero_uuid};
ghost use Rattle.odb_atoms.specs.Value.{is_map, same_value, set_of};
ghost use Rattle.odb_tables.specs.Indexed as indexed;
ghost use Rattle.odb_cond.specs.Condition.{holds, holds_all};
ghost use Rattle.odb_cond.specs.Filter.{selects};
ghost use Rattle.odb_tables.specs.Indexed.{is_twin};

use crate::digest;
use crate::entry::key_of;
use crate::facet::Facet;
use crate::key::Key;
use odb_atoms::{Atom, Entries, Row, Value};
use odb_chunks::Items;
use odb_cond::{Clause, Filter, Function, Selector, Where};
use uuid::Uuid;

/// What rows of a table are looked for: those that pass.
pub(crate) trait Test {
    ghost passes: { Self → model_uuid.Uuid → model_row.Row → Bool };

    /// Returns whether the row is one of them. O(the values compared).
    fn passes(&self, uuid: Uuid, row: &Row) -> bool
        ensures { result ≡ passes self.now (uuid_of uuid) row.now };

    /// Returns a tag that each row that passes has by the facet, if there is one.
    fn tag(&self, facet: &Facet) -> Option<Key>
        ensures { IfSome result (λ tag. (v : model_uuid.Uuid) (s : model_row.Row)
            → passes self.now v s ≡ true → is_tag facet.now tag s ≡ true) };
}

/// Those of which the conditions hold.
impl Test for Where {
    ghost passes = { λ conditions. holds_all conditions };

    fn passes(&self, uuid: Uuid, row: &Row) -> bool {
        self.holds(uuid, row)
    }

    fn tag(&self, facet: &Facet) -> Option<Key> {
        match facet {
            Facet::Values(hashing, places) => {
                digest::of_matches(*hashing, places.as_slice(), self)
            }
            Facet::Mentions(place) => mentioned_by(self, *place),
        }
    }
}

/// Those of which the condition holds.
impl Test for Clause {
    ghost passes = { λ condition. holds condition };

    fn passes(&self, uuid: Uuid, row: &Row) -> bool {
        self.holds(uuid, row)
    }

    fn tag(&self, facet: &Facet) -> Option<Key> {
        match facet {
            Facet::Values(hashing, places) => digest::of_asked(*hashing, places.as_slice(), self),
            Facet::Mentions(place) => mentioned_at(self, *place),
        }
    }
}

/// Those that the filter selects. It has no tag: `Rows::selected` asks its members one by one.
impl Test for Filter {
    ghost passes = { λ filter. selects filter };

    fn passes(&self, uuid: Uuid, row: &Row) -> bool {
        self.holds(uuid, row)
    }

    fn tag(&self, _facet: &Facet) -> Option<Key> {
        None
    }
}

/// Those with the same values in the columns at the places as the row of the identifier, but for that row.
#[derive(Drop)]
pub(crate) struct Twins<'a> {
    pub(crate) places: &'a [usize],
    pub(crate) uuid: Uuid,
    pub(crate) row: &'a Row,
}

impl Test for Twins<'_> {
    ghost passes = { λ twins v s. is_twin twins.places.now (uuid_of twins.uuid) twins.row.now (v, s) };

    fn passes(&self, uuid: Uuid, row: &Row) -> bool {
        Key::of(self.uuid) != Key::of(uuid) && have_same(self.places, self.row, row)
    }

    fn tag(&self, facet: &Facet) -> Option<Key> {
        match facet {
            Facet::Values(hashing, places) => {
                if places.as_slice() != self.places {
                    return None;
                }
                Some(digest::of_row(*hashing, self.places, self.row))
            }
            Facet::Mentions(_) => None,
        }
    }
}

/// Those whose value in the column at the place mentions the identifier.
#[derive(Drop)]
pub(crate) struct Referrers {
    pub(crate) place: usize,
    pub(crate) uuid: Uuid,
}

impl Test for Referrers {
    ghost passes = { λ referrers v s. indexed.mentions (uuid_of referrers.uuid) (cell zero_uuid s (declared referrers.place)) };

    fn passes(&self, _uuid: Uuid, row: &Row) -> bool {
        refers(row, self.place, self.uuid)
    }

    fn tag(&self, facet: &Facet) -> Option<Key> {
        match facet {
            Facet::Values(_, _) => None,
            Facet::Mentions(place) => {
                if *place != self.place {
                    return None;
                }
                Some(Key::of(self.uuid))
            }
        }
    }
}

/// Returns whether the rows have the same values in the columns at the places.
pub(crate) fn have_same(places: &[usize], left: &Row, right: &Row) -> bool
    ensures { result ≡ list_all (same_at left.now right.now) places.now }
{
    places.iter().all(|place| have_same_at(*place, left, right))
}

/// Returns whether the rows have the same value in the column at the place.
pub(crate) fn have_same_at(place: usize, left: &Row, right: &Row) -> bool
    ensures { result ≡ same_at left.now right.now place }
{
    match (left.get(place), right.get(place)) {
        (Some(left), Some(right)) => *left == *right,
        (Some(left), None) => is_nothing(left),
        (None, Some(right)) => is_nothing(right),
        (None, None) => true,
    }
}

/// Returns whether it is the set without elements.
fn is_nothing(value: &Value) -> bool
    ensures { result ≡ same_value value.now (set_of set.empty) }
{
    value.is_empty() && !value.is_map()
}

/// Returns whether what the row has in the column at the place mentions the identifier.
pub(crate) fn refers(row: &Row, place: usize, uuid: Uuid) -> bool
    ensures { result ≡ indexed.mentions (uuid_of uuid) (cell zero_uuid row.now (declared place)) }
{
    match row.get(place) {
        Some(value) => mentions(value, uuid),
        None => false,
    }
}

/// Returns whether the identifier is an element of the set, or a key or a value of the map. O(log n) for n elements,
/// and O(n) for n pairs.
fn mentions(value: &Value, uuid: Uuid) -> bool
    ensures { result ≡ indexed.mentions (uuid_of uuid) value.now }
{
    let atom = Atom::Uuid(uuid);
    match value.entries() {
        Entries::Set(_) => value.contains(&atom),
        Entries::Map(pairs) => is_in_pairs(&pairs, &atom),
    }
}

/// Returns whether the atom is a key or a value of one of the pairs.
fn is_in_pairs(pairs: &Items<'_, (Atom, Atom)>, atom: &Atom) -> bool
    ensures { result ≡ list_any (λ pair. is_in (atom_of atom.now) (pair_of pair)) pairs.now }
{
    pairs.iter().any(|pair| pair.0 == *atom || pair.1 == *atom)
}

/// Returns an identifier that each row that matches mentions in the column at the place, where the conditions ask a
/// set of identifiers there by `==`.
fn mentioned_by(conditions: &Where, place: usize) -> Option<Key>
    ensures { IfSome result (λ tag. (u : model_uuid.Uuid) (r : model_row.Row)
        → IsTrue (holds_all conditions.now u r) → indexed.mentions tag (cell zero_uuid r (declared place)) ≡ true) }
{
    match conditions.required(place) {
        Some(value) => first_mentioned(value),
        None => None,
    }
}

/// Returns the value that each row of which the condition holds has in the column at the place, if the condition asks it by
/// `==`. O(1).
pub(crate) fn required(condition: &Clause, place: usize) -> Option<&Value>
    ensures { IfSome result (λ value. (u : model_uuid.Uuid) (r : model_row.Row)
        → IsTrue (holds condition.now u r) → cell u r (declared place) ≡ value.now) }
{
    if !is_on(condition, place) {
        return None;
    }
    match condition.function() {
        Function::Equal => Some(condition.value()),
        _ => None,
    }
}

/// Returns whether the condition is on the column at the place. O(1).
fn is_on(condition: &Clause, place: usize) -> bool
    ensures { OnTrue result (condition.now.column ≡ declared place) }
{
    match condition.column() {
        Selector::Declared(column) => column == place,
        _ => false,
    }
}

/// Returns the identifier of the only row of which the condition can hold, if it asks `_uuid` by `==` or `includes`. O(1).
pub(crate) fn named_by(condition: &Clause) -> Option<Key>
    ensures { IfSome result (λ key. (u : model_uuid.Uuid) (r : model_row.Row)
        → IsTrue (holds condition.now u r) → u ≡ key) }
{
    match condition.column() {
        Selector::Uuid => asked(condition),
        _ => None,
    }
}

/// Returns an identifier that each row of which the condition holds mentions in the column at the place, where the
/// condition asks identifiers there. O(1).
fn mentioned_at(condition: &Clause, place: usize) -> Option<Key>
    ensures { IfSome result (λ tag. (u : model_uuid.Uuid) (r : model_row.Row)
        → IsTrue (holds condition.now u r) → indexed.mentions tag (cell zero_uuid r (declared place)) ≡ true) }
{
    if !is_on(condition, place) {
        return None;
    }
    asked(condition)
}

/// Returns an identifier that each row of which the condition holds mentions in its column, where the condition asks a set
/// of identifiers by `==` or `includes`. O(1).
fn asked(condition: &Clause) -> Option<Key>
    ensures { IfSome result (λ tag. (u : model_uuid.Uuid) (r : model_row.Row)
        → IsTrue (holds condition.now u r) → indexed.mentions tag (cell u r condition.now.column) ≡ true) }
{
    match condition.function() {
        Function::Equal => first_mentioned(condition.value()),
        Function::Includes => first_mentioned(condition.value()),
        _ => None,
    }
}

/// Returns the first element of the set, if it is an identifier.
fn first_mentioned(value: &Value) -> Option<Key>
    ensures mentioned { IfSome result (λ tag. indexed.mentions tag value.now ≡ true) }
    ensures set { IfSome result (λ _. is_map value.now ≡ false) }
{
    match value.entries() {
        Entries::Set(elements) => match elements.first() {
            Some(first) => key_of(first),
            None => None,
        },
        Entries::Map(_) => None,
    }
}
