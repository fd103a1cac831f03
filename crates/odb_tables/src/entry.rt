//! Entries of values, and the identifiers that they mention (RFC 7047, section 5.1, `<value>`).
ghost use Rattle.std.specs.Prelude.{◌≡◌, ◌⊎◌, ◌≤◌, Bool, true, length, IsTrue, Some};
ghost use Rattle.std.specs.List.{list_any};
ghost use Rattle.std.specs.declared.cmp.Ordering.TheVariants.{Equal};
ghost use Rattle.std.specs.Option.{option_copied};
ghost use Rattle.odb_atoms.specs.Represented.Atom.{atom_of};
ghost use Rattle.odb_atoms.specs.Uuid as model_uuid;
ghost use Rattle.odb_tables.specs.Represented.Entry.{element_mentions, mentions_now, pair_mentions, same_elements, same_pairs};
ghost use Rattle.odb_tables.specs.Represented.Facet.{identifier_in};

use crate::key::Key;
use odb_atoms::{Atom, Entries, Value};
use odb_chunks::Items;
use std::cmp::Ordering;

/// An entry of a value: an element of a set, or a pair of a map. Those of one value ascend, each of them once.
pub(crate) trait Entry: Ord {
    ghost mentions: { model_uuid.Uuid → Self → Bool };

    /// Returns the identifiers that the entry mentions. O(1).
    fn tags(&self) -> (Option<Key>, Option<Key>)
        ensures { (tag : model_uuid.Uuid) → mentions tag self.now ≡ true → (result.0 ≡ Some tag) ⊎ (result.1 ≡ Some tag) };

    /// Entries that are equal mention the same.
    ghost same: { (tag : model_uuid.Uuid) (x y : Self) → Self.cmp x y ≡ Equal → mentions tag x ≡ mentions tag y };
}

impl Entry for Atom {
    ghost mentions = { element_mentions };

    ghost same = { same_elements };

    #[inline(always)]
    fn tags(&self) -> (Option<Key>, Option<Key>) {
        (key_of(self), None)
    }
}

impl Entry for (Atom, Atom) {
    ghost mentions = { pair_mentions };

    ghost same = { same_pairs };

    #[inline(always)]
    fn tags(&self) -> (Option<Key>, Option<Key>) {
        (key_of(&self.0), key_of(&self.1))
    }
}

/// Returns the key that the atom is, if it is an identifier. O(1).
#[inline(always)]
pub(crate) fn key_of(atom: &Atom) -> Option<Key>
    ensures { result ≡ identifier_in (atom_of atom.now) }
{
    match atom {
        Atom::Integer(_) => None,
        Atom::Boolean(_) => None,
        Atom::Text(_) => None,
        Atom::SharedText(_) => None,
        Atom::Uuid(uuid) => Some(Key::of(*uuid)),
    }
}

/// Returns the elements, if the value is there and a set; else none. O(1).
pub(crate) fn elements_of(value: Option<&Value>) -> Items<'_, Atom>
    ensures { (tag : model_uuid.Uuid) → list_any (element_mentions tag) result ≡ true
        → mentions_now tag (option_copied value.entry) ≡ true }
{
    let Some(value) = value else {
        return Items::of(&[]);
    };
    match value.entries() {
        Entries::Set(elements) => elements,
        Entries::Map(_) => Items::of(&[]),
    }
}

/// Returns the pairs, if the value is there and a map; else none. O(1).
pub(crate) fn pairs_of(value: Option<&Value>) -> Items<'_, (Atom, Atom)>
    ensures { (tag : model_uuid.Uuid) → list_any (pair_mentions tag) result ≡ true
        → mentions_now tag (option_copied value.entry) ≡ true }
{
    let Some(value) = value else {
        return Items::of(&[]);
    };
    match value.entries() {
        Entries::Set(_) => Items::of(&[]),
        Entries::Map(pairs) => pairs,
    }
}

/// Passes over the entries at the front that both have. O(those passed over).
#[inline(always)]
pub(crate) fn pass_common<E: Entry + Drop>(old: &mut Items<'_, E>, new: &mut Items<'_, E>)
    ensures left { (tag : model_uuid.Uuid) → list_any (E.mentions tag) old.new ≡ true
        → list_any (E.mentions tag) old.old ≡ true }
    ensures common { (tag : model_uuid.Uuid) → list_any (E.mentions tag) new.old ≡ true
        → (list_any (E.mentions tag) old.old ≡ true) ⊎ (list_any (E.mentions tag) new.new ≡ true) }
    ensures fewer_old { length old.new ≤ length old.old }
    ensures fewer_new { length new.new ≤ length new.old }
{
    while let Some(first) = old.first() {
        let Some(next) = new.first() else {
            return;
        };
        if first.cmp(next) != Ordering::Equal {
            return;
        }
        old.pass(1);
        new.pass(1);
    }
}

/// Passes over the ascending entries that are less than this one, and over the one that is equal. Returns whether one was
/// equal. O(those passed over).
#[inline(always)]
pub(crate) fn pass_over<E: Entry + Drop>(entries: &mut Items<'_, E>, entry: &E) -> bool
    ensures left { (tag : model_uuid.Uuid) → list_any (E.mentions tag) entries.new ≡ true
        → list_any (E.mentions tag) entries.old ≡ true }
    ensures equal { IsTrue result → (tag : model_uuid.Uuid) → E.mentions tag entry.now ≡ true
        → list_any (E.mentions tag) entries.old ≡ true }
{
    while let Some(first) = entries.first() {
        match first.cmp(entry) {
            Ordering::Less => entries.pass(1),
            Ordering::Equal => {
                entries.pass(1);
                return true;
            }
            Ordering::Greater => return false,
        }
    }
    false
}
