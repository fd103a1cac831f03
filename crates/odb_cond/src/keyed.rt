//! Members of a filter that ask for one atom of the same column, to be searched and not tried.

ghost use Rattle.std.specs.Prelude.{◌≡◌};
ghost use Rattle.std.specs.Bool.{OnTrue};
ghost use Rattle.std.specs.List.{list_any};
ghost use Rattle.odb_atoms.specs.Represented.Atom.{atom_of, uuid_of};
ghost use Rattle.odb_atoms.specs.Row as model_row;
ghost use Rattle.odb_atoms.specs.Row.{cell};
ghost use Rattle.odb_atoms.specs.Uuid as model_uuid;
ghost use Rattle.odb_cond.specs.Represented.Keyed.{asks_some, found_in, is_among, keyed_holds, listed_holds};

use crate::ascending::Ascending;
use crate::clause::Selector;
use crate::gathered::Listed;
use odb_atoms::{Atom, Entries, Row, Value};
use odb_chunks::Items;
use uuid::Uuid;

/// Conditions on one column by one function, `==` or `includes`, each of them with the set of one atom
/// as its value (RFC 7047, section 5.1, `<condition>`). It holds where one of them does.
#[derive(Drop)]
pub(crate) struct Keyed {
    column: Selector,
    /// By `==`, and not by `includes`.
    is_equality: bool,
    /// The atom of each.
    atoms: Ascending,
}

impl Keyed {
    /// Prepares the conditions of the list. O(n log n) comparisons for n of them.
    pub(crate) fn of(list: Listed) -> Keyed
        ensures { (u : model_uuid.Uuid) (r : model_row.Row) → keyed_holds u r result ≡ listed_holds u r list }
    {
        let Listed {
            column,
            is_equality,
            atoms,
        } = list;
        Keyed {
            column,
            is_equality,
            atoms: Ascending::of(atoms),
        }
    }

    /// Returns whether the conditions are on the column, and by `==` if that is so of the other.
    pub(crate) fn is_for(&self, column: Selector, is_equality: bool) -> bool
        ensures { OnTrue result ((self.now.column ≡ column) × (self.now.is_equality ≡ is_equality)) }
    {
        self.column == column && self.is_equality == is_equality
    }

    /// Returns whether the condition with the atom is one of these. O(log n) comparisons for n atoms.
    pub(crate) fn has(&self, atom: &Atom) -> bool
        ensures { result ≡ is_among self.now.atoms (atom_of atom.now) }
    {
        self.atoms.has(atom)
    }

    /// Returns whether one of the conditions holds of the row with the identifier.
    ///
    /// O(log n) comparisons for n atoms; by `includes` as many for each element of the column.
    pub(crate) fn holds(&self, uuid: Uuid, row: &Row) -> bool
        ensures { result ≡ keyed_holds (uuid_of uuid) row.now self.now }
    {
        match self.column {
            Selector::Uuid => self.holds_of(&Value::one(Atom::Uuid(uuid))),
            Selector::Version => self.holds_of(&Value::one(Atom::Uuid(row.version()))),
            Selector::Declared(place) => match row.get(place) {
                Some(value) => self.holds_of(value),
                None => false,
            },
        }
    }

    /// Returns whether one of the conditions holds where the column has the value.
    fn holds_of(&self, value: &Value) -> bool
        ensures { result ≡ asks_some self.now.is_equality self.now.atoms value.now }
    {
        match value.entries() {
            Entries::Set(elements) => self.is_found_in(&elements),
            Entries::Map(_) => false,
        }
    }

    /// Returns whether one of the conditions holds where the column is the set of these elements.
    fn is_found_in(&self, elements: &Items<'_, Atom>) -> bool
        ensures { result ≡ found_in self.now.is_equality self.now.atoms elements.now }
    {
        if self.is_equality && elements.len() != 1 {
            return false;
        }
        self.has_some(elements)
    }

    /// Returns whether one of the elements is the atom of a condition.
    fn has_some(&self, elements: &Items<'_, Atom>) -> bool
        ensures { result ≡ list_any (λ e. is_among self.now.atoms (atom_of e)) elements.now }
    {
        elements.iter().any(|element| self.atoms.has(element))
    }
}
