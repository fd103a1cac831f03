//! What the members of a filter are looked up by.
ghost use Rattle.std.specs.Prelude.{◌≡◌, ◌&&◌, ◌==◌, map, option_map, true, IfSome};
ghost use Rattle.odb_atoms.specs.Represented.Atom.{atom_of};
ghost use Rattle.odb_cond.specs.Represented.Clause.{selector_of};
ghost use Rattle.odb_cond.specs.Represented.Filter.{member_of};
ghost use Rattle.odb_interest.specs.Keys.{atoms_in, first_in, key_at, key_of, needed};
ghost use Rattle.odb_interest.specs.Represented.Key.{LacksKey, among, has_key, held, is_asked, key_in, same_column, same_key};

use crate::asked::Asked;
use odb_atoms::{Atom, Entries, Value};
use odb_chunks::Items;
use odb_cond::{Clause, Filter, Function, Member, Selector};
use odb_schema::TableId;

/// How many members of another filter are looked at for a key.
const NEAR: usize = 4;

/// What a session is looked up by.
#[derive(Clone, Copy)]
pub(crate) enum Key<'a> {
    /// Any row of the table.
    Any,
    /// A row that has the atom in the column, of a map as a key.
    Named(Selector, &'a Atom),
}

impl<'a> Key<'a> {
    /// Returns the key of a member, which `false` doesn't have. O(1).
    pub(crate) fn of(member: &'a Member) -> Option<Key<'a>>
        ensures { option_map key_in result ≡ key_of (member_of member.now) }
    {
        match member {
            Member::Always(true) => Some(Key::Any),
            Member::Always(false) => None,
            Member::When(clause) => Some(Key::of_clause(clause)),
        }
    }

    /// Returns the key of a condition. O(1).
    fn of_clause(clause: &'a Clause) -> Key<'a>
        ensures { key_in result ≡ key_at clause.now.column (needed clause.now.function clause.now.value) }
    {
        match needed_atom(clause) {
            Some(atom) => Key::Named(clause.column(), atom),
            None => Key::Any,
        }
    }

    /// Returns whether the two are the same key.
    fn same(self, other: Key<'_>) -> bool
        ensures { result ≡ same_key (key_in self.entry) (key_in other.entry) }
    {
        match (self, other) {
            (Key::Any, Key::Any) => true,
            (Key::Named(column, atom), Key::Named(another, other)) => {
                is_same_column(column, another) && *atom == *other
            }
            _ => false,
        }
    }

    /// Returns whether one of the filters of the table is looked up by the key. O(their members).
    pub(crate) fn is_asked(self, table: TableId, filters: &[Asked]) -> bool
        ensures { result ≡ is_asked filters.now table (key_in self.entry) }
    {
        filters.iter().any(|asked| self.is_in(table, asked))
    }

    /// Returns whether it is a filter of the table, and is looked up by the key.
    fn is_in(self, table: TableId, asked: &Asked) -> bool
        ensures { result ≡ ((asked.now.0 == table) && has_key (key_in self.entry) asked.now.1) }
    {
        asked.table().place() == table.place() && self.is_of(asked.filter())
    }

    /// Returns whether the filter is looked up by the key.
    fn is_of(self, filter: &Filter) -> bool
        ensures { result ≡ has_key (key_in self.entry) filter.now }
    {
        let members = filter.members();
        if members.is_empty() {
            return self.same(Key::Any);
        }
        self.is_among(members)
    }

    /// Returns whether one of the members is looked up by the key.
    fn is_among(self, members: &[Member]) -> bool
        ensures { result ≡ among members.now (key_in self.entry) }
    {
        members.iter().any(|member| self.is_of_member(member))
    }

    /// Returns the place after one of the next few members, from the place on, that is looked up by the key.
    fn find_near(self, members: &[Member], from: usize) -> Option<usize>
        ensures { IfSome result (λ _. among members.now (key_in self.entry) ≡ true) }
    {
        for place in from..members.len().min(from.saturating_add(NEAR)) {
            if self.is_of_member(&members[place]) {
                return Some(place + 1);
            }
        }
        None
    }

    /// Returns whether the member is looked up by the key.
    fn is_of_member(self, member: &Member) -> bool
        ensures { result ≡ held (same_key (key_in self.entry)) (key_of (member_of member.now)) }
    {
        match Key::of(member) {
            Some(key) => self.same(key),
            None => false,
        }
    }
}

/// Returns the key of the member, unless one of the next few of the others, from the place on, has it too: then the
/// place is the one after that.
pub(crate) fn lacking<'a>(
    member: &'a Member,
    others: &[Member],
    place: &mut usize,
) -> Option<Key<'a>>
    ensures { LacksKey member.now others.now (option_map key_in result) }
{
    let Some(key) = Key::of(member) else {
        return None;
    };
    let Some(next) = key.find_near(others, *place) else {
        return Some(key);
    };
    *place = next;
    None
}

/// Returns whether the two are the same column.
fn is_same_column(column: Selector, other: Selector) -> bool
    ensures { result ≡ same_column (selector_of column) (selector_of other) }
{
    match (column, other) {
        (Selector::Uuid, Selector::Uuid) => true,
        (Selector::Version, Selector::Version) => true,
        (Selector::Declared(place), Selector::Declared(other)) => place == other,
        _ => false,
    }
}

/// Returns the atom that the column has where the condition holds, if it is one by `==` or `includes` that names
/// an atom.
fn needed_atom(clause: &Clause) -> Option<&Atom>
    ensures { option_map (λ a. atom_of a.now) result ≡ needed clause.now.function clause.now.value }
{
    match clause.function() {
        Function::Equal => first_atom(clause.value()),
        Function::Includes => first_atom(clause.value()),
        _ => None,
    }
}

/// Returns the first element of a set, or the first key of a map.
fn first_atom(value: &Value) -> Option<&Atom>
    ensures { option_map (λ a. atom_of a.now) result ≡ first_in (atoms_in value.now) }
{
    match value.entries() {
        Entries::Set(atoms) => atoms.first(),
        Entries::Map(pairs) => first_key(&pairs),
    }
}

/// Returns the key of the first pair.
fn first_key<'a>(pairs: &Items<'a, (Atom, Atom)>) -> Option<&'a Atom>
    ensures { option_map (λ a. atom_of a.now) result ≡ first_in (map (λ p. atom_of p.0) pairs.now) }
{
    match pairs.first() {
        Some(first) => Some(&first.0),
        None => None,
    }
}
