//! What is prepared from the members of a filter, so that a row is tested by a search.

ghost use Rattle.std.specs.Prelude.{◌≡◌, ◌<◌, length, true, IfOk, IfSome};
ghost use Rattle.std.specs.List.{list_any, slice_index_or};
ghost use Rattle.odb_atoms.specs.Represented.Atom.{atom_of, uuid_of};
ghost use Rattle.odb_atoms.specs.Row as model_row;
ghost use Rattle.odb_atoms.specs.Row.{cell};
ghost use Rattle.odb_atoms.specs.Uuid as model_uuid;
ghost use Rattle.odb_cond.specs.Condition.{holds};
ghost use Rattle.odb_cond.specs.Filter.{member_holds};
ghost use Rattle.odb_cond.specs.Represented.Clause.{selector_of};
ghost use Rattle.odb_cond.specs.Represented.Keyed.{asks, keyed_holds, listed_holds};
ghost use Rattle.odb_cond.specs.Represented.Prepared.{IsFound, finds, holds_at, some_holds};
ghost use Rattle.odb_cond.specs.declared.keyed.Keyed as code_keyed;

use crate::clause::{Clause, Function, Selector, lone_atom};
use crate::filter::Member;
use crate::gathered::{Gathered, Listed};
use crate::keyed::Keyed;
use odb_atoms::{Atom, Row};
use std::alloc::{AllocError, Global};
use uuid::Uuid;

/// The members of a filter, prepared: those that ask for one atom by `==` or `includes` are searched,
/// the others are tried one by one.
#[derive(Drop)]
pub(crate) struct Prepared {
    /// The conditions of each column and function, which are few.
    keyed: Vec<Keyed>,
    /// The places of the other members.
    others: Vec<usize>,
}

impl Prepared {
    /// Prepares the members.
    ///
    /// O(n log n) comparisons of atoms for n members, O(n) of columns for each column that they ask, and
    /// O(the bytes of their atoms).
    pub(crate) fn of(alloc: Global, members: &[Member]) -> Result<Prepared, AllocError>
        ensures { IfOk result (λ prepared. (u : model_uuid.Uuid) (r : model_row.Row)
            → finds u r members.now prepared ≡ some_holds u r members.now) }
    {
        let Gathered { lists, others } = Gathered::of(alloc, members)?;
        let keyed = prepare_all(alloc, lists)?;
        Ok(Prepared { keyed, others })
    }

    /// Returns whether it is certain that the member is one of those that were prepared, or like one.
    ///
    /// O(log n) comparisons for n members that are searched; else it is compared with each of the others.
    pub(crate) fn has(&self, members: &[Member], member: &Member) -> bool
        ensures { result ≡ true → IsFound member.now (λ u r. finds u r members.now self.now) }
    {
        if self.searches(member) {
            return true;
        }
        is_other(&self.others, members, member)
    }

    /// Returns whether the member is among those that are searched.
    fn searches(&self, member: &Member) -> bool
        ensures { result ≡ true → IsFound member.now (λ u r. list_any (keyed_holds u r) self.now.keyed.items) }
    {
        match member {
            Member::Always(_) => false,
            Member::When(clause) => self.searches_clause(clause),
        }
    }

    /// Returns whether the condition is among those that are searched.
    fn searches_clause(&self, clause: &Clause) -> bool
        ensures { result ≡ true → (u : model_uuid.Uuid) (r : model_row.Row) → holds clause.now u r ≡ true
            → list_any (keyed_holds u r) self.now.keyed.items ≡ true }
    {
        let Some(atom) = lone_atom(clause.value()) else {
            return false;
        };
        match clause.function() {
            Function::Equal => self.searches_atom(clause.column(), true, atom),
            Function::Includes => self.searches_atom(clause.column(), false, atom),
            _ => false,
        }
    }

    /// Returns whether the condition on the column with the set of one atom, by `==` or by `includes`, is among
    /// those that are searched.
    fn searches_atom(&self, column: Selector, is_equality: bool, atom: &Atom) -> bool
        ensures { result ≡ true → (u : model_uuid.Uuid) (r : model_row.Row)
            → asks is_equality (cell u r (selector_of column)) (atom_of atom.now) ≡ true
            → list_any (keyed_holds u r) self.now.keyed.items ≡ true }
    {
        match find(&self.keyed, column, is_equality) {
            Some(place) => self.keyed[place].has(atom),
            None => false,
        }
    }

    /// Returns whether one of the members holds of the row with the identifier.
    ///
    /// O(log n) comparisons for n members that are searched, for each column and function (by `includes`
    /// for each element of the column), and what `Member::holds` costs for each of the others.
    pub(crate) fn holds(&self, members: &[Member], uuid: Uuid, row: &Row) -> bool
        ensures { result ≡ finds (uuid_of uuid) row.now members.now self.now }
    {
        some_keyed_holds(&self.keyed, uuid, row)
            || some_other_holds(&self.others, members, uuid, row)
    }
}

/// Prepares the conditions of each list.
fn prepare_all(alloc: Global, lists: Vec<Listed>) -> Result<Vec<Keyed>, AllocError>
    ensures { IfOk result (λ keyed. (u : model_uuid.Uuid) (r : model_row.Row)
        → list_any (keyed_holds u r) keyed.items ≡ list_any (listed_holds u r) lists.items) }
{
    let mut keyed = Vec::with_capacity(alloc, lists.len())?;
    for list in lists {
        keyed.push(Keyed::of(list))?;
    }
    Ok(keyed)
}

/// Returns whether the member is like one at the places.
fn is_other(places: &[usize], members: &[Member], member: &Member) -> bool
    ensures { result ≡ true → IsFound member.now (λ u r. list_any (holds_at u r members.now) places.now) }
{
    for place in places {
        if is_at(*place, members, member) {
            return true;
        }
    }
    false
}

/// Returns whether the member is like the one at the place.
pub(crate) fn is_at(place: usize, members: &[Member], member: &Member) -> bool
    ensures { result ≡ true → IsFound member.now (λ u r. holds_at u r members.now place) }
{
    match members.get(place) {
        Some(other) => member.same(other),
        None => false,
    }
}

/// Returns the place of the conditions on the column, by `==` or by `includes`, if there are some.
fn find(keyed: &[Keyed], column: Selector, is_equality: bool) -> Option<usize>
    ensures inside { IfSome result (λ place. place < length keyed.now) }
    ensures found { IfSome result (λ place. (d : code_keyed.Keyed)
        → ((slice_index_or keyed.now place d).column ≡ column)
        × ((slice_index_or keyed.now place d).is_equality ≡ is_equality)) }
{
    for place in 0..keyed.len() {
        if keyed[place].is_for(column, is_equality) {
            return Some(place);
        }
    }
    None
}

/// Returns whether one of the conditions that are searched holds.
fn some_keyed_holds(keyed: &[Keyed], uuid: Uuid, row: &Row) -> bool
    ensures { result ≡ list_any (keyed_holds (uuid_of uuid) row.now) keyed.now }
{
    keyed.iter().any(|conditions| conditions.holds(uuid, row))
}

/// Returns whether a member at one of the places holds.
fn some_other_holds(places: &[usize], members: &[Member], uuid: Uuid, row: &Row) -> bool
    ensures { result ≡ list_any (holds_at (uuid_of uuid) row.now members.now) places.now }
{
    places
        .iter()
        .any(|place| member_at_holds(*place, members, uuid, row))
}

/// Returns whether the member at the place holds, if there is one.
fn member_at_holds(place: usize, members: &[Member], uuid: Uuid, row: &Row) -> bool
    ensures { result ≡ holds_at (uuid_of uuid) row.now members.now place }
{
    match members.get(place) {
        Some(member) => member.holds(uuid, row),
        None => false,
    }
}
