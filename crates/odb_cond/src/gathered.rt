//! The members of a filter, put apart by how they are prepared.

ghost use Rattle.std.specs.Prelude.{◌≡◌, ◌<◌, ◌||◌, length, slice_get, IfOk, IfSome, List, OnOk, Some};
ghost use Rattle.std.specs.Bool.{OnTrue};
ghost use Rattle.std.specs.List.{slice_index_or};
ghost use Rattle.odb_atoms.specs.Represented.Atom.{atom_of};
ghost use Rattle.odb_atoms.specs.Row as model_row;
ghost use Rattle.odb_atoms.specs.Row.{cell};
ghost use Rattle.odb_atoms.specs.Uuid as model_uuid;
ghost use Rattle.odb_cond.specs.Condition.{holds};
ghost use Rattle.odb_cond.specs.Filter.{member_holds};
ghost use Rattle.odb_cond.specs.Represented.Clause.{selector_of};
ghost use Rattle.odb_cond.specs.Represented.Filter.{member_of};
ghost use Rattle.odb_cond.specs.Represented.Keyed.{asks, listed_holds};
ghost use Rattle.odb_cond.specs.Represented.Prepared.{Gains, gathers, holds_at, some_holds};
ghost use Rattle.odb_cond.specs.declared.filter.Member as code_member;
ghost use Rattle.odb_cond.specs.declared.gathered.Listed as code_listed;

use crate::clause::{Clause, Function, Selector, lone_atom};
use crate::filter::Member;
use odb_atoms::Atom;
use std::alloc::{AllocError, Global};

/// Conditions on one column by one function, `==` or `includes`, each of them with the set of one atom as its value
/// (RFC 7047, section 5.1, `<condition>`).
#[derive(Drop)]
pub(crate) struct Listed {
    pub(crate) column: Selector,
    /// By `==`, and not by `includes`.
    pub(crate) is_equality: bool,
    /// The atom of each.
    pub(crate) atoms: Vec<Atom>,
}

impl Listed {
    /// Returns whether the conditions are on the column, and by `==` if that is so of the other.
    fn is_for(&self, column: Selector, is_equality: bool) -> bool
        ensures { OnTrue result ((self.now.column ≡ column) × (self.now.is_equality ≡ is_equality)) }
    {
        self.column == column && self.is_equality == is_equality
    }

    /// Adds the condition with the atom. O(1), but for growth.
    fn push(&mut self, atom: Atom) -> Result<(), AllocError>
        ensures { OnOk result ((u : model_uuid.Uuid) (r : model_row.Row)
            → listed_holds u r self.new
            ≡ (listed_holds u r self.old
            || asks self.old.is_equality (cell u r (selector_of self.old.column)) (atom_of atom))) }
    {
        self.atoms.push(atom)?;
        Ok(())
    }
}

/// The members of a filter: those that ask for one atom by `==` or `includes`, by column and function, and the places of
/// the others.
#[derive(Drop)]
pub(crate) struct Gathered {
    /// One for each column and function, which are few.
    pub(crate) lists: Vec<Listed>,
    pub(crate) others: Vec<usize>,
}

impl Gathered {
    /// Puts the members apart. O(n) comparisons of columns for n members and each column that they ask, and O(the bytes of
    /// their atoms).
    pub(crate) fn of(alloc: Global, members: &[Member]) -> Result<Gathered, AllocError>
        ensures { IfOk result (λ gathered. (u : model_uuid.Uuid) (r : model_row.Row)
            → gathers u r members.now gathered ≡ some_holds u r members.now) }
    {
        let mut gathered = Gathered {
            lists: Vec::new(alloc),
            others: Vec::new(alloc),
        };
        for place in 0..members.len() {
            gathered.add(alloc, place, &members[place])?;
        }
        Ok(gathered)
    }

    /// Adds the member at the place.
    fn add(&mut self, alloc: Global, place: usize, member: &Member) -> Result<(), AllocError>
        ensures { OnOk result ((ms : List code_member.Member) → slice_get ms place ≡ Some member.now
            → Gains (λ u r. member_holds u r (member_of member.now)) ms self.old self.new) }
    {
        match member {
            Member::Always(_) => self.add_other(place),
            Member::When(clause) => self.add_clause(alloc, place, clause),
        }
    }

    /// Adds the condition at the place.
    fn add_clause(&mut self, alloc: Global, place: usize, clause: &Clause) -> Result<(), AllocError>
        ensures { OnOk result ((ms : List code_member.Member)
            → ((u : model_uuid.Uuid) (r : model_row.Row) → holds_at u r ms place ≡ holds clause.now u r)
            → Gains (λ u r. holds clause.now u r) ms self.old self.new) }
    {
        let Some(atom) = lone_atom(clause.value()) else {
            return self.add_other(place);
        };
        match clause.function() {
            Function::Equal => self.add_listed(alloc, clause.column(), true, atom),
            Function::Includes => self.add_listed(alloc, clause.column(), false, atom),
            _ => self.add_other(place),
        }
    }

    /// Adds the place of a member that is tried.
    fn add_other(&mut self, place: usize) -> Result<(), AllocError>
        ensures { OnOk result ((ms : List code_member.Member)
            → Gains (λ u r. holds_at u r ms place) ms self.old self.new) }
    {
        self.others.push(place)?;
        Ok(())
    }

    /// Adds the condition on the column with the set of one atom, by `==` or by `includes`.
    fn add_listed(
        &mut self,
        alloc: Global,
        column: Selector,
        is_equality: bool,
        atom: &Atom,
    ) -> Result<(), AllocError>
        ensures { OnOk result ((ms : List code_member.Member)
            → Gains (λ u r. asks is_equality (cell u r (selector_of column)) (atom_of atom.now))
            ms self.old self.new) }
    {
        let atom = atom.try_copy(alloc)?;
        match find(&self.lists, column, is_equality) {
            Some(place) => self.lists[place].push(atom),
            None => {
                let mut atoms = Vec::new(alloc);
                atoms.push(atom)?;
                self.lists.push(Listed {
                    column,
                    is_equality,
                    atoms,
                })?;
                Ok(())
            }
        }
    }
}

/// Returns the place of the conditions on the column, by `==` or by `includes`, if there are some.
fn find(lists: &[Listed], column: Selector, is_equality: bool) -> Option<usize>
    ensures inside { IfSome result (λ place. place < length lists.now) }
    ensures found { IfSome result (λ place. (d : code_listed.Listed)
        → ((slice_index_or lists.now place d).column ≡ column)
        × ((slice_index_or lists.now place d).is_equality ≡ is_equality)) }
{
    for place in 0..lists.len() {
        if lists[place].is_for(column, is_equality) {
            return Some(place);
        }
    }
    None
}
