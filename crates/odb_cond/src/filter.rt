//! The filters of conditional monitors (ovsdb-server(7), "monitor_cond"). [P 9.1]

ghost use Rattle.std.specs.Prelude.{◌≡◌, ◌||◌, ◌==◌, length, map, true, IfOk, IfSome, OnOk};
ghost use Rattle.std.specs.Bool.{Decides};
ghost use Rattle.std.specs.List.{list_any};
ghost use Rattle.odb_atoms.specs.Represented.Atom.{uuid_of};
ghost use Rattle.odb_cond.specs.Filter.{TellsApart, member_holds, selects};
ghost use Rattle.odb_cond.specs.Represented.Filter.{member_of};
ghost use Rattle.odb_cond.specs.Represented.Prepared.{GainsLacking, IsFound};

use crate::clause::Clause;
use crate::prepared::{Prepared, is_at};
use odb_atoms::Row;
use std::alloc::{AllocError, Global};
use std::marker::Model;
use uuid::Uuid;

/// At how many places of another filter a member is looked for before it is searched there.
const NEAR: usize = 4;

/// A member of a filter (ovsdb-server(7), "monitor_cond").
pub enum Member {
    /// `true` or `false`, whatever the row.
    Always(bool),
    /// A condition.
    When(Clause),
}

/// The `where` of a table in a conditional monitor (ovsdb-server(7), "monitor_cond"): of its
/// members one has to hold, and without members every row is selected.
pub struct Filter {
    members: Vec<Member>,
    prepared: Prepared,
}

impl Model for Filter {
    ghost use Rattle.odb_cond.specs.Filter as model;

    ghost Value = { model.Filter };

    ghost use Rattle.odb_cond.specs.Represented.Filter.{filter_of};

    ghost view = { filter_of };

    ghost use Rattle.odb_cond.specs.Represented.Prepared.{IsPrepared};

    ghost invariant = { IsPrepared };
}

impl Member {
    /// Returns whether it holds of the row with the identifier. It costs what `Clause::holds` does.
    pub fn holds(&self, uuid: Uuid, row: &Row) -> bool
        ensures { result ≡ member_holds (uuid_of uuid) row.now (member_of self.now) }
    {
        match self {
            Member::Always(always) => *always,
            Member::When(clause) => clause.holds(uuid, row),
        }
    }

    /// Returns whether the two are the same member.
    pub(crate) fn same(&self, other: &Member) -> bool
        ensures { Decides result (member_of self.now ≡ member_of other.now) }
    {
        match (self, other) {
            (Member::Always(always), Member::Always(other)) => *always == *other,
            (Member::When(clause), Member::When(other)) => clause.same(other),
            _ => false,
        }
    }

    /// Makes an equal member. O(the bytes copied).
    pub fn try_copy(&self, alloc: Global) -> Result<Member, AllocError>
        ensures { IfOk result (λ copy. member_of copy ≡ member_of self.now) }
    {
        Ok(match self {
            Member::Always(always) => Member::Always(*always),
            Member::When(clause) => Member::When(clause.try_copy(alloc)?),
        })
    }
}

impl Filter {
    /// Makes the filter with these members, prepared for the test of many rows.
    ///
    /// O(n log n) comparisons of atoms for n members, and O(n) of columns for each column that they ask. It
    /// keeps a copy of each atom that is searched, as `holds` says. Where memory is refused the members are
    /// dropped.
    pub fn new(alloc: Global, members: Vec<Member>) -> Result<Filter, AllocError>
        ensures { IfOk result (λ filter. filter ≡ map member_of members.items) }
    {
        let prepared = Prepared::of(alloc, &members)?;
        Ok(Filter { members, prepared })
    }

    /// Returns its members, in the order in which they were given. O(1).
    pub fn members(&self) -> &[Member]
        ensures { map member_of result.now ≡ self.now }
    {
        self.members.as_slice()
    }

    /// Returns whether the two are the same filter: the same members in the same order. Two filters that aren't
    /// the same may select the same rows all the same (`true` and no member at all).
    ///
    /// O(the members and the entries of their values), each atom compared once.
    pub fn same(&self, other: &Filter) -> bool
        ensures { Decides result (self.now ≡ other.now) }
    {
        are_same(&self.members, &other.members)
    }

    /// Returns whether it selects the row with the identifier: some member holds of it, or there is no
    /// member.
    ///
    /// Conditions with a set of one atom, by `==` or `includes`, are searched: O(log n) comparisons for n of
    /// them on one column, by `includes` for each element that the row has there. Each other member costs
    /// what `Member::holds` does.
    #[tactic(auto, using(crate::proofs::Filters::selected))]
    pub fn holds(&self, uuid: Uuid, row: &Row) -> bool
        ensures { result ≡ selects self.now (uuid_of uuid) row.now }
    {
        self.members.is_empty() || self.prepared.holds(&self.members, uuid, row)
    }

    /// Returns a filter that selects each row which one of the two selects and the other doesn't. It selects
    /// other rows, too, where a member that only one of them has holds of a row for which both have another.
    ///
    /// It has the members that only one of them has. O(n log n) comparisons for n members that are searched,
    /// as `holds` says, and of the others each is compared with each.
    pub fn difference(&self, alloc: Global, other: &Filter) -> Result<Filter, AllocError>
        ensures { IfOk result (λ differing. TellsApart differing self.now other.now) }
    {
        if self.has_none(other) {
            return Filter::new(alloc, Vec::new(alloc));
        }
        let mut differing = Vec::new(alloc);
        differing.push(Member::Always(false))?;
        self.append_lacking(alloc, other, &mut differing)?;
        other.append_lacking(alloc, self, &mut differing)?;
        Filter::new(alloc, differing)
    }

    /// Returns whether one of the two has no members. O(1).
    fn has_none(&self, other: &Filter) -> bool
        ensures { result ≡ ((length self.now == 0) || (length other.now == 0)) }
    {
        self.members.is_empty() || other.members.is_empty()
    }

    /// Appends the members that the other filter lacks.
    fn append_lacking(
        &self,
        alloc: Global,
        other: &Filter,
        list: &mut Vec<Member>,
    ) -> Result<(), AllocError>
        ensures { OnOk result (GainsLacking self.now other.now list.old.items list.new.items) }
    {
        let mut near = 0;
        for member in &self.members {
            if !other.has_from(&mut near, member) {
                list.push(member.try_copy(alloc)?)?;
            }
        }
        Ok(())
    }

    /// Returns whether it is certain that a member is like this one. It looks at the next places from `near` on before it
    /// searches, and `near` becomes the place after the one that it finds there: so two filters of which one has a few
    /// members more cost a comparison for each member.
    fn has_from(&self, near: &mut usize, member: &Member) -> bool
        ensures { result ≡ true → IsFound member.now (λ u r. list_any (member_holds u r) self.now) }
    {
        match self.find_near(*near, member) {
            Some(place) => {
                *near = place.saturating_add(1);
                true
            }
            None => self.has(member),
        }
    }

    /// Returns the place of a member like this one among the next ones from a place on, if there is one.
    fn find_near(&self, near: usize, member: &Member) -> Option<usize>
        ensures { IfSome result (λ place. IsFound member.now (λ u r. list_any (member_holds u r) self.now)) }
    {
        let end = near.saturating_add(NEAR).min(self.members.len());
        for place in near..end {
            if is_at(place, &self.members, member) {
                return Some(place);
            }
        }
        None
    }

    /// Returns whether it is certain that a member is like this one.
    fn has(&self, member: &Member) -> bool
        ensures { result ≡ true → IsFound member.now (λ u r. list_any (member_holds u r) self.now) }
    {
        self.prepared.has(&self.members, member)
    }

    /// Makes an equal filter. O(the bytes copied), and what `new` costs.
    pub fn try_copy(&self, alloc: Global) -> Result<Filter, AllocError>
        ensures { IfOk result (λ copy. copy ≡ self.now) }
    {
        let mut members = Vec::with_capacity(alloc, self.members.len())?;
        for member in &self.members {
            members.push(member.try_copy(alloc)?)?;
        }
        Filter::new(alloc, members)
    }
}

/// Returns whether the two lists have the same members, one by one.
fn are_same(members: &[Member], others: &[Member]) -> bool
    ensures { Decides result (map member_of members.now ≡ map member_of others.now) }
{
    if members.len() != others.len() {
        return false;
    }
    for place in 0..members.len() {
        if !members[place].same(&others[place]) {
            return false;
        }
    }
    true
}

// Written, and not derived, so that each end of a scope is one call to prove.
impl Drop for Member {
    fn drop(self) {
        match self {
            Member::Always(_) => {}
            Member::When(_) => {}
        }
    }
}

// Written, and not derived, so that each end of a scope is one call to prove.
impl Drop for Filter {
    fn drop(self) {
        let Filter {
            members: _,
            prepared: _,
        } = self;
    }
}
