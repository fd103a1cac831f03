//! The index of what sessions ask.
ghost use Rattle.std.specs.Prelude.{◌≡◌, ◌++◌, ◌==◌, ◌∷◌, [], ℕ, slice_get, IfOk, OnErr, OnOk, Some};
ghost use Rattle.std.specs.Arc.{arc_value};
ghost use Rattle.std.specs.List.{list_any};
ghost use Rattle.std.specs.List.Sorted.{IsStrictlySortedBy};
ghost use Rattle.std.specs.Ordering.{nat_cmp};
ghost use Rattle.odb_interest.specs.Keys.{asked_at, is_touched};
ghost use Rattle.odb_interest.specs.Represented.Asked.{LosesFirst};
ghost use Rattle.odb_interest.specs.Represented.SessionsByKey.{Covers, CoversSome};
ghost use Rattle.odb_interest.specs.Represented.Key.{has_key};
ghost use Rattle.odb_interest.specs.Represented.Lists.{Asks, IsSame, with_filter};

use crate::asked::Asked;
use crate::found::ascending;
use crate::index::SessionsByKey;
use crate::lists::Lists;
use odb_cond::Filter;
use odb_locks::SessionId;
use odb_schema::TableId;
use odb_tables::ChangeSet;
use std::alloc::{AllocError, Global};
use std::collections::BTreeSet;
use std::marker::Model;
use std::sync::Arc;

/// The filters that sessions ask of tables, so that a change finds the sessions that it concerns without
/// looking at the others.
///
/// A member `==` or `includes` with an atom concerns the rows that have this atom in its column, of a set or
/// a map the first atom or key that the member names. Any other member but `false` concerns every row of the
/// table, and so does a filter without members.
///
/// In the costs below, n sessions ask something, and a look-up is O(log n) comparisons.
pub struct Interest {
    alloc: Global,
    lists: Lists,
    index: SessionsByKey,
}

impl Model for Interest {
    ghost use Rattle.odb_interest.specs.Keys as model;
    ghost use Rattle.odb_interest.specs.Represented.SessionsByKey.{Indexes};

    ghost Value = { model.Interests };

    ghost view = { λ a. a.lists };

    ghost invariant = { λ a. Indexes a.index a.lists };
}

impl Interest {
    /// Makes an index by which no session asks anything. O(1).
    pub fn new(alloc: Global) -> Interest
        ensures { (s : ℕ) → asked_at result s ≡ [] }
    {
        Interest {
            alloc,
            lists: Lists::new(alloc),
            index: SessionsByKey::new(alloc),
        }
    }

    /// Returns what the session asks, in the order in which it was added. O(log n).
    pub fn asked(&self, session: SessionId) -> &[Asked]
        ensures { result.now ≡ asked_at self.now session }
    {
        self.lists.get(session)
    }

    /// Adds a filter of the table to what the session asks. Where memory is refused each session asks what it
    /// did. A look-up for each member.
    pub fn add(
        &mut self,
        session: SessionId,
        table: TableId,
        filter: &Arc<Filter>,
    ) -> Result<(), AllocError>
        ensures ok { OnOk result (Asks self.old self.new session (asked_at self.old session ++ (table, arc_value filter.now) ∷ [])) }
        ensures err { OnErr result (IsSame self.old self.new) }
    {
        let asked = Asked::new(table, filter)?;
        match enter(&mut self.index, &mut self.lists, self.alloc, session, asked) {
            Ok(()) => Ok(()),
            Err(refused) => {
                // Some keys may have been entered.
                self.index
                    .uncover(table, filter, session, self.lists.get(session));
                Err(refused)
            }
        }
    }

    /// Has a filter in the place of another of the same table in what the session asks, where place 0 is that of its
    /// first filter; past the last it changes nothing. Where memory is refused each session asks what it did.
    ///
    /// It compares the keys of the members of both filters, O(n) for n members that stand in the same order but for
    /// a few, and a look-up for each member that stands elsewhere in the other filter or isn't there; where a key goes,
    /// a look-up for each member that the session asks of the table.
    pub fn put(
        &mut self,
        session: SessionId,
        place: usize,
        filter: &Arc<Filter>,
    ) -> Result<(), AllocError>
        ensures ok { OnOk result (Asks self.old self.new session (with_filter (asked_at self.old session) place (arc_value filter.now))) }
        ensures err { OnErr result (IsSame self.old self.new) }
    {
        let Some(asked) = self.lists.get(session).get(place) else {
            return Ok(());
        };
        let old = Asked::new(asked.table(), asked.filter())?;
        let new = Asked::new(asked.table(), filter)?;
        self.exchange(session, place, &old, new)
    }

    /// Has the new filter in the place of the old one.
    fn exchange(
        &mut self,
        session: SessionId,
        place: usize,
        old: &Asked,
        new: Asked,
    ) -> Result<(), AllocError>
        requires there { slice_get (asked_at self.old session) place ≡ Some old.now }
        requires table { new.0 ≡ old.now.0 }
        ensures ok { OnOk result (Asks self.old self.new session (with_filter (asked_at self.old session) place new.1)) }
        ensures err { OnErr result (IsSame self.old self.new) }
    {
        let mut going = SessionsByKey::new(self.alloc);
        going.cover_lacking(self.alloc, old, new.filter(), session)?;
        if let Err(refused) = self
            .index
            .cover_lacking(self.alloc, &new, old.filter(), session)
        {
            // Some keys may have been entered.
            self.index.uncover(new.table(), new.filter(), session, self.lists.get(session));
            return Err(refused);
        }
        self.lists.put(session, place, new);
        going.uncover_table(old.table(), session, self.lists.get(session));
        self.index.uncover_found(old, session, &going);
        Ok(())
    }

    /// Takes a filter of the table out of what the session asks: the first that has the same members in the
    /// same order, if there is one. It compares the filter with those that the session asks; then a look-up for
    /// each member, and O(the members of the session's other filters) for each.
    pub fn remove(&mut self, session: SessionId, table: TableId, filter: &Filter)
        ensures removed { LosesFirst (table, filter.now) (asked_at self.old session) (asked_at self.new session) }
        ensures others { Asks self.old self.new session (asked_at self.new session) }
    {
        if self.lists.take(session, table, filter) {
            self.index
                .uncover(table, filter, session, self.lists.get(session));
        }
    }

    /// Takes out all that the session asks. A look-up for each member of each of its filters.
    pub fn forget(&mut self, session: SessionId)
        ensures { Asks self.old self.new session [] }
    {
        self.index.uncover_all(session, self.lists.get(session));
        self.lists.forget(session);
    }

    /// Names the sessions that the change concerns, by ascending number: those with a filter of which a member
    /// concerns a row that the change has of its table, as it was or as it is. What the filters of a session
    /// that isn't named select is the same before and after (`law`).
    ///
    /// O(the tables of the database). For each changed row, and each column of its table that filters name, a
    /// look-up for each atom that the row has there, and O(log n) for each session that is found. The other
    /// sessions cost nothing.
    pub fn touched(&self, change: &ChangeSet) -> Result<Vec<SessionId>, AllocError>
        ensures rising { IfOk result (λ sessions. IsStrictlySortedBy nat_cmp sessions.items) }
        ensures touched { IfOk result (λ sessions. (session : ℕ)
            → list_any (λ s. s == session) sessions.items ≡ is_touched change.now (asked_at self.now session)) }
    {
        let mut found = BTreeSet::new(self.alloc);
        self.index.find(change, &mut found)?;
        ascending(self.alloc, &found)
    }
}

/// Enters a filter that the session asks; where memory is refused, some of its keys alone.
fn enter(
    index: &mut SessionsByKey,
    lists: &mut Lists,
    alloc: Global,
    session: SessionId,
    asked: Asked,
) -> Result<(), AllocError>
    ensures some { CoversSome index.old index.new asked.0 (λ k. has_key k asked.1) session }
    ensures index { OnOk result (Covers index.old index.new asked.0 (λ k. has_key k asked.1) session) }
    ensures lists { OnOk result (Asks lists.old lists.new session (asked_at lists.old session ++ asked ∷ [])) }
    ensures err { OnErr result (IsSame lists.old lists.new) }
{
    index.cover(alloc, &asked, session)?;
    lists.push(alloc, session, asked)
}

// Written, and not derived, so that each end of a scope is one call to prove.
impl Drop for Interest {
    fn drop(self) {
        let Interest {
            alloc: _,
            lists: _,
            index: _,
        } = self;
    }
}
