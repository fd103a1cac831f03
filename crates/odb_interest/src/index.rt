//! The sessions by the keys of what they ask.
ghost use Rattle.std.specs.Prelude.{◌≡◌, ◌∷◌, [], ℕ, false, true, OnErr, OnOk};
ghost use Rattle.odb_interest.specs.Keys as model;
ghost use Rattle.odb_interest.specs.Represented.Key.{among, has_key, key_in, same_key};
ghost use Rattle.odb_interest.specs.Represented.Found.{Grows};

use crate::asked::Asked;
use crate::key::{Key, lacking};
use crate::watched::Watched;
use odb_cond::{Filter, Member};
use odb_locks::SessionId;
use odb_schema::TableId;
use odb_tables::{ChangeSet, TableChange};
use std::alloc::{AllocError, Global};
use std::collections::{BTreeMap, BTreeSet};

/// The sessions by the keys of the filters that they ask, table by table.
#[derive(Drop)]
pub(crate) struct SessionsByKey {
    tables: BTreeMap<usize, Watched>,
}

impl SessionsByKey {
    ghost use Rattle.odb_interest.specs.Represented.SessionsByKey.{Covers, CoversLacking, CoversSome, IsUnchanged, Puts, Uncovers, UncoversAll, UncoversAt, UncoversFound, finds, finds_among, finds_for};

    /// Makes an index of no sessions.
    pub(crate) fn new(alloc: Global) -> SessionsByKey
        ensures { (t : ℕ) (k : model.Key) (s : ℕ) → finds result t k s ≡ false }
    {
        SessionsByKey {
            tables: BTreeMap::new(alloc),
        }
    }

    /// Has the session found by the key of the table. O(log n), as `SessionsByAtom::insert` says it.
    fn insert(
        &mut self,
        alloc: Global,
        table: TableId,
        key: Key<'_>,
        session: SessionId,
    ) -> Result<(), AllocError>
        ensures ok { OnOk result (Puts self.old self.new table (key_in key.entry) session true) }
        ensures err { OnErr result (IsUnchanged self.old self.new) }
    {
        let place = table.place();
        if let Some(watched) = self.tables.get_mut(&place) {
            return watched.insert(alloc, key, session);
        }
        let mut watched = Watched::new(alloc);
        watched.insert(alloc, key, session)?;
        drop(self.tables.insert(place, watched)?);
        Ok(())
    }

    /// Has the session not found by the key of the table. O(log n), as `SessionsByAtom::remove` says it.
    fn remove(&mut self, table: TableId, key: Key<'_>, session: SessionId)
        ensures { Puts self.old self.new table (key_in key.entry) session false }
    {
        let place = table.place();
        if let Some(watched) = self.tables.get_mut(&place) {
            watched.remove(key, session);
        }
    }

    /// Returns whether the session is found by the key of the table. O(log n), as `SessionsByAtom::has` says it.
    fn has(&self, table: TableId, key: Key<'_>, session: SessionId) -> bool
        ensures { result ≡ finds self.now table (key_in key.entry) session }
    {
        match self.tables.get(&table.place()) {
            Some(watched) => watched.has(key, session),
            None => false,
        }
    }

    /// Has the session found by the keys of the filter too; where memory is refused, by some of them.
    pub(crate) fn cover(
        &mut self,
        alloc: Global,
        asked: &Asked,
        session: SessionId,
    ) -> Result<(), AllocError>
        ensures some { CoversSome self.old self.new asked.now.0 (λ k. has_key k asked.now.1) session }
        ensures ok { OnOk result (Covers self.old self.new asked.now.0 (λ k. has_key k asked.now.1) session) }
    {
        let members = asked.filter().members();
        if members.is_empty() {
            return self.insert(alloc, asked.table(), Key::Any, session);
        }
        self.cover_each(alloc, asked.table(), members, session)
    }

    /// Has the session found by the keys of these members too.
    fn cover_each(
        &mut self,
        alloc: Global,
        table: TableId,
        members: &[Member],
        session: SessionId,
    ) -> Result<(), AllocError>
        ensures some { CoversSome self.old self.new table (among members.now) session }
        ensures ok { OnOk result (Covers self.old self.new table (among members.now) session) }
    {
        for member in members {
            if let Some(key) = Key::of(member) {
                self.insert(alloc, table, key, session)?;
            }
        }
        Ok(())
    }

    /// Has the session found by keys of the filter too, by each that the other filter hasn't; where memory is refused,
    /// by some of them. A look-up for each that isn't among the next few of the other filter.
    pub(crate) fn cover_lacking(
        &mut self,
        alloc: Global,
        asked: &Asked,
        other: &Filter,
        session: SessionId,
    ) -> Result<(), AllocError>
        ensures some { CoversSome self.old self.new asked.now.0 (λ k. has_key k asked.now.1) session }
        ensures ok { OnOk result (CoversLacking self.old self.new asked.now.0 (λ k. has_key k asked.now.1) (λ k. has_key k other.now) session) }
    {
        let table = asked.table();
        let members = asked.filter().members();
        if members.is_empty() {
            return self.insert(alloc, table, Key::Any, session);
        }
        let others = other.members();
        let mut place = 0;
        for member in members {
            if let Some(key) = lacking(member, others, &mut place) {
                self.insert(alloc, table, key, session)?;
            }
        }
        Ok(())
    }

    /// Has the session not found by the keys of the filter, but for those that its other filters have.
    pub(crate) fn uncover(
        &mut self,
        table: TableId,
        filter: &Filter,
        session: SessionId,
        others: &[Asked],
    )
        ensures { Uncovers self.old self.new table (λ k. has_key k filter.now) session others.now }
    {
        let members = filter.members();
        if members.is_empty() {
            return self.release(table, Key::Any, session, others);
        }
        self.uncover_each(table, members, session, others);
    }

    /// Has the session not found by the keys of these members, but for those that its other filters have.
    fn uncover_each(
        &mut self,
        table: TableId,
        members: &[Member],
        session: SessionId,
        others: &[Asked],
    )
        ensures { Uncovers self.old self.new table (among members.now) session others.now }
    {
        for member in members {
            if let Some(key) = Key::of(member) {
                self.release(table, key, session, others);
            }
        }
    }

    /// Has the session not found by the keys of these filters.
    pub(crate) fn uncover_all(&mut self, session: SessionId, filters: &[Asked])
        ensures { UncoversAll self.old self.new session filters.now }
    {
        for asked in filters {
            self.uncover(asked.table(), asked.filter(), session, &[]);
        }
    }

    /// Has the session not found by the keys of those of the filters that are of the table.
    pub(crate) fn uncover_table(&mut self, table: TableId, session: SessionId, filters: &[Asked])
        ensures { UncoversAt self.old self.new table session filters.now }
    {
        for asked in filters {
            self.uncover_if_of(table, session, asked);
        }
    }

    /// Has the session not found by the keys of the filter, if it is of the table.
    fn uncover_if_of(&mut self, table: TableId, session: SessionId, asked: &Asked)
        ensures { UncoversAt self.old self.new table session (asked.now ∷ []) }
    {
        if asked.table() != table {
            return;
        }
        self.uncover(table, asked.filter(), session, &[]);
    }

    /// Has the session not found by those keys of the filter by which the other index finds it.
    pub(crate) fn uncover_found(&mut self, asked: &Asked, session: SessionId, found: &SessionsByKey)
        ensures { UncoversFound self.old self.new asked.now.0 (λ k. has_key k asked.now.1) session found.now }
    {
        let table = asked.table();
        let members = asked.filter().members();
        if members.is_empty() {
            return self.remove_found(table, Key::Any, session, found);
        }
        for member in members {
            if let Some(key) = Key::of(member) {
                self.remove_found(table, key, session, found);
            }
        }
    }

    /// Has the session not found by the key, if the other index finds it by that.
    fn remove_found(
        &mut self,
        table: TableId,
        key: Key<'_>,
        session: SessionId,
        found: &SessionsByKey,
    )
        ensures { UncoversFound self.old self.new table (λ k. same_key k (key_in key.entry)) session found.now }
    {
        if found.has(table, key, session) {
            self.remove(table, key, session);
        }
    }

    /// Has the session not found by the key, unless one of its other filters has it.
    fn release(&mut self, table: TableId, key: Key<'_>, session: SessionId, others: &[Asked])
        ensures { Uncovers self.old self.new table (λ k. same_key k (key_in key.entry)) session others.now }
    {
        if !key.is_asked(table, others) {
            self.remove(table, key, session);
        }
    }

    /// Adds the sessions that are found for the change.
    pub(crate) fn find(
        &self,
        change: &ChangeSet,
        found: &mut BTreeSet<SessionId>,
    ) -> Result<(), AllocError>
        ensures { OnOk result (Grows found.old found.new (finds_among self.now change.now)) }
    {
        let tables = change.tables();
        for place in 0..tables.len() {
            self.find_for(place, &tables[place], found)?;
        }
        Ok(())
    }

    /// Adds those that are found for the change of the table at the place.
    fn find_for(
        &self,
        place: usize,
        change: &TableChange,
        found: &mut BTreeSet<SessionId>,
    ) -> Result<(), AllocError>
        ensures { OnOk result (Grows found.old found.new (finds_for self.now place change.now)) }
    {
        let rows = change.rows();
        if rows.is_empty() {
            return Ok(());
        }
        match self.tables.get(&place) {
            Some(watched) => watched.find(rows, found),
            None => Ok(()),
        }
    }
}
