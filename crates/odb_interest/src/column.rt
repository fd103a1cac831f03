//! The sessions that name atoms in one column.
ghost use Rattle.std.specs.Prelude.{◌≡◌, ℕ, false, true, OnErr, OnOk};
ghost use Rattle.std.specs.List.{list_any};
ghost use Rattle.std.specs.Option.{option_copied};
ghost use Rattle.odb_atoms.specs.Atom as model;
ghost use Rattle.odb_atoms.specs.Represented.Atom.{atom_of, uuid_of};
ghost use Rattle.odb_cond.specs.Represented.Clause.{selector_of};

use crate::found::add_all;
use odb_atoms::{Atom, Entries, Row, Value};
use odb_chunks::Items;
use odb_cond::Selector;
use odb_locks::SessionId;
use odb_tables::RowChange;
use std::alloc::{AllocError, Global};
use std::collections::{BTreeMap, BTreeSet};
use uuid::Uuid;

/// The sessions that name atoms in one column, by the atoms. An atom that no session names takes no room.
#[derive(Drop)]
pub(crate) struct SessionsByAtom {
    sessions: BTreeMap<Atom, BTreeSet<SessionId>>,
}

impl SessionsByAtom {
    ghost use Rattle.odb_interest.specs.Keys.{atoms_in};
    ghost use Rattle.odb_interest.specs.Represented.SessionsByAtom.{IsUnchanged, Puts, names};
    ghost use Rattle.odb_interest.specs.Represented.Found.{Grows, names_in, names_some};

    /// Makes a column in which no session names an atom.
    pub(crate) fn new(alloc: Global) -> SessionsByAtom
        ensures { (a : model.Atom) (s : ℕ) → names result a s ≡ false }
    {
        SessionsByAtom {
            sessions: BTreeMap::new(alloc),
        }
    }

    /// Enters that the session names the atom. O(log n) for n atoms and for n sessions that name it.
    pub(crate) fn insert(
        &mut self,
        alloc: Global,
        atom: &Atom,
        session: SessionId,
    ) -> Result<(), AllocError>
        ensures ok { OnOk result (Puts self.old self.new (atom_of atom.now) session true) }
        ensures err { OnErr result (IsUnchanged self.old self.new) }
    {
        if let Some(sessions) = self.sessions.get_mut(atom) {
            sessions.insert(session)?;
            return Ok(());
        }
        let atom = atom.try_copy(alloc)?;
        let mut sessions = BTreeSet::new(alloc);
        sessions.insert(session)?;
        drop(self.sessions.insert(atom, sessions)?);
        Ok(())
    }

    /// Takes out that the session names the atom. O(log n) for n atoms and for n sessions that name it.
    pub(crate) fn remove(&mut self, atom: &Atom, session: SessionId)
        ensures { Puts self.old self.new (atom_of atom.now) session false }
    {
        let Some(sessions) = self.sessions.get_mut(atom) else {
            return;
        };
        sessions.remove(&session);
        if sessions.is_empty() {
            drop(self.sessions.remove(atom));
        }
    }

    /// Returns whether the session names the atom. O(log n) for n atoms and for n sessions that name it.
    pub(crate) fn has(&self, atom: &Atom, session: SessionId) -> bool
        ensures { result ≡ names self.now (atom_of atom.now) session }
    {
        match self.sessions.get(atom) {
            Some(sessions) => sessions.contains(&session),
            None => false,
        }
    }

    /// Adds the sessions that name an atom which one of the rows has in the column, as it was or as it is.
    pub(crate) fn find(
        &self,
        column: Selector,
        rows: &[RowChange],
        found: &mut BTreeSet<SessionId>,
    ) -> Result<(), AllocError>
        ensures { OnOk result (Grows found.old found.new (names_some self.now (selector_of column) rows.now)) }
    {
        if self.sessions.is_empty() {
            return Ok(());
        }
        for row in rows {
            self.find_in_row(column, row.uuid(), row.old(), found)?;
            self.find_in_row(column, row.uuid(), row.new(), found)?;
        }
        Ok(())
    }

    /// Adds the sessions that name an atom which the row has in the column.
    fn find_in_row(
        &self,
        column: Selector,
        uuid: Uuid,
        row: Option<&Row>,
        found: &mut BTreeSet<SessionId>,
    ) -> Result<(), AllocError>
        ensures { OnOk result (Grows found.old found.new (names_in self.now (selector_of column) (uuid_of uuid) (option_copied row.entry))) }
    {
        let Some(row) = row else {
            return Ok(());
        };
        match column {
            Selector::Uuid => self.find_in_value(&Value::one(Atom::Uuid(uuid)), found),
            Selector::Version => self.find_in_value(&Value::one(Atom::Uuid(row.version())), found),
            Selector::Declared(place) => match row.get(place) {
                Some(value) => self.find_in_value(value, found),
                None => Ok(()),
            },
        }
    }

    /// Adds the sessions that name an element of the set, or a key of the map.
    fn find_in_value(
        &self,
        value: &Value,
        found: &mut BTreeSet<SessionId>,
    ) -> Result<(), AllocError>
        ensures { OnOk result (Grows found.old found.new (λ s. list_any (λ a. names self.now a s) (atoms_in value.now))) }
    {
        match value.entries() {
            Entries::Set(atoms) => self.find_each(&atoms, found),
            Entries::Map(pairs) => self.find_each_key(&pairs, found),
        }
    }

    /// Adds the sessions that name one of the atoms.
    fn find_each(
        &self,
        atoms: &Items<'_, Atom>,
        found: &mut BTreeSet<SessionId>,
    ) -> Result<(), AllocError>
        ensures { OnOk result (Grows found.old found.new (λ s. list_any (λ a. names self.now (atom_of a) s) atoms.now)) }
    {
        for atom in atoms.iter() {
            self.find_one(atom, found)?;
        }
        Ok(())
    }

    /// Adds the sessions that name one of the keys.
    fn find_each_key(
        &self,
        pairs: &Items<'_, (Atom, Atom)>,
        found: &mut BTreeSet<SessionId>,
    ) -> Result<(), AllocError>
        ensures { OnOk result (Grows found.old found.new (λ s. list_any (λ p. names self.now (atom_of p.0) s) pairs.now)) }
    {
        for pair in pairs.iter() {
            self.find_one(&pair.0, found)?;
        }
        Ok(())
    }

    /// Adds the sessions that name the atom.
    fn find_one(&self, atom: &Atom, found: &mut BTreeSet<SessionId>) -> Result<(), AllocError>
        ensures { OnOk result (Grows found.old found.new (names self.now (atom_of atom.now))) }
    {
        match self.sessions.get(atom) {
            Some(sessions) => add_all(sessions, found),
            None => Ok(()),
        }
    }
}
