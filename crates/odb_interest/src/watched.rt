//! The sessions that ask for a table.
ghost use Rattle.std.specs.Prelude.{◌≡◌, ℕ, false, true, OnErr, OnOk};
ghost use Rattle.odb_atoms.specs.Represented.Atom.{atom_of};
ghost use Rattle.odb_interest.specs.Keys as model;
ghost use Rattle.odb_interest.specs.Represented.Key.{key_in};
ghost use Rattle.odb_interest.specs.Represented.Found.{Grows, names_declared};
ghost use Rattle.odb_interest.specs.Represented.Watched.{AreUnchanged, PutsAt};

use crate::column::SessionsByAtom;
use crate::found::add_all;
use crate::key::Key;
use odb_atoms::Atom;
use odb_cond::Selector;
use odb_locks::SessionId;
use odb_tables::RowChange;
use std::alloc::{AllocError, Global};
use std::collections::{BTreeMap, BTreeSet};

/// The sessions that ask for a table, by what they are looked up by.
pub(crate) struct Watched {
    /// Those that any row concerns.
    loose: BTreeSet<SessionId>,
    /// Those that name an identifier in `_uuid`, and in `_version`.
    uuids: SessionsByAtom,
    versions: SessionsByAtom,
    /// Those that name an atom in a declared column, by its place.
    columns: BTreeMap<usize, SessionsByAtom>,
}

impl Watched {
    ghost use Rattle.odb_interest.specs.Represented.Found.{is_found};
    ghost use Rattle.odb_interest.specs.Represented.Watched.{IsUnchanged, Puts, watches};

    /// Makes a table for which no session asks.
    pub(crate) fn new(alloc: Global) -> Watched
        ensures { (k : model.Key) (s : ℕ) → watches result k s ≡ false }
    {
        Watched {
            loose: BTreeSet::new(alloc),
            uuids: SessionsByAtom::new(alloc),
            versions: SessionsByAtom::new(alloc),
            columns: BTreeMap::new(alloc),
        }
    }

    /// Has the session found by the key. O(log n), as `SessionsByAtom::insert` says it.
    pub(crate) fn insert(
        &mut self,
        alloc: Global,
        key: Key<'_>,
        session: SessionId,
    ) -> Result<(), AllocError>
        ensures ok { OnOk result (Puts self.old self.new (key_in key.entry) session true) }
        ensures err { OnErr result (IsUnchanged self.old self.new) }
    {
        match key {
            Key::Any => {
                self.loose.insert(session)?;
                Ok(())
            }
            Key::Named(Selector::Uuid, atom) => self.uuids.insert(alloc, atom, session),
            Key::Named(Selector::Version, atom) => self.versions.insert(alloc, atom, session),
            Key::Named(Selector::Declared(place), atom) => {
                insert_at(&mut self.columns, alloc, place, atom, session)
            }
        }
    }

    /// Has the session not found by the key. O(log n), as `SessionsByAtom::remove` says it.
    pub(crate) fn remove(&mut self, key: Key<'_>, session: SessionId)
        ensures { Puts self.old self.new (key_in key.entry) session false }
    {
        match key {
            Key::Any => {
                self.loose.remove(&session);
            }
            Key::Named(Selector::Uuid, atom) => self.uuids.remove(atom, session),
            Key::Named(Selector::Version, atom) => self.versions.remove(atom, session),
            Key::Named(Selector::Declared(place), atom) => {
                remove_at(&mut self.columns, place, atom, session);
            }
        }
    }

    /// Returns whether the session is found by the key. O(log n), as `SessionsByAtom::has` says it.
    pub(crate) fn has(&self, key: Key<'_>, session: SessionId) -> bool
        ensures { result ≡ watches self.now (key_in key.entry) session }
    {
        match key {
            Key::Any => self.loose.contains(&session),
            Key::Named(Selector::Uuid, atom) => self.uuids.has(atom, session),
            Key::Named(Selector::Version, atom) => self.versions.has(atom, session),
            Key::Named(Selector::Declared(place), atom) => match self.columns.get(&place) {
                Some(column) => column.has(atom, session),
                None => false,
            },
        }
    }

    /// Adds the sessions that are found by a key of these rows.
    pub(crate) fn find(
        &self,
        rows: &[RowChange],
        found: &mut BTreeSet<SessionId>,
    ) -> Result<(), AllocError>
        ensures { OnOk result (Grows found.old found.new (is_found self.now rows.now)) }
    {
        add_all(&self.loose, found)?;
        self.uuids.find(Selector::Uuid, rows, found)?;
        self.versions.find(Selector::Version, rows, found)?;
        find_declared(&self.columns, rows, found)
    }
}

/// Adds the sessions that name an atom which one of the rows has in its column.
fn find_declared(
    columns: &BTreeMap<usize, SessionsByAtom>,
    rows: &[RowChange],
    found: &mut BTreeSet<SessionId>,
) -> Result<(), AllocError>
    ensures { OnOk result (Grows found.old found.new (names_declared columns.now rows.now)) }
{
    for (place, column) in columns {
        column.find(Selector::Declared(*place), rows, found)?;
    }
    Ok(())
}

/// Enters that the session names the atom in the column at the place.
fn insert_at(
    columns: &mut BTreeMap<usize, SessionsByAtom>,
    alloc: Global,
    place: usize,
    atom: &Atom,
    session: SessionId,
) -> Result<(), AllocError>
    ensures ok { OnOk result (PutsAt columns.old columns.new place (atom_of atom.now) session true) }
    ensures err { OnErr result (AreUnchanged columns.old columns.new) }
{
    if let Some(column) = columns.get_mut(&place) {
        return column.insert(alloc, atom, session);
    }
    let mut column = SessionsByAtom::new(alloc);
    column.insert(alloc, atom, session)?;
    drop(columns.insert(place, column)?);
    Ok(())
}

/// Takes out that the session names the atom in the column at the place.
fn remove_at(
    columns: &mut BTreeMap<usize, SessionsByAtom>,
    place: usize,
    atom: &Atom,
    session: SessionId,
)
    ensures { PutsAt columns.old columns.new place (atom_of atom.now) session false }
{
    if let Some(column) = columns.get_mut(&place) {
        column.remove(atom, session);
    }
}

// Written, and not derived, so that each end of a scope is one call to prove.
impl Drop for Watched {
    fn drop(self) {
        let Watched {
            loose: _,
            uuids: _,
            versions: _,
            columns: _,
        } = self;
    }
}
