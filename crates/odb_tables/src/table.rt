//! Tables: rows by their identifiers (RFC 7047, section 3.2). [P 2.1]
ghost use Rattle.std.specs.Prelude.{◌≡◌, ◌&&◌, ◌++◌, ◌<◌, ◌^◌, filter, IfOk, OnOk, OnErr, IfErr, map, not, option_map};
ghost use Rattle.std.specs.Arc.{arc_value};
ghost use Rattle.std.specs.List.{IsDistinct};
ghost use Rattle.std.specs.Map.{keys_of};
ghost use Rattle.std.specs.Option.{option_copied};
ghost use Rattle.std.specs.Ordering.{eq_by_cmp};
ghost use Rattle.odb_atoms.specs.FinMap as finite;
ghost use Rattle.odb_atoms.specs.Represented.Atom.{uuid_of};
ghost use Rattle.odb_atoms.specs.Uuid.{uuid_cmp};
ghost use Rattle.odb_cond.specs.Filter.{selects};
ghost use Rattle.odb_tables.specs.Matching.{selected};
ghost use Rattle.odb_tables.specs.Represented.Found.{Appends, is_there, passing, untouched};
ghost use Rattle.odb_tables.specs.Represented.Installed.{each_row, one_row, put_in, replaced, taken_back, with_row_at};
ghost use Rattle.odb_tables.specs.Represented.RowIndex.{Covers};
ghost use Rattle.odb_tables.specs.Represented.Overlay.{row_of};
ghost use Rattle.odb_tables.specs.Represented.Table.{listed};

use crate::key::Key;
use crate::overlay::Overlay;
use crate::row_change::RowChange;
use crate::row_test::Test;
use crate::table_change::TableChange;
use indexmap::IndexMap;
use odb_atoms::Row;
use odb_cond::Filter;
use std::alloc::{AllocError, AllocFailed, Global};
use std::collections::BTreeSet;
use std::hash::RandomState;
use std::marker::Model;
use std::sync::Arc;
use uuid::Uuid;

/// The rows of a table by their identifiers. Rows are shared, and not copied, with drafts and changes.
#[derive(Drop)]
pub struct Table {
    rows: IndexMap<Key, Arc<Row>, RandomState>,
}

impl Model for Table {
    ghost use Rattle.odb_tables.specs.Database as model;
    ghost use Rattle.odb_tables.specs.Database.{table_code};
    ghost use Rattle.odb_tables.specs.Represented.Table.{rows_in};

    ghost Value = { model.Table };

    ghost coded = { table_code };

    ghost view = { λ t. rows_in t.rows };
}

impl Table {
    /// Makes a table without rows. O(1).
    pub fn new(alloc: Global, hashing: RandomState) -> Table
        ensures { result ≡ finite.empty }
    {
        Table {
            rows: IndexMap::with_hasher(alloc, hashing),
        }
    }

    /// Returns how many rows it has. O(1).
    pub fn len(&self) -> usize
        ensures rows { result ≡ finite.len self.now }
        ensures small { result < 2 ^ 63 }
    {
        self.rows.len()
    }

    /// Returns the row of an identifier, if it has one. O(1).
    pub fn get(&self, uuid: Uuid) -> Option<&Row>
        ensures { option_copied result ≡ finite.get self.now (uuid_of uuid) }
    {
        let row = self.rows.get(&Key::of(uuid))?;
        Some(&**row)
    }

    /// Returns whether it has a row of the key. O(1).
    pub(crate) fn contains(&self, key: Key) -> bool
        ensures { result ≡ finite.contains_key self.now key }
    {
        self.rows.contains_key(&key)
    }

    /// Lets the identifier have the row, in place of the one that it had. O(1), but for growth. Where memory
    /// is refused the table is as it was, and the row comes back.
    pub(crate) fn insert(&mut self, uuid: Uuid, row: Arc<Row>) -> Result<(), AllocFailed<Arc<Row>>>
        ensures ok { OnOk result (self.new ≡ finite.insert self.old (uuid_of uuid) (arc_value row)) }
        ensures err { OnErr result (self.new ≡ self.old) }
        ensures handed_back { IfErr result (λ refused. refused.value ≡ row) }
    {
        match self.rows.insert(Key::of(uuid), row) {
            Ok(_) => Ok(()),
            Err(AllocFailed { value: (_, row) }) => Err(AllocFailed { value: row }),
        }
    }

    /// Takes the row of the identifier out, if it has one. O(1).
    pub(crate) fn remove(&mut self, uuid: Uuid) -> Option<Arc<Row>>
        ensures row { option_map arc_value result ≡ finite.get self.old (uuid_of uuid) }
        ensures others { self.new ≡ finite.remove self.old (uuid_of uuid) }
    {
        self.rows.swap_remove(&Key::of(uuid))
    }

    /// Returns the row of a key, if the table has one, to be shared: its clone is the same row, and costs a
    /// count. It stays as it is when the table changes. O(1).
    pub fn share(&self, key: Key) -> Option<&Arc<Row>>
        ensures { row_of (option_copied result) ≡ finite.get self.now key }
    {
        self.rows.get(&key)
    }

    /// Returns each of its rows once, with its identifier, in no order that is told. O(rows).
    pub fn list(&self, alloc: Global) -> Result<Vec<(Uuid, &Row)>, AllocError>
        ensures rows { IfOk result (λ rows. finite.from_entries (map listed rows.items) ≡ self.now) }
        ensures distinct { IfOk result (λ rows. IsDistinct (eq_by_cmp uuid_cmp) (keys_of (map listed rows.items))) }
    {
        let mut rows = Vec::with_capacity(alloc, self.len())?;
        for (key, row) in self.rows.iter() {
            if rows.push((key.uuid(), &**row)).is_err() {
                return Err(AllocError);
            }
        }
        Ok(rows)
    }

    /// Returns each of the rows that pass the test once, with its identifier, in no order that is told. O(rows), each
    /// tested once.
    pub(crate) fn select<T: Test>(
        &self,
        alloc: Global,
        test: &T,
    ) -> Result<Vec<(Uuid, &Row)>, AllocError>
        ensures rows { IfOk result (λ rows. finite.from_entries (map listed rows.items) ≡ passing (T.passes test.now) self.now) }
        ensures distinct { IfOk result (λ rows. IsDistinct (eq_by_cmp uuid_cmp) (keys_of (map listed rows.items))) }
    {
        let mut rows = Vec::new(alloc);
        for (key, row) in self.rows.iter() {
            let uuid = key.uuid();
            if !test.passes(uuid, &**row) {
                continue;
            }
            if rows.push((uuid, &**row)).is_err() {
                return Err(AllocError);
            }
        }
        Ok(rows)
    }

    /// Returns what `select` returns, where each row that the filter selects stands under one of these keys. O(the keys),
    /// each row under them tested once.
    pub(crate) fn select_among(
        &self,
        alloc: Global,
        keys: &BTreeSet<Key>,
        filter: &Filter,
    ) -> Result<Vec<(Uuid, &Row)>, AllocError>
        requires { Covers keys.now.keys (selects filter.now) self.now }
        ensures rows { IfOk result (λ rows. finite.from_entries (map listed rows.items) ≡ selected filter.now self.now) }
        ensures distinct { IfOk result (λ rows. IsDistinct (eq_by_cmp uuid_cmp) (keys_of (map listed rows.items))) }
    {
        let mut rows = Vec::new(alloc);
        for key in keys {
            let Some(row) = self.get_selected(*key, filter) else {
                continue;
            };
            if rows.push((key.uuid(), row)).is_err() {
                return Err(AllocError);
            }
        }
        Ok(rows)
    }

    /// Returns the row of a key, if the table has one and the filter selects it.
    fn get_selected(&self, key: Key, filter: &Filter) -> Option<&Row>
        ensures { option_copied result ≡ finite.get (selected filter.now self.now) key }
    {
        let Some(row) = self.get(key.uuid()) else {
            return None;
        };
        if !filter.holds(key.uuid(), row) {
            return None;
        }
        Some(row)
    }

    /// Puts in the rows that are new by the change. Where memory is refused some of them are in, and nothing
    /// else changed. O(rows changed).
    pub(crate) fn put_in(&mut self, change: &TableChange) -> Result<(), AllocError>
        ensures ok { OnOk result (self.new ≡ each_row put_in self.old change.now) }
        ensures only_new { each_row taken_back self.new change.now ≡ each_row taken_back self.old change.now }
    {
        for row in change.rows() {
            self.put_in_row(row)?;
        }
        Ok(())
    }

    fn put_in_row(&mut self, row: &RowChange) -> Result<(), AllocError>
        ensures ok { OnOk result (self.new ≡ one_row put_in self.old row.now) }
        ensures err { OnErr result (self.new ≡ self.old) }
    {
        if !row.is_new() {
            return Ok(());
        }
        let Some(new) = row.share_new()? else {
            return Ok(());
        };
        Ok(self.insert(row.uuid(), new)?)
    }

    /// Takes out the rows that are new by the change. O(rows changed).
    pub(crate) fn take_back(&mut self, change: &TableChange)
        ensures { self.new ≡ each_row taken_back self.old change.now }
    {
        for row in change.rows() {
            self.take_back_row(row);
        }
    }

    fn take_back_row(&mut self, row: &RowChange)
        ensures { self.new ≡ one_row taken_back self.old row.now }
    {
        if !row.is_new() {
            return;
        }
        drop(self.remove(row.uuid()));
    }

    /// Replaces and removes the rows that aren't new by the change. O(rows changed).
    pub(crate) fn replace_old_rows(&mut self, change: TableChange)
        ensures { self.new ≡ each_row replaced self.old change }
    {
        for row in change.into_rows() {
            self.replace_old_row(row);
        }
    }

    fn replace_old_row(&mut self, row: RowChange)
        ensures { self.new ≡ one_row replaced self.old row }
    {
        let (key, old, new) = row.into_parts();
        if old.is_none() {
            return;
        }
        match new {
            Some(new) => self.replace(key, new),
            None => drop(self.rows.swap_remove(&key)),
        }
    }

    /// Lets the key have the row, if it has one.
    fn replace(&mut self, key: Key, row: Arc<Row>)
        ensures { self.new ≡ with_row_at self.old key (option_map (λ _. arc_value row) (finite.get self.old key)) }
    {
        let Some(place) = self.rows.get_mut(&key) else {
            return;
        };
        *place = row;
    }

    /// Appends the identifiers of the rows that pass the test, but for those that the overlay touched.
    /// O(rows).
    pub(crate) fn find_untouched<T: Test>(
        &self,
        overlay: &Overlay,
        test: &T,
        found: &mut Vec<Uuid>,
    ) -> Result<(), AllocError>
        ensures { OnOk result (Appends (map uuid_of found.old.items) (map uuid_of found.new.items)
            (passing (T.passes test.now) (untouched overlay.now self.now))) }
    {
        for (key, row) in self.rows.iter() {
            if is_found(*key, &**row, overlay, test) {
                found.push(key.uuid())?;
            }
        }
        Ok(())
    }

    /// Appends those of the identifiers under which it has a row that passes the test and that the overlay
    /// didn't touch. O(the keys).
    pub(crate) fn find_among<T: Test>(
        &self,
        keys: &[Key],
        overlay: &Overlay,
        test: &T,
        found: &mut Vec<Uuid>,
    ) -> Result<(), AllocError>
        ensures { OnOk result (map uuid_of found.new.items ≡ map uuid_of found.old.items
            ++ filter (is_there (T.passes test.now) overlay.now self.now) keys.now) }
    {
        for key in keys {
            if has_untouched(self, *key, overlay, test) {
                found.push(key.uuid())?;
            }
        }
        Ok(())
    }
}

/// Returns whether the table has the row, it passes the test, and wasn't touched.
fn has_untouched<T: Test>(table: &Table, key: Key, overlay: &Overlay, test: &T) -> bool
    ensures { result ≡ is_there (T.passes test.now) overlay.now table.now key }
{
    match table.share(key) {
        Some(row) => is_found(key, &**row, overlay, test),
        None => false,
    }
}

/// Returns whether the row passes the test, and wasn't touched.
fn is_found<T: Test>(key: Key, row: &Row, overlay: &Overlay, test: &T) -> bool
    ensures { result ≡ (T.passes test.now key row.now && not (finite.contains_key overlay.now key)) }
{
    test.passes(key.uuid(), row) && !overlay.touches(key)
}
