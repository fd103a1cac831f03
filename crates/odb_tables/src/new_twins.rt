//! Twins in a draft: rows with the same values in the columns of an index as another row (RFC 7047, section 3.2,
//! `indexes`). [P 5]
ghost use Rattle.std.specs.Prelude.{◌≡◌, false, true, map, IfOk, IsTrue, OnOk};
ghost use Rattle.std.specs.List.{list_any};
ghost use Rattle.std.specs.Ordering.{eq_by_cmp};
ghost use Rattle.odb_atoms.specs.FinMap as finite;
ghost use Rattle.odb_atoms.specs.Represented.Atom.{uuid_of};
ghost use Rattle.odb_atoms.specs.Uuid as model_uuid;
ghost use Rattle.odb_atoms.specs.Uuid.{uuid_cmp};
ghost use Rattle.odb_tables.specs.Database.{table_at};
ghost use Rattle.odb_tables.specs.Indexed as spec;
ghost use Rattle.odb_tables.specs.Indexed.{AlikeAt, HasTwins, StaysApart, cells_at};
ghost use Rattle.odb_tables.specs.Represented.Facet.{HasTagsNow};
ghost use Rattle.odb_tables.specs.Represented.RowIndex.{HasChanged, HasListed, IsOfSame};
ghost use Rattle.odb_tables.specs.Represented.Overlay.{passes_now};
ghost use Rattle.odb_tables.specs.Represented.Pairs.{Grows};

use crate::draft::Draft;
use crate::facet::Facet;
use crate::key::Key;
use crate::row_index::RowIndex;
use crate::row_test::{Test, Twins, have_same};
use odb_schema::TableId;
use std::alloc::AllocError;
use uuid::Uuid;

impl Draft<'_> {
    /// Returns whether a row of the table that is new, or has another value in a column at one of these places
    /// than before, has the same values at all of them as another row (RFC 7047, section 3.2, `indexes`).
    ///
    /// Where the database has a row index by these columns (`Db::for_schema`): O(n log n) for the n rows of the
    /// table that were touched, and for each of them that is new or has another value there O(the row indexes),
    /// O(log m) for the m rows of the table, and O(rows with the same values, or by chance the same digest). Else
    /// each of these is compared with all rows of the table. O(n) where none is new or has another value.
    pub fn has_new_twins(&self, table: TableId, places: &[usize]) -> Result<bool, AllocError>
        ensures twins { IfOk result (λ twins. IsTrue twins → HasTwins places.now (table_at self.now.now table)) }
        ensures apart { IfOk result (λ twins. twins ≡ false → (u : model_uuid.Uuid)
            → StaysApart places.now (table_at self.now.old table) (table_at self.now.now table) u) }
    {
        let listed = self.touched(self.alloc(), table)?;
        let touched = listed.as_slice();
        if self.are_alike(table, places, touched) {
            return Ok(false);
        }
        let index = self.index_listed(table, places, touched)?;
        self.has_twins_among(table, places, touched, &index)
    }

    /// Returns whether it is certain that each of these rows isn't there, or was there before with the same
    /// values at the places.
    fn are_alike(&self, table: TableId, places: &[usize], uuids: &[Uuid]) -> bool
        ensures { IsTrue result → (u : model_uuid.Uuid) → list_any (eq_by_cmp uuid_cmp u) (map uuid_of uuids.now) ≡ true
            → AlikeAt (cells_at places.now) (table_at self.now.old table) (table_at self.now.now table) u }
    {
        for uuid in uuids {
            if !self.is_alike(table, places, *uuid) {
                return false;
            }
        }
        true
    }

    /// Returns whether the row isn't there, or was there before with the same values at the places.
    fn is_alike(&self, table: TableId, places: &[usize], uuid: Uuid) -> bool
        ensures { IsTrue result → AlikeAt (cells_at places.now) (table_at self.now.old table) (table_at self.now.now table) (uuid_of uuid) }
    {
        match self.get(table, uuid) {
            Some(row) => match self.before(table, uuid) {
                Some(old) => have_same(places, row, old),
                None => false,
            },
            None => true,
        }
    }

    /// Returns an index of these rows, as far as the table has them now, by their values at the places.
    fn index_listed(
        &self,
        table: TableId,
        places: &[usize],
        uuids: &[Uuid],
    ) -> Result<RowIndex, AllocError>
        ensures { IfOk result (λ index. HasListed (map uuid_of uuids.now) index (table_at self.now.now table)) }
    {
        let mut index = self.without_rows(table, places)?;
        for uuid in uuids {
            self.add_row(&mut index, table, *uuid)?;
        }
        Ok(index)
    }

    fn without_rows(&self, table: TableId, places: &[usize]) -> Result<RowIndex, AllocError> {
        let places = Vec::from_slice(self.alloc(), places)?;
        let facet = Facet::Values(self.hashing(), places);
        Ok(RowIndex::new(self.alloc(), table.place(), facet))
    }

    /// Adds the row to the index, if the table has it now.
    fn add_row(&self, index: &mut RowIndex, table: TableId, uuid: Uuid) -> Result<(), AllocError>
        ensures same { IsOfSame index.old index.new }
        ensures grows { Grows index.old.pairs index.new.pairs }
        ensures ok { OnOk result (HasTagsNow index.old.facet index.new.pairs (uuid_of uuid) (finite.get (table_at self.now.now table) (uuid_of uuid))) }
    {
        match self.get(table, uuid) {
            Some(row) => index.add(Key::of(uuid), row),
            None => Ok(()),
        }
    }

    /// Returns whether one of these rows is new, or has another value at the places than before, and another row
    /// has the same values there. The index has all rows that were touched, by these places.
    fn has_twins_among(
        &self,
        table: TableId,
        places: &[usize],
        uuids: &[Uuid],
        touched: &RowIndex,
    ) -> Result<bool, AllocError>
        requires { HasChanged touched.now (table_at self.now.old table) (table_at self.now.now table) }
        ensures twins { IfOk result (λ twins. IsTrue twins → HasTwins places.now (table_at self.now.now table)) }
        ensures apart { IfOk result (λ twins. twins ≡ false → (u : model_uuid.Uuid)
            → list_any (eq_by_cmp uuid_cmp u) (map uuid_of uuids.now) ≡ true
            → StaysApart places.now (table_at self.now.old table) (table_at self.now.now table) u) }
    {
        for uuid in uuids {
            if self.gets_twin(table, places, *uuid, touched)? {
                return Ok(true);
            }
        }
        Ok(false)
    }

    fn gets_twin(
        &self,
        table: TableId,
        places: &[usize],
        uuid: Uuid,
        touched: &RowIndex,
    ) -> Result<bool, AllocError>
        requires { HasChanged touched.now (table_at self.now.old table) (table_at self.now.now table) }
        ensures twin { IfOk result (λ twin. IsTrue twin
            → spec.has_twin places.now (table_at self.now.now table) (uuid_of uuid) ≡ true) }
        ensures apart { IfOk result (λ twin. twin ≡ false
            → StaysApart places.now (table_at self.now.old table) (table_at self.now.now table) (uuid_of uuid)) }
    {
        if self.is_alike(table, places, uuid) {
            return Ok(false);
        }
        self.has_twin(table, places, uuid, touched)
    }

    /// Returns whether the table has the row now, and another one with the same values in the columns at the places.
    fn has_twin(
        &self,
        table: TableId,
        places: &[usize],
        uuid: Uuid,
        touched: &RowIndex,
    ) -> Result<bool, AllocError>
        requires { HasChanged touched.now (table_at self.now.old table) (table_at self.now.now table) }
        ensures { IfOk result (λ twin. twin ≡ spec.has_twin places.now (table_at self.now.now table) (uuid_of uuid)) }
    {
        let Some(row) = self.get(table, uuid) else {
            return Ok(false);
        };
        self.has_any(table, &Twins { places, uuid, row }, touched)
    }

    /// Returns whether a row of the table passes the test. The index has those that aren't as they were.
    fn has_any<T: Test>(
        &self,
        table: TableId,
        test: &T,
        touched: &RowIndex,
    ) -> Result<bool, AllocError>
        requires { HasChanged touched.now (table_at self.now.old table) (table_at self.now.now table) }
        ensures { IfOk result (λ any. any ≡ list_any (λ e. T.passes test.now e.0 e.1) (finite.entries_of (table_at self.now.now table))) }
    {
        let Some(before) = self.candidates(table, test)? else {
            return self.has_any_at_all(table, test);
        };
        let Some(now) = touched.candidates(self.alloc(), test)? else {
            return self.has_any_at_all(table, test);
        };
        if self.has_any_of(table, before.as_slice(), test) {
            return Ok(true);
        }
        Ok(self.has_any_of(table, now.as_slice(), test))
    }

    /// Returns whether a row of the table passes the test, by a test of each. O(rows).
    fn has_any_at_all<T: Test>(&self, table: TableId, test: &T) -> Result<bool, AllocError>
        ensures { IfOk result (λ any. any ≡ list_any (λ e. T.passes test.now e.0 e.1) (finite.entries_of (table_at self.now.now table))) }
    {
        let found = self.find(table, test)?;
        Ok(!found.is_empty())
    }

    /// Returns whether one of these rows is there now and passes the test. O(the keys).
    fn has_any_of<T: Test>(&self, table: TableId, keys: &[Key], test: &T) -> bool
        ensures { result ≡ list_any (λ u. passes_now (T.passes test.now) u (finite.get (table_at self.now.now table) u)) keys.now }
    {
        keys.iter().any(|key| self.passes(table, *key, test))
    }

    /// Returns whether the row is there now and passes the test.
    fn passes<T: Test>(&self, table: TableId, key: Key, test: &T) -> bool
        ensures { result ≡ passes_now (T.passes test.now) key (finite.get (table_at self.now.now table) key) }
    {
        match self.get(table, key.uuid()) {
            Some(row) => test.passes(key.uuid(), row),
            None => false,
        }
    }
}
