//! Databases: the tables of a schema, in its order (RFC 7047, section 3.2). [P 2.1, 6.3]
ghost use Rattle.std.specs.Prelude.{◌≡◌, IfErr, IfOk, IfSome, OnErr, OnOk, length, replicate, slice_get};
ghost use Rattle.std.specs.Option.{option_copied};
ghost use Rattle.odb_atoms.specs.FinMap as finite;
ghost use Rattle.odb_atoms.specs.Represented.Atom.{uuid_of};
ghost use Rattle.odb_tables.specs.Change.{all_changed_by};
ghost use Rattle.odb_tables.specs.Database as model;
ghost use Rattle.odb_tables.specs.Database.{table_at};
ghost use Rattle.odb_tables.specs.Installing.{IsChangeOf};
ghost use Rattle.odb_tables.specs.Represented.RowIndex.{AreIndexesOf, AreReady, IsIndexOf, IsReady, Suffices};
ghost use Rattle.odb_tables.specs.declared.row_index.Side.TheVariants.{New, Old};
ghost use Rattle.odb_tables.specs.Represented.Installed.{each_table, put_in, replaced, taken_back};

use crate::change_set::ChangeSet;
use crate::key::Key;
use crate::row_index::{RowIndex, Side};
use crate::row_indexes::row_indexes_of;
use crate::row_test::Test;
use crate::table::Table;
use crate::table_change::TableChange;
use odb_atoms::Row;
use odb_schema::{Schema, TableId};
use std::alloc::{AllocError, AllocFailed, Global};
use std::hash::RandomState;
use std::marker::Model;
use uuid::Uuid;

/// The tables of a database, in the order of the schema's.
pub struct Db {
    hashing: RandomState,
    tables: Vec<Table>,
    indexes: Vec<RowIndex>,
}

impl Model for Db {
    ghost use Rattle.odb_tables.specs.Database as model;
    ghost use Rattle.odb_tables.specs.Database.{db_code};
    ghost use Rattle.odb_tables.specs.Represented.RowIndex.{AreIndexesOf};

    ghost Value = { model.Db };

    ghost coded = { db_code };

    ghost view = { λ d. d.tables.items };

    ghost invariant = { λ d. AreIndexesOf d.tables.items d.indexes.items };
}

impl Db {
    /// Makes a database of so many tables, all of them without rows.
    pub fn new(alloc: Global, tables: usize, hashing: RandomState) -> Result<Db, AllocError>
        ensures { IfOk result (λ db. db ≡ replicate tables finite.empty) }
    {
        Ok(Db {
            hashing,
            tables: without_rows(alloc, tables, hashing)?,
            indexes: Vec::new(alloc),
        })
    }

    /// Makes a database of the schema's tables, all of them without rows, with a row index by each of a table's
    /// `indexes` and by each column that refers to rows (RFC 7047, section 3.2), so that `Draft::has_new_twins`,
    /// `Draft::referrers`, `Draft::matching`, `Draft::select` and `Rows::selected` needn't walk over the rows.
    /// O(the schema).
    pub fn for_schema(
        alloc: Global,
        schema: &Schema,
        hashing: RandomState,
    ) -> Result<Db, AllocError>
        ensures { IfOk result (λ db. db ≡ replicate (length schema.now.tables) finite.empty) }
    {
        Ok(Db {
            hashing,
            tables: without_rows(alloc, schema.tables().len(), hashing)?,
            indexes: row_indexes_of(alloc, schema, hashing)?,
        })
    }

    /// Returns its tables, in the order of the schema's. O(1).
    pub fn tables(&self) -> &[Table]
        ensures { result.now ≡ self.now }
    {
        self.tables.as_slice()
    }

    /// Returns a table, if the database has it. O(1).
    pub fn table(&self, table: TableId) -> Option<&Table>
        ensures { option_copied result ≡ slice_get self.now table }
    {
        self.tables.get(table.place())
    }

    /// Returns the row of an identifier, if the table has one. O(1).
    pub fn get(&self, table: TableId, uuid: Uuid) -> Option<&Row>
        ensures { option_copied result ≡ finite.get (table_at self.now table) (uuid_of uuid) }
    {
        match self.table(table) {
            Some(table) => table.get(uuid),
            None => None,
        }
    }

    /// Returns the keys of the table's rows that may pass the test, each of them once, if a row index tells them.
    /// O(the row indexes), O(log n) for the n rows of the table, and O(the keys).
    pub(crate) fn candidates<T: Test>(
        &self,
        alloc: Global,
        table: TableId,
        test: &T,
    ) -> Result<Option<Vec<Key>>, AllocError>
        ensures { IfOk result (λ found. IfSome found (λ keys. Suffices keys.items (T.passes test.now) (table_at self.now table))) }
    {
        for index in &self.indexes {
            if index.table != table.place() {
                continue;
            }
            let found = index.candidates(alloc, test)?;
            if found.is_some() {
                return Ok(found);
            }
        }
        Ok(None)
    }

    /// Returns whether a row index tells the table's rows that may pass the test. O(the row indexes).
    pub(crate) fn tells<T: Test>(&self, table: TableId, test: &T) -> bool {
        for index in &self.indexes {
            if index.table == table.place() && index.tells(test) {
                return true;
            }
        }
        false
    }

    /// Returns by what its tables hash. O(1).
    pub(crate) fn hashing(&self) -> RandomState {
        self.hashing
    }

    /// Returns how many tables it has. O(1).
    pub fn len(&self) -> usize
        ensures { result ≡ length self.now }
    {
        self.tables.len()
    }

    /// Makes the whole change, or none: where memory is refused the database is as it was, and the change
    /// comes back. The old sides of the change have to be what the database has. O(rows changed), O(tables),
    /// O(the values compared), and for each tag that a row gained or lost O(log n) for the n pairs of a row
    /// index and, where it was lost, a search in the value.
    pub fn install(&mut self, change: ChangeSet) -> Result<(), AllocFailed<ChangeSet>>
        requires { IsChangeOf self.old change }
        ensures ok { OnOk result (self.new ≡ all_changed_by self.old change) }
        ensures err { OnErr result (self.new ≡ self.old) }
        ensures handed_back { IfErr result (λ refused. refused.value ≡ change) }
        ensures same_tables { length self.new ≡ length self.old }
    {
        if add_new_tags(&mut self.indexes, change.tables()).is_err() {
            cut(&mut self.indexes, change.tables(), Side::New);
            return Err(AllocFailed { value: change });
        }
        if put_in(&mut self.tables, change.tables()).is_err() {
            take_back(&mut self.tables, change.tables());
            cut(&mut self.indexes, change.tables(), Side::New);
            return Err(AllocFailed { value: change });
        }
        cut(&mut self.indexes, change.tables(), Side::Old);
        replace_old_rows(&mut self.tables, change.into_tables());
        Ok(())
    }
}

/// Makes so many tables, all of them without rows.
fn without_rows(
    alloc: Global,
    tables: usize,
    hashing: RandomState,
) -> Result<Vec<Table>, AllocError>
    ensures { IfOk result (λ list. list.items ≡ replicate tables finite.empty) }
{
    let mut list = Vec::with_capacity(alloc, tables)?;
    for _ in 0..tables {
        list.push(Table::new(alloc, hashing))?;
    }
    Ok(list)
}

/// Adds to the indexes the tags that rows gain by the changes, those of new rows among them. Where memory is
/// refused some of that is done.
fn add_new_tags(indexes: &mut Vec<RowIndex>, changes: &[TableChange]) -> Result<(), AllocError>
    ensures still { (db : model.Db) → AreIndexesOf db indexes.old.items → AreIndexesOf db indexes.new.items }
    ensures ready { OnOk result ((db : model.Db) → IsChangeOf db changes.now → AreIndexesOf db indexes.old.items
        → AreReady db changes.now indexes.new.items) }
{
    for place in 0..indexes.len() {
        add_new_tags_to(&mut indexes[place], changes)?;
    }
    Ok(())
}

fn add_new_tags_to(index: &mut RowIndex, changes: &[TableChange]) -> Result<(), AllocError>
    ensures still { (db : model.Db) → IsIndexOf db index.old → IsIndexOf db index.new }
    ensures ready { OnOk result ((db : model.Db) → IsChangeOf db changes.now → IsIndexOf db index.old
        → IsReady db changes.now index.new) }
{
    match change_of(changes, index.table) {
        Some(change) => index.add_new_tags(change),
        None => Ok(()),
    }
}

/// Returns the change of the table at the place, if there is one.
fn change_of(changes: &[TableChange], table: usize) -> Option<&TableChange>
    ensures { option_copied result ≡ slice_get changes.now table }
{
    changes.get(table)
}

/// Takes out the pairs of the side of the changes that goes.
fn cut(indexes: &mut Vec<RowIndex>, changes: &[TableChange], side: Side)
    ensures taken_back { side ≡ New → (db : model.Db) → IsChangeOf db changes.now → AreIndexesOf db indexes.old.items
        → AreIndexesOf db indexes.new.items }
    ensures made { side ≡ Old → (db : model.Db) → IsChangeOf db changes.now → AreReady db changes.now indexes.old.items
        → AreIndexesOf (all_changed_by db changes.now) indexes.new.items }
{
    for place in 0..indexes.len() {
        cut_one(&mut indexes[place], changes, side);
    }
}

fn cut_one(index: &mut RowIndex, changes: &[TableChange], side: Side)
    ensures taken_back { side ≡ New → (db : model.Db) → IsChangeOf db changes.now → IsIndexOf db index.old
        → IsIndexOf db index.new }
    ensures made { side ≡ Old → (db : model.Db) → IsChangeOf db changes.now → IsReady db changes.now index.old
        → IsIndexOf (all_changed_by db changes.now) index.new }
{
    match change_of(changes, index.table) {
        Some(change) => index.cut(change, side),
        None => {}
    }
}

/// Puts in the rows that are new by the changes. Where memory is refused some of them are in, and nothing
/// else changed.
fn put_in(tables: &mut Vec<Table>, changes: &[TableChange]) -> Result<(), AllocError>
    requires { length changes.now ≡ length tables.old.items }
    ensures ok { OnOk result (tables.new.items ≡ each_table put_in tables.old.items changes.now) }
    ensures only_new { each_table taken_back tables.new.items changes.now ≡ each_table taken_back tables.old.items changes.now }
    ensures same_length { length tables.new.items ≡ length tables.old.items }
{
    for place in 0..changes.len() {
        tables[place].put_in(&changes[place])?;
    }
    Ok(())
}

/// Takes out the rows that are new by the changes.
fn take_back(tables: &mut Vec<Table>, changes: &[TableChange])
    requires { length changes.now ≡ length tables.old.items }
    ensures { tables.new.items ≡ each_table taken_back tables.old.items changes.now }
{
    for place in 0..changes.len() {
        tables[place].take_back(&changes[place]);
    }
}

/// Replaces and removes the rows that aren't new by the changes.
fn replace_old_rows(tables: &mut Vec<Table>, changes: Vec<TableChange>)
    requires { length changes.items ≡ length tables.old.items }
    ensures { tables.new.items ≡ each_table replaced tables.old.items changes.items }
{
    let mut place = 0;
    for change in changes {
        tables[place].replace_old_rows(change);
        place += 1;
    }
}

// Written, and not derived, so that each end of a scope is one call to prove.
impl Drop for Db {
    fn drop(self) {
        let Db {
            hashing: _,
            tables: _,
            indexes: _,
        } = self;
    }
}
