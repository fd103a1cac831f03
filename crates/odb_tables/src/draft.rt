//! Drafts: a database under a transaction. [P 6.3]
ghost use Rattle.std.specs.Prelude.{◌≡◌, ◌<◌, false, true, is_some, Some, length, map, IfOk, IfSome, IsPermutation, IsTrue, OnErr, OnOk, option_map, slice_get};
ghost use Rattle.std.specs.List.{IsDistinct, list_any};
ghost use Rattle.std.specs.List.Sorted.{IsSortedByKey};
ghost use Rattle.std.specs.Option.{option_copied};
ghost use Rattle.std.specs.Ordering.{eq_by_cmp};
ghost use Rattle.odb_atoms.specs.FinMap as finite;
ghost use Rattle.odb_atoms.specs.FinSet as set;
ghost use Rattle.odb_atoms.specs.Represented.Atom.{uuid_of};
ghost use Rattle.odb_atoms.specs.Row as model_row;
ghost use Rattle.odb_atoms.specs.Uuid as model_uuid;
ghost use Rattle.odb_atoms.specs.Uuid.{uuid_cmp};
ghost use Rattle.odb_cond.specs.Condition.{holds_all};
ghost use Rattle.odb_tables.specs.Change.{all_changed_by, change_between};
ghost use Rattle.odb_tables.specs.Database as model;
ghost use Rattle.odb_tables.specs.Database.{table_at};
ghost use Rattle.odb_tables.specs.Represented.Draft.{ground, overlaid, touched_at};
ghost use Rattle.odb_tables.specs.Represented.Found.{Appends, Lists, passing, untouched};
ghost use Rattle.odb_tables.specs.Represented.RowIndex.{Suffices};
ghost use Rattle.odb_tables.specs.Represented.Overlay.{passes_now};
ghost use Rattle.odb_tables.specs.Represented.Table.{entries_at, listed};
ghost use Rattle.odb_tables.specs.Draft.{IsSameBut, KeepsColumn, draft_of, removed_at, with_row, without_row};
ghost use Rattle.odb_tables.specs.Installing.{IsChangeOf};
ghost use Rattle.odb_tables.specs.Indexed as indexed;
ghost use Rattle.odb_tables.specs.Matching.{matching};
ghost use Rattle.odb_tables.specs.Stamped.{stamped};

use crate::change_set::ChangeSet;
use crate::changed_columns::{ChangedColumns, may_change_at, none_changed};
use crate::database::Db;
use crate::ground::Ground;
use crate::key::Key;
use crate::overlay::{Overlay, all_changes, none_touched, overlay_at};
use crate::pending::Pending;
use crate::row_test::{Referrers, Test};
use crate::stamp::Stamp;
use crate::table::Table;
use odb_atoms::Row;
use odb_cond::Where;
use odb_schema::TableId;
use std::alloc::{AllocError, Global};
use std::hash::RandomState;
use std::marker::Model;
use std::sync::Arc;
use uuid::Uuid;

/// A database under a transaction (RFC 7047, section 4.1.3): as it was, and the rows that were touched.
/// What isn't touched is read through, so a draft costs by the rows touched, and not by the tables. Under it may be
/// changes that aren't made yet ([`Pending`]): what they change is so before, and where a call costs by the rows
/// touched it costs by the rows that they change, too.
#[derive(Drop)]
pub struct Draft<'a> {
    alloc: Global,
    base: &'a Db,
    under: &'a [Overlay],
    overlays: Vec<Overlay>,
    /// Of each table, in which columns its rows may have changed.
    changed: Vec<ChangedColumns>,
}

impl<'a> Model for Draft<'a> {
    ghost use Rattle.std.specs.Prelude.{◌≡◌, length, map};
    ghost use Rattle.odb_tables.specs.Draft as model;
    ghost use Rattle.odb_tables.specs.Draft.{draft_code};
    ghost use Rattle.odb_tables.specs.Represented.ChangedColumns.{IsKept};
    ghost use Rattle.odb_tables.specs.Represented.Draft.{all_overlaid, grounds, taken_out};

    ghost Value = { model.Draft };

    ghost coded = { draft_code };

    ghost view = { λ d. record {
      old = grounds d.base.now d.under.now;
      now = all_overlaid (grounds d.base.now d.under.now) d.overlays.items;
      removed = map taken_out d.overlays.items;
    } };

    ghost invariant = { λ d. IsKept (grounds d.base.now d.under.now) d.overlays.items d.changed.items };
}

impl<'a> Draft<'a> {
    /// Makes a draft of the database, in which nothing is changed yet. O(tables).
    pub fn new(alloc: Global, base: &'a Db) -> Result<Draft<'a>, AllocError>
        ensures { IfOk result (λ draft. draft ≡ draft_of base.now) }
    {
        let overlays = none_touched(alloc, base.len(), base.hashing())?;
        let changed = none_changed(alloc, base.len())?;
        Ok(Draft {
            alloc,
            base,
            under: &[],
            overlays,
            changed,
        })
    }

    /// Makes a draft of the database as it will be with the changes that are put over it, in which nothing is changed
    /// yet. O(tables).
    pub fn over(alloc: Global, pending: &'a Pending<'a>) -> Result<Draft<'a>, AllocError>
        ensures { IfOk result (λ draft. draft ≡ draft_of pending.now.now) }
    {
        let base = pending.base();
        let overlays = none_touched(alloc, base.len(), base.hashing())?;
        let changed = none_changed(alloc, base.len())?;
        Ok(Draft {
            alloc,
            base,
            under: pending.overlays(),
            overlays,
            changed,
        })
    }

    /// Returns where it takes memory from. O(1).
    pub(crate) fn alloc(&self) -> Global {
        self.alloc
    }

    /// Returns by what the tables of the database hash. O(1).
    pub(crate) fn hashing(&self) -> RandomState {
        self.base.hashing()
    }

    /// Returns how many tables it has, now as before. O(1).
    pub fn len(&self) -> usize
        ensures now { result ≡ length self.now.now }
        ensures old { result ≡ length self.now.old }
    {
        self.base.len()
    }

    /// Returns the row of an identifier as it is now, if the table has one. O(1).
    pub fn get(&self, table: TableId, uuid: Uuid) -> Option<&Row>
        ensures row { option_copied result ≡ finite.get (table_at self.now.now table) (uuid_of uuid) }
        ensures not_removed { IfSome result (λ _. set.contains (removed_at self.now table) (uuid_of uuid) ≡ false) }
    {
        match touched(self.overlays.as_slice(), table, uuid) {
            Some(row) => row,
            None => self.before(table, uuid),
        }
    }

    /// Returns the row of an identifier as it was when the draft was made, if the table had one. O(1).
    pub fn before(&self, table: TableId, uuid: Uuid) -> Option<&Row>
        ensures { option_copied result ≡ finite.get (table_at self.now.old table) (uuid_of uuid) }
    {
        match self.ground(table) {
            Some(ground) => ground.get(uuid),
            None => None,
        }
    }

    /// Returns whether the table had a row of an identifier when the draft was made. O(1).
    fn was_there(&self, table: TableId, uuid: Uuid) -> bool
        ensures { result ≡ is_some (finite.get (table_at self.now.old table) (uuid_of uuid)) }
    {
        self.before(table, uuid).is_some()
    }

    /// Returns the table as it was when the draft was made, if the database has it. O(1).
    fn ground(&self, table: TableId) -> Option<Ground<'a>>
        ensures { result ≡ slice_get self.now.old table }
    {
        if table.place() >= self.len() {
            return None;
        }
        Some(Ground::at(self.base, self.under, table.place()))
    }

    /// Returns how many rows the table has now. O(rows of it that were touched).
    pub fn row_count(&self, table: TableId) -> usize
        ensures { result ≡ finite.len (table_at self.now.now table) }
    {
        let Some(overlay) = self.overlays.get(table.place()) else {
            return 0;
        };
        let ground = Ground::at(self.base, self.under, table.place());
        overlay.count(&ground, ground.len())
    }

    /// Returns whether a row of this identifier was taken out of the table. O(1).
    pub fn was_removed(&self, table: TableId, uuid: Uuid) -> bool
        ensures { result ≡ set.contains (removed_at self.now table) (uuid_of uuid) }
    {
        match self.overlays.get(table.place()) {
            Some(overlay) => overlay.is_removed(uuid),
            None => false,
        }
    }

    /// Returns whether it is certain that the table is as it was: no row of it was touched since the draft
    /// was made. O(1).
    pub fn is_untouched(&self, table: TableId) -> bool
        ensures { IsTrue result → table_at self.now.now table ≡ table_at self.now.old table }
    {
        match self.overlays.get(table.place()) {
            Some(overlay) => overlay.is_empty(),
            None => true,
        }
    }

    /// Returns the identifiers of the rows that were touched since the draft was made, each of them once,
    /// in no order that is told. A row that isn't among them is as it was; one among them may be as
    /// it was, too, or may never have been there. O(rows touched).
    pub fn touched(&self, alloc: Global, table: TableId) -> Result<Vec<Uuid>, AllocError>
        ensures as_it_was { IfOk result (λ uuids. (u : model_uuid.Uuid) → list_any (eq_by_cmp uuid_cmp u) (map uuid_of uuids.items) ≡ false
            → finite.get (table_at self.now.now table) u ≡ finite.get (table_at self.now.old table) u) }
        ensures distinct { IfOk result (λ uuids. IsDistinct (eq_by_cmp uuid_cmp) (map uuid_of uuids.items)) }
    {
        match self.overlays.get(table.place()) {
            Some(overlay) => overlay.list(alloc),
            None => Ok(Vec::new(alloc)),
        }
    }

    /// Returns whether it is certain that each row that the table had before and has now has the same in the column at the
    /// place: no row of it was put that may differ there, and the rows of it that were put differ in 16 columns at most. O(1).
    pub fn keeps(&self, table: TableId, place: usize) -> bool
        ensures { IsTrue result → KeepsColumn self.now.old self.now.now table place }
    {
        !may_change_at(self.changed.as_slice(), table.place(), place)
    }

    /// Puts the row into the table, or in the place of the one that it has under the identifier. Where one was there before, no
    /// column of the table counts as kept any more (`keeps`). O(1), but for growth. An error says that memory was refused;
    /// the draft is as it was then.
    pub fn put(&mut self, table: TableId, uuid: Uuid, row: Row) -> Result<(), AllocError>
        requires { table < length self.old.old }
        ensures ok { OnOk result (self.new ≡ with_row table (uuid_of uuid) row self.old) }
        ensures err { OnErr result (self.new ≡ self.old) }
    {
        let was_there = self.was_there(table, uuid);
        let row = Arc::new(self.alloc, row)?;
        self.overlays[table.place()].put(uuid, Some(row))?;
        self.changed[table.place()].add_all_where(was_there);
        Ok(())
    }

    /// Puts the row in the place of the one that the table has under the identifier, where they differ in the columns at
    /// these places alone. O(the places), but for growth. An error says that memory was refused; the draft is as it was
    /// then.
    pub fn put_over(
        &mut self,
        table: TableId,
        uuid: Uuid,
        row: Row,
        places: &[usize],
    ) -> Result<(), AllocError>
        requires table { table < length self.old.old }
        requires others { (before : model_row.Row) → finite.get (table_at self.old.now table) (uuid_of uuid) ≡ Some before
            → IsSameBut places.now before row }
        requires there { is_some (finite.get (table_at self.old.now table) (uuid_of uuid)) ≡ true }
        ensures ok { OnOk result (self.new ≡ with_row table (uuid_of uuid) row self.old) }
        ensures err { OnErr result (self.new ≡ self.old) }
    {
        let row = Arc::new(self.alloc, row)?;
        self.overlays[table.place()].put(uuid, Some(row))?;
        self.changed[table.place()].add_each(places);
        Ok(())
    }

    /// Takes the row out of the table. O(1), but for growth. An error says that memory was refused; the
    /// draft is as it was then.
    pub fn remove(&mut self, table: TableId, uuid: Uuid) -> Result<(), AllocError>
        requires { table < length self.old.old }
        ensures ok { OnOk result (self.new ≡ without_row table (uuid_of uuid) self.old) }
        ensures err { OnErr result (self.new ≡ self.old) }
    {
        self.overlays[table.place()].put(uuid, None)?;
        Ok(())
    }

    /// Returns the identifiers of the table's rows as they are now, ascending. O(n log n) for n rows.
    pub fn uuids(&self, table: TableId) -> Result<Vec<Uuid>, AllocError>
        ensures { IfOk result (λ uuids. map uuid_of uuids.items ≡ finite.keys (table_at self.now.now table)) }
    {
        let everything = Where::new(Vec::new(self.alloc));
        self.scan(table, &everything)
    }

    /// Returns the identifiers of the rows, as they are now, of which all conditions hold, ascending (RFC 7047,
    /// section 5.2, `where`).
    ///
    /// Where the conditions pin `_uuid` it looks that row up: O(the conditions). Where they ask by `==` a value
    /// of each column of one of the `indexes`, or of a column of references that names a row, and the database has
    /// a row index by it, it tests the rows that this has under it, and those that were touched (as `referrers` does).
    /// Else it tests each row of the table once: O(rows of the table). It orders the m that it found: O(m
    /// log m).
    pub fn matching(&self, table: TableId, conditions: &Where) -> Result<Vec<Uuid>, AllocError>
        ensures { IfOk result (λ uuids. map uuid_of uuids.items
            ≡ finite.keys (matching conditions.now (table_at self.now.now table))) }
    {
        match conditions.pinned() {
            Some(uuid) => self.look_up(table, uuid, conditions),
            None => self.scan(table, conditions),
        }
    }

    /// Returns the rows, as they are now, of which all conditions hold, each with its identifier, ascending by that
    /// (RFC 7047, section 5.2, `where`).
    ///
    /// What `matching` costs, and O(1) for each row that is found.
    pub fn select(
        &self,
        table: TableId,
        conditions: &Where,
    ) -> Result<Vec<(Uuid, &Row)>, AllocError>
        ensures { IfOk result (λ rows. map listed rows.items
            ≡ finite.entries_of (matching conditions.now (table_at self.now.now table))) }
    {
        match self.walked(table, conditions) {
            Some(walked) => walk(self.alloc, walked, conditions),
            None => {
                let uuids = self.matching(table, conditions)?;
                self.rows_of(table, &uuids)
            }
        }
    }

    /// Returns the table of the database, where the draft has it as it is there and `matching` would test each of its
    /// rows. O(the conditions), for each row index.
    fn walked(&self, table: TableId, conditions: &Where) -> Option<&Table>
        ensures { IfSome result (λ walked. walked.now ≡ table_at self.now.now table) }
    {
        if !self.is_untouched(table) || !is_bare(self.under, table.place()) {
            return None;
        }
        if conditions.pinned().is_some() || self.base.tells(table, conditions) {
            return None;
        }
        self.base.table(table)
    }

    /// Returns the rows of these identifiers as they are now, each with its identifier, of those that the table has.
    fn rows_of(&self, table: TableId, uuids: &[Uuid]) -> Result<Vec<(Uuid, &Row)>, AllocError>
        ensures { IfOk result (λ rows. map listed rows.items
            ≡ entries_at (table_at self.now.now table) (map uuid_of uuids.now)) }
    {
        let mut rows = Vec::with_capacity(self.alloc, uuids.len())?;
        for uuid in uuids {
            let Some(row) = self.get(table, *uuid) else {
                continue;
            };
            if rows.push((*uuid, row)).is_err() {
                return Err(AllocError);
            }
        }
        Ok(rows)
    }

    /// Returns what `matching` returns where no row under another identifier can match.
    fn look_up(
        &self,
        table: TableId,
        uuid: Uuid,
        conditions: &Where,
    ) -> Result<Vec<Uuid>, AllocError>
        requires { (u : model_uuid.Uuid) (r : model_row.Row)
            → IsTrue (holds_all conditions.now u r) → u ≡ uuid_of uuid }
        ensures { IfOk result (λ uuids. map uuid_of uuids.items
            ≡ finite.keys (matching conditions.now (table_at self.now.now table))) }
    {
        let mut found = Vec::new(self.alloc);
        if !self.has_match(table, uuid, conditions) {
            return Ok(found);
        }
        found.push(uuid)?;
        Ok(found)
    }

    /// Returns whether the table has a row under the identifier of which the conditions hold.
    fn has_match(&self, table: TableId, uuid: Uuid, conditions: &Where) -> bool
        ensures { result ≡ passes_now (holds_all conditions.now) (uuid_of uuid) (finite.get (table_at self.now.now table) (uuid_of uuid)) }
    {
        match self.get(table, uuid) {
            Some(row) => conditions.holds(uuid, row),
            None => false,
        }
    }

    /// Returns what `matching` returns, by a test of each row.
    fn scan(&self, table: TableId, conditions: &Where) -> Result<Vec<Uuid>, AllocError>
        ensures { IfOk result (λ uuids. map uuid_of uuids.items
            ≡ finite.keys (matching conditions.now (table_at self.now.now table))) }
    {
        let mut found = self.find(table, conditions)?;
        sort(&mut found);
        Ok(found)
    }

    /// Returns the keys of the rows that the table had before and that may pass the test, as `Db::candidates` does, and
    /// of those that changes under the draft leave.
    pub(crate) fn candidates<T: Test>(
        &self,
        table: TableId,
        test: &T,
    ) -> Result<Option<Vec<Key>>, AllocError>
        ensures { IfOk result (λ found. IfSome found (λ keys. Suffices keys.items (T.passes test.now) (table_at self.now.old table))) }
    {
        let Some(keys) = self.base.candidates(self.alloc, table, test)? else {
            return Ok(None);
        };
        match overlay_at(self.under, table.place()) {
            Some(under) => Ok(Some(under.candidates_over(keys)?)),
            None => Ok(Some(keys)),
        }
    }

    /// Returns the identifiers of the table's rows, as they are now, that pass the test, each of them once.
    pub(crate) fn find<T: Test>(&self, table: TableId, test: &T) -> Result<Vec<Uuid>, AllocError>
        ensures { IfOk result (λ uuids. Lists (map uuid_of uuids.items)
            (passing (T.passes test.now) (table_at self.now.now table))) }
    {
        let Some(overlay) = self.overlays.get(table.place()) else {
            return Ok(Vec::new(self.alloc));
        };
        let among = self.base.candidates(self.alloc, table, test)?;
        let base = &self.base.tables()[table.place()];
        match overlay_at(self.under, table.place()) {
            Some(under) => {
                let found = found_in(self.alloc, base, among, under, test)?;
                overlay.find_over(found, test)
            }
            None => found_in(self.alloc, base, among, overlay, test),
        }
    }

    /// Returns the identifiers of the table's rows, as they are now, whose value in the column at the place
    /// mentions this identifier, each of them once, in no order that is told.
    ///
    /// Where the database has a row index by this column (`Db::for_schema`): O(the row indexes), O(log n) for the n
    /// pairs of a row and an identifier that it mentions there, O(rows of the table that were touched), and
    /// O(rows that mention it). Else O(rows of the table), times what a search in the value costs.
    pub fn referrers(
        &self,
        table: TableId,
        place: usize,
        uuid: Uuid,
    ) -> Result<Vec<Uuid>, AllocError>
        ensures referrers { IfOk result (λ uuids. (v : model_uuid.Uuid)
            → list_any (eq_by_cmp uuid_cmp v) (map uuid_of uuids.items)
            ≡ indexed.refers_at place (uuid_of uuid) (table_at self.now.now table) v) }
        ensures distinct { IfOk result (λ uuids. IsDistinct (eq_by_cmp uuid_cmp) (map uuid_of uuids.items)) }
    {
        self.find(table, &Referrers { place, uuid })
    }

    /// Returns what leads from the database as it was to the one as it is now. O(rows touched) and
    /// O(tables).
    pub fn changes(self) -> Result<ChangeSet, AllocError>
        ensures changes { IfOk result (λ changes. changes ≡ change_between self.entry.old self.entry.now) }
        ensures change_of { IfOk result (λ changes. IsChangeOf self.entry.old changes) }
        ensures leads_to { IfOk result (λ changes. all_changed_by self.entry.old changes ≡ self.entry.now) }
    {
        all_changes(self.alloc, self.base, self.under, self.overlays.as_slice())
    }

    /// Returns what leads from the database as it was to the one as it is now, in which each row that is
    /// new, or has another value in a column, has this `_version` (RFC 7047, section 3.2). O(rows
    /// touched) and O(tables).
    pub fn commit(self, version: Uuid) -> Result<ChangeSet, AllocError>
        ensures changes { IfOk result (λ changes. changes
            ≡ change_between self.entry.old (stamped (uuid_of version) self.entry.old self.entry.now)) }
        ensures change_of { IfOk result (λ changes. IsChangeOf self.entry.old changes) }
        ensures leads_to { IfOk result (λ changes. all_changed_by self.entry.old changes
            ≡ stamped (uuid_of version) self.entry.old self.entry.now) }
    {
        let Draft {
            alloc,
            base,
            under,
            overlays,
            changed,
        } = self;
        let mut tables = Vec::with_capacity(alloc, overlays.len())?;
        for overlay in overlays {
            let ground = Ground::at(base, under, tables.len());
            let stamp = Stamp {
                alloc,
                version,
                changed: &changed[tables.len()],
            };
            tables.push(overlay.commit(&ground, &stamp)?)?;
        }
        Ok(ChangeSet::new(tables))
    }
}

/// Returns what the row of an identifier is now, if it was touched: `Some(None)` where it was taken out.
fn touched(overlays: &[Overlay], table: TableId, uuid: Uuid) -> Option<Option<&Row>>
    ensures { option_map option_copied result ≡ finite.get (touched_at overlays.now table) (uuid_of uuid) }
{
    match overlays.get(table.place()) {
        Some(overlay) => overlay.get(uuid),
        None => None,
    }
}

/// Returns whether it is certain that nothing is put over the table at the place. O(1).
fn is_bare(overlays: &[Overlay], place: usize) -> bool
    ensures { IsTrue result → (t : model.Table) → ground t (slice_get overlays.now place) ≡ t }
{
    match overlay_at(overlays, place) {
        Some(over) => over.is_empty(),
        None => true,
    }
}

/// Returns the rows of the table of which all conditions hold, each with its identifier, ascending by that. O(rows of the
/// table), each tested once, and O(m log m) for the m that it found.
fn walk<'a>(
    alloc: Global,
    table: &'a Table,
    conditions: &Where,
) -> Result<Vec<(Uuid, &'a Row)>, AllocError>
    ensures { IfOk result (λ rows. map listed rows.items ≡ finite.entries_of (matching conditions.now table.now)) }
{
    let mut rows = table.select(alloc, conditions)?;
    sort_rows(&mut rows);
    Ok(rows)
}

/// Returns the identifiers of the rows that pass the test, each of them once. The untouched ones are looked for among
/// these, where there are any, and else among all.
fn found_in<T: Test>(
    alloc: Global,
    base: &Table,
    among: Option<Vec<Key>>,
    overlay: &Overlay,
    test: &T,
) -> Result<Vec<Uuid>, AllocError>
    ensures { IfSome among (λ keys. Suffices keys.items (T.passes test.now) base.now)
        → IfOk result (λ uuids. Lists (map uuid_of uuids.items)
        (passing (T.passes test.now) (overlaid base.now overlay.now))) }
{
    let mut found = Vec::new(alloc);
    find_untouched(base, among, overlay, test, &mut found)?;
    overlay.find(test, &mut found)?;
    Ok(found)
}

fn find_untouched<T: Test>(
    base: &Table,
    among: Option<Vec<Key>>,
    overlay: &Overlay,
    test: &T,
    found: &mut Vec<Uuid>,
) -> Result<(), AllocError>
    ensures { IfSome among (λ keys. Suffices keys.items (T.passes test.now) base.now)
        → OnOk result (Appends (map uuid_of found.old.items) (map uuid_of found.new.items)
        (passing (T.passes test.now) (untouched overlay.now base.now))) }
{
    match among {
        Some(keys) => base.find_among(keys.as_slice(), overlay, test, found),
        None => base.find_untouched(overlay, test, found),
    }
}

/// Puts the identifiers into their order. O(n log n).
fn sort(uuids: &mut Vec<Uuid>)
    ensures permutation { IsPermutation uuids.old.items uuids.new.items }
    ensures sorted { IsSortedByKey uuid_of uuid_cmp uuids.new.items }
{
    uuids.sort_unstable_by_key(|uuid| Key::of(*uuid));
}

/// Puts the rows into the order of their identifiers. O(n log n).
fn sort_rows(rows: &mut Vec<(Uuid, &Row)>)
    ensures permutation { IsPermutation rows.old.items rows.new.items }
    ensures sorted { IsSortedByKey (λ row. uuid_of row.0) uuid_cmp rows.new.items }
{
    rows.sort_unstable_by_key(|row| Key::of(row.0));
}
