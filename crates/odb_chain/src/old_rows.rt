//! What the rows of one table were.
ghost use Rattle.std.specs.Prelude.{◌≡◌, ℕ, ◌++◌, [], ◌∷◌, true, false, is_some, None, option_to_list, IfOk, OnErr, OnOk};
ghost use Rattle.std.specs.BTreeSet.{contains};
ghost use Rattle.std.specs.Option.{option_copied};
ghost use Rattle.std.specs.Ordering.{eq_by_cmp};
ghost use Rattle.odb_atoms.specs.FinMap as finite;
ghost use Rattle.odb_atoms.specs.Uuid as model_uuid;
ghost use Rattle.odb_atoms.specs.Uuid.{uuid_cmp};
ghost use Rattle.odb_chain.specs.OldRows.{at_version, content_at, is_reached};
ghost use Rattle.odb_chain.specs.Represented.Chain.{IsOf};
ghost use Rattle.odb_chain.specs.Represented.Log.{AllFrom, is_recorded};
ghost use Rattle.odb_chain.specs.Represented.MarkedVersions.{AsBefore, StaysOrGoes};
ghost use Rattle.odb_tables.specs.Change.{change};
ghost use Rattle.odb_tables.specs.Database as model_tables;
ghost use Rattle.odb_tables.specs.Represented.Keyed.{keyed};
ghost use Rattle.odb_tables.specs.Represented.Overlay.{row_of};
ghost use Rattle.odb_tables.specs.Represented.RowChange.{change_at};

use crate::history::{History, Old, share};
use crate::log::Log;
use crate::marked_versions::MarkedVersions;
use indexmap::IndexMap;
use odb_atoms::Row;
use odb_tables::{Key, RowChange, Table, TableChange};
use std::alloc::{AllocError, Global};
use std::collections::BTreeSet;
use std::hash::RandomState;
use std::marker::Model;
use std::sync::Arc;

/// What the rows of a table were that changed since its earliest mark.
pub(crate) struct OldRows {
    alloc: Global,
    rows: IndexMap<Key, History, RandomState>,
    log: Log,
}

impl Model for OldRows {
    ghost use Rattle.odb_chain.specs.Represented.Codes.{old_rows_code};
    ghost use Rattle.odb_chain.specs.Represented.Log as model;
    ghost use Rattle.odb_chain.specs.Represented.Log.{AreRecorded};
    ghost use Rattle.odb_tables.specs.Represented.Keyed.{keyed};

    ghost Value = { model.OldRows };

    ghost coded = { old_rows_code };

    ghost view = { λ k. record { rows = keyed (λ h. h) k.rows; log = k.log } };

    ghost invariant = { λ k. AreRecorded (keyed (λ h. h) k.rows) k.log };
}

impl OldRows {
    /// Makes one without old rows.
    pub(crate) fn new(alloc: Global, hashing: RandomState) -> OldRows
        ensures rows { result.rows ≡ finite.empty }
        ensures log { result.log ≡ [] }
    {
        OldRows {
            alloc,
            rows: IndexMap::with_hasher(alloc, hashing),
            log: Log::new(alloc),
        }
    }

    /// Records what the row is now, up to the newest marked version, unless that is recorded. Where memory is refused,
    /// the old rows say the same as before. One look-up where there are old rows of the row, and else two.
    fn record(
        &mut self,
        newest: u64,
        live: &MarkedVersions<'_>,
        key: Key,
        now: Option<&Arc<Row>>,
    ) -> Result<(), AllocError>
        ensures ok { OnOk result (is_reached newest (finite.get self.new.rows key) ≡ true) }
        ensures rows { (t : model_tables.Table) → finite.get t key ≡ row_of (option_copied now.entry) → (u : model_uuid.Uuid) → AsBefore newest live.now (finite.get t u) (finite.get self.old.rows u) (finite.get self.new.rows u) }
        ensures reached { (u : model_uuid.Uuid) → is_reached newest (finite.get self.old.rows u) ≡ true → is_reached newest (finite.get self.new.rows u) ≡ true }
    {
        self.log.tidy(&self.rows);
        let Some(history) = self.rows.get_mut(&key) else {
            let old = recorded(&mut self.log, newest, key, now)?;
            return start(self.alloc, &mut self.rows, key, old);
        };
        if history.reaches(newest) {
            return Ok(());
        }
        let old = recorded(&mut self.log, newest, key, now)?;
        history.push(old, live)
    }

    /// Records what the rows that the change names were before it, up to the newest marked version. Where memory is
    /// refused, the old rows say the same as before of the table that changes. O(rows changed).
    pub(crate) fn record_all(
        &mut self,
        newest: u64,
        live: &MarkedVersions<'_>,
        change: &TableChange,
    ) -> Result<(), AllocError>
        ensures ok { OnOk result ((u : model_uuid.Uuid) → is_some (finite.get change.now u) ≡ true → is_reached newest (finite.get self.new.rows u) ≡ true) }
        ensures rows { (t : model_tables.Table) → IsOf t change.now → (u : model_uuid.Uuid) → AsBefore newest live.now (finite.get t u) (finite.get self.old.rows u) (finite.get self.new.rows u) }
    {
        for row in change.rows() {
            self.record(newest, live, Key::of(row.uuid()), row.share_old())?;
        }
        Ok(())
    }

    /// Returns what leads from the table at the version to the table now. O(k log k) for the k rows that changed since,
    /// each as often as it was recorded since.
    pub(crate) fn since(&self, table: &Table, version: u64) -> Result<TableChange, AllocError>
        ensures { IfOk result (λ made. made ≡ change (content_at version table.now self.now.rows) table.now) }
    {
        let keys = self.log.since(self.alloc, version)?;
        self.changes(table, version, &keys)
    }

    /// Returns the same, where each row that changed since is one of these.
    fn changes(
        &self,
        table: &Table,
        version: u64,
        keys: &BTreeSet<Key>,
    ) -> Result<TableChange, AllocError>
        requires { (u : model_uuid.Uuid) → contains uuid_cmp keys.now u ≡ false → is_reached version (finite.get self.now.rows u) ≡ false }
        ensures { IfOk result (λ made. made ≡ change (content_at version table.now self.now.rows) table.now) }
    {
        let mut rows = Vec::with_capacity(self.alloc, keys.len())?;
        for key in keys.iter() {
            self.add_change(&mut rows, *key, table, version)?;
        }
        Ok(TableChange::new(rows))
    }

    /// Adds what the row became since the version, if it differs.
    fn add_change(
        &self,
        rows: &mut Vec<RowChange>,
        key: Key,
        table: &Table,
        version: u64,
    ) -> Result<(), AllocError>
        ensures { OnOk result (rows.new.items ≡ rows.old.items ++ option_to_list (change_at key (at_version version (finite.get table.now key) (finite.get self.now.rows key)) (finite.get table.now key))) }
    {
        let now = table.share(key);
        let change = RowChange::between(key, self.row_at(key, version, now), now)?;
        add(rows, change)
    }

    /// Returns what the row was at the version, where it is this now.
    fn row_at<'a>(
        &'a self,
        key: Key,
        version: u64,
        now: Option<&'a Arc<Row>>,
    ) -> Option<&'a Arc<Row>>
        ensures { row_of (option_copied result) ≡ at_version version (row_of (option_copied now.entry)) (finite.get self.now.rows key) }
    {
        match self.rows.get(&key) {
            Some(history) => history.row_at(version, now),
            None => now,
        }
    }

    /// Leaves out rows that didn't change since the version: those that are recorded before it alone, and no entry of
    /// these is left. O(1) for each entry, on the average over its life.
    pub(crate) fn forget_before(&mut self, version: u64)
        ensures rows { (u : model_uuid.Uuid) → StaysOrGoes version (finite.get self.old.rows u) (finite.get self.new.rows u) }
        ensures log { AllFrom version self.new.log }
    {
        while let Some(key) = self.log.next_before(version) {
            forget(&mut self.rows, key, version);
        }
    }

    /// Leaves out all rows.
    pub(crate) fn clear(&mut self)
        ensures { self.new.rows ≡ finite.empty }
    {
        self.rows.clear();
        self.log.clear();
    }
}

/// Records in the log that there is an old row, which is what the row is now, and returns it.
fn recorded(log: &mut Log, newest: u64, key: Key, now: Option<&Arc<Row>>) -> Result<Old, AllocError>
    ensures old { IfOk result (λ old. old ≡ (newest, row_of (option_copied now.entry))) }
    ensures recorded { OnOk result (is_recorded newest key log.new ≡ true) }
    ensures still { (p : ℕ) (u : model_uuid.Uuid) → is_recorded p u log.old ≡ true → is_recorded p u log.new ≡ true }
{
    let row = share(now)?;
    log.record(newest, key)?;
    Ok(Old {
        version: newest,
        row,
    })
}

/// Leaves out the row, if it didn't change since the version.
fn forget(rows: &mut IndexMap<Key, History, RandomState>, key: Key, version: u64)
    ensures row { is_reached version (finite.get (keyed (λ h. h) rows.old) key) ≡ false → finite.get (keyed (λ h. h) rows.new) key ≡ None }
    ensures rows { (u : model_uuid.Uuid) → StaysOrGoes version (finite.get (keyed (λ h. h) rows.old) u) (finite.get (keyed (λ h. h) rows.new) u) }
{
    let Some(history) = rows.get(&key) else {
        return;
    };
    if history.reaches(version) {
        return;
    }
    drop(rows.swap_remove(&key));
}

fn add(rows: &mut Vec<RowChange>, change: Option<RowChange>) -> Result<(), AllocError>
    ensures { OnOk result (rows.new.items ≡ rows.old.items ++ option_to_list change) }
{
    match change {
        Some(change) => Ok(rows.push(change)?),
        None => Ok(()),
    }
}

/// Adds what a row is now of which there are no old rows.
fn start(
    alloc: Global,
    rows: &mut IndexMap<Key, History, RandomState>,
    key: Key,
    old: Old,
) -> Result<(), AllocError>
    ensures ok { OnOk result (keyed (λ h. h) rows.new ≡ finite.insert (keyed (λ h. h) rows.old) key (old ∷ [])) }
    ensures err { OnErr result (keyed (λ h. h) rows.new ≡ keyed (λ h. h) rows.old) }
{
    put(rows, key, History::of(alloc, old))
}

fn put(
    rows: &mut IndexMap<Key, History, RandomState>,
    key: Key,
    history: History,
) -> Result<(), AllocError>
    ensures ok { OnOk result (keyed (λ h. h) rows.new ≡ finite.insert (keyed (λ h. h) rows.old) key history) }
    ensures err { OnErr result (keyed (λ h. h) rows.new ≡ keyed (λ h. h) rows.old) }
{
    match rows.insert(key, history) {
        Ok(_) => Ok(()),
        Err(_) => Err(AllocError),
    }
}

// Written, and not derived, so that each end of a scope is one call to prove.
impl Drop for OldRows {
    fn drop(self) {
        let OldRows {
            alloc: _,
            rows: _,
            log: _,
        } = self;
    }
}
