//! What a draft, or changes that aren't made yet, made of the rows of a table that they touched.
ghost use Rattle.std.specs.Prelude.{◌≡◌, ◌+◌, ◌++◌, ◌<◌, ◌^◌, Bool, IfOk, IsTrue, OnOk, OnErr, length, map, option_map, option_to_list, replicate, slice_get};
ghost use Rattle.std.specs.Arc.{arc_value};
ghost use Rattle.std.specs.List.{IsDistinct, list_any};
ghost use Rattle.std.specs.Option.{option_copied};
ghost use Rattle.std.specs.Ordering.{eq_by_cmp};
ghost use Rattle.odb_atoms.specs.FinMap as finite;
ghost use Rattle.odb_atoms.specs.FinSet as set;
ghost use Rattle.odb_atoms.specs.Row as model_row;
ghost use Rattle.odb_atoms.specs.Uuid as model_uuid;
ghost use Rattle.odb_atoms.specs.Uuid.{uuid_cmp};
ghost use Rattle.odb_tables.specs.Represented.Draft.{all_overlaid, grounds, overlaid, taken_out};
ghost use Rattle.odb_tables.specs.Change.{change, change_between, changed_by};
ghost use Rattle.odb_tables.specs.Database as model;
ghost use Rattle.odb_atoms.specs.Represented.Atom.{uuid_of};
ghost use Rattle.odb_tables.specs.Represented.Counted as counted;
ghost use Rattle.odb_tables.specs.Represented.Found.{Appends, Lists, passing, standing};
ghost use Rattle.odb_tables.specs.Represented.RowIndex.{Suffices};
ghost use Rattle.odb_tables.specs.Represented.Overlay.{passes_now, row_of};
ghost use Rattle.odb_tables.specs.Represented.RowChange.{change_at};
ghost use Rattle.odb_tables.specs.Stamped.{stamped_row, stamped_table};

use crate::change_set::ChangeSet;
use crate::database::Db;
use crate::ground::Ground;
use crate::key::Key;
use crate::row_change::RowChange;
use crate::row_test::Test;
use crate::stamp::Stamp;
use crate::table_change::TableChange;
use indexmap::IndexMap;
use odb_atoms::Row;
use std::alloc::{AllocError, Global};
use std::hash::RandomState;
use std::marker::Model;
use std::sync::Arc;
use uuid::Uuid;

/// The most rows that may be touched, so that those of a table under two overlays can be counted.
const MOST_ROWS: usize = (1 << 62) - 1;

/// The rows of a table that a draft touched, or changes that aren't made yet: what each is now, or that it was taken out.
#[derive(Drop)]
pub(crate) struct Overlay {
    rows: IndexMap<Key, Option<Arc<Row>>, RandomState>,
}

impl Model for Overlay {
    ghost use Rattle.std.specs.Prelude.{◌<◌, ◌^◌, length};
    ghost use Rattle.odb_tables.specs.Represented.Overlay.{Touched, row_of, touched_code};
    ghost use Rattle.odb_tables.specs.Represented.Keyed.{keyed};

    ghost Value = { Touched };

    ghost coded = { touched_code };

    ghost view = { λ o. keyed row_of o.rows };

    ghost invariant = { λ o. length o.rows.entries < 2 ^ 62 };
}

impl Overlay {
    /// Makes an overlay in which no row is touched. O(1).
    pub(crate) fn new(alloc: Global, hashing: RandomState) -> Overlay
        ensures { result ≡ finite.empty }
    {
        Overlay {
            rows: IndexMap::with_hasher(alloc, hashing),
        }
    }

    /// Returns what the row of an identifier is now, if it was touched: `Some(None)` where it was taken
    /// out. O(1).
    pub(crate) fn get(&self, uuid: Uuid) -> Option<Option<&Row>>
        ensures { option_map option_copied result ≡ finite.get self.now (uuid_of uuid) }
    {
        match self.rows.get(&Key::of(uuid)) {
            None => None,
            Some(None) => Some(None),
            Some(Some(row)) => Some(Some(&**row)),
        }
    }

    /// Returns the same of a key, to be shared. O(1).
    pub(crate) fn share(&self, key: Key) -> Option<Option<&Arc<Row>>>
        ensures { option_map (λ row. row_of (option_copied row)) result ≡ finite.get self.now key }
    {
        match self.rows.get(&key) {
            None => None,
            Some(row) => Some(row.as_ref()),
        }
    }

    /// Lets the row of an identifier be this one, or be taken out. O(1), but for growth. An error says
    /// that memory was refused, as it is from 2^62 rows on; the overlay is as it was then.
    pub(crate) fn put(&mut self, uuid: Uuid, row: Option<Arc<Row>>) -> Result<(), AllocError>
        ensures ok { OnOk result (self.new ≡ finite.insert self.old (uuid_of uuid) (option_map arc_value row)) }
        ensures err { OnErr result (self.new ≡ self.old) }
    {
        if self.rows.len() >= MOST_ROWS {
            return Err(AllocError);
        }
        match self.rows.insert(Key::of(uuid), row) {
            Ok(_) => Ok(()),
            Err(_) => Err(AllocError),
        }
    }

    /// Lets each row of the change be as it is after it, with the row shared. O(rows changed). An error says that memory
    /// was refused; some of the rows are so then.
    pub(crate) fn put_change(&mut self, change: &TableChange) -> Result<(), AllocError>
        ensures { OnOk result ((t : model.Table) → overlaid t self.new ≡ changed_by (overlaid t self.old) change.now) }
    {
        for row in change.rows() {
            self.put_row(row)?;
        }
        Ok(())
    }

    fn put_row(&mut self, row: &RowChange) -> Result<(), AllocError>
        ensures { OnOk result (self.new ≡ finite.insert self.old row.now.0 row.now.1.1) }
    {
        self.put(row.uuid(), row.share_new()?)
    }

    /// Returns whether the row of an identifier was taken out. O(1).
    pub(crate) fn is_removed(&self, uuid: Uuid) -> bool
        ensures { result ≡ set.contains (taken_out self.now) (uuid_of uuid) }
    {
        match self.get(uuid) {
            None => false,
            Some(None) => true,
            Some(Some(_)) => false,
        }
    }

    /// Returns whether no row was touched. O(1).
    pub(crate) fn is_empty(&self) -> bool
        ensures { IsTrue result → self.now ≡ finite.empty }
    {
        self.rows.is_empty()
    }

    /// Returns how many rows the table, which has so many, has under it. O(rows touched).
    pub(crate) fn count(&self, base: &Ground<'_>, rows: usize) -> usize
        requires rows { rows ≡ finite.len base.now }
        requires small { rows < 2 ^ 63 + 2 ^ 62 }
        ensures rows { result ≡ finite.len (overlaid base.now self.now) }
        ensures small { result < rows + 2 ^ 62 }
    {
        let mut gained = 0;
        let mut lost = 0;
        for (key, now) in self.rows.iter() {
            gained += gain(base, *key, now.as_ref());
            lost += loss(base, *key, now.as_ref());
        }
        rows + gained - lost
    }

    /// Returns whether the row of a key was touched. O(1).
    pub(crate) fn touches(&self, key: Key) -> bool
        ensures { result ≡ finite.contains_key self.now key }
    {
        !self.rows.is_empty() && self.rows.contains_key(&key)
    }

    /// Appends the identifiers of the rows that are there and pass the test. O(rows touched).
    pub(crate) fn find<T: Test>(&self, test: &T, found: &mut Vec<Uuid>) -> Result<(), AllocError>
        ensures { OnOk result (Appends (map uuid_of found.old.items) (map uuid_of found.new.items)
            (passing (T.passes test.now) (standing self.now))) }
    {
        for (key, now) in self.rows.iter() {
            if is_found(*key, now.as_ref(), test) {
                found.push(key.uuid())?;
            }
        }
        Ok(())
    }

    /// Returns the identifiers of the rows that pass the test, each of them once, where these are those of the table
    /// under it. O(the identifiers) and O(rows touched).
    pub(crate) fn find_over<T: Test>(
        &self,
        mut found: Vec<Uuid>,
        test: &T,
    ) -> Result<Vec<Uuid>, AllocError>
        ensures { (t : model.Table) → Lists (map uuid_of found.items) (passing (T.passes test.now) t)
            → IfOk result (λ uuids. Lists (map uuid_of uuids.items) (passing (T.passes test.now) (overlaid t self.now))) }
    {
        found.retain(|uuid| !self.touches(Key::of(*uuid)));
        self.find(test, &mut found)?;
        Ok(found)
    }

    /// Returns the keys of the rows that may pass a test, each of them once, where these are those of the table under
    /// it: those that weren't touched, and those of all rows that are there. O(the keys) and O(rows touched).
    pub(crate) fn candidates_over(&self, mut keys: Vec<Key>) -> Result<Vec<Key>, AllocError>
        ensures { (p : model_uuid.Uuid → model_row.Row → Bool) (t : model.Table) → Suffices keys.items p t
            → IfOk result (λ new. Suffices new.items p (overlaid t self.now)) }
    {
        keys.retain(|key| !self.touches(*key));
        self.add_standing(&mut keys)?;
        Ok(keys)
    }

    /// Appends the keys of the rows that are there. O(rows touched).
    fn add_standing(&self, keys: &mut Vec<Key>) -> Result<(), AllocError>
        ensures { OnOk result (Appends keys.old.items keys.new.items (standing self.now)) }
    {
        for (key, now) in self.rows.iter() {
            if now.is_some() {
                keys.push(*key)?;
            }
        }
        Ok(())
    }

    /// Returns the identifiers of the rows that were touched, each of them once. O(rows touched).
    pub(crate) fn list(&self, alloc: Global) -> Result<Vec<Uuid>, AllocError>
        ensures touched { IfOk result (λ uuids. (u : model_uuid.Uuid) → list_any (eq_by_cmp uuid_cmp u) (map uuid_of uuids.items) ≡ finite.contains_key self.now u) }
        ensures distinct { IfOk result (λ uuids. IsDistinct (eq_by_cmp uuid_cmp) (map uuid_of uuids.items)) }
    {
        let mut uuids = Vec::with_capacity(alloc, self.rows.len())?;
        for (key, _) in self.rows.iter() {
            uuids.push(key.uuid())?;
        }
        Ok(uuids)
    }

    /// Returns what leads from the rows of the table to those that are over it. O(rows touched).
    pub(crate) fn changes(
        &self,
        alloc: Global,
        base: &Ground<'_>,
    ) -> Result<TableChange, AllocError>
        ensures { IfOk result (λ changes. changes ≡ change base.now (overlaid base.now self.now)) }
    {
        let mut rows = Vec::with_capacity(alloc, self.rows.len())?;
        for (key, now) in &self.rows {
            let change = RowChange::between(*key, base.share(*key), now.as_ref())?;
            add(&mut rows, change)?;
        }
        Ok(TableChange::new(rows))
    }

    /// Returns the same, where each row that is new, or has another value in a column, has the stamp's version.
    /// O(rows touched).
    pub(crate) fn commit(
        self,
        base: &Ground<'_>,
        stamp: &Stamp<'_>,
    ) -> Result<TableChange, AllocError>
        ensures { IfOk result (λ changes. changes
            ≡ change base.now (stamped_table (uuid_of stamp.now.version) (base.now, overlaid base.now self))) }
    {
        let mut rows = Vec::with_capacity(stamp.alloc, self.rows.len())?;
        for row in self.rows {
            add_stamped(&mut rows, row, base, stamp)?;
        }
        Ok(TableChange::new(rows))
    }
}

/// Returns the overlay at the place, if there is one. O(1).
pub(crate) fn overlay_at(overlays: &[Overlay], place: usize) -> Option<&Overlay>
    ensures { option_copied result ≡ slice_get overlays.now place }
{
    overlays.get(place)
}

/// Makes so many overlays, in which no row is touched. O(their number).
pub(crate) fn none_touched(
    alloc: Global,
    tables: usize,
    hashing: RandomState,
) -> Result<Vec<Overlay>, AllocError>
    ensures { IfOk result (λ overlays. overlays.items ≡ replicate tables finite.empty) }
{
    let mut overlays = Vec::with_capacity(alloc, tables)?;
    for _ in 0..tables {
        overlays.push(Overlay::new(alloc, hashing))?;
    }
    Ok(overlays)
}

/// Returns what leads from the database, with what is put over it and under a draft, to what the draft's overlays make of
/// that. O(rows touched) and O(tables).
pub(crate) fn all_changes(
    alloc: Global,
    base: &Db,
    under: &[Overlay],
    overlays: &[Overlay],
) -> Result<ChangeSet, AllocError>
    requires { length overlays.now ≡ length base.now }
    ensures { IfOk result (λ changes. let old = grounds base.now under.now in
        changes ≡ change_between old (all_overlaid old overlays.now)) }
{
    let mut tables = Vec::with_capacity(alloc, overlays.len())?;
    for place in 0..overlays.len() {
        let ground = Ground::at(base, under, place);
        tables.push(overlays[place].changes(alloc, &ground)?)?;
    }
    Ok(ChangeSet::new(tables))
}

/// Returns whether the row is there and passes the test.
fn is_found<T: Test>(key: Key, now: Option<&Arc<Row>>, test: &T) -> bool
    ensures { result ≡ passes_now (T.passes test.now) key (row_of (option_copied now.entry)) }
{
    match now {
        Some(row) => test.passes(key.uuid(), &**row),
        None => false,
    }
}

/// Returns 1 where the row is there and the table has none of its key, else 0.
fn gain(base: &Ground<'_>, key: Key, now: Option<&Arc<Row>>) -> usize
    ensures { result ≡ counted.gain base.now (key, row_of (option_copied now.entry)) }
{
    if now.is_some() && !base.contains(key) {
        1
    } else {
        0
    }
}

/// Returns 1 where the row was taken out and the table has one of its key, else 0.
fn loss(base: &Ground<'_>, key: Key, now: Option<&Arc<Row>>) -> usize
    ensures { result ≡ counted.loss base.now (key, row_of (option_copied now.entry)) }
{
    if now.is_none() && base.contains(key) {
        1
    } else {
        0
    }
}

/// Adds what leads to the touched row with the stamp's version, where it has another value in a column.
fn add_stamped(
    rows: &mut Vec<RowChange>,
    row: (Key, Option<Arc<Row>>),
    base: &Ground<'_>,
    stamp: &Stamp<'_>,
) -> Result<(), AllocError>
    ensures { OnOk result (let old_row = finite.get base.now row.0 in
        rows.new.items ≡ rows.old.items ++ option_to_list
        (change_at row.0 old_row (option_map (stamped_row (uuid_of stamp.now.version) old_row) (row_of row.1)))) }
{
    let (key, now) = row;
    let change = RowChange::stamped(key, base.share(key), now, stamp)?;
    add(rows, change)
}

fn add(rows: &mut Vec<RowChange>, change: Option<RowChange>) -> Result<(), AllocError>
    ensures { OnOk result (rows.new.items ≡ rows.old.items ++ option_to_list change) }
{
    match change {
        Some(change) => Ok(rows.push(change)?),
        None => Ok(()),
    }
}
