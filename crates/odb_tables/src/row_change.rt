//! Changes of single rows. [P 6.3]
ghost use Rattle.std.specs.Prelude.{◌≡◌, ◌&&◌, false, IfOk, IsTrue, is_some, not, option_map};
ghost use Rattle.std.specs.Arc.{arc_value};
ghost use Rattle.std.specs.Option.{option_copied};
ghost use Rattle.odb_atoms.specs.Represented.Atom.{uuid_of};
ghost use Rattle.odb_atoms.specs.Uuid as model_uuid;
ghost use Rattle.odb_atoms.specs.Uuid.{same_uuid};
ghost use Rattle.odb_atoms.specs.Value.{same_values};
ghost use Rattle.odb_tables.specs.Change.{changed_row};
ghost use Rattle.odb_tables.specs.Represented.Installed.{new_row};
ghost use Rattle.odb_tables.specs.Represented.Overlay.{row_of};
ghost use Rattle.odb_tables.specs.Represented.RowChange.{change_at};
ghost use Rattle.odb_tables.specs.Stamped.{stamped_row, with_number};

use crate::key::Key;
use crate::stamp::Stamp;
use odb_atoms::{Row, Value};
use std::alloc::{AllocError, Global};
use std::marker::Model;
use std::sync::Arc;
use uuid::Uuid;

/// What a row of a table was before a change and what it is after it, or that there was or is none. The
/// two differ.
pub struct RowChange {
    key: Key,
    old: Option<Arc<Row>>,
    new: Option<Arc<Row>>,
}

impl Model for RowChange {
    ghost use Rattle.std.specs.Prelude.{Option};
    ghost use Rattle.odb_atoms.specs.Row.{Row};
    ghost use Rattle.odb_atoms.specs.Uuid.{Uuid};
    ghost use Rattle.odb_tables.specs.Represented.Overlay.{row_of};
    ghost use Rattle.odb_tables.specs.Represented.RowChange.{entry_code};

    ghost Value = { Uuid × (Option Row × Option Row) };

    ghost coded = { entry_code };

    ghost view = { λ c. (c.key, (row_of c.old, row_of c.new)) };
}

impl RowChange {
    /// Returns what leads from the old row of the key to the new one; `None` where there is none on both sides, or
    /// they are the same, `_version` included (RFC 7047, section 3.2). The rows are shared, and not copied.
    ///
    /// O(the values compared).
    pub fn between(
        key: Key,
        old: Option<&Arc<Row>>,
        new: Option<&Arc<Row>>,
    ) -> Result<Option<RowChange>, AllocError>
        ensures { IfOk result (λ change. change ≡ change_at key (row_of (option_copied old.entry)) (row_of (option_copied new.entry))) }
    {
        if are_same(old, new) {
            return Ok(None);
        }
        let old = share(old)?;
        let new = share(new)?;
        Ok(Some(RowChange { key, old, new }))
    }

    /// Returns what leads from the old row to the new one with the stamp's version; `None` where there is no row,
    /// or one with the same columns.
    pub(crate) fn stamped(
        key: Key,
        old: Option<&Arc<Row>>,
        new: Option<Arc<Row>>,
        stamp: &Stamp<'_>,
    ) -> Result<Option<RowChange>, AllocError>
        ensures { IfOk result (λ change. let old_row = row_of (option_copied old.entry) in
            change ≡ change_at key old_row (option_map (stamped_row (uuid_of stamp.now.version) old_row) (row_of new))) }
    {
        if have_same_columns(old, new.as_ref(), stamp.changed.places.as_slice()) {
            return Ok(None);
        }
        let old = share(old)?;
        let new = with_version(stamp.alloc, new, stamp.version)?;
        Ok(Some(RowChange { key, old, new }))
    }

    /// Returns the row's identifier. O(1).
    pub fn uuid(&self) -> Uuid
        ensures { uuid_of result ≡ self.now.0 }
    {
        self.key.uuid()
    }

    /// Returns the row before the change, if there was one. O(1).
    pub fn old(&self) -> Option<&Row>
        ensures { option_copied result ≡ self.now.1.0 }
    {
        match &self.old {
            Some(row) => Some(&**row),
            None => None,
        }
    }

    /// Returns the row's key, and the row before and after.
    pub(crate) fn into_parts(self) -> (Key, Option<Arc<Row>>, Option<Arc<Row>>)
        ensures { (result.0, (row_of result.1, row_of result.2)) ≡ self }
    {
        let RowChange { key, old, new } = self;
        (key, old, new)
    }

    /// Returns whether there was no row, and is one.
    pub(crate) fn is_new(&self) -> bool
        ensures { result ≡ is_some (new_row self.now.1) }
    {
        self.old.is_none() && self.new.is_some()
    }

    /// Returns the row before the change, if there was one, to be shared: its clone is the same row, and costs a
    /// count. It stays as it is when the table changes. O(1).
    pub fn share_old(&self) -> Option<&Arc<Row>>
        ensures { row_of (option_copied result) ≡ self.now.1.0 }
    {
        self.old.as_ref()
    }

    /// Returns the row after the change once more, if there is one.
    pub(crate) fn share_new(&self) -> Result<Option<Arc<Row>>, AllocError>
        ensures { IfOk result (λ shared. row_of shared ≡ self.now.1.1) }
    {
        share(self.new.as_ref())
    }

    /// Returns the row after the change, if there is one. O(1).
    pub fn new(&self) -> Option<&Row>
        ensures { option_copied result ≡ self.now.1.1 }
    {
        match &self.new {
            Some(row) => Some(&**row),
            None => None,
        }
    }
}

/// Returns the same row once more.
fn share(row: Option<&Arc<Row>>) -> Result<Option<Arc<Row>>, AllocError>
    ensures { IfOk result (λ shared. row_of shared ≡ row_of (option_copied row.entry)) }
{
    match row {
        Some(row) => Ok(Some(row.clone()?)),
        None => Ok(None),
    }
}

/// Returns the row with another version.
fn with_version(
    alloc: Global,
    row: Option<Arc<Row>>,
    version: Uuid,
) -> Result<Option<Arc<Row>>, AllocError>
    ensures { IfOk result (λ made. row_of made ≡ option_map (with_number (uuid_of version)) (row_of row)) }
{
    let Some(row) = row else {
        return Ok(None);
    };
    let mut row = taken_out(alloc, row)?;
    row.set_version(version);
    Ok(Some(Arc::new(alloc, row)?))
}

/// Returns the row itself where nobody else has it, and else a copy.
fn taken_out(alloc: Global, row: Arc<Row>) -> Result<Row, AllocError>
    ensures { IfOk result (λ own. own ≡ arc_value row) }
{
    match Arc::try_unwrap(row) {
        Ok(row) => Ok(row),
        Err(shared) => shared.try_copy(alloc),
    }
}

/// Returns whether there is no row, or one with the same columns as before. Those at the places of `first` are compared
/// before the others, which aren't where one of these differs.
fn have_same_columns(old: Option<&Arc<Row>>, new: Option<&Arc<Row>>, first: &[usize]) -> bool
    ensures { (number : model_uuid.Uuid) → let old_row = row_of (option_copied old.entry) in
        result ≡ not (is_some (changed_row old_row (option_map (stamped_row number old_row) (row_of (option_copied new.entry))))) }
{
    match (old, new) {
        (None, None) => true,
        (Some(old), Some(new)) => are_equal_from(first, &**old, &**new),
        _ => false,
    }
}

/// Returns whether two rows have the same columns. Those at the places of `first` are compared before the others.
fn are_equal_from(first: &[usize], old: &Row, new: &Row) -> bool
    ensures { result ≡ same_values old.now.columns new.now.columns }
{
    !differ_at_one(first, old, new) && are_equal(old.columns(), new.columns())
}

/// Returns whether the rows differ at one of the places.
fn differ_at_one(places: &[usize], old: &Row, new: &Row) -> bool
    ensures { IsTrue result → same_values old.now.columns new.now.columns ≡ false }
{
    for place in places {
        if differ_at(*place, old, new) {
            return true;
        }
    }
    false
}

/// Returns whether both rows have a value at the place, and these differ.
fn differ_at(place: usize, old: &Row, new: &Row) -> bool
    ensures { IsTrue result → same_values old.now.columns new.now.columns ≡ false }
{
    match (old.get(place), new.get(place)) {
        (Some(old), Some(new)) => *old != *new,
        _ => false,
    }
}

/// Returns whether nothing changed.
fn are_same(old: Option<&Arc<Row>>, new: Option<&Arc<Row>>) -> bool
    ensures { result ≡ not (is_some (changed_row (row_of (option_copied old.entry)) (row_of (option_copied new.entry)))) }
{
    match (old, new) {
        (None, None) => true,
        (Some(old), Some(new)) => is_same(&**old, &**new),
        _ => false,
    }
}

/// Returns whether two rows are the same.
fn is_same(old: &Row, new: &Row) -> bool
    ensures { result ≡ (same_uuid old.now.version new.now.version && same_values old.now.columns new.now.columns) }
{
    Key::of(old.version()) == Key::of(new.version()) && are_equal(old.columns(), new.columns())
}

/// Returns whether the values are the same, one by one.
fn are_equal(old: &[Value], new: &[Value]) -> bool
    ensures { result ≡ same_values old.now new.now }
{
    old == new
}

// Written, and not derived, so that each end of a scope is one call to prove.
impl Drop for RowChange {
    fn drop(self) {
        let RowChange {
            key: _,
            old: _,
            new: _,
        } = self;
    }
}
