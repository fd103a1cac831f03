//! Changes that are put one after another over a database, before any of them is made. [P 12.2]
ghost use Rattle.std.specs.Prelude.{◌≡◌, IfOk, OnOk, length};
ghost use Rattle.odb_tables.specs.Change.{all_changed_by, change_between};
ghost use Rattle.odb_tables.specs.Database as model_db;
ghost use Rattle.odb_tables.specs.Installing.{IsChangeOf};
ghost use Rattle.odb_tables.specs.Pending.{pending_of};
ghost use Rattle.odb_tables.specs.Represented.Draft.{all_overlaid, grounds};

use crate::change_set::ChangeSet;
use crate::database::Db;
use crate::overlay::{Overlay, all_changes, none_touched};
use crate::table_change::TableChange;
use std::alloc::{AllocError, Global};
use std::marker::Model;

/// A database, and changes that are put over it one after another and aren't made yet. [`Draft::over`] takes it as it
/// will be. What isn't changed is read through.
///
/// [`Draft::over`]: crate::Draft::over
#[derive(Drop)]
pub struct Pending<'a> {
    alloc: Global,
    base: &'a Db,
    overlays: Vec<Overlay>,
}

impl<'a> Model for Pending<'a> {
    ghost use Rattle.std.specs.Prelude.{◌≡◌, length};
    ghost use Rattle.odb_tables.specs.Pending as model;
    ghost use Rattle.odb_tables.specs.Pending.{pending_code};
    ghost use Rattle.odb_tables.specs.Represented.Draft.{all_overlaid};

    ghost Value = { model.Pending };

    ghost coded = { pending_code };

    ghost view = { λ p. record {
      old = p.base.now;
      now = all_overlaid p.base.now p.overlays.items;
    } };

    ghost invariant = { λ p. length p.overlays.items ≡ length p.base.now };
}

impl<'a> Pending<'a> {
    /// Makes one of the database, over which no change is put yet. O(tables).
    pub fn new(alloc: Global, base: &'a Db) -> Result<Pending<'a>, AllocError>
        ensures { IfOk result (λ pending. pending ≡ pending_of base.now) }
    {
        let overlays = none_touched(alloc, base.len(), base.hashing())?;
        Ok(Pending {
            alloc,
            base,
            overlays,
        })
    }

    /// Returns the database as it is. O(1).
    pub(crate) fn base(&self) -> &'a Db
        ensures { result.now ≡ self.now.old }
    {
        self.base
    }

    /// Returns what is put over each of its tables. O(1).
    pub(crate) fn overlays(&self) -> &[Overlay]
        ensures { grounds self.now.old result.now ≡ self.now.now }
    {
        self.overlays.as_slice()
    }

    /// Puts a change over it, after the others. Its rows are shared. O(rows changed) and O(tables). An error says that
    /// memory was refused; some of the change may be in then.
    pub fn add(&mut self, change: &ChangeSet) -> Result<(), AllocError>
        requires { IsChangeOf self.old.now change.now }
        ensures ok { OnOk result (self.new.now ≡ all_changed_by self.old.now change.now) }
        ensures old { self.new.old ≡ self.old.old }
    {
        put_changes(&mut self.overlays, change.tables())
    }

    /// Returns what leads from the database as it is to the one as it will be. O(rows changed) and O(tables).
    pub fn changes(self) -> Result<ChangeSet, AllocError>
        ensures changes { IfOk result (λ changes. changes ≡ change_between self.entry.old self.entry.now) }
        ensures change_of { IfOk result (λ changes. IsChangeOf self.entry.old changes) }
        ensures leads_to { IfOk result (λ changes. all_changed_by self.entry.old changes ≡ self.entry.now) }
    {
        all_changes(self.alloc, self.base, &[], self.overlays.as_slice())
    }
}

/// Puts the changes over the tables. Where memory is refused some of them are, and the overlays are as many as before.
fn put_changes(overlays: &mut Vec<Overlay>, changes: &[TableChange]) -> Result<(), AllocError>
    requires { length changes.now ≡ length overlays.old.items }
    ensures ok { OnOk result ((db : model_db.Db) → length overlays.old.items ≡ length db
        → all_overlaid db overlays.new.items ≡ all_changed_by (all_overlaid db overlays.old.items) changes.now) }
    ensures as_many { length overlays.new.items ≡ length overlays.old.items }
{
    for place in 0..changes.len() {
        overlays[place].put_change(&changes[place])?;
    }
    Ok(())
}
