//! What rows of a table were before several commits.
ghost use Rattle.std.specs.Prelude.{◌≡◌, ◌++◌, IfOk, OnErr, OnOk, option_to_list};
ghost use Rattle.std.specs.Option.{option_copied};
ghost use Rattle.odb_atoms.specs.FinMap as finite;
ghost use Rattle.odb_recent.specs.Undo.{undone_by};
ghost use Rattle.odb_recent.specs.Represented.Merged.{with_old, with_olds};
ghost use Rattle.odb_tables.specs.Change.{change};
ghost use Rattle.odb_tables.specs.Represented.Keyed.{keyed};
ghost use Rattle.odb_tables.specs.Represented.Overlay.{row_of};
ghost use Rattle.odb_tables.specs.Represented.RowChange.{change_at};

use crate::old_row::OldRow;
use indexmap::IndexMap;
use odb_atoms::Row;
use odb_tables::{Key, RowChange, Table, TableChange};
use std::alloc::{AllocError, Global};
use std::hash::RandomState;
use std::marker::Model;
use std::sync::Arc;

/// What rows of a table were before the earliest of several commits that changed them.
#[derive(Drop)]
pub(crate) struct Merged {
    alloc: Global,
    rows: IndexMap<Key, Option<Arc<Row>>, RandomState>,
}

impl Model for Merged {
    ghost use Rattle.odb_recent.specs.Represented.Codes.{olds_code};
    ghost use Rattle.odb_recent.specs.Undo.{Olds};
    ghost use Rattle.odb_tables.specs.Represented.Keyed.{keyed};
    ghost use Rattle.odb_tables.specs.Represented.Overlay.{row_of};

    ghost Value = { Olds };

    ghost coded = { olds_code };

    ghost view = { λ m. keyed row_of m.rows };
}

impl Merged {
    /// Makes one of no rows. O(1).
    pub(crate) fn new(alloc: Global, hashing: RandomState) -> Merged
        ensures { result ≡ finite.empty }
    {
        Merged {
            alloc,
            rows: IndexMap::with_hasher(alloc, hashing),
        }
    }

    /// Adds what a later commit replaced: of each row that no earlier one changed. O(the rows).
    pub(crate) fn add_all(&mut self, rows: &[OldRow]) -> Result<(), AllocError>
        ensures { OnOk result (self.new ≡ with_olds self.old rows.now) }
    {
        for row in rows {
            self.add(row)?;
        }
        Ok(())
    }

    /// Adds what the row was, unless it was changed before. O(1).
    fn add(&mut self, row: &OldRow) -> Result<(), AllocError>
        ensures { OnOk result (self.new ≡ with_old self.old row.now) }
    {
        if self.rows.contains_key(&row.key()) {
            return Ok(());
        }
        put(&mut self.rows, row.key(), row.share()?)
    }

    /// Makes what leads from the table with these rows to the table. O(the rows).
    pub(crate) fn change_to(&self, table: &Table) -> Result<TableChange, AllocError>
        ensures { IfOk result (λ made. made ≡ change (undone_by table.now self.now) table.now) }
    {
        let mut changes = Vec::with_capacity(self.alloc, self.rows.len())?;
        for (key, row) in self.rows.iter() {
            add_change(&mut changes, *key, row.as_ref(), table)?;
        }
        Ok(TableChange::new(changes))
    }
}

/// Adds what the row became, if it differs.
fn add_change(
    changes: &mut Vec<RowChange>,
    key: Key,
    old: Option<&Arc<Row>>,
    table: &Table,
) -> Result<(), AllocError>
    ensures { OnOk result (changes.new.items ≡ changes.old.items ++ option_to_list (change_at key (row_of (option_copied old.entry)) (finite.get table.now key))) }
{
    let change = RowChange::between(key, old, table.share(key))?;
    push(changes, change)
}

fn push(changes: &mut Vec<RowChange>, change: Option<RowChange>) -> Result<(), AllocError>
    ensures { OnOk result (changes.new.items ≡ changes.old.items ++ option_to_list change) }
{
    match change {
        Some(change) => Ok(changes.push(change)?),
        None => Ok(()),
    }
}

fn put(
    rows: &mut IndexMap<Key, Option<Arc<Row>>, RandomState>,
    key: Key,
    row: Option<Arc<Row>>,
) -> Result<(), AllocError>
    ensures ok { OnOk result (keyed row_of rows.new ≡ finite.insert (keyed row_of rows.old) key (row_of row)) }
    ensures err { OnErr result (keyed row_of rows.new ≡ keyed row_of rows.old) }
{
    match rows.insert(key, row) {
        Ok(_) => Ok(()),
        Err(_) => Err(AllocError),
    }
}
