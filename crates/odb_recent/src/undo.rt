//! What one commit replaced.
ghost use Rattle.std.specs.Prelude.{◌≡◌, ◌++◌, [], IfOk, OnOk};
ghost use Rattle.odb_atoms.specs.FinMap as finite;
ghost use Rattle.odb_recent.specs.Undo.{olds_at, undo_at, undo_of};

use crate::old_row::OldRow;
use crate::table_undo::TableUndo;
use odb_schema::TableId;
use odb_tables::{ChangeSet, TableChange};
use std::alloc::{AllocError, Global};
use std::marker::Model;

/// What a commit replaced: of each table that it changed, what the rows were. Rows are shared, and not copied.
#[derive(Drop)]
pub struct Undo {
    tables: Vec<TableUndo>,
}

impl Model for Undo {
    ghost use Rattle.odb_recent.specs.Represented.Codes.{undo_code};
    ghost use Rattle.odb_recent.specs.Undo as model;

    ghost Value = { model.Undo };

    ghost coded = { undo_code };

    ghost view = { λ u. u.tables.items };
}

impl Undo {
    /// Makes one that replaced nothing. O(1).
    pub(crate) fn new(alloc: Global) -> Undo
        ensures { result ≡ [] }
    {
        Undo {
            tables: Vec::new(alloc),
        }
    }

    /// Shares what the change replaces. O(tables) and O(rows changed).
    pub(crate) fn of(alloc: Global, change: &ChangeSet) -> Result<Undo, AllocError>
        ensures { IfOk result (λ undo. undo ≡ undo_of change.now) }
    {
        let changes = change.tables();
        let mut tables = Vec::new(alloc);
        for place in 0..changes.len() {
            add_rows(alloc, &mut tables, TableId::at(place), &changes[place])?;
        }
        Ok(Undo { tables })
    }

    /// Returns what rows of the table were. O(tables changed).
    pub(crate) fn rows_of(&self, table: TableId) -> &[OldRow]
        ensures { finite.from_entries result.now ≡ olds_at self.now table }
    {
        for rows in &self.tables {
            if rows.table().place() == table.place() {
                return rows.rows();
            }
        }
        &[]
    }
}

/// Adds what the change of a table replaces, if it changes a row.
fn add_rows(
    alloc: Global,
    tables: &mut Vec<TableUndo>,
    table: TableId,
    change: &TableChange,
) -> Result<(), AllocError>
    ensures { OnOk result (tables.new.items ≡ tables.old.items ++ undo_at table change.now) }
{
    if change.is_empty() {
        return Ok(());
    }
    Ok(tables.push(TableUndo::of(alloc, table, change)?)?)
}
