//! What the rows of a table were.
ghost use Rattle.std.specs.Prelude.{◌≡◌, IfOk};
ghost use Rattle.odb_atoms.specs.FinMap as finite;
ghost use Rattle.odb_recent.specs.Undo.{olds};

use crate::old_row::OldRow;
use odb_schema::TableId;
use odb_tables::TableChange;
use std::alloc::{AllocError, Global};
use std::marker::Model;

/// What the rows of a table were that a commit changed.
#[derive(Drop)]
pub(crate) struct TableUndo {
    table: TableId,
    rows: Vec<OldRow>,
}

impl Model for TableUndo {
    ghost use Rattle.std.specs.Prelude.{ℕ};
    ghost use Rattle.odb_atoms.specs.FinMap as finite;
    ghost use Rattle.odb_recent.specs.Represented.Codes.{table_undo_code};
    ghost use Rattle.odb_recent.specs.Undo.{Olds};

    ghost Value = { ℕ × Olds };

    ghost coded = { table_undo_code };

    ghost view = { λ o. (o.table, finite.from_entries o.rows.items) };
}

impl TableUndo {
    /// Shares what the rows of the table were that the change names. O(rows changed).
    pub(crate) fn of(
        alloc: Global,
        table: TableId,
        change: &TableChange,
    ) -> Result<TableUndo, AllocError>
        ensures { IfOk result (λ made. made ≡ (table, olds change.now)) }
    {
        let mut rows = Vec::with_capacity(alloc, change.rows().len())?;
        for row in change.rows() {
            rows.push(OldRow::of(row)?)?;
        }
        Ok(TableUndo { table, rows })
    }

    /// Returns the table. O(1).
    pub(crate) fn table(&self) -> TableId
        ensures { result ≡ self.now.0 }
    {
        self.table
    }

    /// Returns the rows. O(1).
    pub(crate) fn rows(&self) -> &[OldRow]
        ensures { finite.from_entries result.now ≡ self.now.1 }
    {
        self.rows.as_slice()
    }
}
