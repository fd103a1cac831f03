//! What a row was.
ghost use Rattle.std.specs.Prelude.{◌≡◌, IfOk, option_map};
ghost use Rattle.std.specs.Option.{option_copied};
ghost use Rattle.odb_tables.specs.Represented.Overlay.{row_of};

use odb_atoms::Row;
use odb_tables::{Key, RowChange};
use std::alloc::AllocError;
use std::marker::Model;
use std::sync::Arc;

/// What a row was that a commit changed, or that there was none. The row is shared with whoever has it.
#[derive(Drop)]
pub(crate) struct OldRow {
    key: Key,
    row: Option<Arc<Row>>,
}

impl Model for OldRow {
    ghost use Rattle.std.specs.Prelude.{Option};
    ghost use Rattle.odb_atoms.specs.Row.{Row};
    ghost use Rattle.odb_atoms.specs.Uuid.{Uuid};
    ghost use Rattle.odb_recent.specs.Represented.Codes.{old_row_code};
    ghost use Rattle.odb_tables.specs.Represented.Overlay.{row_of};

    ghost Value = { Uuid × Option Row };

    ghost coded = { old_row_code };

    ghost view = { λ r. (r.key, row_of r.row) };
}

impl OldRow {
    /// Shares what the row was before the change. O(1).
    pub(crate) fn of(change: &RowChange) -> Result<OldRow, AllocError>
        ensures { IfOk result (λ old. old ≡ (change.now.0, change.now.1.0)) }
    {
        let row = share(change.share_old())?;
        Ok(OldRow {
            key: Key::of(change.uuid()),
            row,
        })
    }

    /// Returns the row's identifier, as a key. O(1).
    pub(crate) fn key(&self) -> Key
        ensures { result ≡ self.now.0 }
    {
        self.key
    }

    /// Shares the row, if there was one. O(1).
    pub(crate) fn share(&self) -> Result<Option<Arc<Row>>, AllocError>
        ensures { IfOk result (λ row. row_of row ≡ self.now.1) }
    {
        share(self.row.as_ref())
    }
}

/// Shares a row, if there is one.
fn share(row: Option<&Arc<Row>>) -> Result<Option<Arc<Row>>, AllocError>
    ensures { IfOk result (λ shared. row_of shared ≡ row_of (option_copied row.entry)) }
{
    match row {
        Some(row) => Ok(Some(row.clone()?)),
        None => Ok(None),
    }
}
