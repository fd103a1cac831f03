//! Tables as a draft finds them: with what is put over the database and isn't made yet.
ghost use Rattle.std.specs.Prelude.{◌≡◌, ◌+◌, ◌<◌, ◌^◌, length};
ghost use Rattle.std.specs.Option.{option_copied};
ghost use Rattle.odb_atoms.specs.FinMap as finite;
ghost use Rattle.odb_atoms.specs.Represented.Atom.{uuid_of};
ghost use Rattle.odb_tables.specs.Database.{table_at};
ghost use Rattle.odb_tables.specs.Represented.Draft.{grounds};
ghost use Rattle.odb_tables.specs.Represented.Overlay.{row_of};

use crate::database::Db;
use crate::key::Key;
use crate::overlay::{Overlay, overlay_at};
use crate::table::Table;
use odb_atoms::Row;
use std::marker::Model;
use std::sync::Arc;
use uuid::Uuid;

/// A table as a draft finds it: that of the database, and the rows that are put over it, if some are.
#[derive(Drop)]
pub(crate) struct Ground<'a> {
    table: &'a Table,
    under: Option<&'a Overlay>,
}

impl<'a> Model for Ground<'a> {
    ghost use Rattle.std.specs.Option.{option_copied};
    ghost use Rattle.odb_tables.specs.Database as model;
    ghost use Rattle.odb_tables.specs.Database.{table_code};
    ghost use Rattle.odb_tables.specs.Represented.Draft.{ground};

    ghost Value = { model.Table };

    ghost coded = { table_code };

    ghost view = { λ g. ground g.table.now (option_copied g.under) };
}

impl<'a> Ground<'a> {
    /// Returns the table at the place, with what is put over it. O(1).
    pub(crate) fn at(base: &'a Db, under: &'a [Overlay], place: usize) -> Ground<'a>
        requires { place < length base.now }
        ensures { result ≡ table_at (grounds base.now under.now) place }
    {
        Ground {
            table: &base.tables()[place],
            under: overlay_at(under, place),
        }
    }

    /// Returns how many rows it has. O(rows that are put over it).
    pub(crate) fn len(&self) -> usize
        ensures rows { result ≡ finite.len self.now }
        ensures small { result < 2 ^ 63 + 2 ^ 62 }
    {
        let rows = self.table.len();
        match self.under {
            Some(under) => {
                let table = Ground {
                    table: self.table,
                    under: None,
                };
                under.count(&table, rows)
            }
            None => rows,
        }
    }

    /// Returns the row of an identifier, if it has one. O(1).
    pub(crate) fn get(&self, uuid: Uuid) -> Option<&'a Row>
        ensures { option_copied result ≡ finite.get self.now (uuid_of uuid) }
    {
        match self.share(Key::of(uuid)) {
            Some(row) => Some(&**row),
            None => None,
        }
    }

    /// Returns whether it has a row of the key. O(1).
    pub(crate) fn contains(&self, key: Key) -> bool
        ensures { result ≡ finite.contains_key self.now key }
    {
        self.share(key).is_some()
    }

    /// Returns the row of a key, if it has one, to be shared. O(1).
    pub(crate) fn share(&self, key: Key) -> Option<&'a Arc<Row>>
        ensures { row_of (option_copied result) ≡ finite.get self.now key }
    {
        let Some(under) = self.under else {
            return self.table.share(key);
        };
        match under.share(key) {
            Some(row) => row,
            None => self.table.share(key),
        }
    }
}
