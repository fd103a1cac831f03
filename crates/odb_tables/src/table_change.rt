//! Changes of tables.
ghost use Rattle.std.specs.Prelude.{◌≡◌, nat_lt, not, true};
ghost use Rattle.odb_atoms.specs.FinMap as finite;
ghost use Rattle.odb_tables.specs.Represented.TableChange.{AreDistinct};

use crate::row_change::RowChange;
use std::marker::Model;

/// The rows by which two contents of a table differ, each of them once.
#[derive(Drop)]
pub struct TableChange {
    rows: Vec<RowChange>,
}

impl Model for TableChange {
    ghost use Rattle.odb_atoms.specs.FinMap as finite;
    ghost use Rattle.odb_tables.specs.Change as model;
    ghost use Rattle.odb_tables.specs.Represented.TableChange.{AreDistinct, changes_code};

    ghost Value = { model.Changes };

    ghost coded = { changes_code };

    ghost view = { λ c. finite.from_entries c.rows.items };

    ghost invariant = { λ c. AreDistinct c.rows.items };
}

impl TableChange {
    /// Makes the change of a table by these changes of its rows, which have to be of different rows.
    /// O(1).
    pub fn new(rows: Vec<RowChange>) -> TableChange
        requires { AreDistinct rows.items }
        ensures { result ≡ finite.from_entries rows.items }
    {
        TableChange { rows }
    }

    /// Returns the changes of its rows, in no order that is told. O(1).
    pub fn rows(&self) -> &[RowChange]
        ensures changes { finite.from_entries result.now ≡ self.now }
        ensures distinct { AreDistinct result.now }
    {
        self.rows.as_slice()
    }

    /// Returns whether no row changes. O(1).
    pub fn is_empty(&self) -> bool
        ensures counted { not result ≡ nat_lt 0 (finite.len self.now) }
        ensures none { result ≡ true → self.now ≡ finite.empty }
    {
        self.rows.is_empty()
    }

    /// Returns the same, by value. O(1).
    pub(crate) fn into_rows(self) -> Vec<RowChange>
        ensures changes { finite.from_entries result.items ≡ self }
        ensures distinct { AreDistinct result.items }
    {
        let TableChange { rows } = self;
        rows
    }
}
