//! Changes of databases.
ghost use Rattle.std.specs.Prelude.{◌≡◌};

use crate::table_change::TableChange;
use std::marker::Model;

/// The change of each table of a database, in the tables' order.
#[derive(Drop)]
pub struct ChangeSet {
    tables: Vec<TableChange>,
}

impl Model for ChangeSet {
    ghost use Rattle.std.specs.Prelude.{List};
    ghost use Rattle.std.specs.Coded.{coded_list};
    ghost use Rattle.odb_tables.specs.Change as model;
    ghost use Rattle.odb_tables.specs.Represented.TableChange.{changes_code};

    ghost Value = { List model.Changes };

    ghost coded = { coded_list changes_code };

    ghost view = { λ c. c.tables.items };
}

impl ChangeSet {
    /// Makes the changes of these tables. O(1).
    pub(crate) fn new(tables: Vec<TableChange>) -> ChangeSet
        ensures { result ≡ tables.items }
    {
        ChangeSet { tables }
    }

    /// Returns the change of each table, in the tables' order. O(1).
    pub fn tables(&self) -> &[TableChange]
        ensures { result.now ≡ self.now }
    {
        self.tables.as_slice()
    }

    /// Returns the same, by value. O(1).
    pub(crate) fn into_tables(self) -> Vec<TableChange>
        ensures { result.items ≡ self }
    {
        let ChangeSet { tables } = self;
        tables
    }
}
