//! The content for which a mark stands, which proofs alone read. It takes no memory, and its calls do nothing at run time.
ghost use Rattle.std.specs.Prelude.{◌≡◌};
ghost use Rattle.std.specs.Borrow.{ftrue};
ghost use Rattle.odb_tables.specs.Database as model;
ghost use Rattle.odb_tables.specs.Database.{table_code};

use odb_tables::Table;
use std::marker::Model;

/// What a table was.
#[derive(Drop)]
pub(crate) struct Content {
    pub(crate) ghost table: { model.Table } by { table_code },
}

impl Model for Content {
    ghost also_owns = { λ _. ftrue };
}

// It owns nothing.
unsafe impl Send for Content {}

impl Content {
    /// Returns what the table is now.
    pub(crate) fn of(_table: &Table) -> Content
        ensures { result.table ≡ _table.now }
    {
        Content {}
    }
}
