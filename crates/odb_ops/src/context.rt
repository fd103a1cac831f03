//! What a transaction is given, and what its operations are carried out with.
ghost use Rattle.std.specs.Prelude.{◌≡◌, ◌<◌, length};
ghost use Rattle.odb_schema.specs.Schema.{columns_at};

use odb_json::Names;
use odb_schema::{Column, Schema, TableId};
use std::alloc::Global;
use uuid::Uuid;

/// What a transaction is given beside its operations (RFC 7047, section 4.1.3).
#[derive(Clone, Copy)]
pub struct Context<'a> {
    /// Identifiers for its inserts, in their order. An insert past their end has the zero identifier,
    /// and one that has its own takes its place here too.
    pub fresh: &'a [Uuid],
    /// When the request arrived, in milliseconds.
    pub arrival: u64,
    /// The moment now, in milliseconds.
    pub now: u64,
    /// The names of the locks that the session owns.
    pub owned: &'a [&'a str],
}

/// What the operations of a transaction are carried out with.
#[derive(Clone, Copy)]
pub struct Setting<'a> {
    pub alloc: Global,
    pub schema: &'a Schema,
    pub context: &'a Context<'a>,
    /// The identifiers that the names of the transaction stand for.
    pub names: &'a Names,
}

/// The table that an operation is on, with its columns.
#[derive(Clone, Copy)]
pub struct Target<'a> {
    pub alloc: Global,
    pub table: TableId,
    pub columns: &'a [Column],
}

impl<'a> Setting<'a> {
    /// Returns a table of the schema.
    pub fn target(&self, table: TableId) -> Target<'a>
        requires { table < length self.now.schema.now.tables }
        ensures table { result.table ≡ table }
        ensures columns { result.columns.now ≡ columns_at self.entry.now.schema.now table }
    {
        Target {
            alloc: self.alloc,
            table,
            columns: self.schema.tables()[table.place()].columns(),
        }
    }
}
