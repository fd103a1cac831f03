//! What a client was told of a table.
ghost use Rattle.std.specs.Prelude.{◌≡◌};
ghost use Rattle.odb_atoms.specs.Represented.Atom.{uuid_of};
ghost use Rattle.odb_monitor.specs.Represented.Sides.{tells};

use odb_atoms::Row;
use odb_cond::Filter;
use uuid::Uuid;

/// What the client of a monitor was told of a table.
#[derive(Clone, Copy)]
pub enum Told<'a> {
    /// Nothing yet: this is its first reply.
    Nothing,
    /// The rows that the filter selects that is asked now.
    Asked,
    /// The rows that another filter selects, which the client has changed since (ovsdb-server(7), 4.1.13).
    Under(&'a Filter),
}

impl<'a> Told<'a> {
    /// Returns whether the client was told of a row that is so, where this filter is asked.
    pub(crate) fn tells(self, asked: &Filter, uuid: Uuid, row: &Row) -> bool
        ensures { result ≡ tells self.entry asked.now (uuid_of uuid) row.now }
    {
        match self {
            Told::Nothing => false,
            Told::Asked => asked.holds(uuid, row),
            Told::Under(filter) => filter.holds(uuid, row),
        }
    }
}
