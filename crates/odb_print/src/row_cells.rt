//! The cells of a row: of its declared columns, and of `_uuid` and `_version` (RFC 7047, section
//! 3.2).
ghost use Rattle.std.specs.Prelude.{◌≡◌};
ghost use Rattle.odb_atoms.specs.Represented.Atom.{uuid_of};
ghost use Rattle.odb_atoms.specs.Row as model_row;
ghost use Rattle.odb_cond.specs.Represented.Clause.{selector_of};

use odb_atoms::{Atom, Row, Value};
use odb_cond::Selector;
use std::alloc::Global;
use std::marker::Model;
use uuid::Uuid;

/// The cells of a row, each to be lent: those that a row doesn't keep are made once.
pub struct RowCells<'a> {
    key: Uuid,
    row: &'a Row,
    own_uuid: Value,
    own_version: Value,
    nothing: Value,
}

impl<'a> Model for RowCells<'a> {
    ghost use Rattle.std.specs.Prelude.{◌≡◌, ◌∷◌, []};
    ghost use Rattle.std.specs.Coded.{coded×};
    ghost use Rattle.odb_atoms.specs.Atom.{uuid};
    ghost use Rattle.odb_atoms.specs.FinSet as set;
    ghost use Rattle.odb_atoms.specs.Represented.Atom.{uuid_of};
    ghost use Rattle.odb_atoms.specs.Row as model;
    ghost use Rattle.odb_atoms.specs.Row.{row_code};
    ghost use Rattle.odb_atoms.specs.Uuid as model_uuid;
    ghost use Rattle.odb_atoms.specs.Uuid.{uuid_code};
    ghost use Rattle.odb_atoms.specs.Value.{atoms, set_of};

    ghost Value = { model_uuid.Uuid × model.Row };

    ghost coded = { coded× uuid_code row_code };

    ghost view = { λ c. (uuid_of c.key, c.row.now) };

    ghost invariant = { λ c. (c.own_uuid ≡ set_of (atoms (uuid (uuid_of c.key) ∷ [])))
        × (c.own_version ≡ set_of (atoms (uuid c.row.now.version ∷ [])))
        × (c.nothing ≡ set_of set.empty) };
}

impl<'a> RowCells<'a> {
    /// Makes the cells of the row with the identifier. O(1).
    pub fn new(alloc: Global, key: Uuid, row: &'a Row) -> RowCells<'a>
        ensures { result ≡ (uuid_of key, row.now) }
    {
        RowCells {
            key,
            row,
            own_uuid: Value::one(Atom::Uuid(key)),
            own_version: Value::one(Atom::Uuid(row.version())),
            nothing: Value::empty_set(alloc),
        }
    }

    /// Returns the cell of the column: the empty set for a declared one past the row's. O(1).
    pub fn get(&self, column: Selector) -> &Value
        ensures { result.now ≡ model_row.cell self.now.0 self.now.1 (selector_of column) }
    {
        match column {
            Selector::Uuid => &self.own_uuid,
            Selector::Version => &self.own_version,
            Selector::Declared(place) => match self.row.get(place) {
                Some(value) => value,
                None => &self.nothing,
            },
        }
    }
}

// Written, and not derived, so that each end of a scope is one call to prove.
impl Drop for RowCells<'_> {
    fn drop(self) {
        let RowCells {
            key: _,
            row: _,
            own_uuid: _,
            own_version: _,
            nothing: _,
        } = self;
    }
}
