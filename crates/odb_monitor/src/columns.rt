//! The names and the types of a table's columns (RFC 7047, section 3.2).
ghost use Rattle.std.specs.Prelude.{◌≡◌, IfOk};
ghost use Rattle.odb_atoms.specs.ColType as model;
ghost use Rattle.odb_atoms.specs.Difference as model_difference;
ghost use Rattle.odb_atoms.specs.Represented.ColType.{type_of};
ghost use Rattle.odb_cond.specs.Represented.Clause.{selector_of};
ghost use Rattle.odb_schema.specs.Schema.{selector_name, selector_type};

use odb_atoms::{ColType, Kind, Value, default_of, difference};
use odb_cond::Selector;
use odb_schema::TableSchema;
use std::alloc::{AllocError, Global};
use std::marker::Model;

/// The columns of a table: those that are declared, `_uuid` and `_version`.
#[derive(Drop)]
pub struct Columns<'a> {
    alloc: Global,
    table: &'a TableSchema,
    uuid: ColType,
}

impl<'a> Model for Columns<'a> {
    ghost use Rattle.std.specs.Prelude.{◌≡◌, List};
    ghost use Rattle.std.specs.Coded.{coded_list};
    ghost use Rattle.odb_atoms.specs.Atom.{uuids};
    ghost use Rattle.odb_atoms.specs.ColType.{scalar};
    ghost use Rattle.odb_atoms.specs.Represented.ColType.{type_of};
    ghost use Rattle.odb_schema.specs.Represented.Codes.{column_code};
    ghost use Rattle.odb_schema.specs.Schema as schema;

    ghost Value = { List schema.Column };

    ghost coded = { coded_list column_code };

    ghost view = { λ c. c.table.now.columns };

    ghost invariant = { λ c. type_of c.uuid ≡ scalar uuids };
}

impl<'a> Columns<'a> {
    /// Returns the columns of the table. O(1).
    pub fn of(alloc: Global, table: &'a TableSchema) -> Columns<'a>
        ensures { result ≡ table.now.columns }
    {
        Columns {
            alloc,
            table,
            uuid: ColType::scalar(Kind::Uuid),
        }
    }

    /// Returns the column's name. O(1).
    pub fn name(&self, column: Selector) -> &str
        ensures { result.now ≡ selector_name self.now (selector_of column) }
    {
        match column {
            Selector::Uuid => "_uuid",
            Selector::Version => "_version",
            Selector::Declared(place) => match self.table.columns().get(place) {
                Some(column) => column.name(),
                None => "",
            },
        }
    }

    /// Returns the column's type. O(1).
    fn column_type(&self, column: Selector) -> &ColType
        ensures { type_of result.now ≡ selector_type self.now (selector_of column) }
    {
        match column {
            Selector::Uuid | Selector::Version => &self.uuid,
            Selector::Declared(place) => match self.table.columns().get(place) {
                Some(column) => column.column_type(),
                None => &self.uuid,
            },
        }
    }

    /// Returns whether the column has at most one element or pair. O(1).
    pub fn is_single(&self, column: Selector) -> bool
        ensures { result ≡ model.is_single (selector_type self.now (selector_of column)) }
    {
        self.column_type(column).is_single()
    }

    /// Returns what the column has by default (RFC 7047, section 5.2.1). O(1).
    pub fn default_of(&self, column: Selector) -> Result<Value, AllocError>
        ensures { IfOk result (λ v. v ≡ model.default_of (selector_type self.now (selector_of column))) }
    {
        default_of(self.alloc, self.column_type(column))
    }

    /// Returns what leads from the old value of the column to the new one (ovsdb-server(7), 4.1.14). O(the values).
    pub fn difference(
        &self,
        column: Selector,
        old: &Value,
        new: &Value,
    ) -> Result<Value, AllocError>
        ensures { IfOk result (λ d. d
            ≡ model_difference.difference old.now new.now (selector_type self.now (selector_of column))) }
    {
        difference(self.alloc, old, new, self.column_type(column))
    }
}
