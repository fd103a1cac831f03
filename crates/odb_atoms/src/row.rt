//! Rows of tables (RFC 7047, section 3.2): a value for each declared column, and a version. [P 2.1]

ghost use Rattle.std.specs.Prelude.{◌≡◌, length, slice_get, slice_set, ◌<◌, IfOk};
ghost use Rattle.std.specs.Option.{option_copied};
ghost use Rattle.odb_atoms.specs.Row as model;
ghost use Rattle.odb_atoms.specs.Represented.Atom.{uuid_of};

use crate::value::Value;
use std::alloc::{AllocError, Global};
use std::marker::Model;
use uuid::Uuid;

/// A row of a table: a value for each declared column, in the order of the columns' names, and
/// `_version` (RFC 7047, section 3.2). Its identifier, `_uuid`, is kept beside it.
///
/// The columns lie in one allocation; what a value itself takes, `Value` says.
#[derive(Drop)]
pub struct Row {
    version: Uuid,
    columns: Vec<Value>,
}

impl Model for Row {
    ghost use Rattle.odb_atoms.specs.Row as model;
    ghost use Rattle.odb_atoms.specs.Row.{row_code};

    ghost Value = { model.Row };

    ghost coded = { row_code };

    ghost use Rattle.odb_atoms.specs.Represented.Row.{row_of};

    ghost view = { row_of };
}

impl Row {
    /// Makes the row with the values of its declared columns, in the order of the columns' names. O(1).
    pub fn new(version: Uuid, columns: Vec<Value>) -> Row
        ensures { result ≡ record { version = uuid_of version; columns = columns.items } }
    {
        Row { version, columns }
    }

    /// Returns `_version`. O(1).
    pub fn version(&self) -> Uuid
        ensures { uuid_of result ≡ self.now.version }
    {
        self.version
    }

    /// Returns the values of the declared columns, in the order of the columns' names. O(1).
    pub fn columns(&self) -> &[Value]
        ensures { result.now ≡ self.now.columns }
    {
        self.columns.as_slice()
    }

    /// Returns the value of the declared column at the place, if there is one. O(1).
    pub fn get(&self, place: usize) -> Option<&Value>
        ensures { option_copied result ≡ slice_get self.now.columns place }
    {
        self.columns.get(place)
    }

    /// Gives the row another version. O(1).
    pub fn set_version(&mut self, version: Uuid)
        ensures { self.new ≡ record self.old { version = uuid_of version } }
    {
        self.version = version;
    }

    /// Puts a value into the declared column at the place, and gives back the old one. O(1).
    pub fn replace(&mut self, place: usize, value: Value) -> Value
        requires { place < length self.old.columns }
        ensures old { slice_get self.old.columns place ≡ Some result }
        ensures new { self.new ≡ record self.old { columns = slice_set self.old.columns place value } }
    {
        std::mem::replace(&mut self.columns[place], value)
    }

    /// Makes an equal row. O(the bytes copied).
    pub fn try_copy(&self, alloc: Global) -> Result<Row, AllocError>
        ensures { IfOk result (λ copy. copy ≡ self.now) }
    {
        let mut columns = Vec::with_capacity(alloc, self.columns.len())?;
        for value in &self.columns {
            columns.push(value.try_copy(alloc)?)?;
        }
        Ok(Row::new(self.version, columns))
    }
}
