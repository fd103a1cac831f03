//! What is asked of one table, but for its filter.

ghost use Rattle.std.specs.Prelude.{◌≡◌, ◌<◌, length, map};
ghost use Rattle.std.specs.Arc.{arc_value};
ghost use Rattle.std.specs.Bool.{Decides};
ghost use Rattle.odb_cond.specs.Represented.Clause.{selector_of};
ghost use Rattle.odb_request.specs.Represented.Parts.{monitored_as};
ghost use Rattle.odb_request.specs.Represented.Select.{select_of};
ghost use Rattle.odb_request.specs.Represented.Shape.{table_name};
ghost use Rattle.odb_request.specs.Requests.{monitored};
ghost use Rattle.odb_schema.specs.Schema.{columns_at};

use crate::alike::same_columns;
use crate::select::Select;
use odb_cond::Selector;
use odb_schema::{Schema, TableId, TableSchema};
use std::marker::Model;
use std::sync::Arc;

/// What is asked of one table, but for its filter (RFC 7047, section 4.1.5): its columns by
/// ascending name, and the kinds of change that are sent. Names and types are those of the schema,
/// which it shares.
pub struct Shape {
    schema: Arc<Schema>,
    table: TableId,
    columns: Vec<Selector>,
    select: Select,
}

impl Model for Shape {
    ghost use Rattle.odb_request.specs.Represented.Shape.{Asked, asked_code, shape_in, HasTable};

    ghost Value = { Asked };

    ghost coded = { asked_code };

    ghost view = { shape_in };

    ghost invariant = { HasTable };
}

impl Shape {
    /// Makes the shape of these columns of a table of the schema.
    pub(crate) fn new(
        schema: Arc<Schema>,
        table: TableId,
        columns: Vec<Selector>,
        select: Select,
    ) -> Shape
        requires { table < length (arc_value schema).tables }
        ensures { result ≡ record {
          shape = record {
            name = table_name (arc_value schema) table;
            columns = map (monitored_as (columns_at (arc_value schema) table)) columns.items;
          };
          place = table;
          select = select_of select;
        } }
    {
        Shape {
            schema,
            table,
            columns,
            select,
        }
    }

    /// Returns the table's place in the schema. O(1).
    #[inline(always)]
    pub fn table(&self) -> TableId
        ensures { result ≡ self.now.place }
    {
        self.table
    }

    /// Returns the table in the schema, which has the names and the types. O(1).
    pub fn table_schema(&self) -> &TableSchema
        ensures name { result.now.name ≡ self.now.shape.name }
        ensures columns { self.now.shape.columns
            ≡ map (λ c. monitored result.now.columns c.source) self.now.shape.columns }
    {
        table_at(&self.schema, self.table)
    }

    /// Returns the columns, by ascending name, as they stand in the schema. O(1).
    #[inline(always)]
    pub fn columns(&self) -> &[Selector]
        ensures { map selector_of result.now ≡ map (λ c. c.source) self.now.shape.columns }
    {
        self.columns.as_slice()
    }

    /// Returns the kinds of change that are sent (RFC 7047, section 4.1.5, `<monitor-select>`). O(1).
    #[inline(always)]
    pub fn select(&self) -> Select
        ensures { select_of result ≡ self.now.select }
    {
        self.select
    }

    /// Returns whether the two ask the same of the same table, names and types included.
    ///
    /// O(the columns and their constraints).
    pub fn same(&self, other: &Shape) -> bool
        ensures { Decides result (self.now ≡ other.now) }
    {
        self.asks_alike(other) && self.reads_alike(other)
    }

    /// Returns whether the two have the same place and the same kinds of change.
    fn asks_alike(&self, other: &Shape) -> bool
        ensures { Decides result ((self.now.place ≡ other.now.place) × (self.now.select ≡ other.now.select)) }
    {
        self.table == other.table && self.select == other.select
    }

    /// Returns whether the two have the same names and columns.
    fn reads_alike(&self, other: &Shape) -> bool
        ensures { Decides result (self.now.shape ≡ other.now.shape) }
    {
        self.names_alike(other) && self.shows_alike(other)
    }

    /// Returns whether the two have the same table's name.
    fn names_alike(&self, other: &Shape) -> bool
        ensures { Decides result (self.now.shape.name ≡ other.now.shape.name) }
    {
        self.table_schema().name() == other.table_schema().name()
    }

    /// Returns whether the two have the same columns.
    fn shows_alike(&self, other: &Shape) -> bool
        ensures { Decides result (self.now.shape.columns ≡ other.now.shape.columns) }
    {
        same_columns(
            table_at(&self.schema, self.table),
            &self.columns,
            table_at(&other.schema, other.table),
            &other.columns,
        )
    }
}

/// Returns a table of the schema.
pub fn table_at(schema: &Schema, table: TableId) -> &TableSchema
    requires { table < length schema.now.tables }
    ensures name { result.now.name ≡ table_name schema.now table }
    ensures columns { result.now.columns ≡ columns_at schema.now table }
{
    &schema.tables()[table.place()]
}

// Written, and not derived, so that each end of a scope is one call to prove.
impl Drop for Shape {
    fn drop(self) {
        let Shape {
            schema: _,
            table: _,
            columns: _,
            select: _,
        } = self;
    }
}
