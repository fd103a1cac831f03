//! Copies of selected columns of rows (RFC 7047, section 5.2.6).
ghost use Rattle.std.specs.Prelude.{◌≡◌, ◌++◌, IfOk, OnOk, flat_map, map, option_to_list};
ghost use Rattle.odb_atoms.specs.Represented.Atom.{uuid_of};
ghost use Rattle.odb_atoms.specs.Row as model_row;
ghost use Rattle.odb_cond.specs.Represented.Clause.{selector_of};
ghost use Rattle.odb_ops.specs.Execution as model;
ghost use Rattle.odb_ops.specs.Represented.Cells.{cells_at};
ghost use Rattle.odb_tables.specs.Database.{table_at};
ghost use Rattle.odb_tables.specs.Matching.{matching};

use odb_atoms::{Atom, Row, Value};
use odb_cond::{Selector, Where};
use odb_schema::TableId;
use odb_tables::Draft;
use std::alloc::{AllocError, Global};
use std::marker::Model;
use uuid::Uuid;

/// Values of columns of a row, in an order that is known beside it.
#[derive(Drop)]
pub struct Cells {
    values: Vec<Value>,
}

impl Model for Cells {
    ghost use Rattle.std.specs.Prelude.{List};
    ghost use Rattle.std.specs.Coded.{coded_list};
    ghost use Rattle.odb_atoms.specs.Value as model;
    ghost use Rattle.odb_atoms.specs.Value.{value_code};

    ghost Value = { List model.Value };

    ghost coded = { coded_list value_code };

    ghost view = { λ c. c.values.items };
}

impl Cells {
    /// Takes these values.
    pub fn new(values: Vec<Value>) -> Cells
        ensures { result ≡ values.items }
    {
        Cells { values }
    }

    /// Returns the values.
    pub fn values(&self) -> &[Value]
        ensures { result.now ≡ self.now }
    {
        self.values.as_slice()
    }
}

/// Returns the value of a column of a row.
fn cell(alloc: Global, uuid: Uuid, row: &Row, column: Selector) -> Result<Value, AllocError>
    ensures { IfOk result (λ value. value ≡ model_row.cell (uuid_of uuid) row.now (selector_of column)) }
{
    match column {
        Selector::Uuid => Ok(Value::one(Atom::Uuid(uuid))),
        Selector::Version => Ok(Value::one(Atom::Uuid(row.version()))),
        Selector::Declared(place) => match row.get(place) {
            Some(value) => value.try_copy(alloc),
            None => Ok(Value::empty_set(alloc)),
        },
    }
}

/// Returns the values of the columns of a row.
fn project(alloc: Global, uuid: Uuid, row: &Row, columns: &[Selector]) -> Result<Cells, AllocError>
    ensures { IfOk result (λ cells. cells
        ≡ model.project (map selector_of columns.now) (uuid_of uuid) row.now) }
{
    let mut values = Vec::with_capacity(alloc, columns.len())?;
    for column in columns {
        values.push(cell(alloc, uuid, row, *column)?)?;
    }
    Ok(Cells::new(values))
}

/// Returns the values of the columns of each row that matches, in the order of the rows' identifiers.
///
/// What `Draft::matching` costs, and the bytes of the values.
pub fn selected(
    alloc: Global,
    draft: &Draft,
    table: TableId,
    conditions: &Where,
    columns: &[Selector],
) -> Result<Vec<Cells>, AllocError>
    ensures { IfOk result (λ rows. rows.items ≡ model.selected (map selector_of columns.now)
        (matching conditions.now (table_at draft.now.now table))) }
{
    let uuids = draft.matching(table, conditions)?;
    rows_of(alloc, draft, table, &uuids, columns)
}

/// Returns the values of the columns of the rows with these identifiers.
fn rows_of(
    alloc: Global,
    draft: &Draft,
    table: TableId,
    uuids: &[Uuid],
    columns: &[Selector],
) -> Result<Vec<Cells>, AllocError>
    ensures { IfOk result (λ rows. rows.items
        ≡ flat_map (cells_at (map selector_of columns.now) (table_at draft.now.now table)) (map uuid_of uuids.now)) }
{
    let mut rows = Vec::with_capacity(alloc, uuids.len())?;
    for uuid in uuids {
        let row = row_of(alloc, draft, table, *uuid, columns)?;
        add(&mut rows, row)?;
    }
    Ok(rows)
}

/// Returns the values of the columns of the row with the identifier, if there is one.
fn row_of(
    alloc: Global,
    draft: &Draft,
    table: TableId,
    uuid: Uuid,
    columns: &[Selector],
) -> Result<Option<Cells>, AllocError>
    ensures { IfOk result (λ cells. option_to_list cells
        ≡ cells_at (map selector_of columns.now) (table_at draft.now.now table) (uuid_of uuid)) }
{
    match draft.get(table, uuid) {
        Some(row) => Ok(Some(project(alloc, uuid, row, columns)?)),
        None => Ok(None),
    }
}

fn add(rows: &mut Vec<Cells>, row: Option<Cells>) -> Result<(), AllocError>
    ensures { OnOk result (rows.new.items ≡ rows.old.items ++ option_to_list row) }
{
    if let Some(row) = row {
        rows.push(row)?;
    }
    Ok(())
}
