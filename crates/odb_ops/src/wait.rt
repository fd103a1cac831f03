//! `wait` (RFC 7047, section 5.2.6). [P 4.2, 12.1]
ghost use Rattle.std.specs.Prelude.{◌≡◌, IfOk, find, map, option_map};
ghost use Rattle.std.specs.Option.{option_copied};
ghost use Rattle.odb_atoms.specs.Atom.{uuids};
ghost use Rattle.odb_atoms.specs.ColType as column_type;
ghost use Rattle.odb_atoms.specs.Row.{same_selector};
ghost use Rattle.odb_cond.specs.Represented.Clause.{selector_of};
ghost use Rattle.odb_json.specs.Represented.Operation.{until_of};
ghost use Rattle.odb_json.specs.Represented.Row.{cell_of, cells_of};
ghost use Rattle.odb_ops.specs.Execution as model;
ghost use Rattle.odb_ops.specs.Represented.Cells.{value_in};
ghost use Rattle.odb_schema.specs.Schema.{selector_type};
ghost use Rattle.odb_tables.specs.Database.{table_at};
ghost use Rattle.odb_tables.specs.Matching.{matching};

use crate::cells::{Cells, selected};
use crate::contents::{are_among, contents};
use crate::context::Target;
use odb_atoms::{ColType, Kind, Value, default_of};
use odb_cond::Selector;
use odb_json::{Until, Wait};
use odb_schema::Column;
use odb_tables::Draft;
use std::alloc::{AllocError, Global};

/// Returns whether these columns of the rows that match are the same set of rows as those given.
///
/// What `Draft::matching` costs, and O((m + n) log (m + n)) comparisons of rows for the m that
/// match and n that are given.
pub fn has_rows(target: &Target<'_>, draft: &Draft, asked: &Wait) -> Result<bool, AllocError>
    ensures { IfOk result (λ same. same
        ≡ model.same_rows (model.selected (map selector_of asked.now.columns.items)
        (matching asked.now.conditions (table_at draft.now.now target.entry.now.table)))
        (map (model.expected target.entry.now.columns.now (map selector_of asked.now.columns.items)) (map cells_of asked.now.rows.items))) }
{
    let columns = asked.columns.as_slice();
    let found = selected(
        target.alloc,
        draft,
        target.table,
        &asked.conditions,
        columns,
    )?;
    let expected = all_expected(target.alloc, target.columns, columns, asked.rows.as_slice())?;
    are_same(target.alloc, &found, &expected)
}

/// Returns whether it is as `until` wants it.
pub fn is_reached(until: Until, same: bool) -> bool
    ensures { result ≡ model.is_reached (until_of until) same }
{
    match until {
        Until::Equal => same,
        Until::NotEqual => !same,
    }
}

/// Returns whether both are the same set of rows.
fn are_same(alloc: Global, rows: &[Cells], others: &[Cells]) -> Result<bool, AllocError>
    ensures { IfOk result (λ same. same ≡ model.same_rows rows.now others.now) }
{
    let there = each_in(alloc, rows, others)?;
    let back = each_in(alloc, others, rows)?;
    Ok(there && back)
}

/// Returns whether each of the rows is among the others.
fn each_in(alloc: Global, rows: &[Cells], others: &[Cells]) -> Result<bool, AllocError>
    ensures { IfOk result (λ all. all ≡ model.each_in rows.now others.now) }
{
    let set = contents(alloc, others)?;
    Ok(are_among(rows, &set))
}

/// Returns the values of the columns of each of the rows that are waited for.
fn all_expected(
    alloc: Global,
    declared: &[Column],
    columns: &[Selector],
    rows: &[Vec<(Selector, Value)>],
) -> Result<Vec<Cells>, AllocError>
    ensures { IfOk result (λ all. all.items
        ≡ map (model.expected declared.now (map selector_of columns.now)) (map cells_of rows.now)) }
{
    let mut all = Vec::with_capacity(alloc, rows.len())?;
    for row in rows {
        all.push(expected(alloc, declared, columns, row.as_slice())?)?;
    }
    Ok(all)
}

/// Returns the values of the columns of a row that is waited for, with defaults for those that it doesn't name.
fn expected(
    alloc: Global,
    declared: &[Column],
    columns: &[Selector],
    given: &[(Selector, Value)],
) -> Result<Cells, AllocError>
    ensures { IfOk result (λ cells. cells
        ≡ model.expected declared.now (map selector_of columns.now) (map cell_of given.now)) }
{
    let mut values = Vec::with_capacity(alloc, columns.len())?;
    for column in columns {
        values.push(value_for(alloc, declared, *column, given)?)?;
    }
    Ok(Cells::new(values))
}

/// Returns the value given for the column, or its default.
fn value_for(
    alloc: Global,
    declared: &[Column],
    column: Selector,
    given: &[(Selector, Value)],
) -> Result<Value, AllocError>
    ensures { IfOk result (λ value. value
        ≡ value_in declared.now (map cell_of given.now) (selector_of column)) }
{
    match given_for(given, column) {
        Some(value) => value.try_copy(alloc),
        None => default_for(alloc, declared, column),
    }
}

/// Returns the first value given for the column.
fn given_for(given: &[(Selector, Value)], column: Selector) -> Option<&Value>
    ensures { option_copied result ≡ option_map (λ e. e.1)
        (find (λ e. same_selector e.0 (selector_of column)) (map cell_of given.now)) }
{
    for (selector, value) in given {
        if *selector == column {
            return Some(value);
        }
    }
    None
}

/// Returns the default of the column.
fn default_for(alloc: Global, declared: &[Column], column: Selector) -> Result<Value, AllocError>
    ensures { IfOk result (λ value. value
        ≡ column_type.default_of (selector_type declared.now (selector_of column))) }
{
    match column {
        Selector::Declared(place) => match declared.get(place) {
            Some(column) => default_of(alloc, column.column_type()),
            None => default_of_uuids(alloc),
        },
        Selector::Uuid | Selector::Version => default_of_uuids(alloc),
    }
}

/// Returns the default of `_uuid` and of `_version`.
fn default_of_uuids(alloc: Global) -> Result<Value, AllocError>
    ensures { IfOk result (λ value. value ≡ column_type.default_of (column_type.scalar uuids)) }
{
    let uuid = ColType::scalar(Kind::Uuid);
    let value = default_of(alloc, &uuid);
    drop(uuid);
    value
}
