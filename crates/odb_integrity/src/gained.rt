//! The strong references that a row lost, and those that it gained (RFC 7047, section 3.2, `refType`). [P 5]
ghost use Rattle.std.specs.Prelude.{◌≡◌, ◌++◌, filter, flat_map, IfOk, OnOk, Some};
ghost use Rattle.std.specs.List.{list_any};
ghost use Rattle.std.specs.Option.{option_copied};
ghost use Rattle.odb_atoms.specs.Difference.{difference};
ghost use Rattle.odb_atoms.specs.Represented.ColType.{type_of};
ghost use Rattle.odb_atoms.specs.Represented.Value.{pair_of};
ghost use Rattle.odb_integrity.specs.Gained as model;
ghost use Rattle.odb_integrity.specs.Settlement.{row_of, same_row, strong_of_value};

use crate::references::{
    append_elements, append_value, columns_of, is_strong, strong_of_value, strong_target,
    value_base, value_refers,
};
use crate::row_id::RowId;
use odb_atoms::{Atom, ColType, Entries, Row, Value, difference};
use odb_chunks::Items;
use odb_schema::{Schema, TableId};
use odb_tables::Draft;
use std::alloc::{AllocError, Global};
use std::slice;

/// Appends to `lost` the rows to which the row `before` has strong references by elements or pairs that the same column
/// of `now` hasn't, and to `gained` those to which `now` has by what `before` hasn't; of a column of one value that is
/// another one, by all that it has. They are the row of the identifier as the draft had and has it. O(columns), and for
/// columns with strong references in which the draft put values a comparison of these; of those that differ O(n) for their n
/// atoms, once for sets and twice for maps, and O(log n) for each that one of the two has alone.
pub(crate) fn append_changes(
    draft: &Draft,
    schema: &Schema,
    id: RowId,
    before: &Row,
    now: &Row,
    lost: &mut Vec<RowId>,
    gained: &mut Vec<RowId>,
) -> Result<(), AllocError>
    requires before { row_of draft.now.old id ≡ Some before.now }
    requires now { row_of draft.now.now id ≡ Some now.now }
    ensures lost { OnOk result
        (lost.new.items ≡ lost.old.items ++ model.gained_by_row schema.now id now.now before.now) }
    ensures gained { OnOk result
        (gained.new.items ≡ gained.old.items ++ model.gained_by_row schema.now id before.now now.now) }
{
    let alloc = *lost.allocator();
    for (place, column) in columns_of(schema, id.table()).iter().enumerate() {
        if draft.keeps(id.table(), place) {
            continue;
        }
        append_changes_at(
            alloc,
            schema,
            column.column_type(),
            before.get(place),
            now.get(place),
            lost,
            gained,
        )?;
    }
    Ok(())
}

/// Appends the rows. O(the rows appended).
pub(crate) fn append_all(part: &[RowId], rows: &mut Vec<RowId>) -> Result<(), AllocError>
    ensures { OnOk result (rows.new.items ≡ rows.old.items ++ part.now) }
{
    rows.extend_from_slice(part)
}

/// Appends what a column lost and gained that may have had no value before, and may have none now.
fn append_changes_at(
    alloc: Global,
    schema: &Schema,
    column: &ColType,
    before: Option<&Value>,
    now: Option<&Value>,
    lost: &mut Vec<RowId>,
    gained: &mut Vec<RowId>,
) -> Result<(), AllocError>
    ensures lost { OnOk result
        (lost.new.items
        ≡ lost.old.items ++ model.gained_at schema.now (type_of column.now) (option_copied now.entry) (option_copied before.entry)) }
    ensures gained { OnOk result
        (gained.new.items
        ≡ gained.old.items ++ model.gained_at schema.now (type_of column.now) (option_copied before.entry) (option_copied now.entry)) }
{
    match before {
        Some(before) => match now {
            Some(now) => append_of_values(alloc, schema, column, before, now, lost, gained),
            None => append_value(schema, column, before, lost),
        },
        None => match now {
            Some(now) => append_value(schema, column, now, gained),
            None => Ok(()),
        },
    }
}

fn append_of_values(
    alloc: Global,
    schema: &Schema,
    column: &ColType,
    before: &Value,
    now: &Value,
    lost: &mut Vec<RowId>,
    gained: &mut Vec<RowId>,
) -> Result<(), AllocError>
    ensures lost { OnOk result
        (lost.new.items ≡ lost.old.items ++ model.gained_by_value schema.now (type_of column.now) now.now before.now) }
    ensures gained { OnOk result
        (gained.new.items ≡ gained.old.items ++ model.gained_by_value schema.now (type_of column.now) before.now now.now) }
{
    if !has_strong(column) {
        return Ok(());
    }
    if *before == *now {
        return Ok(());
    }
    append_differing(alloc, schema, column, before, now, lost, gained)
}

/// Appends what a column lost and gained whose values differ. Of two sets one difference tells both.
fn append_differing(
    alloc: Global,
    schema: &Schema,
    column: &ColType,
    before: &Value,
    now: &Value,
    lost: &mut Vec<RowId>,
    gained: &mut Vec<RowId>,
) -> Result<(), AllocError>
    ensures lost { OnOk result
        (lost.new.items
        ≡ lost.old.items ++ model.strong_of_change schema.now (type_of column.now) (difference now.now before.now (type_of column.now)) before.now) }
    ensures gained { OnOk result
        (gained.new.items
        ≡ gained.old.items ++ model.strong_of_change schema.now (type_of column.now) (difference before.now now.now (type_of column.now)) now.now) }
{
    let change = difference(alloc, before, now, column)?;
    append_of_change(alloc, schema, column, &change, now, gained)?;
    if leads_back(column, before, now) {
        return append_of_change(alloc, schema, column, &change, before, lost);
    }
    let back = difference(alloc, now, before, column)?;
    append_of_change(alloc, schema, column, &back, before, lost)
}

/// Returns whether the difference of the two values leads back as well. O(1).
fn leads_back(column: &ColType, before: &Value, now: &Value) -> bool
    ensures { result ≡ model.leads_back (type_of column.now) before.now now.now }
{
    !column.is_single() && !before.is_map() && !now.is_map()
}

/// Appends the rows that the elements or pairs of the change name, where the value has them too.
fn append_of_change(
    alloc: Global,
    schema: &Schema,
    column: &ColType,
    change: &Value,
    value: &Value,
    rows: &mut Vec<RowId>,
) -> Result<(), AllocError>
    ensures { OnOk result
        (rows.new.items
        ≡ rows.old.items ++ model.strong_of_change schema.now (type_of column.now) change.now value.now) }
{
    let part = strong_of_change(alloc, schema, column, change, value)?;
    append_all(&part, rows)
}

/// Returns whether values of the column may make strong references. O(1).
fn has_strong(column: &ColType) -> bool
    ensures { result ≡ model.has_strong (type_of column.now) }
{
    is_strong(&column.key) || is_strong(value_base(column))
}

/// Returns the rows that the elements or pairs of the change name, where the value has them too.
fn strong_of_change(
    alloc: Global,
    schema: &Schema,
    column: &ColType,
    change: &Value,
    now: &Value,
) -> Result<Vec<RowId>, AllocError>
    ensures { IfOk result (λ rows.
        rows.items ≡ model.strong_of_change schema.now (type_of column.now) change.now now.now) }
{
    match change.entries() {
        Entries::Set(_) => {
            let rows = strong_of_value(alloc, schema, column, change)?;
            those_of(alloc, schema, column, now, &rows)
        }
        Entries::Map(pairs) => {
            let targets = Targets {
                keys: strong_target(schema, &column.key),
                values: strong_target(schema, value_base(column)),
            };
            of_pairs(alloc, &targets, &pairs, now)
        }
    }
}

/// The tables to which the keys and the values of a map have strong references.
#[derive(Clone, Copy)]
struct Targets {
    keys: Option<TableId>,
    values: Option<TableId>,
}

/// Returns the rows that the pairs name, where the value has them too.
fn of_pairs(
    alloc: Global,
    targets: &Targets,
    pairs: &Items<'_, (Atom, Atom)>,
    now: &Value,
) -> Result<Vec<RowId>, AllocError>
    ensures { IfOk result (λ rows.
        rows.items ≡ flat_map (λ p. model.gained_of_pair targets.now.keys targets.now.values now.now (pair_of p)) pairs.now) }
{
    let mut rows = Vec::new(alloc);
    for pair in pairs.iter() {
        append_pair(targets, pair, now, &mut rows)?;
    }
    Ok(rows)
}

fn append_pair(
    targets: &Targets,
    pair: &(Atom, Atom),
    now: &Value,
    rows: &mut Vec<RowId>,
) -> Result<(), AllocError>
    ensures { OnOk result
        (rows.new.items ≡ rows.old.items ++ model.gained_of_pair targets.now.keys targets.now.values now.now (pair_of pair.now)) }
{
    if !has_pair(now, pair) {
        return Ok(());
    }
    append_elements(targets.keys, &Items::of(slice::from_ref(&pair.0)), rows)?;
    append_elements(targets.values, &Items::of(slice::from_ref(&pair.1)), rows)
}

/// Returns whether the value is a map that has the pair. O(log n) comparisons for n pairs.
pub(crate) fn has_pair(value: &Value, pair: &(Atom, Atom)) -> bool
    ensures { result ≡ model.has_pair_of value.now (pair_of pair.now) }
{
    match value.get(&pair.0) {
        Some(found) => *found == pair.1,
        None => false,
    }
}

/// Returns those of the rows to which the value refers.
fn those_of(
    alloc: Global,
    schema: &Schema,
    column: &ColType,
    value: &Value,
    rows: &[RowId],
) -> Result<Vec<RowId>, AllocError>
    ensures { IfOk result (λ those. those.items
        ≡ filter (λ y. list_any (same_row y) (strong_of_value schema.now (type_of column.now) value.now)) rows.now) }
{
    let mut those = Vec::new(alloc);
    for row in rows {
        if value_refers(schema, column, value, *row) {
            those.push(*row)?;
        }
    }
    Ok(those)
}
