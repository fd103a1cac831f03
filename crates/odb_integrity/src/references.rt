//! What rows refer to (RFC 7047, section 3.2, `refTable` and `refType`).
ghost use Rattle.std.specs.Prelude.{◌≡◌, ◌++◌, ◌&&◌, ◌||◌, ◌==◌, false, filter_map, map, option_map, option_to_list, unwrap_or, IfOk, OnOk, Some};
ghost use Rattle.std.specs.List.{list_any};
ghost use Rattle.odb_atoms.specs.Represented.Atom.{atom_of};
ghost use Rattle.odb_atoms.specs.Represented.ColType.{base_of, type_of};
ghost use Rattle.odb_integrity.specs.References.{has_type, is_mixed, is_strong, names};
ghost use Rattle.odb_integrity.specs.Represented.PairSide.{atom_at};
ghost use Rattle.odb_integrity.specs.Settlement as model;
ghost use Rattle.odb_integrity.specs.Settlement.{same_row};
ghost use Rattle.odb_atoms.specs.Atom.{uuid};
ghost use Rattle.odb_atoms.specs.Members.{has};
ghost use Rattle.odb_atoms.specs.ColType as model_type;
ghost use Rattle.odb_schema.specs.Schema.{columns_at};

use crate::row_id::RowId;
use odb_atoms::{Atom, Base, ColType, Entries, Row, Value};
use odb_chunks::Items;
use odb_schema::{Column, Schema, TableId, TableSchema};
use std::alloc::{AllocError, Global};

/// Returns the columns of the table. O(1).
pub(crate) fn columns_of(schema: &Schema, table: TableId) -> &[Column]
    ensures { result.now ≡ columns_at schema.now table }
{
    match schema.tables().get(table.place()) {
        Some(table) => table.columns(),
        None => &[],
    }
}

/// Returns the table to which atoms of the base type have strong references. O(log n) for n tables.
pub(crate) fn strong_target(schema: &Schema, base: &Base) -> Option<TableId>
    ensures { result ≡ model.strong_target schema.now (base_of base.now) }
{
    match &base.reference {
        Some(reference) => {
            if reference.weak {
                None
            } else {
                schema.table(reference.table.as_str())
            }
        }
        None => None,
    }
}

/// Returns the table to which atoms of the base type have weak references. O(log n) for n tables.
pub(crate) fn weak_target(schema: &Schema, base: &Base) -> Option<TableId>
    ensures { result ≡ model.weak_target schema.now (base_of base.now) }
{
    match &base.reference {
        Some(reference) => {
            if reference.weak {
                schema.table(reference.table.as_str())
            } else {
                None
            }
        }
        None => None,
    }
}

/// Returns the row of the table that an atom names. O(1).
pub(crate) fn referent(target: TableId, atom: &Atom) -> Option<RowId>
    ensures { result ≡ model.referent (Some target) (atom_of atom.now) }
{
    match atom {
        Atom::Uuid(uuid) => Some(RowId::new(target, *uuid)),
        _ => None,
    }
}

/// Returns the rows to which a row has strong references, in the order of its columns. O(atoms).
pub(crate) fn strong_of_row(
    alloc: Global,
    schema: &Schema,
    id: RowId,
    row: &Row,
) -> Result<Vec<RowId>, AllocError>
    ensures { IfOk result (λ rows. rows.items ≡ model.strong_of_row schema.now id row.now) }
{
    let mut rows = Vec::new(alloc);
    append_strong(schema, id, row, &mut rows)?;
    Ok(rows)
}

/// Appends the rows to which a row has strong references. O(atoms).
pub(crate) fn append_strong(
    schema: &Schema,
    id: RowId,
    row: &Row,
    rows: &mut Vec<RowId>,
) -> Result<(), AllocError>
    ensures { OnOk result
        (rows.new.items ≡ rows.old.items ++ model.strong_of_row schema.now id row.now) }
{
    let columns = columns_of(schema, id.table());
    for (column, value) in columns.iter().zip(row.columns()) {
        append_value(schema, column.column_type(), value, rows)?;
    }
    Ok(())
}

/// Returns whether the row has a strong reference to the referent. O(columns), and O(log n) comparisons for a set
/// of n elements, O(n) for a map.
pub(crate) fn row_refers(schema: &Schema, id: RowId, row: &Row, referent: RowId) -> bool
    ensures { result ≡ list_any (same_row referent) (model.strong_of_row schema.now id row.now) }
{
    for (column, value) in columns_of(schema, id.table()).iter().zip(row.columns()) {
        if value_refers(schema, column.column_type(), value, referent) {
            return true;
        }
    }
    false
}

/// Returns whether the value refers to the referent. O(log n) comparisons for a set of n elements, O(n) for a map.
pub(crate) fn value_refers(
    schema: &Schema,
    column: &ColType,
    value: &Value,
    referent: RowId,
) -> bool
    ensures { result ≡ list_any (same_row referent) (model.strong_of_value schema.now (type_of column.now) value.now) }
{
    let keys = strong_target(schema, &column.key);
    match value.entries() {
        Entries::Set(_) => set_refers(keys, value, referent),
        Entries::Map(pairs) => {
            has_pair_for(
                keys,
                strong_target(schema, value_base(column)),
                &pairs,
                referent,
            )
        }
    }
}

/// Returns whether a set of atoms that refer to the target has the referent.
fn set_refers(target: Option<TableId>, value: &Value, referent: RowId) -> bool
    ensures { result ≡ (unwrap_or (option_map (λ k. referent.0 == k) target) false && has value.now (uuid referent.1)) }
{
    match target {
        Some(table) => referent.table() == table && value.contains(&Atom::Uuid(referent.uuid())),
        None => false,
    }
}

/// Returns whether the key of one of the pairs, or its value, names the referent.
fn has_pair_for(
    keys: Option<TableId>,
    values: Option<TableId>,
    pairs: &Items<'_, (Atom, Atom)>,
    referent: RowId,
) -> bool
    ensures { result
        ≡ list_any (λ p. names keys referent (atom_of p.0) || names values referent (atom_of p.1)) pairs.now }
{
    pairs.iter().any(|pair| names(keys, &pair.0, referent) || names(values, &pair.1, referent))
}

fn names(target: Option<TableId>, atom: &Atom, row: RowId) -> bool
    ensures { result ≡ names target row (atom_of atom.now) }
{
    let Some(table) = target else {
        return false;
    };
    match referent(table, atom) {
        Some(named) => row == named,
        None => false,
    }
}

/// Returns the rows to which a value has strong references, in its order. O(atoms).
pub(crate) fn strong_of_value(
    alloc: Global,
    schema: &Schema,
    column: &ColType,
    value: &Value,
) -> Result<Vec<RowId>, AllocError>
    ensures { IfOk result (λ rows. rows.items ≡ model.strong_of_value schema.now (type_of column.now) value.now) }
{
    let mut rows = Vec::new(alloc);
    append_value(schema, column, value, &mut rows)?;
    Ok(rows)
}

/// Appends the rows to which a value has strong references. O(atoms).
pub(crate) fn append_value(
    schema: &Schema,
    column: &ColType,
    value: &Value,
    rows: &mut Vec<RowId>,
) -> Result<(), AllocError>
    ensures { OnOk result
        (rows.new.items
        ≡ rows.old.items ++ model.strong_of_value schema.now (type_of column.now) value.now) }
{
    let keys = strong_target(schema, &column.key);
    match value.entries() {
        Entries::Set(elements) => append_elements(keys, &elements, rows),
        Entries::Map(pairs) => {
            append_side(keys, PairSide::Key, &pairs, rows)?;
            let values = strong_target(schema, value_base(column));
            append_side(values, PairSide::Value, &pairs, rows)
        }
    }
}

/// Returns the base type of a map's values, or of a set's elements. O(1).
pub(crate) fn value_base(column: &ColType) -> &Base
    ensures { base_of result.now ≡ model_type.value_base (type_of column.now) }
{
    match &column.value {
        Some(base) => base,
        None => &column.key,
    }
}

/// Returns whether a column pairs weak references with strong ones. O(columns of the schema).
pub(crate) fn has_mixed(schema: &Schema) -> bool
    ensures { result ≡ has_type is_mixed schema.now }
{
    schema.tables().iter().any(|table| table_has_mixed(table))
}

fn table_has_mixed(table: &TableSchema) -> bool
    ensures { result ≡ list_any (λ column. is_mixed column.type) table.now.columns }
{
    table
        .columns()
        .iter()
        .any(|column| is_mixed(column.column_type()))
}

fn is_mixed(column: &ColType) -> bool
    ensures { result ≡ is_mixed (type_of column.now) }
{
    let values = value_base(column);
    go_together(&column.key, values) || go_together(values, &column.key)
}

fn go_together(weak: &Base, strong: &Base) -> bool
    ensures { result ≡ (model.is_weak (base_of weak.now) && is_strong (base_of strong.now)) }
{
    is_weak(weak) && is_strong(strong)
}

/// Returns whether atoms of the base type make weak references. O(1).
pub(crate) fn is_weak(base: &Base) -> bool
    ensures { result ≡ model.is_weak (base_of base.now) }
{
    match &base.reference {
        Some(reference) => reference.weak,
        None => false,
    }
}

/// Returns whether atoms of the base type make strong references. O(1).
pub(crate) fn is_strong(base: &Base) -> bool
    ensures { result ≡ is_strong (base_of base.now) }
{
    match &base.reference {
        Some(reference) => !reference.weak,
        None => false,
    }
}

fn append_referent(target: TableId, atom: &Atom, rows: &mut Vec<RowId>) -> Result<(), AllocError>
    ensures { OnOk result
        (rows.new.items
        ≡ rows.old.items ++ option_to_list (model.referent (Some target) (atom_of atom.now))) }
{
    match referent(target, atom) {
        Some(row) => {
            rows.push(row)?;
            Ok(())
        }
        None => Ok(()),
    }
}

/// Appends the rows of the target that the elements name, of no target none. O(elements).
pub(crate) fn append_elements(
    target: Option<TableId>,
    elements: &Items<'_, Atom>,
    rows: &mut Vec<RowId>,
) -> Result<(), AllocError>
    ensures { OnOk result
        (rows.new.items ≡ rows.old.items ++ filter_map (model.referent target) (map atom_of elements.now)) }
{
    let Some(table) = target else {
        return Ok(());
    };
    for atom in elements.iter() {
        append_referent(table, atom, rows)?;
    }
    Ok(())
}

/// One of the two atoms of a pair.
#[derive(Clone, Copy)]
enum PairSide {
    Key,
    Value,
}

fn atom_at(side: PairSide, pair: &(Atom, Atom)) -> &Atom
    ensures { result.now ≡ atom_at side pair.now }
{
    match side {
        PairSide::Key => &pair.0,
        PairSide::Value => &pair.1,
    }
}

fn append_side(
    target: Option<TableId>,
    side: PairSide,
    pairs: &Items<'_, (Atom, Atom)>,
    rows: &mut Vec<RowId>,
) -> Result<(), AllocError>
    ensures { OnOk result
        (rows.new.items
        ≡ rows.old.items ++ filter_map (model.referent target) (map (λ pair. atom_of (atom_at side pair)) pairs.now)) }
{
    let Some(table) = target else {
        return Ok(());
    };
    for pair in pairs.iter() {
        append_referent(table, atom_at(side, pair), rows)?;
    }
    Ok(())
}
