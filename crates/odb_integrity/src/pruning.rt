//! Weak references to rows that aren't there (RFC 7047, section 3.2, `refType`). [P 5]
ghost use Rattle.std.specs.Prelude.{◌≡◌, ◌++◌, ◌<◌, ◌||◌, filter, filter_map, length, map, not, option_to_list};
ghost use Rattle.std.specs.Prelude.{zip, IfOk, IsTrue, None, OnOk, Some};
ghost use Rattle.std.specs.List.{All, list_all, list_any};
ghost use Rattle.odb_atoms.specs.ColType.{has_kind, value_base};
ghost use Rattle.odb_atoms.specs.FinMap as finite;
ghost use Rattle.odb_atoms.specs.Members.{map_fault, set_fault};
ghost use Rattle.odb_atoms.specs.Represented.Atom.{atom_of};
ghost use Rattle.odb_atoms.specs.Represented.ColType.{type_of};
ghost use Rattle.odb_atoms.specs.Represented.Value.{pair_of};
ghost use Rattle.odb_atoms.specs.Value as model_value;
ghost use Rattle.odb_atoms.specs.Value.{atoms};
ghost use Rattle.odb_integrity.specs.Settlement as model;
ghost use Rattle.odb_integrity.specs.Settlement.{pruned};
ghost use Rattle.odb_integrity.specs.Steps as steps;
ghost use Rattle.odb_integrity.specs.Steps.{pruning, row_has_stale, with_rows};
ghost use Rattle.odb_integrity.specs.Represented.Reference.{MentionGone, references_of};
ghost use Rattle.odb_integrity.specs.Settled.{IsSettled};
ghost use Rattle.odb_integrity.specs.Touched.{SameBut};
ghost use Rattle.odb_schema.specs.Schema.{columns_at};
ghost use Rattle.odb_tables.specs.Typed.{IsTyped, fits};

use crate::dangling::is_missing;
use crate::references::{columns_of, referent, value_base, weak_target};
use crate::row_id::RowId;
use crate::suspects::may_be_stale;
use odb_atoms::{Atom, ColType, Entries, Row, Value};
use odb_chunks::Items;
use odb_schema::{Column, Schema, TableId};
use odb_tables::Draft;
use std::alloc::{AllocError, Global};

/// Takes out weak references to rows that aren't there; of a map the whole pair. Only rows that have one
/// are put. Looked at are the touched rows that gained one, and the rows that mention
/// a touched row that isn't there, `mentioning`: O(their atoms), and what `may_be_stale` costs.
pub(crate) fn prune(
    alloc: Global,
    draft: &mut Draft,
    schema: &Schema,
    touched: &[RowId],
    mentioning: &[RowId],
) -> Result<(), AllocError>
    requires settled { IsSettled schema.now draft.old.old }
    requires touched { SameBut touched.now draft.old.old draft.old.now }
    requires mentioning { MentionGone (references_of schema.now) draft.old.now touched.now mentioning.now }
    requires typed { IsTyped schema.now draft.old.now }
    ensures pruned { OnOk result (draft.new.now ≡ pruned schema.now draft.old.now) }
    ensures base { draft.new.old ≡ draft.old.old }
{
    let rows = may_be_stale(alloc, draft, schema, touched, mentioning)?;
    let changes = prunings(alloc, draft, schema, &rows)?;
    put_all(draft, changes)
}

/// Returns the rows of the list that pruning changes, as it makes them.
fn prunings(
    alloc: Global,
    draft: &Draft,
    schema: &Schema,
    rows: &[RowId],
) -> Result<Vec<(RowId, Row)>, AllocError>
    requires { IsTyped schema.now draft.now.now }
    ensures { IfOk result (λ changes.
        changes.items ≡ filter_map (pruning schema.now draft.now.now) rows.now) }
{
    let mut changes = Vec::new(alloc);
    for row in rows {
        append_pruning(alloc, draft, schema, *row, &mut changes)?;
    }
    Ok(changes)
}

fn append_pruning(
    alloc: Global,
    draft: &Draft,
    schema: &Schema,
    id: RowId,
    changes: &mut Vec<(RowId, Row)>,
) -> Result<(), AllocError>
    requires { IsTyped schema.now draft.now.now }
    ensures { OnOk result
        (changes.new.items
        ≡ changes.old.items ++ option_to_list (pruning schema.now draft.now.now id)) }
{
    let Some(row) = draft.get(id.table(), id.uuid()) else {
        return Ok(());
    };
    if !row_has_stale(draft, schema, id, row) {
        return Ok(());
    }
    let pruned = pruned_row(alloc, draft, schema, id, row)?;
    changes.push((id, pruned))?;
    Ok(())
}

/// Puts the rows into the draft.
fn put_all(draft: &mut Draft, changes: Vec<(RowId, Row)>) -> Result<(), AllocError>
    requires { All (λ c. c.0.0 < length draft.old.now) changes.items }
    ensures put { OnOk result (draft.new.now ≡ with_rows changes.items draft.old.now) }
    ensures base { draft.new.old ≡ draft.old.old }
{
    let _tables = draft.len();
    for (id, row) in changes {
        draft.put(id.table(), id.uuid(), row)?;
    }
    Ok(())
}

fn row_has_stale(draft: &Draft, schema: &Schema, id: RowId, row: &Row) -> bool
    ensures { result ≡ row_has_stale schema.now draft.now.now id row.now }
{
    for (column, value) in columns_of(schema, id.table()).iter().zip(row.columns()) {
        if has_stale(draft, schema, column.column_type(), value) {
            return true;
        }
    }
    false
}

/// Returns whether the value has a weak reference to a row that isn't there. O(atoms).
pub(crate) fn has_stale(draft: &Draft, schema: &Schema, column: &ColType, value: &Value) -> bool
    ensures { result ≡ steps.has_stale schema.now draft.now.now (type_of column.now) value.now }
{
    let keys = weak_target(schema, &column.key);
    match value.entries() {
        Entries::Set(elements) => has_stale_element(draft, keys, &elements),
        Entries::Map(pairs) => {
            has_stale_pair(draft, keys, weak_target(schema, value_base(column)), &pairs)
        }
    }
}

fn has_stale_element(draft: &Draft, target: Option<TableId>, elements: &Items<'_, Atom>) -> bool
    ensures { result ≡ list_any (λ a. model.is_stale draft.now.now target (atom_of a)) elements.now }
{
    elements.iter().any(|atom| is_stale(draft, target, atom))
}

fn has_stale_pair(
    draft: &Draft,
    keys: Option<TableId>,
    values: Option<TableId>,
    pairs: &Items<'_, (Atom, Atom)>,
) -> bool
    ensures { result
        ≡ list_any (λ p. model.is_stale draft.now.now keys (atom_of p.0)
        || model.is_stale draft.now.now values (atom_of p.1)) pairs.now }
{
    pairs
        .iter()
        .any(|pair| is_stale_pair(draft, keys, values, pair))
}

/// Returns whether the key of the pair or its value names a row that isn't there. O(1).
pub(crate) fn is_stale_pair(
    draft: &Draft,
    keys: Option<TableId>,
    values: Option<TableId>,
    pair: &(Atom, Atom),
) -> bool
    ensures { result
        ≡ (model.is_stale draft.now.now keys (atom_of pair.now.0)
        || model.is_stale draft.now.now values (atom_of pair.now.1)) }
{
    is_stale(draft, keys, &pair.0) || is_stale(draft, values, &pair.1)
}

/// Returns whether the atom names a row of the table that isn't there. O(1).
pub(crate) fn is_stale(draft: &Draft, target: Option<TableId>, atom: &Atom) -> bool
    ensures { result ≡ model.is_stale draft.now.now target (atom_of atom.now) }
{
    let Some(table) = target else {
        return false;
    };
    match referent(table, atom) {
        Some(row) => is_missing(draft, row),
        None => false,
    }
}

fn pruned_row(
    alloc: Global,
    draft: &Draft,
    schema: &Schema,
    id: RowId,
    row: &Row,
) -> Result<Row, AllocError>
    requires { IsTrue (fits (columns_at schema.now id.0) row.now) }
    ensures { IfOk result (λ pruned.
        pruned ≡ model.pruned_row schema.now draft.now.now id row.now) }
{
    let columns = columns_of(schema, id.table());
    let values = pruned_values(alloc, draft, schema, columns, row.columns())?;
    Ok(Row::new(row.version(), values))
}

fn pruned_values(
    alloc: Global,
    draft: &Draft,
    schema: &Schema,
    columns: &[Column],
    values: &[Value],
) -> Result<Vec<Value>, AllocError>
    requires { IsTrue (list_all (λ e. has_kind e.0.type e.1) (zip columns.now values.now)) }
    ensures { IfOk result (λ pruned.
        pruned.items
        ≡ map (λ e. model.pruned_value schema.now draft.now.now e.0.type e.1) (zip columns.now values.now)) }
{
    let mut pruned = Vec::with_capacity(alloc, values.len())?;
    for (column, value) in columns.iter().zip(values) {
        pruned.push(pruned_value(alloc, draft, schema, column.column_type(), value)?)?;
    }
    Ok(pruned)
}

fn pruned_value(
    alloc: Global,
    draft: &Draft,
    schema: &Schema,
    column: &ColType,
    value: &Value,
) -> Result<Value, AllocError>
    requires { IsTrue (has_kind (type_of column.now) value.now) }
    ensures { IfOk result (λ pruned.
        pruned ≡ model.pruned_value schema.now draft.now.now (type_of column.now) value.now) }
{
    let keys = weak_target(schema, &column.key);
    match value.entries() {
        Entries::Set(elements) => Ok(set_of(pruned_elements(alloc, draft, keys, &elements)?)),
        Entries::Map(pairs) => {
            let values = weak_target(schema, value_base(column));
            Ok(map_of(pruned_pairs(alloc, draft, keys, values, &pairs)?))
        }
    }
}

fn pruned_elements(
    alloc: Global,
    draft: &Draft,
    target: Option<TableId>,
    elements: &Items<'_, Atom>,
) -> Result<Vec<Atom>, AllocError>
    ensures { IfOk result (λ pruned. map atom_of pruned.items
        ≡ map atom_of (filter (λ a. not (model.is_stale draft.now.now target (atom_of a))) elements.now)) }
{
    let mut pruned = Vec::new(alloc);
    for atom in elements.iter() {
        if !is_stale(draft, target, atom) {
            pruned.push(atom.try_copy(alloc)?)?;
        }
    }
    Ok(pruned)
}

fn pruned_pairs(
    alloc: Global,
    draft: &Draft,
    keys: Option<TableId>,
    values: Option<TableId>,
    pairs: &Items<'_, (Atom, Atom)>,
) -> Result<Vec<(Atom, Atom)>, AllocError>
    ensures { IfOk result (λ pruned. map pair_of pruned.items
        ≡ map pair_of (filter (λ p. not
        (model.is_stale draft.now.now keys (atom_of p.0)
        || model.is_stale draft.now.now values (atom_of p.1))) pairs.now)) }
{
    let mut pruned = Vec::new(alloc);
    for pair in pairs.iter() {
        if !is_stale_pair(draft, keys, values, pair) {
            pruned.push((pair.0.try_copy(alloc)?, pair.1.try_copy(alloc)?))?;
        }
    }
    Ok(pruned)
}

/// Makes the set of distinct elements of one kind.
fn set_of(elements: Vec<Atom>) -> Value
    requires { set_fault (map atom_of elements.items) ≡ None }
    ensures { result ≡ model_value.set_of (atoms (map atom_of elements.items)) }
{
    match Value::set(elements) {
        Ok(value) => value,
        Err(_) => unreachable!(),
    }
}

/// Makes the map of pairs of one kind each, with distinct keys.
fn map_of(pairs: Vec<(Atom, Atom)>) -> Value
    requires { map_fault (map pair_of pairs.items) ≡ None }
    ensures { result ≡ model_value.map_of (finite.from_entries (map pair_of pairs.items)) }
{
    match Value::map(pairs) {
        Ok(value) => value,
        Err(_) => unreachable!(),
    }
}
