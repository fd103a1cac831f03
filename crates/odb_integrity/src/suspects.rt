//! The rows in which a weak reference may lead to a row that isn't there (RFC 7047, section 3.2, `refType`). [P 5]
ghost use Rattle.std.specs.Prelude.{◌≡◌, ◌&&◌, ◌||◌, filter, option_and_then, slice_get, IfOk};
ghost use Rattle.std.specs.List.{list_any};
ghost use Rattle.std.specs.Option.{option_copied};
ghost use Rattle.odb_atoms.specs.Members.{has};
ghost use Rattle.odb_atoms.specs.Represented.Atom.{atom_of};
ghost use Rattle.odb_atoms.specs.Represented.ColType.{type_of};
ghost use Rattle.odb_atoms.specs.Represented.Value.{pair_of};
ghost use Rattle.odb_integrity.specs.Gained as model;
ghost use Rattle.odb_integrity.specs.Gained.{cell_of};
ghost use Rattle.odb_integrity.specs.Represented.Reference.{MentionGone, references_of};
ghost use Rattle.odb_integrity.specs.Settled.{IsSettled};
ghost use Rattle.odb_integrity.specs.Settlement.{is_stale};
ghost use Rattle.odb_integrity.specs.Steps.{row_has_stale};
ghost use Rattle.odb_integrity.specs.Touched.{Covers, SameBut};

use crate::gained::{append_all, has_pair};
use crate::pruning::{has_stale, is_stale, is_stale_pair};
use crate::references::{columns_of, is_weak, value_base, weak_target};
use crate::row_id::RowId;
use odb_atoms::{Atom, ColType, Entries, Row, Value, difference};
use odb_chunks::Items;
use odb_schema::{Schema, TableId};
use odb_tables::Draft;
use std::alloc::{AllocError, Global};

/// Returns the rows that may have a weak reference to a row that isn't there. The rows of the base had none; so
/// these are the touched rows that gained one, and the rows that mention a row that went, `mentioning`. O(touched
/// rows and their columns), and of columns with weak references a comparison of the values before and now, where
/// these differ O(n) for their n atoms, and O(log n) for each that one of the two has alone.
pub(crate) fn may_be_stale(
    alloc: Global,
    draft: &Draft,
    schema: &Schema,
    touched: &[RowId],
    mentioning: &[RowId],
) -> Result<Vec<RowId>, AllocError>
    requires base { IsSettled schema.now draft.now.old }
    requires touched { SameBut touched.now draft.now.old draft.now.now }
    requires mentioning { MentionGone (references_of schema.now) draft.now.now touched.now mentioning.now }
    ensures { IfOk result (λ rows. Covers (row_has_stale schema.now draft.now.now) draft.now.now rows.items) }
{
    let mut rows = gaining_stale(alloc, draft, schema, touched)?;
    append_all(mentioning, &mut rows)?;
    Ok(rows)
}

fn gaining_stale(
    alloc: Global,
    draft: &Draft,
    schema: &Schema,
    rows: &[RowId],
) -> Result<Vec<RowId>, AllocError>
    ensures { IfOk result (λ gaining.
        gaining.items ≡ filter (model.gains_stale schema.now draft.now.old draft.now.now) rows.now) }
{
    let mut gaining = Vec::new(alloc);
    for row in rows {
        if gains_stale(alloc, draft, schema, *row)? {
            gaining.push(*row)?;
        }
    }
    Ok(gaining)
}

/// Returns whether the row gained a weak reference to a row that isn't there.
fn gains_stale(alloc: Global, draft: &Draft, schema: &Schema, id: RowId) -> Result<bool, AllocError>
    ensures { IfOk result (λ gains. gains ≡ model.gains_stale schema.now draft.now.old draft.now.now id) }
{
    for (place, column) in columns_of(schema, id.table()).iter().enumerate() {
        if gains_stale_at(alloc, draft, schema, column.column_type(), (id, place))? {
            return Ok(true);
        }
    }
    Ok(false)
}

/// Returns whether the row's column at the place gained a weak reference to a row that isn't there.
fn gains_stale_at(
    alloc: Global,
    draft: &Draft,
    schema: &Schema,
    column: &ColType,
    at: (RowId, usize),
) -> Result<bool, AllocError>
    ensures { IfOk result (λ gains. gains
        ≡ model.gains_stale_at schema.now draft.now.now (type_of column.now)
        (cell_of draft.now.old at.0 at.1) (cell_of draft.now.now at.0 at.1)) }
{
    let (id, place) = at;
    if !has_weak(column) {
        return Ok(false);
    }
    let Some(now) = value_at(draft.get(id.table(), id.uuid()), place) else {
        return Ok(false);
    };
    match value_at(draft.before(id.table(), id.uuid()), place) {
        Some(before) => {
            if draft.keeps(id.table(), place) {
                return Ok(false);
            }
            if *before == *now {
                return Ok(false);
            }
            let change = difference(alloc, before, now, column)?;
            Ok(has_stale_change(draft, schema, column, &change, now))
        }
        None => Ok(has_stale(draft, schema, column, now)),
    }
}

fn value_at(row: Option<&Row>, place: usize) -> Option<&Value>
    ensures { option_copied result ≡ option_and_then (λ r. slice_get r.columns place) (option_copied row.entry) }
{
    match row {
        Some(row) => row.get(place),
        None => None,
    }
}

/// Returns whether values of the column may make weak references. O(1).
fn has_weak(column: &ColType) -> bool
    ensures { result ≡ model.has_weak (type_of column.now) }
{
    is_weak(&column.key) || is_weak(value_base(column))
}

/// Returns whether an element or a pair of the change that the value has too names a row that isn't there.
fn has_stale_change(
    draft: &Draft,
    schema: &Schema,
    column: &ColType,
    change: &Value,
    now: &Value,
) -> bool
    ensures { result ≡ model.has_stale_change schema.now draft.now.now (type_of column.now) change.now now.now }
{
    let keys = weak_target(schema, &column.key);
    match change.entries() {
        Entries::Set(elements) => has_stale_element_of(draft, keys, &elements, now),
        Entries::Map(pairs) => {
            has_stale_pair_of(
                draft,
                keys,
                weak_target(schema, value_base(column)),
                &pairs,
                now,
            )
        }
    }
}

fn has_stale_element_of(
    draft: &Draft,
    target: Option<TableId>,
    elements: &Items<'_, Atom>,
    now: &Value,
) -> bool
    ensures { result
        ≡ list_any (λ a. is_stale draft.now.now target (atom_of a) && has now.now (atom_of a)) elements.now }
{
    elements
        .iter()
        .any(|atom| is_stale(draft, target, atom) && now.contains(atom))
}

fn has_stale_pair_of(
    draft: &Draft,
    keys: Option<TableId>,
    values: Option<TableId>,
    pairs: &Items<'_, (Atom, Atom)>,
    now: &Value,
) -> bool
    ensures { result
        ≡ list_any (λ p. (is_stale draft.now.now keys (atom_of p.0) || is_stale draft.now.now values (atom_of p.1))
        && model.has_pair_of now.now (pair_of p)) pairs.now }
{
    pairs.iter().any(|pair| is_stale_pair(draft, keys, values, pair) && has_pair(now, pair))
}
