//! Garbage collection (RFC 7047, section 3.2, `isRoot`). [P 5]
ghost use Rattle.std.specs.Prelude.{◌≡◌, [], ◌∷◌, ◌++◌, ◌&&◌, ◌||◌, ◌<◌, cond, false, filter, flat_map, length, not, true, ℕ, IfOk, IsTrue, OnOk};
ghost use Rattle.std.specs.BTreeSet.{contains};
ghost use Rattle.std.specs.List.{All, list_any};
ghost use Rattle.odb_atoms.specs.Represented.Atom.{uuid_of};
ghost use Rattle.odb_integrity.specs.References.{has_type, is_mixed};
ghost use Rattle.odb_integrity.specs.Settled.{IsSettled};
ghost use Rattle.odb_integrity.specs.Settlement as model;
ghost use Rattle.odb_integrity.specs.Settlement.{is_there, kept, refers, row_ids, same_row};
ghost use Rattle.odb_integrity.specs.Steps.{without_rows};
ghost use Rattle.odb_integrity.specs.Represented.Reference.{mentions_by, references_of};
ghost use Rattle.odb_integrity.specs.Represented.RowId.{row_id_cmp, supports};
ghost use Rattle.odb_integrity.specs.Gained as gains;
ghost use Rattle.odb_integrity.specs.Touched.{GainMissing, SupportedBut, hanging, is_lost, is_newly_referred, is_referrer};
ghost use Rattle.odb_schema.specs.Schema.{is_root_at};
ghost use Rattle.odb_tables.specs.Typed.{IsTyped};

use crate::dangling::{is_missing, is_one_missing};
use crate::gained::append_changes;
use crate::references::{append_strong, has_mixed, row_refers, strong_of_row};
use crate::referrers::{Reference, references_of};
use crate::row_id::RowId;
use crate::rows::{in_order, remove_all, rows_of, touched_rows};
use odb_schema::{Schema, TableId};
use odb_tables::Draft;
use std::alloc::{AllocError, Global};
use std::collections::BTreeSet;
use uuid::Uuid;

/// Takes out the rows that nothing keeps: those that are neither of a root table nor strongly referenced
/// by another row that is kept. Only rows that may have lost what kept them are looked at, and what a row
/// that goes out referred to. Returns the rows that gained a strong reference to a row that isn't there.
pub(crate) fn collect_garbage(
    alloc: Global,
    draft: &mut Draft,
    schema: &Schema,
) -> Result<Vec<RowId>, AllocError>
    requires typed { IsTyped schema.now draft.old.now }
    requires settled { IsSettled schema.now draft.old.old }
    ensures kept { IfOk result (λ _. draft.new.now ≡ kept schema.now draft.old.now) }
    ensures gaining { IfOk result (λ gaining. GainMissing schema.now gaining.items draft.new.old draft.new.now) }
    ensures base { draft.new.old ≡ draft.old.old }
{
    let mut gaining = Vec::new(alloc);
    let waiting = first_waiting(alloc, draft, schema, &mut gaining)?;
    remove_unkept(alloc, draft, schema, waiting)?;
    Ok(gaining)
}

/// Takes out the rows that nothing keeps. Those that wait are all that may have lost it; but where a column pairs weak
/// references with strong ones, a row of a settled database may lack it, and all rows are looked at.
fn remove_unkept(
    alloc: Global,
    draft: &mut Draft,
    schema: &Schema,
    waiting: Vec<RowId>,
) -> Result<(), AllocError>
    requires typed { IsTyped schema.now draft.old.now }
    requires waiting { has_type is_mixed schema.now ≡ false → SupportedBut schema.now draft.old.now waiting.items }
    ensures kept { OnOk result (draft.new.now ≡ kept schema.now draft.old.now) }
    ensures base { draft.new.old ≡ draft.old.old }
{
    if is_all_root(schema) {
        return Ok(());
    }
    if has_mixed(schema) {
        let all = rows_of(alloc, draft)?;
        return remove_waiting(alloc, draft, schema, all);
    }
    remove_waiting(alloc, draft, schema, waiting)
}

/// Takes out the rows that nothing keeps, where the waiting ones are all that may have lost it.
fn remove_waiting(
    alloc: Global,
    draft: &mut Draft,
    schema: &Schema,
    waiting: Vec<RowId>,
) -> Result<(), AllocError>
    requires { SupportedBut schema.now draft.old.now waiting.items }
    ensures kept { OnOk result (draft.new.now ≡ kept schema.now draft.old.now) }
    ensures base { draft.new.old ≡ draft.old.old }
{
    if waiting.is_empty() {
        return Ok(());
    }
    let references = references_of(alloc, schema)?;
    remove_lost(alloc, draft, schema, &references, waiting)
}

/// Returns whether each table is a root table. O(tables).
fn is_all_root(schema: &Schema) -> bool
    ensures { IsTrue result → (t : ℕ) → t < length schema.now.tables → is_root_at schema.now t ≡ true }
{
    for place in 0..schema.tables().len() {
        if !schema.is_root(TableId::at(place)) {
            return false;
        }
    }
    true
}

/// Returns the rows that may lack what keeps them, where no column pairs weak references with strong ones: those that
/// are new, and those to which touched rows lost their strong references, but for rows to which a touched row gained
/// one. Lists in `gaining` the touched rows that gained one to a row that isn't there.
fn first_waiting(
    alloc: Global,
    draft: &Draft,
    schema: &Schema,
    gaining: &mut Vec<RowId>,
) -> Result<Vec<RowId>, AllocError>
    requires { IsSettled schema.now draft.now.old }
    ensures waiting { IfOk result (λ waiting.
        has_type is_mixed schema.now ≡ false → SupportedBut schema.now draft.now.now waiting.items) }
    ensures gaining { IfOk result (λ _. GainMissing schema.now gaining.new.items draft.now.old draft.now.now) }
{
    let touched = touched_rows(alloc, draft)?;
    let mut rows = Vec::new(alloc);
    let mut referred = BTreeSet::new(alloc);
    note_all(
        alloc,
        draft,
        schema,
        &touched,
        &mut rows,
        &mut referred,
        gaining,
    )?;
    let waiting = without_support(alloc, schema, &referred, &rows)?;
    once_each(alloc, &waiting)
}

/// Compares each row of the list with what it was. Appends to `lost` those that weren't there, and the rows to which
/// the others lost strong references; adds to `referred` the rows to which others gained one; and appends to `gaining`
/// those that gained one to a row that isn't there.
fn note_all(
    alloc: Global,
    draft: &Draft,
    schema: &Schema,
    rows: &[RowId],
    lost: &mut Vec<RowId>,
    referred: &mut BTreeSet<RowId>,
    gaining: &mut Vec<RowId>,
) -> Result<(), AllocError>
    ensures lost { OnOk result
        (lost.new.items ≡ lost.old.items ++ flat_map (hanging schema.now draft.now.old draft.now.now) rows.now) }
    ensures referred { OnOk result ((x : model.RowId)
        → contains row_id_cmp referred.new x
        ≡ (contains row_id_cmp referred.old x || is_newly_referred schema.now draft.now.old draft.now.now rows.now x)) }
    ensures gaining { OnOk result
        (gaining.new.items
        ≡ gaining.old.items ++ flat_map (gains.gaining schema.now draft.now.old draft.now.now) rows.now) }
{
    for row in rows {
        note_row(alloc, draft, schema, *row, lost, referred, gaining)?;
    }
    Ok(())
}

/// Does the same for one row.
fn note_row(
    alloc: Global,
    draft: &Draft,
    schema: &Schema,
    id: RowId,
    lost: &mut Vec<RowId>,
    referred: &mut BTreeSet<RowId>,
    gaining: &mut Vec<RowId>,
) -> Result<(), AllocError>
    ensures lost { OnOk result
        (lost.new.items ≡ lost.old.items ++ hanging schema.now draft.now.old draft.now.now id) }
    ensures referred { OnOk result ((x : model.RowId)
        → contains row_id_cmp referred.new x
        ≡ (contains row_id_cmp referred.old x
        || (not (same_row x id) && list_any (same_row x) (gains.gained schema.now draft.now.old draft.now.now id)))) }
    ensures gaining { OnOk result
        (gaining.new.items ≡ gaining.old.items ++ gains.gaining schema.now draft.now.old draft.now.now id) }
{
    let mut gained = Vec::new(alloc);
    append_row(draft, schema, id, lost, &mut gained)?;
    insert_others(id, &gained, referred)?;
    note_missing(draft, id, &gained, gaining)
}

/// Appends to `lost` the row where it wasn't there before, else the rows to which it lost strong references; and to
/// `gained` those to which it gained one.
fn append_row(
    draft: &Draft,
    schema: &Schema,
    id: RowId,
    lost: &mut Vec<RowId>,
    gained: &mut Vec<RowId>,
) -> Result<(), AllocError>
    ensures lost { OnOk result
        (lost.new.items ≡ lost.old.items ++ hanging schema.now draft.now.old draft.now.now id) }
    ensures gained { OnOk result
        (gained.new.items ≡ gained.old.items ++ gains.gained schema.now draft.now.old draft.now.now id) }
{
    match draft.before(id.table(), id.uuid()) {
        Some(before) => match draft.get(id.table(), id.uuid()) {
            Some(now) => append_changes(draft, schema, id, before, now, lost, gained),
            None => append_strong(schema, id, before, lost),
        },
        None => {
            lost.push(id)?;
            match draft.get(id.table(), id.uuid()) {
                Some(now) => append_strong(schema, id, now, gained),
                None => Ok(()),
            }
        }
    }
}

/// Appends the row, where one of those that it gained isn't there.
fn note_missing(
    draft: &Draft,
    id: RowId,
    gained: &[RowId],
    gaining: &mut Vec<RowId>,
) -> Result<(), AllocError>
    ensures { OnOk result
        (gaining.new.items
        ≡ gaining.old.items ++ cond (list_any (λ y. not (is_there draft.now.now y)) gained.now) (id ∷ []) []) }
{
    if is_one_missing(draft, gained) {
        gaining.push(id)?;
        return Ok(());
    }
    Ok(())
}

/// Returns the rows in order, each of them once. O(n log n).
fn once_each(alloc: Global, rows: &[RowId]) -> Result<Vec<RowId>, AllocError>
    ensures { IfOk result (λ each. (x : model.RowId)
        → list_any (same_row x) each.items ≡ list_any (same_row x) rows.now) }
{
    let mut set = BTreeSet::new(alloc);
    for row in rows {
        set.insert(*row)?;
    }
    in_order(alloc, &set)
}

/// Returns those of the rows that are neither of a root table nor among `referred`.
fn without_support(
    alloc: Global,
    schema: &Schema,
    referred: &BTreeSet<RowId>,
    rows: &[RowId],
) -> Result<Vec<RowId>, AllocError>
    ensures { IfOk result (λ others.
        others.items ≡ filter (λ x. not (supports schema.now referred.now x)) rows.now) }
{
    let mut others = Vec::new(alloc);
    for row in rows {
        if !has_support(schema, referred, row) {
            others.push(*row)?;
        }
    }
    Ok(others)
}

fn has_support(schema: &Schema, referred: &BTreeSet<RowId>, row: &RowId) -> bool
    ensures { result ≡ supports schema.now referred.now row.now }
{
    schema.is_root(row.table()) || referred.contains(row)
}

/// Takes out the rows that nothing keeps, where the waiting ones are all that may have lost it: in turn
/// those that are lost now, after which the rows wait to which these referred. Rows that refer to each
/// other strongly keep each other, and none keeps itself.
///
/// For each row that waits it looks for one that refers to it: O(references), and O(n) for n rows that
/// mention it where the last of them is the first that keeps it.
fn remove_lost(
    alloc: Global,
    draft: &mut Draft,
    schema: &Schema,
    references: &[Reference],
    mut waiting: Vec<RowId>,
) -> Result<(), AllocError>
    requires references { references.now ≡ references_of schema.now }
    requires waiting { SupportedBut schema.now draft.old.now waiting.items }
    ensures kept { OnOk result (draft.new.now ≡ kept schema.now draft.old.now) }
    ensures base { draft.new.old ≡ draft.old.old }
{
    loop {
        let lost = lost_of(alloc, draft, schema, references, &waiting)?;
        if lost.is_empty() {
            return Ok(());
        }
        let next = take_out(alloc, draft, schema, &lost)?;
        waiting = next;
    }
}

/// Takes the rows out, and lists the others to which they referred.
fn take_out(
    alloc: Global,
    draft: &mut Draft,
    schema: &Schema,
    rows: &[RowId],
) -> Result<Vec<RowId>, AllocError>
    requires in_tables { All (λ x. x.0 < length draft.old.now) rows.now }
    ensures removed { OnOk result (draft.new.now ≡ without_rows rows.now draft.old.now) }
    ensures referents { IfOk result (λ referents. (x : model.RowId)
        → list_any (same_row x) referents.items ≡ model.is_referred schema.now draft.old.now rows.now x) }
    ensures base { draft.new.old ≡ draft.old.old }
{
    let referred = referred(alloc, draft, schema, rows)?;
    let referents = in_order(alloc, &referred)?;
    remove_all(draft, rows)?;
    Ok(referents)
}

/// Returns those of the rows that are there, but neither of a root table nor strongly referenced by another row.
fn lost_of(
    alloc: Global,
    draft: &Draft,
    schema: &Schema,
    references: &[Reference],
    rows: &[RowId],
) -> Result<Vec<RowId>, AllocError>
    requires { references.now ≡ references_of schema.now }
    ensures { IfOk result (λ lost. lost.items ≡ filter (is_lost schema.now draft.now.now) rows.now) }
{
    let mut lost = Vec::new(alloc);
    for row in rows {
        if is_lost(draft, schema, references, *row)? {
            lost.push(*row)?;
        }
    }
    Ok(lost)
}

fn is_lost(
    draft: &Draft,
    schema: &Schema,
    references: &[Reference],
    row: RowId,
) -> Result<bool, AllocError>
    requires { references.now ≡ references_of schema.now }
    ensures { IfOk result (λ lost. lost ≡ is_lost schema.now draft.now.now row) }
{
    if is_missing(draft, row) {
        return Ok(false);
    }
    if schema.is_root(row.table()) {
        return Ok(false);
    }
    let referred = is_referred(draft, schema, references, row)?;
    Ok(!referred)
}

/// Returns whether another row has a strong reference to the row.
fn is_referred(
    draft: &Draft,
    schema: &Schema,
    references: &[Reference],
    row: RowId,
) -> Result<bool, AllocError>
    requires { references.now ≡ references_of schema.now }
    ensures { IfOk result (λ referred. referred
        ≡ model.is_referred schema.now draft.now.now (row_ids draft.now.now) row) }
{
    for reference in references {
        if is_referred_by(draft, schema, reference, row)? {
            return Ok(true);
        }
    }
    Ok(false)
}

/// Returns whether the reference is strong, and another row that mentions the row by it refers to it strongly.
fn is_referred_by(
    draft: &Draft,
    schema: &Schema,
    reference: &Reference,
    row: RowId,
) -> Result<bool, AllocError>
    ensures found { IfOk result (λ found. IsTrue found
        → model.is_referred schema.now draft.now.now (row_ids draft.now.now) row ≡ true) }
    ensures none { IfOk result (λ found. found ≡ false → reference.now.weak ≡ false
        → (y : model.RowId) → mentions_by draft.now.now y row reference.now ≡ true
        → is_referrer schema.now draft.now.now row y ≡ false) }
{
    if reference.is_weak() {
        return Ok(false);
    }
    if reference.target() != row.table() {
        return Ok(false);
    }
    let uuids = draft.referrers(reference.table(), reference.place(), row.uuid())?;
    Ok(has_referrer(draft, schema, reference.table(), &uuids, row))
}

/// Returns whether one of these rows of the table, and not `row` itself, has a strong reference to it.
fn has_referrer(draft: &Draft, schema: &Schema, table: TableId, uuids: &[Uuid], row: RowId) -> bool
    ensures { result ≡ list_any (λ uuid. is_referrer schema.now draft.now.now row (table, uuid_of uuid)) uuids.now }
{
    uuids.iter().any(|uuid| is_referrer(draft, schema, RowId::new(table, *uuid), row))
}

fn is_referrer(draft: &Draft, schema: &Schema, referrer: RowId, row: RowId) -> bool
    ensures { result ≡ is_referrer schema.now draft.now.now row referrer }
{
    row != referrer && refers(draft, schema, referrer, row)
}

fn refers(draft: &Draft, schema: &Schema, id: RowId, referent: RowId) -> bool
    ensures { result ≡ refers schema.now draft.now.now id referent }
{
    match draft.get(id.table(), id.uuid()) {
        Some(row) => row_refers(schema, id, row, referent),
        None => false,
    }
}

/// Returns the rows to which a row of the list, and not they themselves, has a strong reference.
fn referred(
    alloc: Global,
    draft: &Draft,
    schema: &Schema,
    rows: &[RowId],
) -> Result<BTreeSet<RowId>, AllocError>
    ensures { IfOk result (λ referred. (x : model.RowId)
        → contains row_id_cmp referred x ≡ model.is_referred schema.now draft.now.now rows.now x) }
{
    let mut referred = BTreeSet::new(alloc);
    for row in rows {
        insert_referents(alloc, draft, schema, *row, &mut referred)?;
    }
    Ok(referred)
}

/// Adds the other rows to which the row has strong references.
fn insert_referents(
    alloc: Global,
    draft: &Draft,
    schema: &Schema,
    id: RowId,
    referred: &mut BTreeSet<RowId>,
) -> Result<(), AllocError>
    ensures { OnOk result ((x : model.RowId)
        → contains row_id_cmp referred.new x
        ≡ (contains row_id_cmp referred.old x
        || (not (same_row x id) && refers schema.now draft.now.now id x))) }
{
    match draft.get(id.table(), id.uuid()) {
        Some(row) => {
            let referents = strong_of_row(alloc, schema, id, row)?;
            insert_others(id, &referents, referred)
        }
        None => Ok(()),
    }
}

/// Adds those of the rows that aren't `id`.
fn insert_others(
    id: RowId,
    rows: &[RowId],
    referred: &mut BTreeSet<RowId>,
) -> Result<(), AllocError>
    ensures { OnOk result ((x : model.RowId)
        → contains row_id_cmp referred.new x
        ≡ (contains row_id_cmp referred.old x
        || (not (same_row x id) && list_any (same_row x) rows.now))) }
{
    for row in rows {
        if *row != id {
            referred.insert(*row)?;
        }
    }
    Ok(())
}
