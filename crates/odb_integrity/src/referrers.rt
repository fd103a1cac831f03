//! The references that a schema makes, and the rows that mention a row by them. [P 5]
ghost use Rattle.std.specs.Prelude.{◌≡◌, ◌++◌, ◌&&◌, ◌||◌, ◌==◌, flat_map, option_to_list, IfOk, OnOk};
ghost use Rattle.std.specs.BTreeSet.{contains};
ghost use Rattle.std.specs.List.{enumerate_from, list_any};
ghost use Rattle.odb_atoms.specs.Represented.Atom.{uuid_of};
ghost use Rattle.odb_atoms.specs.Represented.ColType.{base_of, type_of};
ghost use Rattle.odb_integrity.specs.Represented.Reference.{base_references, column_references};
ghost use Rattle.odb_integrity.specs.Represented.Reference.{MentionGone, mentions_by, mentions_gone, references_of};
ghost use Rattle.odb_integrity.specs.Represented.RowId.{row_id_cmp};
ghost use Rattle.odb_integrity.specs.Settlement as model;
ghost use Rattle.odb_integrity.specs.Settlement.{same_row};

use crate::dangling::{is_missing, is_one_missing};
use crate::row_id::RowId;
use crate::rows::in_order;
use odb_atoms::{Base, ColType};
use odb_schema::{Schema, TableId, TableSchema};
use odb_tables::Draft;
use std::alloc::{AllocError, Global};
use std::collections::BTreeSet;
use uuid::Uuid;

/// A reference that the type of a column makes (RFC 7047, section 3.2, `refTable` and `refType`).
#[derive(Clone, Copy)]
pub(crate) struct Reference {
    /// The table to which it leads.
    target: TableId,
    /// The table and the place of the column.
    table: TableId,
    place: usize,
    weak: bool,
}

impl Reference {
    /// Returns the table to which it leads. O(1).
    pub(crate) fn target(&self) -> TableId
        ensures { result ≡ self.now.target }
    {
        self.target
    }

    /// Returns the table of the column. O(1).
    pub(crate) fn table(&self) -> TableId
        ensures { result ≡ self.now.table }
    {
        self.table
    }

    /// Returns the place of the column. O(1).
    pub(crate) fn place(&self) -> usize
        ensures { result ≡ self.now.place }
    {
        self.place
    }

    /// Returns whether it is weak. O(1).
    pub(crate) fn is_weak(&self) -> bool
        ensures { result ≡ self.now.weak }
    {
        self.weak
    }
}

/// Returns the references that the columns of the schema make. O(columns of the schema), and O(log n) for each
/// reference, with n tables.
pub(crate) fn references_of(alloc: Global, schema: &Schema) -> Result<Vec<Reference>, AllocError>
    ensures { IfOk result (λ references. references.items ≡ references_of schema.now) }
{
    let mut references = Vec::new(alloc);
    for (place, table) in schema.tables().iter().enumerate() {
        append_table(schema, TableId::at(place), table, &mut references)?;
    }
    Ok(references)
}

fn append_table(
    schema: &Schema,
    id: TableId,
    table: &TableSchema,
    references: &mut Vec<Reference>,
) -> Result<(), AllocError>
    ensures { OnOk result
        (references.new.items
        ≡ references.old.items
        ++ flat_map (λ f. column_references schema.now id f.0 f.1.type) (enumerate_from 0 table.now.columns)) }
{
    for (place, column) in table.columns().iter().enumerate() {
        append_column(schema, id, place, column.column_type(), references)?;
    }
    Ok(())
}

fn append_column(
    schema: &Schema,
    table: TableId,
    place: usize,
    column: &ColType,
    references: &mut Vec<Reference>,
) -> Result<(), AllocError>
    ensures { OnOk result
        (references.new.items
        ≡ references.old.items ++ column_references schema.now table place (type_of column.now)) }
{
    append_one(reference_by(schema, table, place, &column.key), references)?;
    match &column.value {
        Some(base) => append_one(reference_by(schema, table, place, base), references),
        None => Ok(()),
    }
}

/// Returns the reference that a base type makes in the column at the place.
fn reference_by(schema: &Schema, table: TableId, place: usize, base: &Base) -> Option<Reference>
    ensures { option_to_list result ≡ base_references schema.now table place (base_of base.now) }
{
    let reference = base.reference.as_ref()?;
    let target = schema.table(reference.table.as_str())?;
    Some(Reference {
        target,
        table,
        place,
        weak: reference.weak,
    })
}

/// Appends the reference, where there is one.
fn append_one(
    reference: Option<Reference>,
    references: &mut Vec<Reference>,
) -> Result<(), AllocError>
    ensures { OnOk result (references.new.items ≡ references.old.items ++ option_to_list reference) }
{
    match reference {
        Some(reference) => {
            references.push(reference)?;
            Ok(())
        }
        None => Ok(()),
    }
}

/// Returns the rows that mention a row of the list which isn't there. O(rows), and where one of them isn't there
/// O(columns of the schema), and for each that isn't O(references) and O(log n) for each of the n rows that mention it.
pub(crate) fn mentioning_missing(
    alloc: Global,
    draft: &Draft,
    schema: &Schema,
    rows: &[RowId],
) -> Result<Vec<RowId>, AllocError>
    ensures { IfOk result (λ all. MentionGone (references_of schema.now) draft.now.now rows.now all.items) }
{
    if !is_one_missing(draft, rows) {
        return Ok(Vec::new(alloc));
    }
    let references = references_of(alloc, schema)?;
    referrers_of_missing(alloc, draft, &references, rows)
}

fn referrers_of_missing(
    alloc: Global,
    draft: &Draft,
    references: &[Reference],
    rows: &[RowId],
) -> Result<Vec<RowId>, AllocError>
    ensures { IfOk result (λ all. MentionGone references.now draft.now.now rows.now all.items) }
{
    let mut all = BTreeSet::new(alloc);
    for row in rows {
        insert_referrers(draft, references, *row, &mut all)?;
    }
    in_order(alloc, &all)
}

/// Adds those that mention the row, where it isn't there.
fn insert_referrers(
    draft: &Draft,
    references: &[Reference],
    row: RowId,
    all: &mut BTreeSet<RowId>,
) -> Result<(), AllocError>
    ensures { OnOk result ((x : model.RowId)
        → contains row_id_cmp all.new x
        ≡ (contains row_id_cmp all.old x || mentions_gone references.now draft.now.now x row)) }
{
    if !is_missing(draft, row) {
        return Ok(());
    }
    for reference in references {
        insert_by(draft, reference, row, all)?;
    }
    Ok(())
}

/// Adds the rows that mention the row by the reference.
fn insert_by(
    draft: &Draft,
    reference: &Reference,
    row: RowId,
    rows: &mut BTreeSet<RowId>,
) -> Result<(), AllocError>
    ensures { OnOk result ((x : model.RowId)
        → contains row_id_cmp rows.new x
        ≡ (contains row_id_cmp rows.old x || mentions_by draft.now.now x row reference.now)) }
{
    if reference.target != row.table() {
        return Ok(());
    }
    let uuids = draft.referrers(reference.table, reference.place, row.uuid())?;
    insert_all(reference.table, &uuids, rows)
}

fn insert_all(table: TableId, uuids: &[Uuid], rows: &mut BTreeSet<RowId>) -> Result<(), AllocError>
    ensures { OnOk result ((x : model.RowId)
        → contains row_id_cmp rows.new x
        ≡ (contains row_id_cmp rows.old x || list_any (λ uuid. same_row x (table, uuid_of uuid)) uuids.now)) }
{
    for uuid in uuids {
        rows.insert(RowId::new(table, *uuid))?;
    }
    Ok(())
}
