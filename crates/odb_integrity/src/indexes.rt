//! Indexes (RFC 7047, section 3.2, `indexes`). [P 5]
ghost use Rattle.std.specs.Prelude.{◌≡◌, ◌++◌, false, filter_map, length, map, option_to_list, zip, IfOk, OnOk};
ghost use Rattle.std.specs.List.{list_any};
ghost use Rattle.odb_atoms.specs.FinMap as finite;
ghost use Rattle.odb_atoms.specs.Value.{same_values};
ghost use Rattle.odb_integrity.specs.Settlement as model;
ghost use Rattle.odb_schema.specs.Schema.{column_place};
ghost use Rattle.odb_schema.specs.Represented.Names.{names_of};
ghost use Rattle.odb_tables.specs.Database.{table_at};
ghost use Rattle.odb_tables.specs.Indexed.{cells_at};

use odb_schema::{Schema, TableId, TableSchema};
use odb_tables::Draft;
use std::alloc::{AllocError, Global};

/// Returns whether two rows of a table have the same values in all columns of an index. Since the tables were
/// settled, only rows that are new, or have another value in a column of an index than before, may have
/// the values of another row. What `Draft::has_new_twins` costs for each index of a table that was touched, and
/// O(tables).
pub(crate) fn has_duplicates(
    alloc: Global,
    draft: &Draft,
    schema: &Schema,
) -> Result<bool, AllocError>
    requires length { length draft.now.now ≡ length schema.now.tables }
    requires settled { list_any model.has_duplicates (zip schema.now.tables draft.now.old) ≡ false }
    ensures { IfOk result (λ duplicates.
        duplicates ≡ list_any model.has_duplicates (zip schema.now.tables draft.now.now)) }
{
    let _tables = draft.len();
    for (place, table) in schema.tables().iter().enumerate() {
        if table_has_duplicates(alloc, draft, TableId::at(place), table)? {
            return Ok(true);
        }
    }
    Ok(false)
}

fn table_has_duplicates(
    alloc: Global,
    draft: &Draft,
    id: TableId,
    table: &TableSchema,
) -> Result<bool, AllocError>
    requires { model.has_duplicates (table.now, table_at draft.now.old id) ≡ false }
    ensures { IfOk result (λ duplicates.
        duplicates ≡ model.has_duplicates (table.now, table_at draft.now.now id)) }
{
    if draft.is_untouched(id) {
        return Ok(false);
    }
    for index in table.indexes() {
        let places = places_of(alloc, table, index)?;
        if has_twins_at(draft, id, &places)? {
            return Ok(true);
        }
    }
    Ok(false)
}

/// Returns whether two rows of the table have the same values at the places, where no two had before.
fn has_twins_at(draft: &Draft, id: TableId, places: &[usize]) -> Result<bool, AllocError>
    requires { model.has_twins same_values (map (cells_at places.now) (finite.values (table_at draft.now.old id))) ≡ false }
    ensures { IfOk result (λ twins. twins
        ≡ model.has_twins same_values (map (cells_at places.now) (finite.values (table_at draft.now.now id)))) }
{
    draft.has_new_twins(id, places)
}

/// Returns the places of the columns that the index names.
fn places_of(
    alloc: Global,
    table: &TableSchema,
    index: &Vec<String>,
) -> Result<Vec<usize>, AllocError>
    ensures { IfOk result (λ places.
        places.items ≡ filter_map (column_place table.now.columns) (names_of index.now)) }
{
    let mut places = Vec::new(alloc);
    for name in index {
        append_place(table, name.as_str(), &mut places)?;
    }
    Ok(places)
}

fn append_place(table: &TableSchema, name: &str, places: &mut Vec<usize>) -> Result<(), AllocError>
    ensures { OnOk result
        (places.new.items
        ≡ places.old.items ++ option_to_list (column_place table.now.columns name.now)) }
{
    match table.column(name) {
        Some(column) => {
            places.push(column.place())?;
            Ok(())
        }
        None => Ok(()),
    }
}
