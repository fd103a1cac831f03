//! Rows by their contents: which are equal.
ghost use Rattle.std.specs.Prelude.{◌≡◌, ◌++◌, ◌∷◌, [], IfOk, List, map, not};
ghost use Rattle.std.specs.List.{list_any};
ghost use Rattle.odb_atoms.specs.Value as model;
ghost use Rattle.odb_cond.specs.Represented.Clause.{selector_of};
ghost use Rattle.odb_ops.specs.Execution.{each_in};
ghost use Rattle.odb_ops.specs.Represented.Cells.{IsLentSetOf, IsSetOf};
ghost use Rattle.odb_ops.specs.Represented.Layout.{content};

use crate::cells::Cells;
use odb_atoms::Value;
use odb_cond::Selector;
use odb_print::RowCells;
use std::alloc::{AllocError, Global};
use std::collections::BTreeSet;

/// Returns the values of the columns of a row, lent. O(columns).
pub fn content_of<'a>(
    alloc: Global,
    columns: &[Selector],
    row: &'a RowCells<'a>,
) -> Result<Vec<&'a Value>, AllocError>
    ensures { IfOk result (λ values. map (λ value. value.now) values.items
        ≡ content (map selector_of columns.now) row.now) }
{
    let mut values = Vec::with_capacity(alloc, columns.len())?;
    for column in columns {
        values.push(row.get(*column))?;
    }
    Ok(values)
}

/// Adds a content, and says whether it wasn't there yet. O(log n) comparisons of rows for n contents.
pub fn is_first<'a>(
    seen: &mut BTreeSet<Vec<&'a Value>>,
    content: Vec<&'a Value>,
) -> Result<bool, AllocError>
    ensures { (rows : List (List model.Value)) → IsLentSetOf seen.old rows
        → IfOk result (λ added. (added ≡ not (list_any (model.same_values (map (λ value. value.now) content.entry.items)) rows))
        × IsLentSetOf seen.new (rows ++ map (λ value. value.now) content.entry.items ∷ [])) }
{
    match seen.insert(content) {
        Ok(fresh) => Ok(fresh),
        Err(_) => Err(AllocError),
    }
}

/// Adds the row's content, and says whether it wasn't there yet.
fn is_new<'a>(seen: &mut BTreeSet<&'a [Value]>, row: &'a Cells) -> Result<bool, AllocError>
    ensures { (rows : List (List model.Value)) → IsSetOf seen.old rows
        → IfOk result (λ added. (added ≡ not (list_any (model.same_values row.now) rows)) × IsSetOf seen.new (rows ++ row.now ∷ [])) }
{
    match seen.insert(row.values()) {
        Ok(added) => Ok(added),
        Err(_) => Err(AllocError),
    }
}

/// Returns the contents of the rows. O(n log n) comparisons for n rows.
pub fn contents(alloc: Global, rows: &[Cells]) -> Result<BTreeSet<&[Value]>, AllocError>
    ensures { IfOk result (λ set. IsSetOf set rows.now) }
{
    let mut seen = BTreeSet::new(alloc);
    for row in rows {
        is_new(&mut seen, row)?;
    }
    Ok(seen)
}

/// Returns whether each of the rows is among those of which these are the contents. O(n log m) comparisons
/// for n rows and m contents.
pub fn are_among<'a>(rows: &'a [Cells], set: &BTreeSet<&'a [Value]>) -> bool
    ensures { (others : List (List model.Value)) → IsSetOf set.now others → result ≡ each_in rows.now others }
{
    for row in rows {
        if !set.contains(&row.values()) {
            return false;
        }
    }
    true
}
