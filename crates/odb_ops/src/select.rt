//! `select` (RFC 7047, section 5.2.2). [P 4.2]
ghost use Rattle.std.specs.Prelude.{◌≡◌, ◌++◌, ◌∷◌, [], IfOk, List, OnOk, flat_map, map};
ghost use Rattle.std.specs.List.{list_any};
ghost use Rattle.odb_atoms.specs.FinMap as finite;
ghost use Rattle.odb_atoms.specs.Row as model_row;
ghost use Rattle.odb_atoms.specs.Value as model;
ghost use Rattle.odb_cond.specs.Represented.Clause.{selector_of};
ghost use Rattle.odb_ops.specs.Execution.{distinct, rows_result, selected};
ghost use Rattle.odb_ops.specs.Represented.Cells.{IsLentSetOf, given_once};
ghost use Rattle.odb_ops.specs.Represented.Layout.{content, entry_tokens, row_tokens};
ghost use Rattle.odb_print.specs.Tokens.{tokens_of};
ghost use Rattle.odb_tables.specs.Database.{Table, table_at};
ghost use Rattle.odb_tables.specs.Matching.{matching};
ghost use Rattle.odb_tables.specs.Represented.Table.{listed};

use crate::contents::{content_of, is_first};
use crate::context::Target;
use crate::layout::{Layout, put_row};
use crate::meaning::SelectedRows;
use crate::results::OperationResult;
use json::Token;
use odb_atoms::{Row, Value};
use odb_cond::Selector;
use odb_json::Select;
use odb_print::{Printer, RowCells};
use odb_tables::Draft;
use std::alloc::{AllocError, Global};
use std::collections::BTreeSet;
use uuid::Uuid;

/// Returns the result of `select`: these columns of the rows that match, each of the rows that come out equal once,
/// in the order of the least identifier with that content. It is printed as the rows are read: nothing of
/// them is copied.
///
/// What `Draft::select` costs, the bytes of the text, and, unless `_uuid` is among the columns, O(n log n) comparisons
/// of rows for the n that match.
pub fn select(
    target: &Target<'_>,
    draft: &Draft,
    asked: &Select,
) -> Result<OperationResult, AllocError>
    ensures { IfOk result (λ r. r
        ≡ rows_result target.entry.now.columns.now (map selector_of asked.now.columns.items)
        (distinct (selected (map selector_of asked.now.columns.items)
        (matching asked.now.conditions (table_at draft.now.now target.entry.now.table))))) }
{
    let mut out = Printer::new(target.alloc);
    let layout = Layout::new(target, asked.columns.as_slice())?;
    put_result(&mut out, &layout, draft, asked)?;
    let rows = SelectedRows {
        declared: target.columns,
        table: target.table,
        draft,
        asked,
    };
    Ok(OperationResult::of_rows(out.finish(), &rows))
}

/// Prints the result: an object with an array of the rows.
fn put_result(
    out: &mut Printer,
    layout: &Layout<'_>,
    draft: &Draft,
    asked: &Select,
) -> Result<(), AllocError>
    ensures { OnOk result (out.new ≡ out.old ++ tokens_of (rows_result layout.entry.now.declared.now
        (map selector_of layout.entry.now.columns.now)
        (distinct (selected (map selector_of layout.entry.now.columns.now)
        (matching asked.now.conditions (table_at draft.now.now layout.entry.now.table)))))) }
{
    let rows = draft.select(layout.table, &asked.conditions)?;
    out.put(Token::BeginObject)?;
    out.put(Token::Key("rows"))?;
    out.put(Token::BeginArray)?;
    put_found(out, layout, &rows)?;
    out.put(Token::EndArray)?;
    out.put(Token::EndObject)
}

/// Prints the rows, which are those of a table by ascending identifier; of several with one content the first.
fn put_found(
    out: &mut Printer,
    layout: &Layout<'_>,
    rows: &[(Uuid, &Row)],
) -> Result<(), AllocError>
    ensures { (found : Table) → map listed rows.now ≡ finite.entries_of found
        → OnOk result (out.new ≡ out.old ++ flat_map
        (row_tokens layout.entry.now.declared.now (map selector_of layout.entry.now.columns.now))
        (distinct (selected (map selector_of layout.entry.now.columns.now) found))) }
{
    // Then each row is the only one with its content.
    if has_column(layout.columns, Selector::Uuid) {
        return put_each(out, layout, rows);
    }
    let cells = cells_of(layout, rows)?;
    put_distinct(out, layout, &cells)
}

/// Returns whether the column is among the columns.
fn has_column(columns: &[Selector], column: Selector) -> bool
    ensures { result ≡ list_any (λ other. model_row.same_selector (selector_of column) (selector_of other)) columns.now }
{
    columns.iter().any(|other| column == *other)
}

/// Prints the rows, one after the other.
fn put_each(out: &mut Printer, layout: &Layout<'_>, rows: &[(Uuid, &Row)]) -> Result<(), AllocError>
    ensures { OnOk result (out.new ≡ out.old ++ flat_map
        (entry_tokens layout.entry.now.declared.now (map selector_of layout.entry.now.columns.now)) (map listed rows.now)) }
{
    for row in rows {
        put_row(out, layout, &RowCells::new(layout.alloc, row.0, row.1))?;
    }
    Ok(())
}

/// Returns the cells of the rows.
fn cells_of<'a>(
    layout: &Layout<'_>,
    rows: &[(Uuid, &'a Row)],
) -> Result<Vec<RowCells<'a>>, AllocError>
    ensures { IfOk result (λ cells. cells.items ≡ map listed rows.now) }
{
    let mut cells = Vec::with_capacity(layout.alloc, rows.len())?;
    for row in rows {
        cells.push(RowCells::new(layout.alloc, row.0, row.1))?;
    }
    Ok(cells)
}

/// Prints the rows, of several with one content the first.
fn put_distinct(
    out: &mut Printer,
    layout: &Layout<'_>,
    rows: &[RowCells<'_>],
) -> Result<(), AllocError>
    ensures { OnOk result (out.new ≡ out.old ++ flat_map
        (row_tokens layout.entry.now.declared.now (map selector_of layout.entry.now.columns.now))
        (distinct (map (content (map selector_of layout.entry.now.columns.now)) rows.now))) }
{
    let mut seen = BTreeSet::new(layout.alloc);
    for row in rows {
        put_first(out, layout, &mut seen, row)?;
    }
    Ok(())
}

/// Prints the row, unless one with its content was seen.
fn put_first<'a>(
    out: &mut Printer,
    layout: &Layout<'_>,
    seen: &mut BTreeSet<Vec<&'a Value>>,
    row: &'a RowCells<'a>,
) -> Result<(), AllocError>
    ensures { (rows : List (List model.Value)) → IsLentSetOf seen.old rows → OnOk result (
        IsLentSetOf seen.new (rows ++ content (map selector_of layout.entry.now.columns.now) row.now ∷ [])
        × (out.new ≡ out.old ++ flat_map
        (row_tokens layout.entry.now.declared.now (map selector_of layout.entry.now.columns.now))
        (given_once rows (content (map selector_of layout.entry.now.columns.now) row.now)))) }
{
    let content = content_of(layout.alloc, layout.columns, row)?;
    if is_first(seen, content)? {
        put_row(out, layout, row)?;
    }
    Ok(())
}
