//! How the rows of a `select` are printed: an object for each, with its columns by ascending name.
ghost use Rattle.std.specs.Prelude.{◌≡◌, ◌++◌, ◌∷◌, [], IfOk, OnOk, flat_map, map};
ghost use Rattle.odb_cond.specs.Represented.Clause.{selector_of};
ghost use Rattle.odb_ops.specs.Represented.Layout as model;
ghost use Rattle.odb_ops.specs.Represented.Layout.{cell_tokens, content, row_tokens};
ghost use Rattle.odb_schema.specs.Schema.{selector_name};

use crate::context::Target;
use json::Token;
use odb_cond::Selector;
use odb_print::{Printer, RowCells, put_member};
use odb_schema::{Column, TableId};
use std::alloc::{AllocError, Global};
use std::cmp::Ordering;

/// Which columns of a table's rows are printed, and in which order.
#[derive(Drop)]
pub struct Layout<'a> {
    pub alloc: Global,
    pub table: TableId,
    pub declared: &'a [Column],
    /// In the order in which they are asked.
    pub columns: &'a [Selector],
    ordered: Vec<Selector>,
    ghost in_order: { map selector_of ordered.items ≡ model.by_name declared.now (map selector_of columns.now) },
}

impl<'a> Layout<'a> {
    /// Makes the layout of these columns. O(n²) comparisons of names for n columns.
    pub fn new(target: &Target<'a>, columns: &'a [Selector]) -> Result<Layout<'a>, AllocError>
        ensures table { IfOk result (λ layout. layout.table ≡ target.entry.now.table) }
        ensures declared { IfOk result (λ layout. layout.declared.now ≡ target.entry.now.columns.now) }
        ensures columns { IfOk result (λ layout. layout.columns.now ≡ columns.now) }
    {
        let ordered = by_name(target.alloc, target.columns, columns)?;
        Ok(Layout {
            alloc: target.alloc,
            table: target.table,
            declared: target.columns,
            columns,
            ordered,
        })
    }
}

/// Returns the columns by ascending name.
fn by_name(
    alloc: Global,
    declared: &[Column],
    columns: &[Selector],
) -> Result<Vec<Selector>, AllocError>
    ensures { IfOk result (λ ordered. map selector_of ordered.items
        ≡ model.by_name declared.now (map selector_of columns.now)) }
{
    let mut ordered = Vec::new(alloc);
    for place in (0..columns.len()).rev() {
        ordered = with_one(alloc, declared, columns[place], &ordered)?;
    }
    Ok(ordered)
}

/// Returns the ordered columns with one more.
fn with_one(
    alloc: Global,
    declared: &[Column],
    column: Selector,
    ordered: &[Selector],
) -> Result<Vec<Selector>, AllocError>
    ensures { IfOk result (λ v. map selector_of v.items
        ≡ model.placed declared.now (selector_of column) (map selector_of ordered.now)) }
{
    let mut longer = Vec::with_capacity(alloc, ordered.len().saturating_add(1))?;
    place(&mut longer, declared, column, ordered)?;
    Ok(longer)
}

/// Adds the ordered columns, with one more at its place.
fn place(
    out: &mut Vec<Selector>,
    declared: &[Column],
    column: Selector,
    ordered: &[Selector],
) -> Result<(), AllocError>
    ensures { OnOk result (map selector_of out.new.items ≡ map selector_of out.old.items
        ++ model.placed declared.now (selector_of column) (map selector_of ordered.now)) }
{
    let [first, rest @ ..] = ordered else {
        out.push(column)?;
        return Ok(());
    };
    match name_of(declared, column).cmp(name_of(declared, *first)) {
        Ordering::Less => add_both(out, column, ordered),
        Ordering::Equal => add_both(out, column, rest),
        Ordering::Greater => {
            out.push(*first)?;
            place(out, declared, column, rest)
        }
    }
}

/// Adds the column, and then the others.
fn add_both(
    out: &mut Vec<Selector>,
    column: Selector,
    others: &[Selector],
) -> Result<(), AllocError>
    ensures { OnOk result (map selector_of out.new.items ≡ map selector_of out.old.items
        ++ selector_of column ∷ map selector_of others.now) }
{
    out.push(column)?;
    out.extend_from_slice(others)?;
    Ok(())
}

/// Returns the name of a column; of one that isn't there it is empty.
fn name_of(declared: &[Column], column: Selector) -> &str
    ensures { result.now ≡ selector_name declared.now (selector_of column) }
{
    match column {
        Selector::Uuid => "_uuid",
        Selector::Version => "_version",
        Selector::Declared(place) => match declared.get(place) {
            Some(column) => column.name(),
            None => "",
        },
    }
}

/// Prints a row. O(its bytes).
pub fn put_row(
    out: &mut Printer,
    layout: &Layout<'_>,
    cells: &RowCells<'_>,
) -> Result<(), AllocError>
    ensures { OnOk result (out.new ≡ out.old ++ row_tokens layout.entry.now.declared.now
        (map selector_of layout.entry.now.columns.now)
        (content (map selector_of layout.entry.now.columns.now) cells.now)) }
{
    out.put(Token::BeginObject)?;
    put_cells(out, layout.declared, layout.ordered.as_slice(), cells)?;
    out.put(Token::EndObject)
}

/// Prints the columns of a row, one after the other.
fn put_cells(
    out: &mut Printer,
    declared: &[Column],
    columns: &[Selector],
    cells: &RowCells<'_>,
) -> Result<(), AllocError>
    ensures { OnOk result (out.new
        ≡ out.old ++ flat_map (cell_tokens declared.now cells.now) (map selector_of columns.now)) }
{
    for column in columns {
        put_member(out, name_of(declared, *column), cells.get(*column))?;
    }
    Ok(())
}
