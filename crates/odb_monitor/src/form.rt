//! Rows as objects: the columns that are named, and what stands for each (RFC 7047, section 4.1.6;
//! ovsdb-server(7), 4.1.14).
ghost use Rattle.std.specs.Prelude.{◌≡◌, ◌++◌, ◌∷◌, None, OnOk, Some, flat_map, if◌then◌else◌, map, option_map};
ghost use Rattle.json.specs.Token as token;
ghost use Rattle.odb_atoms.specs.Value.{same_value};
ghost use Rattle.odb_cond.specs.Represented.Clause.{selector_of};
ghost use Rattle.odb_monitor.specs.Represented.Form.{column_tokens, difference_in, named_by};
ghost use Rattle.odb_print.specs.Tokens.{member_tokens, tokens_of};
ghost use Rattle.odb_monitor.specs.Update.{row_object};
ghost use Rattle.odb_request.specs.Represented.Parts.{monitored_as};
ghost use Rattle.odb_schema.specs.Notation.{write_value};

use crate::columns::Columns;
use json::Token;
use odb_atoms::Value;
use odb_cond::Selector;
use odb_print::{Printer, RowCells, put_member};
use std::alloc::AllocError;

/// Which columns of a row are named, and what stands for each.
#[derive(Clone, Copy)]
pub enum Form<'a> {
    /// Every column.
    All(&'a RowCells<'a>),
    /// The columns that aren't equal to their default.
    Set(&'a RowCells<'a>),
    /// The old values of the columns that differ.
    Old(&'a RowCells<'a>, &'a RowCells<'a>),
    /// The differences of the columns that differ.
    Differences(&'a RowCells<'a>, &'a RowCells<'a>),
}

/// Prints a column with its value, unless that is equal to the other.
fn put_unless(out: &mut Printer, name: &str, value: &Value, other: &Value) -> Result<(), AllocError>
    ensures { OnOk result (out.new ≡ out.old ++ member_tokens name.now (option_map write_value
        (if same_value value.now other.now then None else Some value.now))) }
{
    if *value == *other {
        return Ok(());
    }
    put_member(out, name, value)
}

/// Prints a column with its difference, unless it stayed.
fn put_difference(
    out: &mut Printer,
    columns: &Columns<'_>,
    column: Selector,
    old: &RowCells<'_>,
    new: &RowCells<'_>,
) -> Result<(), AllocError>
    ensures { OnOk result (out.new
        ≡ out.old ++ column_tokens (difference_in old.now new.now) (monitored_as columns.now column)) }
{
    let old_value = old.get(column);
    let new_value = new.get(column);
    if *old_value == *new_value {
        return Ok(());
    }
    if columns.is_single(column) {
        return put_member(out, columns.name(column), new_value);
    }
    let difference = columns.difference(column, old_value, new_value)?;
    put_member(out, columns.name(column), &difference)
}

/// Prints a column, as far as the form names it.
fn put_column(
    out: &mut Printer,
    columns: &Columns<'_>,
    column: Selector,
    form: &Form<'_>,
) -> Result<(), AllocError>
    ensures { OnOk result (out.new
        ≡ out.old ++ column_tokens (named_by form.now) (monitored_as columns.now column)) }
{
    match form {
        Form::All(new) => put_member(out, columns.name(column), new.get(column)),
        Form::Set(new) => {
            let default = columns.default_of(column)?;
            put_unless(out, columns.name(column), new.get(column), &default)
        }
        Form::Old(old, new) => {
            put_unless(out, columns.name(column), old.get(column), new.get(column))
        }
        Form::Differences(old, new) => put_difference(out, columns, column, old, new),
    }
}

/// Prints the columns, one after the other.
fn put_columns(
    out: &mut Printer,
    columns: &Columns<'_>,
    named: &[Selector],
    form: &Form<'_>,
) -> Result<(), AllocError>
    ensures { OnOk result (out.new ≡ out.old
        ++ flat_map (column_tokens (named_by form.now)) (map (monitored_as columns.now) named.now)) }
{
    for column in named {
        put_column(out, columns, *column, form)?;
    }
    Ok(())
}

/// Prints a row: an object with the columns that the form names. O(the bytes printed, and the values compared).
pub fn put_object(
    out: &mut Printer,
    columns: &Columns<'_>,
    named: &[Selector],
    form: &Form<'_>,
) -> Result<(), AllocError>
    ensures { OnOk result (out.new ≡ out.old ++ tokens_of
        (row_object (map (monitored_as columns.now) named.now)
        (map (named_by form.now) (map (monitored_as columns.now) named.now)))) }
{
    out.put(Token::BeginObject)?;
    put_columns(out, columns, named, form)?;
    out.put(Token::EndObject)
}
