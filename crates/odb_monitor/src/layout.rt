//! Table updates, printed (RFC 7047, section 4.1.6; ovsdb-server(7), 4.1.14). [P 9.3]
ghost use Rattle.std.specs.Prelude.{◌≡◌, ◌++◌, ◌∷◌, [], OnOk, codes, flat_map, if◌then◌else◌, map};
ghost use Rattle.odb_atoms.specs.Represented.Atom.{uuid_of};
ghost use Rattle.odb_monitor.specs.Represented.Form.{all_in, named_by, old_in};
ghost use Rattle.odb_monitor.specs.Represented.Layout.{new_and_old, row_tokens};
ghost use Rattle.odb_monitor.specs.Represented.Line.{change_in, line_in};
ghost use Rattle.odb_print.specs.Tokens.{member_tokens, tokens_of};
ghost use Rattle.odb_monitor.specs.Update.{all_cells, differences, old_cells, one, row_object, row_update, set_cells, table_update};
ghost use Rattle.odb_monitor.specs.View.{cut};
ghost use Rattle.odb_request.specs.Represented.Notation.{notation_of};
ghost use Rattle.odb_request.specs.Request.{update, update2};
ghost use Rattle.serde_json.specs.Data.{null};

use crate::columns::Columns;
use crate::form::{Form, put_object};
use crate::line::{Change, Line};
use json::Token;
use odb_atoms::Row;
use odb_cond::Selector;
use odb_print::{Printer, RowCells, put_key};
use odb_request::{Notation, Shape};
use std::alloc::{AllocError, Global};
use std::marker::Model;
use uuid::Uuid;

/// How the rows of a table are printed: in which notation, whether in a first reply, and with which
/// columns.
#[derive(Drop)]
pub struct Layout<'a> {
    alloc: Global,
    notation: Notation,
    first: bool,
    columns: Columns<'a>,
    named: &'a [Selector],
}

impl<'a> Model for Layout<'a> {
    ghost use Rattle.std.specs.Prelude.{map};
    ghost use Rattle.odb_monitor.specs.Represented.Layout as model;
    ghost use Rattle.odb_monitor.specs.Represented.Layout.{layout_code};
    ghost use Rattle.odb_request.specs.Represented.Notation.{notation_of};
    ghost use Rattle.odb_request.specs.Represented.Parts.{monitored_as};

    ghost Value = { model.Layout };

    ghost coded = { layout_code };

    ghost view = { λ l. record {
      notation = notation_of l.notation;
      first = l.first;
      columns = map (monitored_as l.columns) l.named.now;
    } };
}

impl<'a> Layout<'a> {
    /// Returns how the rows of what is monitored are printed. O(1).
    pub fn of(alloc: Global, shape: &'a Shape, notation: Notation, first: bool) -> Layout<'a>
        ensures { result ≡ record {
          notation = notation_of notation;
          first = first;
          columns = shape.now.shape.columns;
        } }
    {
        Layout {
            alloc,
            notation,
            first,
            columns: Columns::of(alloc, shape.table_schema()),
            named: shape.columns(),
        }
    }

    /// Prints the columns that the form names.
    fn put_object(&self, out: &mut Printer, form: &Form<'_>) -> Result<(), AllocError>
        ensures { OnOk result (out.new ≡ out.old
            ++ tokens_of (row_object self.now.columns (map (named_by form.now) self.now.columns))) }
    {
        put_object(out, &self.columns, self.named, form)
    }

    /// Prints `{name: columns}`.
    fn put_one(&self, out: &mut Printer, name: &str, form: &Form<'_>) -> Result<(), AllocError>
        ensures { OnOk result (out.new ≡ out.old ++ tokens_of
            (one name.now (row_object self.now.columns (map (named_by form.now) self.now.columns)))) }
    {
        out.put(Token::BeginObject)?;
        out.put(Token::Key(name))?;
        self.put_object(out, form)?;
        out.put(Token::EndObject)
    }

    /// Prints `{"new": columns, "old": columns}`: every column, and the old values of those that differ
    /// (RFC 7047, section 4.1.6).
    fn put_both<'c>(
        &self,
        out: &mut Printer,
        old: &'c RowCells<'c>,
        new: &'c RowCells<'c>,
    ) -> Result<(), AllocError>
        ensures { OnOk result (out.new ≡ out.old ++ tokens_of (new_and_old
            (row_object self.now.columns (map (all_in new.now) self.now.columns))
            (row_object self.now.columns (map (old_in old.now new.now) self.now.columns)))) }
    {
        out.put(Token::BeginObject)?;
        out.put(Token::Key("new"))?;
        self.put_object(out, &Form::All(new))?;
        out.put(Token::Key("old"))?;
        self.put_object(out, &Form::Old(old, new))?;
        out.put(Token::EndObject)
    }

    /// Prints what becomes of a row, as `update` has it: every column of one that comes in or goes out
    /// (RFC 7047, section 4.1.6).
    fn put_update(&self, out: &mut Printer, line: &Line<'_>) -> Result<(), AllocError>
        ensures { OnOk result (out.new ≡ out.old ++ tokens_of (row_update update self.now.first self.now.columns
            (change_in self.now.columns (uuid_of line.now.uuid) line.now.change))) }
    {
        match line.change {
            Change::ComesIn(new) => self.put_whole(out, "new", line.uuid, new),
            Change::GoesOut(old) => self.put_whole(out, "old", line.uuid, old),
            Change::Differs(old, new) => self.put_changed(out, line.uuid, old, new),
        }
    }

    /// Prints `{name: columns}`, with every column of the row.
    fn put_whole(
        &self,
        out: &mut Printer,
        name: &str,
        uuid: Uuid,
        row: &Row,
    ) -> Result<(), AllocError>
        ensures { OnOk result (out.new ≡ out.old ++ tokens_of (one name.now (row_object self.now.columns
            (all_cells (cut self.now.columns (uuid_of uuid) row.now))))) }
    {
        let cells = RowCells::new(self.alloc, uuid, row);
        let put = self.put_one(out, name, &Form::All(&cells));
        drop(cells);
        put
    }

    /// Prints `{"new": columns, "old": columns}` of a row that differs.
    fn put_changed(
        &self,
        out: &mut Printer,
        uuid: Uuid,
        old: &Row,
        new: &Row,
    ) -> Result<(), AllocError>
        ensures { OnOk result (out.new ≡ out.old ++ tokens_of (new_and_old
            (row_object self.now.columns (all_cells (cut self.now.columns (uuid_of uuid) new.now)))
            (row_object self.now.columns (old_cells (cut self.now.columns (uuid_of uuid) old.now)
            (cut self.now.columns (uuid_of uuid) new.now))))) }
    {
        let old_cells = RowCells::new(self.alloc, uuid, old);
        let new_cells = RowCells::new(self.alloc, uuid, new);
        let put = self.put_both(out, &old_cells, &new_cells);
        drop(old_cells);
        drop(new_cells);
        put
    }

    /// Prints what becomes of a row, as `update2` has it: of one that comes in the columns that aren't equal to their
    /// default, and of one that differs the differences of its columns (ovsdb-server(7), 4.1.14).
    fn put_update2(&self, out: &mut Printer, line: &Line<'_>) -> Result<(), AllocError>
        ensures { OnOk result (out.new ≡ out.old ++ tokens_of (row_update update2 self.now.first self.now.columns
            (change_in self.now.columns (uuid_of line.now.uuid) line.now.change))) }
    {
        match line.change {
            Change::ComesIn(new) => self.put_set(out, line.uuid, new),
            Change::GoesOut(_) => put_delete(out),
            Change::Differs(old, new) => self.put_differences(out, line.uuid, old, new),
        }
    }

    /// Prints a row that comes in, with the columns that aren't equal to their default.
    fn put_set(&self, out: &mut Printer, uuid: Uuid, row: &Row) -> Result<(), AllocError>
        ensures { OnOk result (out.new ≡ out.old ++ tokens_of (one
            (if self.now.first then codes "initial" else codes "insert")
            (row_object self.now.columns (set_cells self.now.columns (cut self.now.columns (uuid_of uuid) row.now))))) }
    {
        let cells = RowCells::new(self.alloc, uuid, row);
        let put = self.put_one(out, self.coming(), &Form::Set(&cells));
        drop(cells);
        put
    }

    /// Prints a row that differs, with the differences of its columns.
    fn put_differences(
        &self,
        out: &mut Printer,
        uuid: Uuid,
        old: &Row,
        new: &Row,
    ) -> Result<(), AllocError>
        ensures { OnOk result (out.new ≡ out.old ++ tokens_of (one (codes "modify")
            (row_object self.now.columns (differences self.now.columns
            (cut self.now.columns (uuid_of uuid) old.now) (cut self.now.columns (uuid_of uuid) new.now))))) }
    {
        let old_cells = RowCells::new(self.alloc, uuid, old);
        let new_cells = RowCells::new(self.alloc, uuid, new);
        let put = self.put_one(out, "modify", &Form::Differences(&old_cells, &new_cells));
        drop(old_cells);
        drop(new_cells);
        put
    }

    /// Returns what a row that comes in stands under in `update2`.
    fn coming(&self) -> &'static str
        ensures { result.now ≡ (if self.now.first then codes "initial" else codes "insert") }
    {
        if self.first { "initial" } else { "insert" }
    }

    /// Prints a row's identifier, and what becomes of the row.
    pub(crate) fn put_row(&self, out: &mut Printer, line: &Line<'_>) -> Result<(), AllocError>
        ensures { OnOk result (out.new ≡ out.old ++ row_tokens self.now (line_in self.now.columns line.now)) }
    {
        put_key(out, line.uuid)?;
        match self.notation {
            Notation::Monitor => self.put_update(out, line),
            Notation::MonitorCond => self.put_update2(out, line),
        }
    }

    /// Prints the rows, one after the other.
    fn put_rows(&self, out: &mut Printer, lines: &[Line<'_>]) -> Result<(), AllocError>
        ensures { OnOk result (out.new ≡ out.old
            ++ flat_map (row_tokens self.now) (map (line_in self.now.columns) lines.now)) }
    {
        for line in lines {
            self.put_row(out, line)?;
        }
        Ok(())
    }

    /// Prints a table's name and its rows; nothing where it has no rows.
    ///
    /// O(the bytes printed, and the values compared).
    pub fn put_table(
        &self,
        out: &mut Printer,
        name: &str,
        lines: &[Line<'_>],
    ) -> Result<(), AllocError>
        ensures { OnOk result (out.new ≡ out.old ++ member_tokens name.now
            (table_update self.now.notation self.now.first self.now.columns (map (line_in self.now.columns) lines.now))) }
    {
        if lines.is_empty() {
            return Ok(());
        }
        out.put(Token::Key(name))?;
        out.put(Token::BeginObject)?;
        self.put_rows(out, lines)?;
        out.put(Token::EndObject)
    }
}

/// Prints `{"delete": null}`.
fn put_delete(out: &mut Printer) -> Result<(), AllocError>
    ensures { OnOk result (out.new ≡ out.old ++ tokens_of (one (codes "delete") null)) }
{
    out.put(Token::BeginObject)?;
    out.put(Token::Key("delete"))?;
    out.put(Token::Null)?;
    out.put(Token::EndObject)
}
