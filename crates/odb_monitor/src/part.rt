//! One table of a job: what the client was told of it, what is asked, and how they differ. [P 9.2]
ghost use Rattle.std.specs.Prelude.{◌≡◌, ◌++◌, [], Bool, IfOk, IfSome, IsPermutation, OnOk, filter_map, is_some, map, not, option_map, option_to_list, true};
ghost use Rattle.std.specs.Arc.{arc_value};
ghost use Rattle.std.specs.List.{list_any};
ghost use Rattle.std.specs.List.Sorted.{IsSortedByKey};
ghost use Rattle.odb_atoms.specs.Uuid.{uuid_cmp};
ghost use Rattle.odb_monitor.specs.Listing.{listed_tokens};
ghost use Rattle.odb_monitor.specs.Represented.Bare.{part_bare};
ghost use Rattle.odb_monitor.specs.Represented.Candidates.{Covers, WasSo, changed_in, stayed_in, unchanged};
ghost use Rattle.odb_monitor.specs.Represented.Line.{line_in};
ghost use Rattle.odb_monitor.specs.Represented.Part.{changes_shown, is_silent, part_of, part_tokens};
ghost use Rattle.odb_monitor.specs.Represented.Sides.{line_at, sides_in, table_then};
ghost use Rattle.odb_monitor.specs.Represented.Sought.{AreSought};
ghost use Rattle.odb_request.specs.Represented.Notation.{notation_of};
ghost use Rattle.odb_request.specs.Request as model_request;
ghost use Rattle.odb_tables.specs.Database as model_table;
ghost use Rattle.odb_tables.specs.Represented.Table.{listed};
ghost use Rattle.odb_tables.specs.Represented.TableChange.{AreDistinct};

use crate::bare::Bare;
use crate::comparison::Comparison;
use crate::layout::Layout;
use crate::line::Line;
use crate::listing::Listing;
use crate::search::sought;
use crate::sides::{Sides, add_others, changed, fresh, keys_of};
use crate::told::Told;
use odb_atoms::Row;
use odb_print::Printer;
use odb_request::{Notation, Request};
use odb_tables::{RowChange, Rows, TableChange};
use rayon::prelude::*;
use std::alloc::{AllocError, Global};
use std::marker::Model;
use std::sync::Arc;
use std::thread::Threads;
use uuid::Uuid;

/// One table of a job: what the client was told of its rows, and what is asked; and the rows that are looked for in it,
/// once they were found.
pub struct Part<'a> {
    bare: Bare<'a>,
    found: Option<Vec<(Uuid, &'a Row)>>,
}

impl<'a> Model for Part<'a> {
    ghost use Rattle.std.specs.Prelude.{IfSome, map};
    ghost use Rattle.odb_monitor.specs.Job as model;
    ghost use Rattle.odb_monitor.specs.Represented.Bare.{part_bare};
    ghost use Rattle.odb_monitor.specs.Represented.Part.{part_code};
    ghost use Rattle.odb_monitor.specs.Represented.Sought.{AreSought};
    ghost use Rattle.odb_tables.specs.Represented.Table.{listed};

    ghost Value = { model.Part };

    ghost coded = { part_code };

    ghost view = { λ p. part_bare p.bare };

    ghost invariant = { λ p. IfSome p.found (λ rows. AreSought p.bare.told p.bare.request.now.filter (map listed rows.items) p.bare.rows) };
}

impl<'a> Part<'a> {
    /// Puts together what is asked of a table, what the client was told of it, its rows as they are now, and how
    /// they have changed since the client was told: `None` where they haven't. O(1).
    ///
    /// Of a change the old row is read, and not the new one, which is among the rows. Where the client was told
    /// nothing, the changes aren't read at all.
    pub fn new(
        request: &'a Request,
        told: Told<'a>,
        rows: Rows<'a>,
        changes: Option<Arc<TableChange>>,
    ) -> Part<'a>
        ensures { result ≡ part_of request.now told.entry rows.entry (option_map arc_value changes) }
    {
        let bare = Bare {
            request,
            told,
            rows,
            changes,
        };
        Part::without(bare)
    }

    /// Puts a part together of which it is known that these rows are looked for. O(1).
    pub(crate) fn knowing(bare: Bare<'a>, found: Vec<(Uuid, &'a Row)>) -> Part<'a>
        requires { AreSought bare.told bare.request.now.filter (map listed found.items) bare.rows }
        ensures { result ≡ part_bare bare.entry }
    {
        Part {
            bare,
            found: Some(found),
        }
    }

    /// Puts a part together of which it isn't known which rows are looked for. O(1).
    pub(crate) fn without(bare: Bare<'a>) -> Part<'a>
        ensures { result ≡ part_bare bare.entry }
    {
        Part { bare, found: None }
    }

    /// Returns what it is made of, without what was found in it. O(1).
    pub(crate) fn into_bare(self) -> Bare<'a>
        ensures { part_bare result ≡ self.entry }
    {
        let Part { bare, found: _ } = self;
        bare
    }

    /// Prints the table's name and the rows that are shown, and says whether there are some.
    pub(crate) fn put(
        &self,
        alloc: Global,
        notation: Notation,
        first: bool,
        out: &mut Printer,
    ) -> Result<bool, AllocError>
        ensures tokens { OnOk result (out.new ≡ out.old ++ part_tokens (notation_of notation) first self.now) }
        ensures shown { IfOk result (λ shown. shown ≡ not (is_silent first self.now)) }
    {
        if self.is_told() {
            return Ok(false);
        }
        let lines = self.lines(alloc, first)?;
        let shape = self.bare.request.shape();
        let layout = Layout::of(alloc, shape, notation, first);
        let put = layout.put_table(out, shape.table_schema().name(), &lines);
        drop(layout);
        put?;
        Ok(!lines.is_empty())
    }

    /// Returns whether its client was told of its rows as they are now, under what is asked: nothing is shown then. O(1).
    fn is_told(&self) -> bool
        ensures { result ≡ true → (first : Bool) → (changes_shown first self.now).entries ≡ [] }
    {
        if self.bare.changes.is_some() {
            return false;
        }
        match self.bare.told {
            Told::Nothing => false,
            Told::Asked => true,
            Told::Under(_) => false,
        }
    }

    /// Counts the rows that changed since its client was told. O(1). No contract speaks of it.
    pub(crate) fn changed_rows(&self) -> usize {
        rows_of(&self.bare.changes).len()
    }

    /// Returns whether some row is shown.
    pub(crate) fn has_lines(&self, alloc: Global, first: bool) -> Result<bool, AllocError>
        ensures { IfOk result (λ shown. shown ≡ not (is_silent first self.now)) }
    {
        if self.is_told() {
            return Ok(false);
        }
        let comparison = Comparison::of(alloc, first, self.bare.told, self.bare.request);
        let sides = sides_of(
            alloc,
            &comparison,
            &self.found,
            rows_of(&self.bare.changes),
            &self.bare.rows,
        )?;
        Ok(has_line(&comparison, &sides))
    }

    /// Lists the rows of which something may be shown, by ascending identifier: where there are many, several threads put
    /// them in order.
    pub(crate) fn list<R: Threads + Sync>(
        &self,
        rt: &R,
        alloc: Global,
        notation: Notation,
        first: bool,
    ) -> Result<Listing<'_>, AllocError>
        ensures { IfOk result (λ listing. listed_tokens listing ≡ part_tokens (notation_of notation) first self.now) }
    {
        let comparison = Comparison::of(alloc, first, self.bare.told, self.bare.request);
        let mut sides = sides_of(
            alloc,
            &comparison,
            &self.found,
            rows_of(&self.bare.changes),
            &self.bare.rows,
        )?;
        sort_by_several(rt, &mut sides);
        Ok(Listing::new(comparison, notation, sides))
    }

    /// Returns what is shown of the table, by ascending identifier.
    fn lines(&self, alloc: Global, first: bool) -> Result<Vec<Line<'_>>, AllocError>
        ensures { IfOk result (λ lines. map (line_in self.now.request.shape.columns) lines.items
            ≡ (changes_shown first self.now).entries) }
    {
        let comparison = Comparison::of(alloc, first, self.bare.told, self.bare.request);
        let mut sides = sides_of(
            alloc,
            &comparison,
            &self.found,
            rows_of(&self.bare.changes),
            &self.bare.rows,
        )?;
        sort(&mut sides);
        lines_of(alloc, &comparison, &sides)
    }
}

/// Returns the rows that were changed.
fn rows_of(changes: &Option<Arc<TableChange>>) -> &[RowChange]
    ensures distinct { AreDistinct result.now }
    ensures was { (now : model_table.Table) → WasSo result.now (table_then (option_map arc_value changes.now) now) now }
{
    match changes {
        Some(changes) => changes.rows(),
        None => &[],
    }
}

/// Returns the rows of which something may be shown, where these are those that are looked for, if they were found: O(those
/// that were changed and those that are looked for), and where these weren't found what `odb_tables::Rows::selected`
/// costs.
fn sides_of<'a>(
    alloc: Global,
    comparison: &Comparison<'_>,
    found: &'a Option<Vec<(Uuid, &'a Row)>>,
    changes: &'a [RowChange],
    rows: &'a Rows<'a>,
) -> Result<Vec<Sides<'a>>, AllocError>
    requires distinct { AreDistinct changes.now }
    requires found { IfSome found.now (λ list. AreSought comparison.now.told comparison.now.request.now.filter (map listed list.items) rows.now) }
    ensures { IfOk result (λ sides. (then : model_table.Table) → WasSo changes.now then rows.now
        → Covers (map sides_in sides.items) comparison.now.first comparison.now.told comparison.now.request.now then rows.now) }
{
    match found {
        Some(found) => sides_by(alloc, comparison.told, found, changes, rows),
        None => {
            let found = sought(alloc, comparison.told, comparison.request, rows)?;
            sides_by(alloc, comparison.told, &found, changes, rows)
        }
    }
}

/// Returns the rows of which something may be shown, where these are those that are looked for: O(those that were changed),
/// where the filter that is asked was told; O(those that are looked for), where nothing was; else O(n log n) for n of
/// both.
fn sides_by<'a>(
    alloc: Global,
    told: Told<'_>,
    found: &[(Uuid, &'a Row)],
    changes: &'a [RowChange],
    rows: &'a Rows<'a>,
) -> Result<Vec<Sides<'a>>, AllocError>
    requires { AreDistinct changes.now }
    ensures { IfOk result (λ sides. (first : Bool) (q : model_request.Request) (then : model_table.Table)
        → AreSought told.entry q.filter (map listed found.now) rows.now → WasSo changes.now then rows.now
        → Covers (map sides_in sides.items) first told.entry q then rows.now) }
{
    match told {
        Told::Nothing => fresh(alloc, found),
        Told::Asked => changed(alloc, changes, rows),
        Told::Under(_) => told_apart(alloc, found, changes, rows),
    }
}

/// Returns each row that was changed, and of these the others, as ones that stayed: O(n log n) for n of both.
fn told_apart<'a>(
    alloc: Global,
    found: &[(Uuid, &'a Row)],
    changes: &'a [RowChange],
    rows: &'a Rows<'a>,
) -> Result<Vec<Sides<'a>>, AllocError>
    ensures { IfOk result (λ sides. map sides_in sides.items
        ≡ map (changed_in rows.now) changes.now ++ map stayed_in (unchanged changes.now (map listed found.now))) }
{
    let keys = keys_of(alloc, changes)?;
    let mut all = changed(alloc, changes, rows)?;
    add_others(found, &keys, &mut all)?;
    Ok(all)
}

/// Returns what is shown of these rows.
fn lines_of<'r>(
    alloc: Global,
    comparison: &Comparison<'_>,
    sides: &[Sides<'r>],
) -> Result<Vec<Line<'r>>, AllocError>
    ensures { IfOk result (λ lines. map (line_in comparison.now.request.now.shape.columns) lines.items
        ≡ filter_map (line_at comparison.now.first comparison.now.told comparison.now.request.now) (map sides_in sides.now)) }
{
    let mut lines = Vec::new(alloc);
    for row in sides {
        add_line(comparison, row, &mut lines)?;
    }
    Ok(lines)
}

/// Appends what is shown of a row.
fn add_line<'r>(
    comparison: &Comparison<'_>,
    row: &Sides<'r>,
    lines: &mut Vec<Line<'r>>,
) -> Result<(), AllocError>
    ensures { OnOk result (map (line_in comparison.now.request.now.shape.columns) lines.new.items
        ≡ map (line_in comparison.now.request.now.shape.columns) lines.old.items
        ++ option_to_list (line_at comparison.now.first comparison.now.told comparison.now.request.now (sides_in row.now))) }
{
    let Some(line) = comparison.line(row) else {
        return Ok(());
    };
    if lines.push(line).is_err() {
        return Err(AllocError);
    }
    Ok(())
}

/// Returns whether something is shown of one of these rows.
fn has_line(comparison: &Comparison<'_>, sides: &[Sides<'_>]) -> bool
    ensures { result ≡ list_any (λ row.
        is_some (line_at comparison.now.first comparison.now.told comparison.now.request.now (sides_in row))) sides.now }
{
    sides.iter().any(|row| comparison.line(row).is_some())
}

/// Puts the rows in the order of their identifiers. O(n log n).
fn sort(sides: &mut Vec<Sides<'_>>)
    ensures permutation { IsPermutation sides.old.items sides.new.items }
    ensures sorted { IsSortedByKey (λ row. row.key) uuid_cmp sides.new.items }
{
    sides.sort_unstable_by_key(|row| row.key);
}

/// Puts the rows in the order of their identifiers, by several threads where there are 4,096 or more. O(n log n).
fn sort_by_several<R: Threads + Sync>(rt: &R, sides: &mut Vec<Sides<'_>>)
    ensures permutation { IsPermutation sides.old.items sides.new.items }
    ensures sorted { IsSortedByKey (λ row. row.key) uuid_cmp sides.new.items }
{
    par_sort_unstable_by_key(rt, sides, |row| row.key);
}

// Written, and not derived, so that each end of a scope is one call to prove.
impl Drop for Part<'_> {
    fn drop(self) {
        let Part { bare: _, found: _ } = self;
    }
}
