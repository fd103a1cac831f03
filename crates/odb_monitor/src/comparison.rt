//! What is shown of single rows. [P 9.4]
ghost use Rattle.std.specs.Prelude.{◌≡◌, List, Some, option_map};
ghost use Rattle.std.specs.List.{list_all};
ghost use Rattle.std.specs.Option.{option_copied};
ghost use Rattle.odb_atoms.specs.Represented.Atom.{uuid_of};
ghost use Rattle.odb_atoms.specs.Uuid as model_uuid;
ghost use Rattle.odb_atoms.specs.Value.{same_values};
ghost use Rattle.odb_cond.specs.Filter.{selects};
ghost use Rattle.odb_monitor.specs.Represented.Line.{change_in, line_in};
ghost use Rattle.odb_monitor.specs.Represented.Sides.{is_same_in, line_at, passed, sides_in, tells};
ghost use Rattle.odb_monitor.specs.View.{change, cut};
ghost use Rattle.odb_monitor.specs.View as view;
ghost use Rattle.odb_request.specs.Represented.Select.{select_of};
ghost use Rattle.odb_request.specs.Request as model;

use crate::line::{Change, Line};
use crate::sides::Sides;
use crate::told::Told;
use odb_atoms::Row;
use odb_cond::Selector;
use odb_print::RowCells;
use odb_request::{Request, Select};
use std::alloc::Global;
use uuid::Uuid;

/// By what the two sides of a row are compared.
#[derive(Clone, Copy)]
pub struct Comparison<'a> {
    /// For the cells that a row doesn't keep, which take no memory.
    pub alloc: Global,
    /// Whether this is a first reply.
    pub first: bool,
    /// What the client was told.
    pub told: Told<'a>,
    /// What is asked.
    pub request: &'a Request,
}

impl<'a> Comparison<'a> {
    /// Makes the comparison by which a row is compared. O(1).
    pub fn of(alloc: Global, first: bool, told: Told<'a>, request: &'a Request) -> Comparison<'a>
        ensures first { result.first ≡ first }
        ensures told { result.told ≡ told.entry }
        ensures request { result.request.now ≡ request.now }
    {
        Comparison {
            alloc,
            first,
            told,
            request,
        }
    }

    /// Returns what is shown of a row. It costs what `Filter::holds` does, for each side, and O(the values of the
    /// monitored columns).
    pub fn line<'r>(&self, sides: &Sides<'r>) -> Option<Line<'r>>
        ensures { option_map (line_in self.now.request.now.shape.columns) result
            ≡ line_at self.now.first self.now.told self.now.request.now (sides_in sides.now) }
    {
        let change = self.change(sides)?;
        if !is_shown(self.first, self.request.select(), change) {
            return None;
        }
        Some(Line {
            uuid: sides.key.uuid(),
            change,
        })
    }

    /// Returns what becomes of a row, also where that is switched off.
    fn change<'r>(&self, sides: &Sides<'r>) -> Option<Change<'r>>
        ensures { option_map (change_in self.now.request.now.shape.columns sides.now.key) result
            ≡ change
            (option_map (cut self.now.request.now.shape.columns sides.now.key) (passed (tells self.now.told self.now.request.now.filter) sides.now.key (option_copied sides.now.old)))
            (option_map (cut self.now.request.now.shape.columns sides.now.key) (passed (selects self.now.request.now.filter) sides.now.key (option_copied sides.now.new))) }
    {
        let old = self.old(sides);
        let new = self.new(sides);
        self.between(sides.key.uuid(), old, new)
    }

    /// Returns the row of which the client was told.
    fn old<'r>(&self, sides: &Sides<'r>) -> Option<&'r Row>
        ensures { option_copied result ≡ passed (tells self.now.told self.now.request.now.filter)
            sides.now.key (option_copied sides.now.old) }
    {
        let uuid = sides.key.uuid();
        match sides.old {
            Some(row) if self.told.tells(self.request.filter(), uuid, row) => Some(row),
            _ => None,
        }
    }

    /// Returns the row that is asked for.
    fn new<'r>(&self, sides: &Sides<'r>) -> Option<&'r Row>
        ensures { option_copied result ≡ passed (selects self.now.request.now.filter)
            sides.now.key (option_copied sides.now.new) }
    {
        let uuid = sides.key.uuid();
        match sides.new {
            Some(row) if self.request.filter().holds(uuid, row) => Some(row),
            _ => None,
        }
    }

    /// Returns what leads from one row to the other.
    fn between<'r>(
        &self,
        uuid: Uuid,
        old: Option<&'r Row>,
        new: Option<&'r Row>,
    ) -> Option<Change<'r>>
        ensures { option_map (change_in self.now.request.now.shape.columns (uuid_of uuid)) result
            ≡ change
            (option_map (cut self.now.request.now.shape.columns (uuid_of uuid)) (option_copied old.entry))
            (option_map (cut self.now.request.now.shape.columns (uuid_of uuid)) (option_copied new.entry)) }
    {
        match (old, new) {
            (None, None) => None,
            (None, Some(new)) => Some(Change::ComesIn(new)),
            (Some(old), None) => Some(Change::GoesOut(old)),
            (Some(old), Some(new)) => self.difference(uuid, old, new),
        }
    }

    /// Returns whether the rows differ in a monitored column.
    fn difference<'r>(&self, uuid: Uuid, old: &'r Row, new: &'r Row) -> Option<Change<'r>>
        ensures { option_map (change_in self.now.request.now.shape.columns (uuid_of uuid)) result
            ≡ change
            (Some (cut self.now.request.now.shape.columns (uuid_of uuid) old.now))
            (Some (cut self.now.request.now.shape.columns (uuid_of uuid) new.now)) }
    {
        if self.have_same_cells(uuid, old, new) {
            return None;
        }
        Some(Change::Differs(old, new))
    }

    /// Returns whether the rows are the same in the monitored columns.
    fn have_same_cells(&self, uuid: Uuid, old: &Row, new: &Row) -> bool
        ensures { result ≡ same_values (cut self.now.request.now.shape.columns (uuid_of uuid) old.now)
            (cut self.now.request.now.shape.columns (uuid_of uuid) new.now) }
    {
        let old = RowCells::new(self.alloc, uuid, old);
        let new = RowCells::new(self.alloc, uuid, new);
        let same = are_same(self.request.columns(), &old, &new);
        drop(old);
        drop(new);
        same
    }
}

/// Returns whether the cells of these columns are the same.
fn are_same(columns: &[Selector], old: &RowCells<'_>, new: &RowCells<'_>) -> bool
    ensures { result ≡ list_all (is_same_in old.now new.now) columns.now }
{
    columns.iter().all(|column| is_same(*column, old, new))
}

/// Returns whether the cells of the column are the same.
fn is_same(column: Selector, old: &RowCells<'_>, new: &RowCells<'_>) -> bool
    ensures { result ≡ is_same_in old.now new.now column }
{
    *old.get(column) == *new.get(column)
}

/// Returns whether the kind of change isn't switched off (RFC 7047, section 4.1.5, `<monitor-select>`).
fn is_shown(first: bool, select: Select, change: Change<'_>) -> bool
    ensures { (cs : List model.Column) (u : model_uuid.Uuid) → result ≡ view.is_shown first (select_of select) (change_in cs u change.entry) }
{
    match change {
        Change::ComesIn(_) if first => select.initial,
        Change::ComesIn(_) => select.insert,
        Change::GoesOut(_) => select.delete,
        Change::Differs(_, _) => select.modify,
    }
}
