//! Parts whose rows are handed out to be tested, so that others may do so: by several threads, say.
ghost use Rattle.std.specs.Prelude.{◌≡◌, map};
ghost use Rattle.std.specs.Arc.{arc_value};
ghost use Rattle.odb_monitor.specs.Represented.Bare.{part_bare};
ghost use Rattle.odb_monitor.specs.Represented.Search.{IsWalk};
ghost use Rattle.odb_monitor.specs.Walk.{selected_of};
ghost use Rattle.odb_tables.specs.Represented.Table.{listed};

use crate::bare::Bare;
use crate::part::Part;
use odb_atoms::Row;
use odb_cond::Filter;
use std::marker::Model;
use std::sync::Arc;
use uuid::Uuid;

/// A part, the filter by which rows are looked for in it, and the rows of its table, each to be tested by the filter.
pub struct Walk<'a> {
    bare: Bare<'a>,
    filter: Arc<Filter>,
    rows: Vec<(Uuid, &'a Row)>,
}

impl<'a> Model for Walk<'a> {
    ghost use Rattle.std.specs.Prelude.{map};
    ghost use Rattle.std.specs.Arc.{arc_value};
    ghost use Rattle.odb_monitor.specs.Represented.Search.{IsWalk};
    ghost use Rattle.odb_monitor.specs.Represented.Bare.{part_bare};
    ghost use Rattle.odb_monitor.specs.Represented.Part.{walk_code};
    ghost use Rattle.odb_monitor.specs.Walk as model;
    ghost use Rattle.odb_tables.specs.Represented.Table.{listed};

    ghost Value = { model.Walk };

    ghost coded = { walk_code };

    ghost view = { λ w. record { part = part_bare w.bare; filter = arc_value w.filter; rows = map listed w.rows.items } };

    ghost invariant = { λ w. IsWalk w.bare.told w.bare.request.now.filter w.bare.rows (arc_value w.filter) (map listed w.rows.items) };
}

impl<'a> Walk<'a> {
    /// Puts together what a part is made of, and what is tested. O(1).
    pub(crate) fn new(bare: Bare<'a>, filter: Arc<Filter>, rows: Vec<(Uuid, &'a Row)>) -> Walk<'a>
        requires { IsWalk bare.told bare.request.now.filter bare.rows (arc_value filter) (map listed rows.items) }
        ensures { result.part ≡ part_bare bare.entry }
    {
        Walk { bare, filter, rows }
    }

    /// Returns the filter by which the rows are to be tested. O(1).
    pub fn filter(&self) -> &Filter
        ensures { result.now ≡ self.now.filter }
    {
        &*self.filter
    }

    /// Returns the rows that are to be tested, each with its identifier, in no order that is told. O(1).
    pub fn rows(&self) -> &[(Uuid, &'a Row)]
        ensures { map listed result.now ≡ self.now.rows }
    {
        self.rows.as_slice()
    }

    /// Returns the part, of which it is known then that these rows are looked for: those that the filter selects. O(1).
    pub fn found(self, found: Vec<(Uuid, &'a Row)>) -> Part<'a>
        requires { map listed found.items ≡ selected_of self.filter self.rows }
        ensures { result ≡ self.entry.part }
    {
        let Walk {
            bare,
            filter: _,
            rows: _,
        } = self;
        Part::knowing(bare, found)
    }
}

// Written, and not derived, so that each end of a scope is one call to prove.
impl Drop for Walk<'_> {
    fn drop(self) {
        let Walk {
            bare: _,
            filter: _,
            rows: _,
        } = self;
    }
}
