//! In which columns of a table rows may have other values than before.
ghost use Rattle.std.specs.Prelude.{◌≡◌, ℕ, nat_eq, false, true, length, IfOk};
ghost use Rattle.std.specs.List.{list_any};
ghost use Rattle.odb_tables.specs.Represented.ChangedColumns as spec;
ghost use Rattle.odb_tables.specs.Represented.ChangedColumns.{IsWithin, may_change};

use std::alloc::{AllocError, Global};

/// The most columns that are told apart: where there are more, all count as changed.
const MOST: usize = 16;

/// The columns of a table in which a row that was there before may have another value now.
pub(crate) struct ChangedColumns {
    /// Whether these are all.
    pub(crate) all: bool,
    /// Their places, each once, where they aren't all.
    pub(crate) places: Vec<usize>,
}

impl ChangedColumns {
    /// Makes those of a table in which nothing changed. O(1).
    pub(crate) fn new(alloc: Global) -> ChangedColumns
        ensures { (p : ℕ) → may_change result p ≡ false }
    {
        ChangedColumns {
            all: false,
            places: Vec::new(alloc),
        }
    }

    /// Returns whether the column at the place is one of them. O(1).
    pub(crate) fn may_change(&self, place: usize) -> bool
        ensures { result ≡ may_change self.now place }
    {
        self.all || self.places.contains(&place)
    }

    /// Adds all columns, where this is so. O(1).
    pub(crate) fn add_all_where(&mut self, is_so: bool)
        ensures within { IsWithin self.old self.new }
        ensures all { is_so ≡ true → (p : ℕ) → may_change self.new p ≡ true }
    {
        if is_so {
            self.all = true;
        }
    }

    /// Adds the columns at these places; and all where there are many, or memory is refused. O(the places).
    pub(crate) fn add_each(&mut self, places: &[usize])
        ensures within { IsWithin self.old self.new }
        ensures added { (p : ℕ) → may_change self.new p ≡ false → list_any (nat_eq p) places.now ≡ false }
    {
        for place in places {
            self.add(*place);
        }
    }

    fn add(&mut self, place: usize)
        ensures within { IsWithin self.old self.new }
        ensures added { may_change self.new place ≡ true }
    {
        if self.may_change(place) {
            return;
        }
        if self.places.len() >= MOST || self.places.push(place).is_err() {
            self.all = true;
        }
    }
}

/// Returns whether a column of a table may have changed, by their places; it may where there is no such table. O(1).
pub(crate) fn may_change_at(changed: &[ChangedColumns], table: usize, place: usize) -> bool
    ensures { result ≡ spec.may_change_at changed.now table place }
{
    match changed.get(table) {
        Some(of_table) => of_table.may_change(place),
        None => true,
    }
}

/// Makes those of so many tables in which nothing changed. O(their number).
pub(crate) fn none_changed(alloc: Global, tables: usize) -> Result<Vec<ChangedColumns>, AllocError>
    ensures { IfOk result (λ changed. length changed.items ≡ tables) }
{
    let mut changed = Vec::with_capacity(alloc, tables)?;
    for _ in 0..tables {
        changed.push(ChangedColumns::new(alloc))?;
    }
    Ok(changed)
}

// Written, and not derived, so that each end of a scope is one call to prove.
impl Drop for ChangedColumns {
    fn drop(self) {
        let ChangedColumns { all: _, places: _ } = self;
    }
}
