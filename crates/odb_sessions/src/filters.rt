//! New filters, each for a table. [P 9.5]
ghost use Rattle.std.specs.Prelude.{◌≡◌, ℕ, List, false, bytes_eq, option_map, position, unwrap_or};
ghost use Rattle.std.specs.Arc.{arc_value};
ghost use Rattle.odb_cond.specs.Filter as model;
ghost use Rattle.odb_request.specs.Represented.Shape.{table_name};
ghost use Rattle.odb_service.specs.Session.{filter_of};
ghost use Rattle.odb_sessions.specs.Represented.Item.{filters_of};

use crate::item::Changes;
use odb_cond::Filter;
use odb_request::Change;
use odb_schema::Schema;
use std::sync::Arc;

impl Changes {
    /// Takes the filter for the table of this name out, if there is one. O(n) comparisons for n filters.
    pub(crate) fn take(&mut self, name: &str) -> Option<Arc<Filter>>
        ensures filter { (f : model.Filter) → unwrap_or (option_map arc_value result) f ≡ filter_of (filters_of self.old) name.now f }
        ensures others { (n : List ℕ) (f : model.Filter) → bytes_eq name.now n ≡ false
            → filter_of (filters_of self.new) n f ≡ filter_of (filters_of self.old) n f }
    {
        let Some(place) = place_of(&self.schema, self.changes.as_slice(), name) else {
            return None;
        };
        let Change { filter, .. } = self.changes.remove(place);
        Some(filter)
    }
}

/// Returns where the filter for the table of this name stands.
fn place_of(schema: &Schema, changes: &[Change], name: &str) -> Option<usize>
    ensures { result ≡ position (λ c. bytes_eq (table_name schema.now c.table) name.now) changes.now }
{
    changes
        .iter()
        .position(|change| is_of(schema, change, name))
}

/// Returns whether the filter is for the table of this name.
fn is_of(schema: &Schema, change: &Change, name: &str) -> bool
    ensures { result ≡ bytes_eq (table_name schema.now change.now.table) name.now }
{
    match schema.tables().get(change.table.place()) {
        Some(table) => table.name() == name,
        None => "" == name,
    }
}
