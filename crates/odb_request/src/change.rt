//! What `monitor_cond_change` asks of one table.

use odb_cond::Filter;
use odb_schema::TableId;
use std::alloc::AllocError;
use std::sync::Arc;

/// What `monitor_cond_change` asks of one table (ovsdb-server(7), 4.1.13): its new filter.
#[derive(Drop)]
pub struct Change {
    /// The table's place in the schema.
    pub table: TableId,
    /// The filter, for whoever keeps it too.
    pub filter: Arc<Filter>,
}

impl Clone for Change {
    ghost use Rattle.std.specs.Prelude.{◌≡◌};
    ghost use Rattle.std.specs.Arc.{arc_value};

    ghost is_clone = { λ x y. (y.table ≡ x.table) × (arc_value y.filter ≡ arc_value x.filter) };

    /// Makes the same filter for the same table. O(1). An error says that the filter can't be shared once more.
    fn clone(&self) -> Result<Change, AllocError> {
        Ok(Change {
            table: self.table,
            filter: self.filter.clone()?,
        })
    }
}
