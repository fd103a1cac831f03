//! Filters that sessions ask of tables.
ghost use Rattle.std.specs.Prelude.{◌≡◌, IfOk};
ghost use Rattle.std.specs.Arc.{arc_value};
ghost use Rattle.std.specs.Bool.{Decides};

use odb_cond::Filter;
use odb_schema::TableId;
use std::alloc::AllocError;
use std::marker::Model;
use std::sync::Arc;

/// A filter that a session asks of a table.
pub struct Asked {
    table: TableId,
    filter: Arc<Filter>,
}

impl Model for Asked {
    ghost use Rattle.odb_interest.specs.Keys as model;

    ghost Value = { model.Asked };

    ghost use Rattle.odb_interest.specs.Represented.Asked.{asked_of};

    ghost view = { asked_of };
}

impl Asked {
    /// Makes a filter of a table that shares the filter, and doesn't copy it. O(1).
    pub(crate) fn new(table: TableId, filter: &Arc<Filter>) -> Result<Asked, AllocError>
        ensures { IfOk result (λ asked. asked ≡ (table, arc_value filter.now)) }
    {
        Ok(Asked {
            table,
            filter: filter.clone()?,
        })
    }

    /// Returns the table. O(1).
    #[inline(always)]
    pub fn table(&self) -> TableId
        ensures { result ≡ self.now.0 }
    {
        self.table
    }

    /// Returns the filter. O(1).
    pub fn filter(&self) -> &Arc<Filter>
        ensures { arc_value result.now ≡ self.now.1 }
    {
        &self.filter
    }

    /// Returns whether it is this filter of this table: the same members in the same order. O(members).
    #[inline(always)]
    pub fn is(&self, table: TableId, filter: &Filter) -> bool
        ensures { Decides result (self.now ≡ (table, filter.now)) }
    {
        self.table == table && self.filter.same(filter)
    }
}

// Written, and not derived, so that each end of a scope is one call to prove.
impl Drop for Asked {
    fn drop(self) {
        let Asked {
            table: _,
            filter: _,
        } = self;
    }
}
