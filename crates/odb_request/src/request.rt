//! What a monitor asks of one table.

ghost use Rattle.std.specs.Prelude.{◌≡◌, IfOk, map};
ghost use Rattle.std.specs.Arc.{arc_value};
ghost use Rattle.std.specs.Bool.{Decides};
ghost use Rattle.odb_cond.specs.Represented.Clause.{selector_of};
ghost use Rattle.odb_request.specs.Represented.Select.{select_of};
ghost use Rattle.odb_request.specs.Represented.Shape.{asked_by, filtered};

use crate::select::Select;
use crate::shape::Shape;
use odb_cond::{Filter, Selector};
use odb_schema::TableId;
use std::alloc::{AllocError, Global};
use std::marker::Model;
use std::sync::Arc;

/// What a monitor asks of one table (RFC 7047, section 4.1.5; ovsdb-server(7), 4.1.12): columns,
/// kinds of change, and a filter. It shares both halves with its copies, so that a copy is two
/// counts.
pub struct Request {
    shape: Arc<Shape>,
    filter: Arc<Filter>,
}

impl Model for Request {
    ghost use Rattle.odb_request.specs.Request as model;
    ghost use Rattle.odb_request.specs.Represented.Codes.{request_code};
    ghost use Rattle.odb_request.specs.Represented.Request.{request_in};

    ghost Value = { model.Request };

    ghost coded = { request_code };

    ghost view = { request_in };
}

impl Request {
    /// Makes the request for this of a table, under the filter.
    pub(crate) fn new(alloc: Global, shape: Shape, filter: Filter) -> Result<Request, AllocError>
        ensures { IfOk result (λ request. request ≡ filtered shape filter) }
    {
        Ok(Request {
            shape: Arc::new(alloc, shape)?,
            filter: Arc::new(alloc, filter)?,
        })
    }

    /// Returns all but the filter, for whoever keeps it too. O(1).
    #[inline(always)]
    pub fn shape(&self) -> &Arc<Shape>
        ensures { arc_value result.now ≡ asked_by self.now }
    {
        &self.shape
    }

    /// Returns the filter (ovsdb-server(7), 4.1.12, `where`), for whoever keeps it too. O(1).
    #[inline(always)]
    pub fn filter(&self) -> &Arc<Filter>
        ensures { arc_value result.now ≡ self.now.filter }
    {
        &self.filter
    }

    /// Returns the table's place in the schema. O(1).
    #[inline(always)]
    pub fn table(&self) -> TableId
        ensures { result ≡ self.now.place }
    {
        self.shape.table()
    }

    /// Returns the columns, by ascending name, as they stand in the schema. O(1).
    #[inline(always)]
    pub fn columns(&self) -> &[Selector]
        ensures { map selector_of result.now ≡ map (λ c. c.source) self.now.shape.columns }
    {
        self.shape.columns()
    }

    /// Returns the kinds of change that are sent (RFC 7047, section 4.1.5, `<monitor-select>`). O(1).
    #[inline(always)]
    pub fn select(&self) -> Select
        ensures { select_of result ≡ self.now.select }
    {
        self.shape.select()
    }

    /// Returns whether the two ask the same: the same of the same table, and with the same members in their filters
    /// in the same order.
    ///
    /// O(the columns with their constraints, and the filters).
    pub fn same(&self, other: &Request) -> bool
        ensures { Decides result (self.now ≡ other.now) }
    {
        self.shape.same(&other.shape) && self.filter.same(&other.filter)
    }

    /// Returns the same under another filter, as `monitor_cond_change` asks for it (ovsdb-server(7), 4.1.13). O(1).
    /// An error says that it can't be shared once more; the request stays as it is.
    pub fn with_filter(&self, filter: Arc<Filter>) -> Result<Request, AllocError>
        ensures { IfOk result (λ request. request ≡ record self.now { filter = arc_value filter }) }
    {
        Ok(Request {
            shape: self.shape.clone()?,
            filter,
        })
    }

    /// Puts another filter in the place of this one, which comes back. O(1).
    pub fn replace_filter(&mut self, filter: Arc<Filter>) -> Arc<Filter>
        ensures request { self.new ≡ record (self.old) { filter = arc_value filter } }
        ensures filter { arc_value result ≡ self.old.filter }
    {
        std::mem::replace(&mut self.filter, filter)
    }

    /// Makes an equal request, which shares both halves. O(1). An error says that they can't be shared once more.
    pub fn try_copy(&self) -> Result<Request, AllocError>
        ensures { IfOk result (λ copy. copy ≡ self.now) }
    {
        Ok(Request {
            shape: self.shape.clone()?,
            filter: self.filter.clone()?,
        })
    }
}

// Written, and not derived, so that each end of a scope is one call to prove.
impl Drop for Request {
    fn drop(self) {
        let Request {
            shape: _,
            filter: _,
        } = self;
    }
}
