//! Filters under which clients are told. [P 9.5]
ghost use Rattle.std.specs.Prelude.{◌≡◌, IfOk, map};
ghost use Rattle.std.specs.Arc.{arc_value};
ghost use Rattle.std.specs.Bool.{OnFalse};
ghost use Rattle.odb_request.specs.Represented.Change.{change_of};
ghost use Rattle.odb_request.specs.Represented.Shape.{table_name};
ghost use Rattle.odb_service.specs.Session.{filter_of, refilter};
ghost use Rattle.odb_sessions.specs.Composed.{asked_of};
ghost use Rattle.odb_sessions.specs.Filtered.{asked_under};
ghost use Rattle.odb_sessions.specs.Represented.Item.{filters_of};
ghost use Rattle.odb_sessions.specs.Represented.Under.{filters_in};

use crate::item::Changes;
use crate::monitor::Watching;
use odb_cond::Filter;
use odb_request::{Change, Request};
use odb_schema::{Schema, TableId};
use std::alloc::{AllocError, Global};
use std::sync::Arc;

/// Under which filters the client of a monitor is told.
#[derive(Clone, Copy)]
pub enum Under<'a> {
    /// Those that the monitor asks.
    Asked,
    /// These, in place of those that the monitor asks of their tables.
    Changed(&'a Changes),
}

/// Returns the name of a table, or nothing where the schema hasn't the table.
fn table_name(schema: &Schema, table: TableId) -> &str
    ensures { result.now ≡ table_name schema.now table }
{
    match schema.tables().get(table.place()) {
        Some(table) => table.name(),
        None => "",
    }
}

/// Returns the first of these filters that is of the table with this name, or else the old one. O(n) comparisons of
/// names for n filters.
fn filter_among<'a>(
    schema: &Schema,
    changes: &'a [Change],
    name: &str,
    old: &'a Arc<Filter>,
) -> &'a Arc<Filter>
    ensures { arc_value result.now ≡ filter_of (map (change_of schema.now) changes.now) name.now (arc_value old.now) }
{
    for change in changes {
        if table_name(schema, change.table) == name {
            return &change.filter;
        }
    }
    old
}

/// Returns whether one of these filters is of the table with this name, and may be another than the old one. O(n) comparisons
/// of names for n filters.
fn is_among(schema: &Schema, changes: &[Change], name: &str, old: &Arc<Filter>) -> bool
    ensures { OnFalse result (filter_of (map (change_of schema.now) changes.now) name.now (arc_value old.now) ≡ arc_value old.now) }
{
    for change in changes {
        if table_name(schema, change.table) == name {
            return true;
        }
    }
    false
}

/// Returns whether the request may have another filter under these. What a filter is looked up in.
pub(crate) fn may_differ(under: Under<'_>, request: &Request) -> bool
    ensures { OnFalse result (filter_of (filters_in under.entry) request.now.shape.name request.now.filter ≡ request.now.filter) }
{
    match under {
        Under::Asked => false,
        Under::Changed(changes) => is_among(
            &changes.schema,
            changes.changes.as_slice(),
            request.shape().table_schema().name(),
            request.filter(),
        ),
    }
}

/// Returns the filter of the request, under these.
pub(crate) fn filter_under<'a>(under: Under<'a>, request: &'a Request) -> &'a Arc<Filter>
    ensures { arc_value result.now ≡ filter_of (filters_in under.entry) request.now.shape.name request.now.filter }
{
    match under {
        Under::Asked => request.filter(),
        Under::Changed(changes) => filter_changed(changes, request),
    }
}

/// Returns the filter of the request, under these changes.
fn filter_changed<'a>(changes: &'a Changes, request: &'a Request) -> &'a Arc<Filter>
    ensures { arc_value result.now ≡ filter_of (filters_of changes.now) request.now.shape.name request.now.filter }
{
    let shape = request.shape();
    let name = shape.table_schema().name();
    filter_among(
        &changes.schema,
        changes.changes.as_slice(),
        name,
        request.filter(),
    )
}

/// Returns what is asked of these tables, under these filters. For n tables O(n) times what a filter is looked up in.
pub(crate) fn requests_under(
    alloc: Global,
    tables: &[Watching],
    under: Under<'_>,
) -> Result<Vec<Request>, AllocError>
    ensures { IfOk result (λ requests. requests.items ≡ refilter (filters_in under.entry) (asked_of tables.now)) }
{
    let mut requests = Vec::with_capacity(alloc, tables.len())?;
    for table in tables {
        requests.push_reserved(request_under(&table.request, under)?);
    }
    Ok(requests)
}

/// Returns what is asked, under these filters.
fn request_under(request: &Request, under: Under<'_>) -> Result<Request, AllocError>
    ensures { IfOk result (λ made. made ≡ asked_under (filters_in under.entry) request.now) }
{
    let filter = filter_under(under, request);
    request.with_filter(filter.clone()?)
}
