//! The filters of requests (ovsdb-server(7), 4.1.12, `where`).

ghost use Rattle.std.specs.Prelude.{◌≡◌, codes, map};
ghost use Rattle.serde_json.specs.View.{items_view, members_view, view};
ghost use Rattle.odb_atoms.specs.First.{each};
ghost use Rattle.odb_cond.specs.Represented.Filter.{member_of};
ghost use Rattle.odb_json.specs.Represented.Fault.{Reads};
ghost use Rattle.odb_request.specs.Represented.Notation.{notation_of};
ghost use Rattle.odb_request.specs.Represented.Parts.{read_condition};
ghost use Rattle.odb_request.specs.Requests as model;
ghost use Rattle.odb_schema.specs.Json.{get_member, items_list};

use crate::notation::Notation;
use odb_cond::{Filter, Member};
use odb_json::{OpFault, read_array, read_clause};
use odb_schema::{TableSchema, member};
use serde_json::{Map, Value};
use std::alloc::Global;

/// Reads a condition, as a member of a filter.
fn read_condition(alloc: Global, value: &Value, table: &TableSchema) -> Result<Member, OpFault>
    ensures { Reads member_of result (read_condition table.now.columns (view value.now)) }
{
    Ok(Member::When(read_clause(alloc, value, table, None)?))
}

/// Reads a member of a filter: a boolean, or else a condition.
fn read_member(alloc: Global, value: &Value, table: &TableSchema) -> Result<Member, OpFault>
    ensures { Reads member_of result (model.read_member table.now.columns (view value.now)) }
{
    match value.as_bool() {
        Some(always) => Ok(Member::Always(always)),
        None => read_condition(alloc, value, table),
    }
}

/// Reads the members of an array.
fn read_members(alloc: Global, items: &[Value], table: &TableSchema) -> Result<Vec<Member>, OpFault>
    ensures { Reads (λ v. map member_of v.items) result
        (each (model.read_member table.now.columns) (items_list (items_view items.now))) }
{
    let mut read = Vec::with_capacity(alloc, items.len())?;
    for item in items {
        read.push(read_member(alloc, item, table)?)?;
    }
    Ok(read)
}

/// Reads the member `where`, without which every row is selected.
pub fn read_filter(
    alloc: Global,
    members: &Map<String, Value>,
    table: &TableSchema,
) -> Result<Filter, OpFault>
    ensures { Reads (λ filter. filter) result
        (model.read_filter table.now.columns
        (get_member (codes "where") (members_view members.now.entries))) }
{
    match member("where", members) {
        None => Ok(Filter::new(alloc, Vec::new(alloc))?),
        Some(value) => {
            let items = read_array(value)?;
            Ok(Filter::new(alloc, read_members(alloc, items, table)?)?)
        }
    }
}

/// Reads the member `where` of a request, which `monitor` doesn't have.
pub fn read_where(
    alloc: Global,
    members: &Map<String, Value>,
    table: &TableSchema,
    notation: Notation,
) -> Result<Filter, OpFault>
    ensures { Reads (λ filter. filter) result
        (model.read_where_of (notation_of notation) table.now.columns
        (members_view members.now.entries)) }
{
    match notation {
        Notation::Monitor => Ok(Filter::new(alloc, Vec::new(alloc))?),
        Notation::MonitorCond => read_filter(alloc, members, table),
    }
}
