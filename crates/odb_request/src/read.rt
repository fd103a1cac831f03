//! Requests from JSON (RFC 7047, section 4.1.5; ovsdb-server(7), 4.1.12 and 4.1.13). [P 9.1, 9.5]

ghost use Rattle.std.specs.Prelude.{◌≡◌, ◌<◌, IfOk, length, map, ok_or};
ghost use Rattle.std.specs.Arc.{arc_value};
ghost use Rattle.serde_json.specs.View.{members_view, view};
ghost use Rattle.odb_atoms.specs.Error.{unknown_table};
ghost use Rattle.odb_atoms.specs.First.{each};
ghost use Rattle.odb_json.specs.Represented.Fault.{Gives, Reads};
ghost use Rattle.odb_request.specs.Represented.Change.{change_of};
ghost use Rattle.odb_request.specs.Represented.Notation.{notation_of};
ghost use Rattle.odb_request.specs.Represented.Parts.{read_asked};
ghost use Rattle.odb_request.specs.Represented.Shape.{table_name};
ghost use Rattle.odb_request.specs.Requests as model;
ghost use Rattle.odb_schema.specs.Json.{members_list};
ghost use Rattle.odb_schema.specs.Schema.{table_place};

use crate::change::Change;
use crate::columns::read_monitored;
use crate::filter::{read_filter, read_where};
use crate::leaf::{SYNTAX, request_object};
use crate::names::are_named;
use crate::notation::Notation;
use crate::request::Request;
use crate::select::read_select;
use crate::shape::{Shape, table_at};
use odb_atoms::Error;
use odb_json::{OpFault, no_other, read_object};
use odb_schema::{Schema, TableId};
use serde_json::{Map, Value};
use std::alloc::Global;
use std::sync::Arc;

/// Reads the table with the name.
fn read_table(schema: &Schema, name: &str) -> Result<TableId, OpFault>
    ensures place { Gives (λ table. table) result
        (ok_or (table_place schema.now name.now) unknown_table) }
    ensures in_schema { IfOk result (λ table. table < length schema.now.tables) }
    ensures named { IfOk result (λ table. table_name schema.now table ≡ name.now) }
{
    match schema.table(name) {
        Some(table) => Ok(table),
        None => Err(OpFault::Failed(Error::UnknownTable)),
    }
}

/// Refuses a member that a request in the notation doesn't have.
fn no_unknown(notation: Notation, members: &Map<String, Value>) -> Result<(), OpFault>
    ensures { Gives (λ none. none) result
        (model.no_other (model.known_members (notation_of notation)) (members_view members.now.entries)) }
{
    match notation {
        Notation::Monitor => no_other(&["columns", "select"], members),
        Notation::MonitorCond => no_other(&["columns", "where", "select"], members),
    }
}

/// Reads what is asked of a table that was found.
fn read_asked(
    alloc: Global,
    schema: &Arc<Schema>,
    id: TableId,
    members: &Map<String, Value>,
    notation: Notation,
) -> Result<Request, OpFault>
    requires { id < length (arc_value schema.now).tables }
    ensures { Reads (λ request. request) result
        (read_asked (arc_value schema.now) (notation_of notation) (table_name (arc_value schema.now) id) id
        (members_view members.now.entries)) }
{
    let table = table_at(schema, id);
    let columns = read_monitored(alloc, table, members)?;
    let filter = read_where(alloc, members, table, notation)?;
    let select = read_select(members)?;
    no_unknown(notation, members)?;
    let shape = Shape::new(schema.clone()?, id, columns, select);
    Ok(Request::new(alloc, shape, filter)?)
}

/// Reads a member of an object of requests.
fn read_request(
    alloc: Global,
    name: &str,
    value: &Value,
    schema: &Arc<Schema>,
    notation: Notation,
) -> Result<Request, OpFault>
    ensures { Reads (λ request. request) result
        (model.read_request (arc_value schema.now) (notation_of notation) (name.now, view value.now)) }
{
    let id = read_table(schema, name)?;
    let members = request_object(value)?;
    read_asked(alloc, schema, id, members, notation)
}

/// Reads the members of an object of requests, by ascending table name.
fn read_all(
    alloc: Global,
    members: &Map<String, Value>,
    schema: &Arc<Schema>,
    notation: Notation,
) -> Result<Vec<Request>, OpFault>
    ensures { Reads (λ v. v.items) result
        (each (model.read_request (arc_value schema.now) (notation_of notation))
        (members_list (members_view members.now.entries))) }
{
    let mut requests = Vec::with_capacity(alloc, members.len())?;
    for (name, value) in members.iter() {
        requests.push(read_request(alloc, name.as_str(), value, schema, notation)?)?;
    }
    Ok(requests)
}

/// Reads the requests of a monitor, `{table: request}`, by ascending table name, where `notation` says what
/// asks (RFC 7047, section 4.1.5; ovsdb-server(7), 4.1.12).
///
/// The first of these faults is returned: an object, else `syntax error`; then table by table by
/// ascending name
///
/// - a table of the schema, else `unknown table`;
/// - an object, or an array of exactly one, else `syntax error`;
/// - `columns`, whose faults are those of `odb_json::read_columns`; without it all columns but `_uuid`;
/// - `where`, in `monitor_cond` alone: an array (`syntax error`) whose members are booleans or
///   conditions, with the faults of `odb_json::read_clause` without names; without it every row;
/// - `select`: an object (`syntax error`) in which `initial`, `insert`, `delete` and `modify` in this
///   order are booleans (`syntax error`), and nothing else stands (`syntax error`); each is `true`
///   where it is left out;
/// - a member besides these, `where` of `monitor` among them: `syntax error`.
///
/// Last, a table or a column that is named twice is `syntax error`. `Memory` may come in place of any of
/// these. Nothing is kept of what is refused.
///
/// For each of n requests of c columns O(c²) comparisons of names, c being at most 258, and what
/// `read_clause` takes; O(n²) comparisons of the tables' names. The requests share the schema, so that
/// each takes O(c) bytes beside its filter.
pub fn read_requests(
    alloc: Global,
    json: &Value,
    schema: &Arc<Schema>,
    notation: Notation,
) -> Result<Vec<Request>, OpFault>
    ensures { Reads (λ v. v.items) result
        (model.read_requests (arc_value schema.now) (notation_of notation) (view json.now)) }
{
    let members = read_object(json)?;
    let requests = read_all(alloc, members, schema, notation)?;
    if !are_named(&requests) {
        return Err(SYNTAX);
    }
    Ok(requests)
}

/// Reads a member of an object of changes.
fn read_change(alloc: Global, name: &str, value: &Value, schema: &Schema) -> Result<Change, OpFault>
    ensures { Reads (change_of schema.now) result
        (model.read_change schema.now (name.now, view value.now)) }
{
    let id = read_table(schema, name)?;
    let members = request_object(value)?;
    let filter = read_filter(alloc, members, table_at(schema, id))?;
    no_other(&["where"], members)?;
    Ok(Change {
        table: id,
        filter: Arc::new(alloc, filter)?,
    })
}

/// Reads the members of an object of changes, by ascending table name.
fn read_all_changes(
    alloc: Global,
    members: &Map<String, Value>,
    schema: &Schema,
) -> Result<Vec<Change>, OpFault>
    ensures { Reads (λ v. map (change_of schema.now) v.items) result
        (each (model.read_change schema.now) (members_list (members_view members.now.entries))) }
{
    let mut changes = Vec::with_capacity(alloc, members.len())?;
    for (name, value) in members.iter() {
        changes.push(read_change(alloc, name.as_str(), value, schema)?)?;
    }
    Ok(changes)
}

/// Reads what `monitor_cond_change` asks, `{table: change}`: the new filters, by ascending table name
/// (ovsdb-server(7), 4.1.13).
///
/// The first of these faults is returned: an object, else `syntax error`; then table by table by
/// ascending name a table of the schema, else `unknown table`; an object, or an array of exactly
/// one, else `syntax error`; `where`, as `read_requests` says; another member, `columns` and
/// `select` among them, `syntax error`. `Memory` may come in place of any of these. Nothing is kept
/// of what is refused.
///
/// For each table O(log t) comparisons of names for t tables, and what `read_clause` takes.
pub fn read_changes(alloc: Global, json: &Value, schema: &Schema) -> Result<Vec<Change>, OpFault>
    ensures { Reads (λ v. map (change_of schema.now) v.items) result
        (model.read_changes schema.now (view json.now)) }
{
    read_all_changes(alloc, read_object(json)?, schema)
}
