//! Conditions in the notation `[column, function, value]` (RFC 7047, section 5.1, `<condition>`).
//! [P 3.1]

ghost use Rattle.std.specs.Prelude.{◌≡◌, Some, option_map};
ghost use Rattle.serde_json.specs.View.{items_view, members_view, view};
ghost use Rattle.odb_atoms.specs.Atom.{uuids};
ghost use Rattle.odb_atoms.specs.ColType.{scalar};
ghost use Rattle.odb_atoms.specs.First.{each};
ghost use Rattle.odb_atoms.specs.Represented.ColType.{type_of};
ghost use Rattle.odb_cond.specs.Represented.Clause.{function_of};
ghost use Rattle.odb_schema.specs.Json.{items_list};
ghost use Rattle.odb_json.specs.ConditionNotation as model;
ghost use Rattle.odb_json.specs.Operation as operation;
ghost use Rattle.odb_json.specs.Represented.Fault.{Gives, Reads};

use crate::atom::SYNTAX;
use crate::column::{read_selector, type_of};
use crate::fault::OpFault;
use crate::leaf::{needed, read_array, read_text};
use crate::names::Names;
use crate::value::{read_by_kind, read_of_type};
use odb_atoms::{ColType, Kind};
use odb_cond::{Clause, Function, Where};
use odb_schema::TableSchema;
use serde_json::{Map, Value};
use std::alloc::Global;

/// Returns the function with the name.
fn function_named(name: &str) -> Option<Function>
    ensures { option_map function_of result ≡ model.function_named name.now }
{
    match name {
        "<" => Some(Function::Less),
        "<=" => Some(Function::LessOrEqual),
        "==" => Some(Function::Equal),
        "!=" => Some(Function::NotEqual),
        ">=" => Some(Function::GreaterOrEqual),
        ">" => Some(Function::Greater),
        "includes" => Some(Function::Includes),
        "excludes" => Some(Function::Excludes),
        _ => None,
    }
}

/// Returns whether it is one that orders integers.
fn is_ordered(function: Function) -> bool
    ensures { result ≡ model.is_ordered (function_of function) }
{
    match function {
        Function::Less | Function::LessOrEqual => true,
        Function::GreaterOrEqual | Function::Greater => true,
        Function::Equal | Function::NotEqual => false,
        Function::Includes | Function::Excludes => false,
    }
}

/// Returns whether there is one integer, or one at most: in a scalar, or in a set whose `max` is 1.
fn is_comparable(column: &ColType) -> bool
    ensures { result ≡ model.is_comparable (type_of column.now) }
{
    column.is_single() && column.value.is_none() && column.key.kind == Kind::Integer
}

/// Returns whether a column of the type takes the function: the ordered ones are for integers of which
/// there is no second.
fn takes_function(column: &ColType, function: Function) -> bool
    ensures { result ≡ model.takes_function (type_of column.now) (function_of function) }
{
    !is_ordered(function) || is_comparable(column)
}

/// Returns the three members of an array of three.
pub fn triple(value: &Value) -> Option<(&Value, &Value, &Value)>
    ensures { option_map (λ parts. (view parts.0.now, view parts.1.now, view parts.2.now)) result
        ≡ model.triple (view value.now) }
{
    match value.as_array()?.as_slice() {
        [first, second, third] => Some((first, second, third)),
        _ => None,
    }
}

/// Reads the function that a string names, if a column of the type takes it.
fn read_function(column: &ColType, value: &Value) -> Result<Function, OpFault>
    ensures { Gives function_of result (model.read_function (type_of column.now) (view value.now)) }
{
    let name = read_text(value)?;
    let function = function_named(name).ok_or(SYNTAX)?;
    if !takes_function(column, function) {
        return Err(SYNTAX);
    }
    Ok(function)
}

/// Reads the value of a condition: for the ordered functions one integer, else one of the column's kind.
fn read_operand(
    alloc: Global,
    value: &Value,
    column: &ColType,
    function: Function,
    names: Option<&Names>,
) -> Result<odb_atoms::Value, OpFault>
    ensures { Reads (λ v. v) result
        (model.read_operand (option_map (λ n. n.now) names.entry) (type_of column.now)
        (function_of function) (view value.now)) }
{
    if is_ordered(function) {
        read_of_type(alloc, value, ColType::scalar(Kind::Integer), names)
    } else {
        read_by_kind(alloc, value, column, names)
    }
}

/// Reads a condition on rows of the table, `[column, function, value]` (RFC 7047, section 5.1,
/// `<condition>`). `names` are the identifiers that the names of a transaction stand for; outside a
/// transaction there are none, and no `["named-uuid", name]`.
///
/// The first of these faults is returned: an array of three members, else `syntax error`; the
/// column's name, a string (`syntax error`) that the table has (`unknown column`); the function,
/// one of `<`, `<=`, `==`, `!=`, `>=`, `>`, `includes` and `excludes`, of which `<`, `<=`, `>=` and
/// `>` are for scalars of integers and for sets of at most one integer, else `syntax error`; and
/// last the faults of the value, as `read_by_kind` says them: for `<`, `<=`, `>=` and `>` of one
/// integer. `Memory` may come in place of any of these.
///
/// O(log c) comparisons of names for c columns, and what `read_by_kind` takes.
pub fn read_clause(
    alloc: Global,
    value: &Value,
    table: &TableSchema,
    names: Option<&Names>,
) -> Result<Clause, OpFault>
    ensures { Reads (λ clause. clause) result
        (model.read_clause (option_map (λ n. n.now) names.entry) table.now.columns
        (view value.now)) }
{
    let uuid = ColType::scalar(Kind::Uuid);
    let clause = read_triple(alloc, value, table, &uuid, names);
    drop(uuid);
    clause
}

/// Reads what `read_clause` reads. `uuid` is the type of `_uuid` and `_version`.
fn read_triple(
    alloc: Global,
    value: &Value,
    table: &TableSchema,
    uuid: &ColType,
    names: Option<&Names>,
) -> Result<Clause, OpFault>
    requires { type_of uuid.now ≡ scalar uuids }
    ensures { Reads (λ clause. clause) result
        (model.read_clause (option_map (λ n. n.now) names.entry) table.now.columns
        (view value.now)) }
{
    let (first, second, third) = triple(value).ok_or(SYNTAX)?;
    let column = read_selector(table, first)?;
    let column_type = type_of(table, column, uuid);
    let function = read_function(column_type, second)?;
    let value = read_operand(alloc, third, column_type, function, names)?;
    Ok(Clause::new(column, function, value))
}

/// Reads the conditions of an array.
fn read_clauses(
    alloc: Global,
    items: &[Value],
    table: &TableSchema,
    names: &Names,
) -> Result<Vec<Clause>, OpFault>
    ensures { Reads (λ v. v.items) result
        (each (model.read_clause (Some names.now) table.now.columns)
        (items_list (items_view items.now))) }
{
    let mut clauses = Vec::with_capacity(alloc, items.len())?;
    for item in items {
        clauses.push(read_clause(alloc, item, table, Some(names))?)?;
    }
    Ok(clauses)
}

/// Reads `where` of an operation.
pub fn read_where(
    alloc: Global,
    members: &Map<String, Value>,
    table: &TableSchema,
    names: &Names,
) -> Result<Where, OpFault>
    ensures { Reads (λ conditions. conditions) result
        (operation.read_where names.now table.now.columns (members_view members.now.entries)) }
{
    let items = read_array(needed("where", members)?)?;
    Ok(Where::new(read_clauses(alloc, items, table, names)?))
}
