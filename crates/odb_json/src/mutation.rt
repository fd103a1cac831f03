//! Mutations in the notation `[column, mutator, value]` (RFC 7047, section 5.1, `<mutation>`). [P 3.2]

ghost use Rattle.std.specs.Prelude.{◌≡◌, None, Some, is_some, option_map};
ghost use Rattle.serde_json.specs.View.{items_view, members_view, view};
ghost use Rattle.odb_atoms.specs.Atom.{uuids};
ghost use Rattle.odb_atoms.specs.ColType as model_type;
ghost use Rattle.odb_atoms.specs.ColType.{scalar};
ghost use Rattle.odb_atoms.specs.First.{each};
ghost use Rattle.odb_atoms.specs.Represented.ColType.{type_of};
ghost use Rattle.odb_mutate.specs.Represented.Mutation.{mutator_of};
ghost use Rattle.odb_schema.specs.Json.{items_list};
ghost use Rattle.odb_schema.specs.Notation.{is_map_notation};
ghost use Rattle.odb_schema.specs.Schema as model_schema;
ghost use Rattle.odb_json.specs.MutationNotation as model;
ghost use Rattle.odb_json.specs.Operation as operation;
ghost use Rattle.odb_json.specs.Represented.Fault.{Gives, Reads};

use crate::atom::SYNTAX;
use crate::clause::triple;
use crate::column::{selector, type_of};
use crate::fault::OpFault;
use crate::leaf::{needed, read_array, read_text};
use crate::names::Names;
use crate::value::{read_by_kind, read_of_type};
use odb_atoms::{Base, ColType, Error, Kind};
use odb_cond::Selector;
use odb_mutate::{Mutation, Mutator, Operator};
use odb_schema::{ColumnId, TableSchema, tagged};
use serde_json::{Map, Value};
use std::alloc::Global;

/// Returns the mutator with the name.
fn mutator_named(name: &str) -> Option<Mutator>
    ensures { option_map mutator_of result ≡ model.mutator_named name.now }
{
    match name {
        "+=" => Some(Mutator::Calculate(Operator::Add)),
        "-=" => Some(Mutator::Calculate(Operator::Subtract)),
        "*=" => Some(Mutator::Calculate(Operator::Multiply)),
        "/=" => Some(Mutator::Calculate(Operator::Divide)),
        "%=" => Some(Mutator::Calculate(Operator::Remainder)),
        "insert" => Some(Mutator::Insert),
        "delete" => Some(Mutator::Delete),
        _ => None,
    }
}

/// Returns whether a column of the type takes the mutator: arithmetic is for integers that are no map,
/// `insert` and `delete` for sets and maps.
fn takes_mutator(column: &ColType, mutator: Mutator) -> bool
    ensures { result ≡ model.takes_mutator (type_of column.now) (mutator_of mutator) }
{
    match mutator {
        Mutator::Calculate(_) => column.key.kind == Kind::Integer && column.value.is_none(),
        Mutator::Insert | Mutator::Delete => !column.is_scalar(),
    }
}

/// Reads the mutator that a string names, if a column of the type takes it.
fn read_mutator(column: &ColType, value: &Value) -> Result<Mutator, OpFault>
    ensures { Gives mutator_of result (model.read_mutator (type_of column.now) (view value.now)) }
{
    let name = read_text(value)?;
    let mutator = mutator_named(name).ok_or(SYNTAX)?;
    if !takes_mutator(column, mutator) {
        return Err(SYNTAX);
    }
    Ok(mutator)
}

/// Returns whether the declared column can change after `insert`.
fn is_mutable(table: &TableSchema, place: usize) -> bool
    ensures { result ≡ model_schema.is_mutable table.now.columns place }
{
    match table.columns().get(place) {
        Some(column) => column.is_mutable(),
        None => false,
    }
}

/// Returns the column with the name, if `update` and `mutate` may change it: `_uuid`, `_version` and an
/// immutable one are `constraint violation`.
pub fn changeable(table: &TableSchema, name: &str) -> Result<ColumnId, OpFault>
    ensures { Gives (λ column. column) result (model.changeable table.now.columns name.now) }
{
    let Some(column) = selector(table, name) else {
        return Err(OpFault::Failed(Error::UnknownColumn));
    };
    match column {
        Selector::Declared(place) if is_mutable(table, place) => Ok(ColumnId::at(place)),
        _ => Err(OpFault::Failed(Error::ConstraintViolation)),
    }
}

/// Reads the column that a string names, if a mutation may change it.
fn read_changeable(table: &TableSchema, value: &Value) -> Result<ColumnId, OpFault>
    ensures { Gives (λ column. column) result
        (model.read_changeable table.now.columns (view value.now)) }
{
    let name = read_text(value)?;
    changeable(table, name)
}

/// Returns the type of a set of keys of a map, of any number of them, without their constraints: these are
/// no part of what a value is read by.
fn key_set(map: &ColType) -> ColType
    ensures { type_of result ≡ record {
      key = model_type.plain (type_of map.now).key.kind;
      value = None;
      min = 0;
      max = None;
    } }
{
    ColType {
        key: Base::plain(map.key.kind),
        value: None,
        min: 0,
        max: None,
    }
}

/// Returns whether it is `["map", content]`.
fn is_map_notation(value: &Value) -> bool
    ensures { result ≡ is_map_notation (view value.now) }
{
    tagged("map", value).is_some()
}

/// Reads the value of a mutation: for arithmetic one integer; for `delete` also a set of keys; else a
/// value of the column's kind.
fn read_operand(
    alloc: Global,
    value: &Value,
    column: &ColType,
    mutator: Mutator,
    names: Option<&Names>,
) -> Result<odb_atoms::Value, OpFault>
    ensures { Reads (λ v. v) result
        (model.read_operand (option_map (λ n. n.now) names.entry) (type_of column.now)
        (mutator_of mutator) (view value.now)) }
{
    match mutator {
        Mutator::Calculate(_) => {
            read_of_type(alloc, value, ColType::scalar(Kind::Integer), names)
        }
        Mutator::Delete if !is_map_notation(value) => {
            read_of_type(alloc, value, key_set(column), names)
        }
        Mutator::Insert | Mutator::Delete => read_by_kind(alloc, value, column, names),
    }
}

/// Reads a mutation of rows of the table, `[column, mutator, value]` (RFC 7047, section 5.1,
/// `<mutation>`). `names` are the identifiers that the names of a transaction stand for; without
/// any there is no `["named-uuid", name]`.
///
/// The first of these faults is returned: an array of three members, else `syntax error`; the
/// column's name, a string (`syntax error`) that the table has (`unknown column`), of a column that
/// can change (`constraint violation` for `_uuid`, `_version` and an immutable one); the mutator,
/// else `syntax error`: `+=`, `-=`, `*=`, `/=` or `%=` where the type is of integers and no map,
/// `insert` or `delete` where it is no scalar; and last the faults of the value, as `read_by_kind`
/// says them: for arithmetic of one integer, for `delete` of a map also of a set of keys. `Memory`
/// may come in place of any of these.
///
/// O(log c) comparisons of names for c columns, and what `read_by_kind` takes.
pub fn read_mutation(
    alloc: Global,
    value: &Value,
    table: &TableSchema,
    names: Option<&Names>,
) -> Result<Mutation, OpFault>
    ensures { Reads (λ mutation. mutation) result
        (model.read_mutation (option_map (λ n. n.now) names.entry) table.now.columns
        (view value.now)) }
{
    let uuid = ColType::scalar(Kind::Uuid);
    let mutation = read_triple(alloc, value, table, &uuid, names);
    drop(uuid);
    mutation
}

/// Reads what `read_mutation` reads. `uuid` is the type of `_uuid` and `_version`.
fn read_triple(
    alloc: Global,
    value: &Value,
    table: &TableSchema,
    uuid: &ColType,
    names: Option<&Names>,
) -> Result<Mutation, OpFault>
    requires { type_of uuid.now ≡ scalar uuids }
    ensures { Reads (λ mutation. mutation) result
        (model.read_mutation (option_map (λ n. n.now) names.entry) table.now.columns
        (view value.now)) }
{
    let (first, second, third) = triple(value).ok_or(SYNTAX)?;
    let column = read_changeable(table, first)?.place();
    let column_type = type_of(table, Selector::Declared(column), uuid);
    let mutator = read_mutator(column_type, second)?;
    let value = read_operand(alloc, third, column_type, mutator, names)?;
    Ok(Mutation::new(column, mutator, value))
}

/// Reads the mutations of an array.
fn read_all(
    alloc: Global,
    items: &[Value],
    table: &TableSchema,
    names: &Names,
) -> Result<Vec<Mutation>, OpFault>
    ensures { Reads (λ v. v.items) result
        (each (model.read_mutation (Some names.now) table.now.columns)
        (items_list (items_view items.now))) }
{
    let mut mutations = Vec::with_capacity(alloc, items.len())?;
    for item in items {
        mutations.push(read_mutation(alloc, item, table, Some(names))?)?;
    }
    Ok(mutations)
}

/// Reads `mutations` of `mutate`.
pub fn read_mutations(
    alloc: Global,
    members: &Map<String, Value>,
    table: &TableSchema,
    names: &Names,
) -> Result<Vec<Mutation>, OpFault>
    ensures { Reads (λ v. v.items) result
        (operation.read_mutations names.now table.now.columns (members_view members.now.entries)) }
{
    let items = read_array(needed("mutations", members)?)?;
    read_all(alloc, items, table, names)
}
