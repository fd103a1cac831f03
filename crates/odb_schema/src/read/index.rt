//! Indexes of tables (RFC 7047, section 3.2, `indexes`). [P 1.5]

ghost use Rattle.std.specs.Prelude.{◌≡◌, ◌&&◌, map, not, string_bytes};
ghost use Rattle.std.specs.List.{list_any};
ghost use Rattle.serde_json.specs.View.{items_view, members_view, view};
ghost use Rattle.odb_atoms.specs.Text.{same_text};
ghost use Rattle.odb_schema.specs.SchemaText as model;
ghost use Rattle.odb_schema.specs.Represented.Fault.{Reads};
ghost use Rattle.odb_schema.specs.Represented.Names.{names_of};
ghost use Rattle.odb_schema.specs.Represented.Parts as parts;

use super::leaf::{member, read_array, read_string};
use crate::fault::SchemaFault;
use crate::schema::Column;
use serde_json::{Map, Value};
use std::alloc::Global;

/// Returns whether the columns have one with the name that isn't ephemeral.
fn is_indexable(columns: &[Column], name: &str) -> bool
    ensures { result ≡ model.is_indexable columns.now name.now }
{
    columns
        .iter()
        .any(|column| column.name() == name && !column.is_ephemeral())
}

/// Returns whether the name is among the names.
fn has_name(names: &[String], name: &str) -> bool
    ensures { result ≡ list_any (λ other. same_text name.now (string_bytes other)) names.now }
{
    names.iter().any(|other| name == other.as_str())
}

/// Returns whether the name may stand in an index after the names.
fn may_follow(columns: &[Column], names: &[String], name: &str) -> bool
    ensures { result ≡ (model.is_indexable columns.now name.now
        && not (list_any (λ other. same_text name.now (string_bytes other)) names.now)) }
{
    is_indexable(columns, name) && !has_name(names, name)
}

/// Reads the names of an index, in their order.
fn read_names(
    alloc: Global,
    columns: &[Column],
    items: &[Value],
) -> Result<Vec<String>, SchemaFault>
    ensures { Reads names_of result (parts.index_names columns.now (items_view items.now)) }
{
    let mut names = Vec::with_capacity(alloc, items.len())?;
    for item in items {
        let name = read_string(item)?;
        if !may_follow(columns, &names, name) {
            return Err(SchemaFault::BadIndex);
        }
        names.push(String::from_str(alloc, name)?)?;
    }
    Ok(names)
}

/// Reads an index: one or more names of columns, of which none is ephemeral and none stands twice.
fn read_index(alloc: Global, columns: &[Column], value: &Value) -> Result<Vec<String>, SchemaFault>
    ensures { Reads names_of result (model.read_index columns.now (view value.now)) }
{
    let names = read_names(alloc, columns, read_array(value)?)?;
    if names.is_empty() {
        return Err(SchemaFault::BadIndex);
    }
    Ok(names)
}

fn read_all(
    alloc: Global,
    columns: &[Column],
    items: &[Value],
) -> Result<Vec<Vec<String>>, SchemaFault>
    ensures { Reads (λ v. map names_of v.items) result
        (parts.indexes_in columns.now (items_view items.now)) }
{
    let mut indexes = Vec::with_capacity(alloc, items.len())?;
    for item in items {
        indexes.push(read_index(alloc, columns, item)?)?;
    }
    Ok(indexes)
}

/// Reads `indexes` of a table with the columns: none where it is not given.
pub fn read_indexes(
    alloc: Global,
    columns: &[Column],
    members: &Map<String, Value>,
) -> Result<Vec<Vec<String>>, SchemaFault>
    ensures { Reads (λ v. map names_of v.items) result
        (parts.indexes_of columns.now (members_view members.now.entries)) }
{
    match member("indexes", members) {
        None => Ok(Vec::new(alloc)),
        Some(value) => read_all(alloc, columns, read_array(value)?),
    }
}
