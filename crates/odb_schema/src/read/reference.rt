//! References to tables (RFC 7047, section 3.2, `refTable` and `refType`). [P 1.5]

ghost use Rattle.std.specs.Prelude.{◌≡◌, false, is_some, option_map};
ghost use Rattle.std.specs.List.{list_any};
ghost use Rattle.serde_json.specs.View.{members_view, view};
ghost use Rattle.odb_atoms.specs.Represented.Atom.{kind_in};
ghost use Rattle.odb_atoms.specs.Represented.ColType.{reference_of};
ghost use Rattle.odb_atoms.specs.Text.{same_text};
ghost use Rattle.odb_schema.specs.Json as json;
ghost use Rattle.odb_schema.specs.Represented.Fault.{Gives, Reads};
ghost use Rattle.odb_schema.specs.SchemaText as model;
ghost use Rattle.odb_schema.specs.Represented.Parts as parts;
ghost use Rattle.odb_schema.specs.Represented.Parts.{names_in};
ghost use Rattle.std.specs.Prelude.{codes};

use super::leaf::{member, read_string};
use crate::fault::SchemaFault;
use odb_atoms::{Kind, Reference};
use serde_json::{Map, Value};
use std::alloc::Global;

/// Returns whether there is a member with the name.
pub fn has_member(name: &str, members: &Map<String, Value>) -> bool
    ensures { result ≡ list_any (same_text name.now) (names_in (members_view members.now.entries)) }
{
    member(name, members).is_some()
}

fn ref_table_in<'a>(
    tables: &Map<String, Value>,
    kind: Kind,
    value: &'a Value,
) -> Result<&'a str, SchemaFault>
    ensures { Gives (λ name. name.now) result
        (model.read_ref_table (names_in (members_view tables.now.entries)) (kind_in kind)
        (view value.now)) }
{
    let name = read_string(value)?;
    if kind != Kind::Uuid {
        return Err(SchemaFault::BadType);
    }
    if !has_member(name, tables) {
        return Err(SchemaFault::UnknownRefTable);
    }
    Ok(name)
}

fn read_ref_table<'a>(
    tables: &Map<String, Value>,
    kind: Kind,
    members: &'a Map<String, Value>,
) -> Result<Option<&'a str>, SchemaFault>
    ensures { Gives (option_map (λ name. name.now)) result
        (json.if_given
        (model.read_ref_table (names_in (members_view tables.now.entries)) (kind_in kind))
        (json.get_member (codes "refTable") (members_view members.now.entries))) }
{
    match member("refTable", members) {
        None => Ok(None),
        Some(value) => Ok(Some(ref_table_in(tables, kind, value)?)),
    }
}

fn ref_type_in(value: &Value) -> Result<bool, SchemaFault>
    ensures { Gives (λ weak. weak) result (model.read_ref_type (view value.now)) }
{
    match read_string(value)? {
        "strong" => Ok(false),
        "weak" => Ok(true),
        _ => Err(SchemaFault::BadType),
    }
}

fn weak_in(stands: bool, value: &Value) -> Result<bool, SchemaFault>
    ensures { Gives (λ weak. weak) result (model.read_with stands model.read_ref_type (view value.now)) }
{
    let weak = ref_type_in(value)?;
    if !stands {
        return Err(SchemaFault::BadType);
    }
    Ok(weak)
}

fn read_weak(stands: bool, members: &Map<String, Value>) -> Result<bool, SchemaFault>
    ensures { Gives (λ weak. weak) result
        (json.given_or false (model.read_with stands model.read_ref_type)
        (json.get_member (codes "refType") (members_view members.now.entries))) }
{
    match member("refType", members) {
        None => Ok(false),
        Some(value) => weak_in(stands, value),
    }
}

/// Reads the reference of a base type, if it has one.
pub fn read_reference(
    alloc: Global,
    tables: &Map<String, Value>,
    kind: Kind,
    members: &Map<String, Value>,
) -> Result<Option<Reference>, SchemaFault>
    ensures { Reads (option_map reference_of) result
        (parts.reference_in (names_in (members_view tables.now.entries)) (kind_in kind)
        (members_view members.now.entries)) }
{
    let table = read_ref_table(tables, kind, members)?;
    let weak = read_weak(table.is_some(), members)?;
    match table {
        None => Ok(None),
        Some(table) => Ok(Some(Reference {
            table: String::from_str(alloc, table)?,
            weak,
        })),
    }
}
