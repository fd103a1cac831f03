//! Schemas (RFC 7047, section 3.2, `<database-schema>`). [P 1.2, 1.5]

ghost use Rattle.std.specs.Prelude.{◌≡◌, false, IfOk, option_map};
ghost use Rattle.serde_json.specs.View.{members_view, view};
ghost use Rattle.odb_schema.specs.SchemaText as model;
ghost use Rattle.odb_schema.specs.Represented.Fault.{Gives, Reads};
ghost use Rattle.odb_schema.specs.Represented.Names.{TablesAscend};
ghost use Rattle.odb_schema.specs.Represented.Parts as parts;
ghost use Rattle.odb_schema.specs.Represented.Sound.{HasSound, IsSound};
ghost use Rattle.odb_schema.specs.Json.{object};

use super::leaf::{member, needed, read_object, read_string};
use super::reader::Reader;
use super::size::is_too_large;
use crate::fault::SchemaFault;
use crate::schema::{Schema, TableSchema};
use crate::text::{is_name, is_version};
use serde_json::{Map, Value};
use std::alloc::Global;

/// The most bytes of a schema's text.
const MAX_FILE: usize = 16_777_216;

/// Reads `name` of a schema.
fn read_name(members: &Map<String, Value>) -> Result<&str, SchemaFault>
    ensures { Gives (λ name. name.now) result (parts.name_of (members_view members.now.entries)) }
{
    let name = read_string(needed("name", members)?)?;
    if !is_name(name) {
        return Err(SchemaFault::BadId);
    }
    Ok(name)
}

/// Reads `version` of a schema.
fn read_version(members: &Map<String, Value>) -> Result<&str, SchemaFault>
    ensures { Gives (λ version. version.now) result
        (parts.version_of (members_view members.now.entries)) }
{
    let version = read_string(needed("version", members)?)?;
    if !is_version(version) {
        return Err(SchemaFault::Syntax);
    }
    Ok(version)
}

/// Reads `cksum`, where it is given.
fn read_cksum(members: &Map<String, Value>) -> Result<Option<&str>, SchemaFault>
    ensures { Gives (option_map (λ cksum. cksum.now)) result
        (parts.cksum_of (members_view members.now.entries)) }
{
    match member("cksum", members) {
        None => Ok(None),
        Some(value) => Ok(Some(read_string(value)?)),
    }
}

/// Reads `tables` of a schema, by ascending name.
fn read_schema_tables(
    alloc: Global,
    members: &Map<String, Value>,
) -> Result<Vec<TableSchema>, SchemaFault>
    ensures exact { Reads (λ v. v.items) result (parts.tables_of (members_view members.now.entries)) }
    ensures ascending { IfOk result (λ v. TablesAscend v.items) }
{
    let tables = read_object(needed("tables", members)?)?;
    let reader = Reader { alloc, tables };
    reader.read_tables()
}

/// Reads a schema, of the members of its object.
fn read_members(alloc: Global, members: &Map<String, Value>) -> Result<Schema, SchemaFault>
    requires sound { HasSound (members_view members.now.entries) }
    requires small { model.is_too_large (object (members_view members.now.entries)) ≡ false }
    ensures { Reads (λ schema. schema) result (parts.schema_in (members_view members.now.entries)) }
{
    let name = read_name(members)?;
    let version = read_version(members)?;
    let cksum = read_cksum(members)?;
    let tables = read_schema_tables(alloc, members)?;
    let name = String::from_str(alloc, name)?;
    let version = String::from_str(alloc, version)?;
    let cksum = match cksum {
        None => None,
        Some(cksum) => Some(String::from_str(alloc, cksum)?),
    };
    Ok(Schema::new(name, version, cksum, tables))
}

/// Reads the schema that JSON is, if it is one.
fn read_schema(alloc: Global, value: &Value) -> Result<Schema, SchemaFault>
    requires { IsSound (view value.now) }
    ensures { Reads (λ schema. schema) result (model.read_schema (view value.now)) }
{
    if is_too_large(value) {
        return Err(SchemaFault::TooLarge);
    }
    read_members(alloc, read_object(value)?)
}

/// Reads the JSON that a text is, if it is some.
fn read_json(alloc: Global, text: &[u8]) -> Result<Value, SchemaFault>
    ensures exact { Reads view result (parts.json_of text.now) }
    ensures sound { IfOk result (λ value. IsSound (view value)) }
{
    match Value::from_slice(alloc, text) {
        Ok(value) => Ok(value),
        Err(error) => if error.is_memory() {
            Err(SchemaFault::Memory)
        } else {
            Err(SchemaFault::Syntax)
        },
    }
}

impl Schema {
    /// Reads the schema that a file's text is (RFC 7047, section 3.2): JSON in UTF-8 of at most 16,777,216
    /// bytes. Members that a schema does not have are passed over, and of a repeated member the
    /// last counts.
    ///
    /// An error says that the text is no schema, and names its first fault: the size, then whether
    /// it is JSON, then the numbers of tables and columns, then `name`, `version`, `cksum` and
    /// `tables`; the tables by ascending name, in each the columns by ascending name and then
    /// `maxRows`, `isRoot` and `indexes`. `Memory` alone says nothing of the text.
    ///
    /// O(n log n) for n bytes: as a table has at most 256 columns, a name in an index is compared
    /// with at most 512 others.
    pub fn read(alloc: Global, text: &[u8]) -> Result<Schema, SchemaFault>
        ensures { Reads (λ schema. schema) result (model.schema_of_file text.now) }
    {
        if text.len() > MAX_FILE {
            return Err(SchemaFault::TooLarge);
        }
        let value = read_json(alloc, text)?;
        read_schema(alloc, &value)
    }
}
