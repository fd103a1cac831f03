//! How many tables a schema may have, and how many columns a table. [P 1.5, 14]

ghost use Rattle.std.specs.Prelude.{◌≡◌, [], length, nat_lt, option_map, unwrap_or};
ghost use Rattle.serde_json.specs.View.{members_view, view};
ghost use Rattle.odb_schema.specs.Json.{members_list};
ghost use Rattle.odb_schema.specs.SchemaText as model;
ghost use Rattle.odb_schema.specs.Represented.Parts as parts;

use super::leaf::member;
use serde_json::{Map, Value};

/// The most tables of a schema.
const MAX_TABLES: usize = 256;

/// The most columns of a table.
const MAX_COLUMNS: usize = 256;

/// Returns the members of the object at a key, if there is one.
fn members_at<'a>(key: &str, value: &'a Value) -> Option<&'a Map<String, Value>>
    ensures { unwrap_or (option_map (λ m. members_list (members_view m.now.entries)) result) []
        ≡ model.members_at key.now (view value.now) }
{
    member(key, value.as_object()?)?.as_object()
}

/// Returns whether it is a table with more than 256 columns.
fn is_too_wide(table: &Value) -> bool
    ensures { result ≡ parts.is_too_wide (view table.now) }
{
    match members_at("columns", table) {
        None => false,
        Some(columns) => columns.len() > MAX_COLUMNS,
    }
}

fn has_too_wide(tables: &Map<String, Value>) -> bool
    ensures { result ≡ parts.has_too_wide (members_list (members_view tables.now.entries)) }
{
    for (_, table) in tables.iter() {
        if is_too_wide(table) {
            return true;
        }
    }
    false
}

/// Returns whether there are more than 256 tables, or more than 256 columns in one. What is not of the JSON
/// kind that a schema needs there is not counted.
pub fn is_too_large(schema: &Value) -> bool
    ensures { result ≡ model.is_too_large (view schema.now) }
{
    match members_at("tables", schema) {
        None => false,
        Some(tables) => tables.len() > MAX_TABLES || has_too_wide(tables),
    }
}
