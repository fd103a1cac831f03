//! What the parts of a schema are read with.

use serde_json::{Map, Value};
use std::alloc::Global;

/// What tables, columns and types are read with.
#[derive(Clone, Copy)]
pub struct Reader<'a> {
    pub alloc: Global,
    /// The tables of the schema, which `refTable` may name.
    pub tables: &'a Map<String, Value>,
}
