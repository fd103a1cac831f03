//! Database schemas (RFC 7047, section 3.2): read from JSON, and printed.
//!
//! Where memory is refused a call returns `AllocError` or the fault `Memory`, and what it was
//! given is as it was, unless its own page says otherwise. A call whose result has no such error
//! takes no memory.
#![tactic(auto)]

mod fault;
mod notation;
mod read;
mod schema;
mod text;
mod write;

pub use fault::SchemaFault;
pub use notation::{parse_uuid, tagged, text_in, write_uuid, write_value};
pub use read::member;
pub use schema::{Column, ColumnId, Schema, TableId, TableSchema};
pub use text::{is_id, is_name};
pub use write::Object;
