//! Requests of monitors (RFC 7047, section 4.1.5; ovsdb-server(7), monitor_cond).
//!
//! Where memory is refused a call returns `AllocError` or the fault `Memory`, and what it was
//! given is as it was, unless its own page says otherwise. A call whose result has no such error
//! takes no memory.
#![tactic(auto)]

mod alike;
mod change;
mod columns;
mod filter;
mod leaf;
mod names;
mod notation;
mod read;
mod request;
mod select;
mod shape;
mod types;

pub use change::Change;
pub use notation::Notation;
pub use odb_json::OpFault as RequestFault;
pub use read::{read_changes, read_requests};
pub use request::Request;
pub use select::Select;
pub use shape::Shape;
