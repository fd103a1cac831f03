//! Calls and replies of JSON-RPC (RFC 7047, section 4).
//!
//! Where memory is refused a call returns `AllocError`, and what it was given is as it was,
//! unless its own page says otherwise. A call whose result has no such error takes no memory.
#![tactic(auto)]

mod call;
mod error;
mod monitor;
mod printable;
mod shared;
mod since;
mod text;

pub use call::{Call, CallFault, has_reply, inserts, operations, reply_id};
pub use error::Failure;
pub use monitor::{MonitorCall, MonitorChange, MonitorStart};
pub use odb_atoms::Error;
pub use printable::Printable;
pub use shared::{
    after_result, after_updates, before_result, before_result_printed, before_updates,
};
pub use since::{before_since, before_update3};
pub use text::{array_of_one, failure, notice, reply, reply_printed};
