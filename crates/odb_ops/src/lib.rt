//! The ten database operations (RFC 7047, section 5.2).
//!
//! Where memory is refused a call returns `AllocError`, and a draft that it changes is of no further
//! use. A call whose result has no such error takes no memory.
#![tactic(auto)]

mod cells;
mod contents;
mod context;
mod deadline;
mod delete;
mod execution;
mod fresh;
mod insert;
mod layout;
mod meaning;
mod merging;
mod mutate;
mod names;
mod operation;
mod results;
mod select;
mod stop;
mod update;
mod wait;

pub use context::Context;
pub use execution::{Ran, run};
pub use results::{OperationResult, failure};
