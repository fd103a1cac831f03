//! Scripts: lines of commands for named sessions of a server, and what they print.
//!
//! Where memory is refused the run ends with the fault `Memory`.
#![tactic(auto)]

mod command;
mod draining;
mod engine;
mod fault;
mod fresh;
mod latch;
mod script;
mod session;

pub use fault::RunFault;
pub use latch::FailureLatch;
pub use script::run_script;
