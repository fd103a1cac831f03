//! Why a transaction failed: in which operation, or in its commit, and for what of which table. [P 15.2]
//!
//! Where memory is refused a call returns `AllocError`, and what it was given is as it was,
//! unless its own page says otherwise. A call whose result has no such error takes no memory.
#![tactic(auto)]

mod cause;
mod columns;
mod commit;
mod dangling;
mod explanation;
mod failing;
mod limits;

pub use cause::{Cause, Detail, Stage};
pub use explanation::explain;
