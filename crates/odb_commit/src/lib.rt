//! Transactions (RFC 7047, section 4.1.3).
//!
//! Where memory is refused a call returns `AllocError`, and what it was given is as it was,
//! unless its own page says otherwise. A call whose result has no such error takes no memory.
#![tactic(auto)]

mod transaction;

pub use transaction::{Outcome, transact};
