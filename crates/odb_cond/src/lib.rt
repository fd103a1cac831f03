//! Conditions (RFC 7047, section 5.1) and the filters of conditional monitors (ovsdb-server(7)).
//!
//! Where memory is refused a call returns `AllocError`, and what it was given is as it was,
//! unless its own page says otherwise. A call whose result has no such error takes no memory.
#![tactic(auto)]

mod ascending;
mod clause;
mod conditions;
mod filter;
mod gathered;
mod keyed;
mod prepared;

pub use clause::{Clause, Function, Selector};
pub use conditions::Where;
pub use filter::{Filter, Member};
