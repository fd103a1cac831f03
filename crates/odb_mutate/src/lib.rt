//! Mutations of values (RFC 7047, section 5.1).
//!
//! Where memory is refused a call returns `AllocError`, and what it was given is as it was,
//! unless its own page says otherwise. A call whose result has no such error takes no memory.
#![tactic(auto)]

mod elements;
mod mutation;
mod operator;
mod pairs;

pub use mutation::{Mutation, MutationFault, Mutator};
pub use operator::Operator;
