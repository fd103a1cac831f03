//! Settlement at the end of a transaction: garbage collection, references, constraints (RFC 7047,
//! section 3.2).
//!
//! Where memory is refused a call returns `AllocError`, and a draft that it changes is of no further
//! use. A call whose result has no such error takes no memory.
#![tactic(auto)]

mod constraints;
mod dangling;
mod gained;
mod garbage;
mod indexes;
mod pruning;
mod references;
mod referrers;
mod row_id;
mod rows;
mod settlement;
mod suspects;

pub use settlement::settle;
