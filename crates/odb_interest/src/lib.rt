//! Which sessions a change of a database concerns: an index of the filters that they ask.
//!
//! Where memory is refused a call returns `AllocError`, and what it was given is as it was,
//! unless its own page says otherwise. A call whose result has no such error takes no memory.
#![tactic(auto)]

mod asked;
mod column;
mod found;
mod index;
mod interest;
mod key;
mod lists;
mod watched;

ghost use Rattle.odb_interest.specs.Unhit.{UnhitStays};

pub use asked::Asked;
pub use interest::Interest;

/// States what the index rests on, and does nothing.
pub fn law()
    // A change of a table that doesn't concern a filter changes nothing that the filter selects.
    ensures { UnhitStays }
{}
