//! Values of an OVSDB server (RFC 7047): atoms, sets, maps, column types, differences and rows.
//!
//! Where memory is refused a call returns `AllocError`, and what it was given is as it was,
//! unless its own page says otherwise. A call whose result has no such error takes no memory, or does
//! without where it is refused.
#![tactic(auto)]

mod atom;
mod column_type;
mod entry;
mod error;
mod row;
mod update;
mod value;

pub use atom::{Atom, Kind, number_of};
pub use column_type::{Admit, Base, ColType, Enumeration, Reference, default_of};
pub use error::Error;
pub use row::Row;
pub use update::{changed, difference};
pub use value::{Entries, ListFault, Refused, Value};
