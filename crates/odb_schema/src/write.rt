//! Writing schemas as JSON (RFC 7047, section 3.2): members that equal their defaults are left out.
//! The members of an object are put in from the last of its definition to the first.

mod base;
mod column;
mod database;
mod leaf;
mod table;

pub use leaf::Object;
