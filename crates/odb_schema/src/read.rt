//! Reading schemas from JSON (RFC 7047, section 3.2): the first fault in a fixed order is returned.

mod atom;
mod base;
mod column;
mod column_type;
mod database;
mod enumeration;
mod index;
mod leaf;
mod parts;
mod reader;
mod reference;
mod size;
mod table;

pub use leaf::member;
