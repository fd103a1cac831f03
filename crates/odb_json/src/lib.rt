//! The JSON notation of values of columns, conditions, mutations and operations (RFC 7047, section
//! 5).
//!
//! Where memory is refused a call returns `AllocError` or the fault `Memory`, and what it was
//! given is as it was, unless its own page says otherwise. A call whose result has no such error
//! takes no memory.
#![tactic(auto)]

ghost use Rattle.odb_json.specs.Written.{NotationIsReadBack};

mod atom;
mod clause;
mod column;
mod elements;
mod fault;
mod leaf;
mod mutation;
mod names;
mod op;
mod operation;
mod pairs;
mod row;
mod value;

pub use atom::read_own_uuid;
pub use clause::read_clause;
pub use column::read_columns;
pub use fault::OpFault;
pub use leaf::{no_other, read_array, read_object};
pub use mutation::read_mutation;
pub use names::Names;
pub use op::{Delete, Insert, Mutate, Op, Select, Until, Update, Wait};
pub use operation::{is_insert, read_op};
pub use row::{WrittenBy, read_row};
pub use value::{read_by_kind, read_value};

/// States that the notation of a value (RFC 7047, section 5.1, `<value>`) is read back as the value: by
/// [`read_by_kind`] for each type of its kind and by [`read_value`] for each type that admits it, provided that it
/// has no more than 65,536 elements and no U+0000 in its strings. The call does nothing.
pub fn law()
    ensures read_back { NotationIsReadBack }
{}
