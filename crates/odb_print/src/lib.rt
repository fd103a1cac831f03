//! Rows and their values, printed as compact JSON text straight from the database.
//!
//! Where memory is refused a call returns `AllocError`. A call whose result has no such error takes no
//! memory.
#![tactic(auto)]

mod printer;
mod row_cells;
mod value;

pub use printer::Printer;
pub use row_cells::RowCells;
pub use value::{put_key, put_member, put_value};
