//! Databases: tables of rows, and changes of them.
//!
//! Where memory is refused a call returns `AllocError`, and what it was given is as it was,
//! unless its own page says otherwise. A call whose result has no such error takes no memory.
#![tactic(auto)]

mod change_set;
mod changed_columns;
mod database;
mod digest;
mod draft;
mod entry;
mod facet;
mod ground;
mod key;
mod mentioned;
mod new_twins;
mod overlay;
mod pairs;
mod pending;
mod row_change;
mod row_index;
mod row_indexes;
mod row_test;
mod rows;
mod stamp;
mod staying;
mod table;
mod table_change;
mod went;

pub use change_set::ChangeSet;
pub use database::Db;
pub use digest::feed_value;
pub use draft::Draft;
pub use key::Key;
pub use pending::Pending;
pub use row_change::RowChange;
pub use rows::Rows;
pub use table::Table;
pub use table_change::TableChange;
