//! Where the requests of a connection go, where a server has more than one database: a second that is served, or `_Server`
//! (ovsdb-server(5)), or both; and what is answered by none.
//!
//! Where memory is refused a call returns `AllocError`, and what it was given is as it was.
#![tactic(auto)]

mod answers;
mod databases;
mod destination;
mod ids;
mod locks;
mod naming;
mod writes;

pub use answers::{Answers, PrintedSchema};
pub use databases::Databases;
pub use destination::{Destination, destination_of};
pub use ids::{IdText, Ids};
pub use locks::request_as;
pub use naming::{Naming, first_id, names_database, names_monitor};
pub use writes::{after_write, has_writes, params_for, with_refusal};
