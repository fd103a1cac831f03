//! The OVSDB server as a machine over events: what each session is sent.
//!
//! Where memory is refused a call returns `AllocError`, and what it was given is as it was,
//! unless its own page says otherwise. A call whose result has no such error takes no memory.
#![tactic(auto)]

mod counts;
mod failed;
mod failures;
mod marks;
mod monitors;
mod refused;
mod requests;
mod resting;
mod server;
mod setting;
mod state;
mod submitted;
mod upcoming;
mod waiting;
mod waiting_list;

pub use failed::Failed;
pub use odb_cause::{Cause, Detail, Stage};
pub use odb_locks::SessionId;
pub use odb_round::{Jobs, PreparedRound, RoundJob};
pub use odb_sessions::{FirstText, Out, ToldMarks};
pub use refused::EventRefusal;
pub use server::{Core, MAX_SESSIONS};
