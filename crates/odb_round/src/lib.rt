//! Rounds: what is to be composed for the open sessions, each composition once, and each session's next message.
//!
//! Where memory is refused a call returns `AllocError`, and what it was given is as it was,
//! unless its own page says otherwise. A call whose result has no such error takes no memory.
#![tactic(auto)]

mod basis;
mod decided;
mod foreseen;
mod job;
mod jobs;
mod planning;
mod round;
mod shared;
mod taking;
mod wanted;

pub use job::{RoundJob, compose_over};
pub use jobs::{Jobs, PreparedRound};
pub use round::{accept_round, give_round, plan_round, take_finished};
