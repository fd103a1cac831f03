//! The server behind a lock, for many threads: a journal of what it took, and a ring of messages for each session.
//!
//! Where memory is refused a call returns `AllocError` or the refusal `Memory`, and what it was given
//! is as it was, unless its own page says otherwise.
#![tactic(auto)]

mod bell;
mod buffer;
mod composing;
mod counted;
mod failure;
mod hub;
mod inbox;
mod journal;
mod left;
mod load;
mod lock_hold;
mod mailbox;
mod outbox;
mod ring;
mod rings;
mod seat;
mod state;
mod submission;
mod submitted;
mod wakes;

pub use bell::Bell;
pub use counted::{BatchOutcome, Counted, Round};
pub use failure::TransactionFailure;
pub use hub::Hub;
pub use inbox::{Identifiers, Inbox, submission_of};
pub use mailbox::Mailbox;
pub use outbox::Outbox;
pub use seat::Seat;
pub use state::{GroupRound, HubState};
pub use submission::Submission;
pub use wakes::Wakes;
