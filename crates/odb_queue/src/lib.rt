//! What is queued for sessions: finished texts, with what they mean, and the replies and notices
//! that are queued.
//!
//! Where memory is refused a call returns `AllocError`, and what it was given is as it was,
//! unless its own page says otherwise. A call whose result has no such error takes no memory.
#![tactic(auto)]

mod answer;
mod finished;
mod meaning;
mod post;
mod results;
mod served_schema;

pub use answer::{answer_at_once, failed, notices, replied, replied_as};
pub use finished::Finished;
pub use meaning::MessageMeaning;
pub use post::Post;
pub use served_schema::ServedSchema;
