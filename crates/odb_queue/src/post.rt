//! Items on their way to sessions. [P 10.1]

use crate::finished::Finished;
use odb_locks::SessionId;

/// An item that is to go to the end of a session's queue, if the session is open.
#[derive(Drop)]
pub struct Post {
    pub session: SessionId,
    pub item: Finished,
}
