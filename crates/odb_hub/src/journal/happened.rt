//! An event, as the code has it.

use odb_core::SessionId;
use odb_wire::Request;
use std::snapshot::Snapshot;
use uuid::Uuid;

/// An event of the service machine. A round is noted by the sessions that it lists, one of a session alone by that session.
/// What it holds takes no memory.
pub(crate) enum Happened {
    Opened(SessionId),
    Submitted(SessionId, Snapshot<Request>, Snapshot<Vec<Uuid>>, u64),
    Ticked(u64),
    Closed(SessionId),
    Round(Snapshot<Vec<SessionId>>),
    RoundOf(SessionId),
}

// Written, and not derived, so that each end of a scope is one call to prove.
impl Drop for Happened {
    fn drop(self) {
        match self {
            Happened::Opened(_) => {}
            Happened::Submitted(_, _, _, _) => {}
            Happened::Ticked(_) => {}
            Happened::Closed(_) => {}
            Happened::Round(_) => {}
            Happened::RoundOf(_) => {}
        }
    }
}
