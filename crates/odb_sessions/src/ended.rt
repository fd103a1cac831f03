//! Transactions that ended. [P 12.1, 12.2]
ghost use Rattle.std.specs.Prelude.{◌≡◌, is_some};

use odb_locks::SessionId;
use odb_queue::Finished;
use odb_tables::ChangeSet;

/// A transaction that ended: whose it was, its reply, and what it changes, if that is something.
#[derive(Drop)]
pub struct Ended {
    pub session: SessionId,
    pub reply: Finished,
    pub change: Option<ChangeSet>,
}

impl Ended {
    /// Returns the session, the reply, and whether there is a change.
    pub(crate) fn into_parts(self) -> (SessionId, Finished, bool)
        ensures session { result.0 ≡ self.session }
        ensures reply { result.1 ≡ self.reply }
        ensures change { result.2 ≡ is_some self.change }
    {
        let Ended {
            session,
            reply,
            change,
        } = self;
        (session, reply, change.is_some())
    }
}
