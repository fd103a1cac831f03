//! Sessions to which nothing is owed, whose marks are moved to now: nothing that is seen changes. [P 10.1]
ghost use Rattle.std.specs.Prelude.{◌≡◌};
ghost use Rattle.odb_sessions.specs.Owed.{AreOwed, book_seen};
ghost use Rattle.odb_sessions.specs.Tied.{IsTied};

use crate::numbered::Numbered;
use crate::past::Past;
use odb_locks::SessionId;
use std::collections::BTreeSet;

/// How many monitors there is time for at each commit.
const A_FEW: usize = 4;

/// Which session is refreshed next, and for how many monitors there is time.
#[derive(Drop)]
pub(crate) struct Refreshing {
    next: SessionId,
    time: usize,
}

impl Refreshing {
    /// Makes one that begins with the first session.
    pub(crate) fn new() -> Refreshing {
        Refreshing { next: 0, time: 0 }
    }

    /// Moves the marks of the sessions to which nothing is owed to now, a few at each call, and those of each in
    /// its turn, so that no mark stays behind. On average O(log n) for n sessions, and what
    /// `odb_chain::Chains::advance` costs for each table of a few monitors.
    pub(crate) fn go_on(
        &mut self,
        sessions: &mut Numbered,
        past: &mut Past,
        owed: &BTreeSet<SessionId>,
    )
        requires tied { IsTied past.old sessions.old }
        requires owed { AreOwed owed.now (book_seen past.old sessions.old) }
        ensures tied { IsTied past.new sessions.new }
        ensures seen { book_seen past.new sessions.new ≡ book_seen past.old sessions.old }
    {
        self.time = self.time.saturating_add(A_FEW);
        while let Some((session, monitors)) = sessions.first_from(self.next) {
            let Some(left) = self.time.checked_sub(monitors.max(1)) else {
                return;
            };
            refresh(sessions, past, owed, session);
            self.time = left;
            self.next = session.saturating_add(1);
        }
        self.next = 0;
        self.time = 0;
    }
}

/// Moves the marks of a session to which nothing is owed to now, if it is open. O(log n) for n sessions, and where there was a
/// change since they were moved what `odb_chain::Chains::advance` costs for each table of its monitors.
fn refresh(sessions: &mut Numbered, past: &mut Past, owed: &BTreeSet<SessionId>, session: SessionId)
    requires tied { IsTied past.old sessions.old }
    requires owed { AreOwed owed.now (book_seen past.old sessions.old) }
    ensures tied { IsTied past.new sessions.new }
    ensures seen { book_seen past.new sessions.new ≡ book_seen past.old sessions.old }
{
    if owed.contains(&session) {
        return;
    }
    if sessions.is_brought(session, past) {
        return;
    }
    let monitors = sessions.monitors(session);
    drop(sessions.carry_out(session, 0, monitors, past));
}

/// Moves the marks of those of these sessions to which nothing is owed to now. What `refresh` costs for each.
pub(crate) fn refresh_each(
    sessions: &mut Numbered,
    past: &mut Past,
    owed: &BTreeSet<SessionId>,
    listed: &[SessionId],
)
    requires tied { IsTied past.old sessions.old }
    requires owed { AreOwed owed.now (book_seen past.old sessions.old) }
    ensures tied { IsTied past.new sessions.new }
    ensures seen { book_seen past.new sessions.new ≡ book_seen past.old sessions.old }
{
    for session in listed {
        refresh(sessions, past, owed, *session);
    }
}
