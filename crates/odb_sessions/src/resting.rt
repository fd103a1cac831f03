//! Sessions that rest: nothing is owed to them, and the index of interest has what they ask. [P 10.1]
ghost use Rattle.std.specs.Prelude.{◌≡◌, ◌+◌, ◌≤◌, true, flat_map, IfSome};
ghost use Rattle.std.specs.Bool.{OnTrue};
ghost use Rattle.std.specs.List.{All};
ghost use Rattle.odb_sessions.specs.Composed.{AreNow};
ghost use Rattle.odb_sessions.specs.Marked.{marks_in, marks_of, seen};
ghost use Rattle.odb_sessions.specs.Quiet.{IsQuiet, IsQuietAt};
ghost use Rattle.odb_sessions.specs.Tied.{AreLive};

use crate::interest::cover;
use crate::monitor::Monitor;
use crate::session::Session;
use crate::sessions::Sessions;
use odb_chain::Chains;
use odb_locks::SessionId;

impl Sessions {
    /// Returns whether nothing is queued for a session, and the client of each of its monitors was told of its tables
    /// as they are now, under the filters that are asked; so it is where the session isn't open. A taking gives it
    /// nothing then, and changes nothing. `false` says nothing. O(log n) for n sessions, and O(1) for each table of its
    /// monitors.
    fn rests(&self, session: SessionId) -> bool
        ensures { OnTrue result (IsQuietAt self.now session) }
    {
        let Some(of) = self.sessions.get(session) else {
            return true;
        };
        of.rests(self.past.chains())
    }

    /// Forgets of the first `most` sessions, from this number on, that may be owed something those that rest, and returns the
    /// first after them that may be owed something. O(log n) for n sessions, and what `forget_if_resting` costs, for each.
    pub fn forget_resting(&mut self, from: SessionId, most: usize) -> Option<SessionId>
        ensures same { self.new ≡ self.old }
        ensures next { IfSome result (λ next. from + most ≤ next) }
    {
        let mut next = self.first_owed(from);
        for looked in 0..most {
            let session = next?;
            self.forget_if_resting(session);
            next = self.first_owed(session.checked_add(1)?);
        }
        next
    }

    /// Returns the first session from this number on that may be owed something. O(log n).
    fn first_owed(&self, from: SessionId) -> Option<SessionId>
        ensures { IfSome result (λ first. from ≤ first) }
    {
        let first = self.owed.range(from..).next()?;
        Some(*first)
    }

    /// Forgets that a session may be owed something, where it rests, and there is memory for what it asks in the
    /// index. What `Numbered::recognise` and `interest::cover` cost.
    fn forget_if_resting(&mut self, session: SessionId)
        ensures { self.new ≡ self.old }
    {
        if !self.owed.contains(&session) {
            return;
        }
        if !self.rests(session) {
            return;
        }
        self.sessions.recognise(self.alloc, session);
        if cover(&mut self.interest, session, self.sessions.get(session)).is_err() {
            return;
        }
        self.owed.remove(&session);
    }
}

impl Session {
    /// Returns whether nothing is queued, and the clients of its monitors were told of their tables as they are now,
    /// under the filters that are asked. `false` says nothing.
    pub(crate) fn rests(&self, chains: &Chains) -> bool
        requires { AreLive chains.now (marks_of self.now) }
        ensures { result ≡ true → IsQuiet chains.now.db (seen self.now) }
    {
        if !self.queue.is_empty() {
            return false;
        }
        are_told(self.monitors.as_slice(), chains)
    }
}

/// Returns whether the clients of these monitors were told of their tables as they are now. `false` says nothing.
fn are_told(monitors: &[Monitor], chains: &Chains) -> bool
    requires { AreLive chains.now (flat_map marks_in monitors.now) }
    ensures { result ≡ true → All (λ m. AreNow chains.now.db m.tables) monitors.now }
{
    for monitor in monitors {
        if !monitor.is_told(chains) {
            return false;
        }
    }
    true
}
