//! The transactions that wait, in order of arrival. [P 10.5, 12.1]

ghost use Rattle.std.specs.Prelude.{◌≡◌, ◌==◌, ◌<◌, ◌++◌, ◌∷◌, [], count_by, filter, length, not, slice_get, slice_index_or, IfErr, IfOk, OnErr, OnOk, Some};
ghost use Rattle.std.specs.List.{remove};
ghost use Rattle.odb_core.specs.Deadlines.{earlier, earliest};
ghost use Rattle.odb_core.specs.Represented.Waiting.{waiting_as};

use crate::counts::Counts;
use crate::submitted::Submitted;
use crate::waiting::Waiting;
use odb_locks::SessionId;
use std::alloc::{AllocError, Global};
use std::marker::Model;
use std::mem;

/// The transactions that wait, in order of arrival, how many of them each session has, and their earliest deadline.
/// In the costs below `w` of them wait, of `n` sessions.
pub(crate) struct WaitingList {
    alloc: Global,
    items: Vec<Waiting>,
    counts: Counts,
    earliest: Option<u64>,
}

impl Model for WaitingList {
    ghost use Rattle.std.specs.Prelude.{◌≡◌, List};
    ghost use Rattle.std.specs.Coded.{coded_list};
    ghost use Rattle.odb_service.specs.World as model;
    ghost use Rattle.odb_service.specs.WorldCode.{waiting_code};
    ghost use Rattle.odb_core.specs.Deadlines as deadlines;
    ghost use Rattle.odb_core.specs.Represented.Counts.{AreCounted};

    ghost Value = { List model.Waiting };

    ghost coded = { coded_list waiting_code };

    ghost view = { λ l. l.items.items };

    ghost invariant = { λ l. AreCounted l.counts l.items.items × (l.earliest ≡ deadlines.earliest l.items.items) };
}

impl WaitingList {
    /// Makes a list in which none waits.
    pub(crate) fn new(alloc: Global) -> WaitingList
        ensures { result ≡ [] }
    {
        WaitingList {
            alloc,
            items: Vec::new(alloc),
            counts: Counts::new(alloc),
            earliest: None,
        }
    }

    /// Returns the earliest moment, in milliseconds, at which one of them is due; `None` where each waits for ever.
    /// O(1).
    pub(crate) fn earliest(&self) -> Option<u64>
        ensures { result ≡ earliest self.now }
    {
        self.earliest
    }

    /// Returns all of them. O(1).
    pub(crate) fn all(&self) -> &[Waiting]
        ensures { result.now ≡ self.now }
    {
        self.items.as_slice()
    }

    /// Returns the one at this place. O(1).
    pub(crate) fn at(&self, place: usize) -> &Waiting
        requires { place < length self.now }
        ensures { slice_get self.now place ≡ Some result.now }
    {
        &self.items[place]
    }

    /// Returns how many are the session's. O(log n).
    pub(crate) fn count_of(&self, session: SessionId) -> usize
        ensures { result ≡ count_by (λ p. p.session == session) self.now }
    {
        self.counts.get(session)
    }

    /// Puts a transaction after the others, which waits until the deadline, in milliseconds, and was tried at
    /// this number of commits. Where memory is refused it comes back. O(log n).
    pub(crate) fn wait(
        &mut self,
        submitted: Submitted,
        deadline: Option<u64>,
        tried: u64,
    ) -> Result<(), (Submitted, AllocError)>
        ensures ok { OnOk result (self.new ≡ self.old ++ waiting_as submitted deadline tried ∷ []) }
        ensures err { OnErr result (self.new ≡ self.old) }
        ensures back { IfErr result (λ back. back.0 ≡ submitted) }
    {
        let session = submitted.session;
        if self.items.reserve(1).is_err() {
            return Err((submitted, AllocError));
        }
        if self.counts.add(session).is_err() {
            return Err((submitted, AllocError));
        }
        match Waiting::new(self.alloc, submitted, deadline, tried) {
            Ok(waiting) => {
                self.earliest = earlier(self.earliest, waiting.deadline());
                self.items.push_reserved(waiting);
                Ok(())
            }
            Err(back) => {
                self.counts.take(session);
                Err(back)
            }
        }
    }

    /// Puts one after the others. O(log n).
    pub(crate) fn push(&mut self, waiting: Waiting) -> Result<(), AllocError>
        ensures ok { OnOk result (self.new ≡ self.old ++ waiting ∷ []) }
        ensures err { OnErr result (self.new ≡ self.old) }
    {
        self.items.reserve(1)?;
        self.counts.add(waiting.session())?;
        self.earliest = earlier(self.earliest, waiting.deadline());
        self.items.push_reserved(waiting);
        Ok(())
    }

    /// Takes out the one at this place. O(w).
    pub(crate) fn remove(&mut self, place: usize) -> Waiting
        requires { place < length self.old }
        ensures value { result ≡ slice_index_or self.old place result }
        ensures items { self.new ≡ remove self.old place }
    {
        let waiting = self.items.remove(place);
        self.counts.take(waiting.session());
        self.earliest = earliest_of(self.items.as_slice());
        waiting
    }

    /// Takes out those of the session. O(w).
    pub(crate) fn end_session(&mut self, session: SessionId)
        ensures { self.new ≡ filter (λ p. not (p.session == session)) self.old }
    {
        self.items.retain(|waiting| !waiting.belongs_to(session));
        self.counts.forget(session);
        self.earliest = earliest_of(self.items.as_slice());
    }

    /// Takes all of them out. O(1), and what the counts take.
    pub(crate) fn take_all(&mut self) -> Vec<Waiting>
        ensures all { result.items ≡ self.old }
        ensures none { self.new ≡ [] }
    {
        let all = mem::replace(&mut self.items, Vec::new(self.alloc));
        self.counts = Counts::new(self.alloc);
        self.earliest = None;
        all
    }

    /// Makes an equal list, whose transactions are shared. O(w + n).
    pub(crate) fn try_copy(&self) -> Result<WaitingList, AllocError>
        ensures { IfOk result (λ copy. copy ≡ self.now) }
    {
        Ok(WaitingList {
            alloc: self.alloc,
            items: self.items.clone()?,
            counts: self.counts.try_copy()?,
            earliest: self.earliest,
        })
    }
}

/// Returns the earlier of two moments, of which each may be never.
fn earlier(one: Option<u64>, other: Option<u64>) -> Option<u64>
    ensures { result ≡ earlier one other }
{
    let Some(first) = one else {
        return other;
    };
    match other {
        Some(second) => Some(first.min(second)),
        None => one,
    }
}

/// Returns the earliest of their deadlines. O(w).
fn earliest_of(waiting: &[Waiting]) -> Option<u64>
    ensures { result ≡ earliest waiting.now }
{
    let mut found = None;
    for each in waiting {
        found = earlier(found, each.deadline());
    }
    found
}

// Written, and not derived, so that each end of a scope is one call to prove.
impl Drop for WaitingList {
    fn drop(self) {
        let WaitingList {
            alloc: _,
            items: _,
            counts: _,
            earliest: _,
        } = self;
    }
}
