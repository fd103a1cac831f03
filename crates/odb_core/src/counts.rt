//! How many transactions of each session wait. [P 10.5, 12.1]

ghost use Rattle.std.specs.Prelude.{◌≡◌, ◌<◌, ℕ, IfOk, OnErr, OnOk};

use odb_locks::SessionId;
use std::alloc::{AllocError, Global};
use std::collections::BTreeMap;

/// A number for each session, so that nobody walks through all that wait to count one session's. A session
/// of which none waits any more may keep a 0 until it closes.
#[derive(Drop)]
pub(crate) struct Counts {
    counts: BTreeMap<SessionId, usize>,
}

impl Counts {
    ghost use Rattle.odb_core.specs.Represented.Counts.{count_of, Forgets, HasOneMore, IsSame};

    /// Makes counts in which each session has none.
    pub(crate) fn new(alloc: Global) -> Counts
        ensures { (s : ℕ) → count_of result s ≡ 0 }
    {
        Counts {
            counts: BTreeMap::new(alloc),
        }
    }

    /// Returns how many the session has. O(log n).
    pub(crate) fn get(&self, session: SessionId) -> usize
        ensures { result ≡ count_of self.now session }
    {
        match self.counts.get(&session) {
            Some(count) => *count,
            None => 0,
        }
    }

    /// Counts one more for the session. O(log n).
    pub(crate) fn add(&mut self, session: SessionId) -> Result<(), AllocError>
        ensures ok { OnOk result (HasOneMore self.old self.new session) }
        ensures err { OnErr result (IsSame self.old self.new) }
    {
        let more = self.get(session).checked_add(1).ok_or(AllocError)?;
        self.counts.insert(session, more)?;
        Ok(())
    }

    /// Counts one less for the session, if it has one. O(log n).
    pub(crate) fn take(&mut self, session: SessionId)
        ensures { 0 < count_of self.old session → HasOneMore self.new self.old session }
    {
        let less = self.get(session).saturating_sub(1);
        let Some(count) = self.counts.get_mut(&session) else {
            return;
        };
        *count = less;
    }

    /// Forgets the session's count. O(log n).
    pub(crate) fn forget(&mut self, session: SessionId)
        ensures { Forgets self.old self.new session }
    {
        self.counts.remove(&session);
    }

    /// Makes equal counts. O(n).
    pub(crate) fn try_copy(&self) -> Result<Counts, AllocError>
        ensures { IfOk result (λ copy. IsSame self.now copy) }
    {
        Ok(Counts {
            counts: self.counts.clone()?,
        })
    }
}
