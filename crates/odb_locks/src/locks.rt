//! The locks that sessions claim by `lock` and `steal`, and give back by `unlock`. [P 11.1, 11.2, 14]

ghost use Rattle.std.specs.Prelude.{◌≡◌, ◌↔◌, ℕ, List, false, filter, map, IfOk, OnErr, IsErrOf};
ghost use Rattle.std.specs.List.{list_any};
ghost use Rattle.odb_atoms.specs.FinMap as finite;
ghost use Rattle.odb_atoms.specs.Text.{same_text};
ghost use Rattle.odb_locks.specs.Locks as model;
ghost use Rattle.odb_locks.specs.Locks.{out_of_turn, too_many_names};
ghost use Rattle.odb_locks.specs.declared.locks.LockFault.TheVariants.{Memory};
ghost use Rattle.odb_locks.specs.Represented.Locks.{answer_of, claim_by, claimed};
ghost use Rattle.odb_locks.specs.Represented.Notice.{notices_of};

use crate::index::Index;
use crate::lock::Claim;
use crate::lock_table::LockTable;
use crate::notice::{Notice, tell};
use std::alloc::{AllocError, Global};
use std::marker::Model;
use thiserror::Error;

/// A session of the server: a number that no other open session has.
pub type SessionId = usize;

/// How many names may be claimed at once.
const MAX_NAMES: usize = 65_536;

/// Why a call on locks did nothing: with each of these the locks are as they were.
#[derive(Clone, Copy, Debug, Error)]
pub enum LockFault {
    /// A `lock` or `steal` by a session with a claim of the name that it hasn't unlocked, or an
    /// `unlock` by one without (RFC 7047, section 4.1.8). A session that was robbed has a claim
    /// until it unlocks.
    #[error("out of turn")]
    OutOfTurn,
    /// A `lock` or `steal` of a name that nobody claims, while 65,536 others are claimed.
    #[error("too many lock names")]
    TooMany,
    /// Memory was refused.
    #[error("out of memory")]
    Memory,
}

impl From<AllocError> for LockFault {
    ghost from_gives = { λ _ fault. fault ≡ Memory };

    fn from(_refused: AllocError) -> LockFault {
        LockFault::Memory
    }
}

/// What a `lock` or a `steal` did: its result, and whom it concerns besides the caller.
#[derive(Drop)]
pub struct LockOutcome {
    /// Whether the caller owns the lock, the reply's `locked` (RFC 7047, section 4.1.8).
    pub owns: bool,
    /// The notices to send, in this order: one to the owner that was robbed, or none.
    pub notices: Vec<Notice>,
}

/// Named locks (RFC 7047, sections 4.1.8 to 4.1.10).
///
/// For each name there are the claims in order, by `lock` or by `steal`, of which the first owns,
/// and the sessions that were robbed: that lost a stolen claim, and haven't unlocked. A name that
/// nobody claims, and nobody was robbed of, takes no room.
///
/// In the costs below a name has `c` claims, and `n` names are claimed. A call that changes the
/// locks makes its growths first, and changes nothing where memory is refused.
pub struct Locks {
    alloc: Global,
    table: LockTable,
    index: Index,
}

impl Model for Locks {
    ghost use Rattle.odb_locks.specs.Locks as model;
    ghost use Rattle.odb_locks.specs.Represented.Lock.{locks_code};
    ghost use Rattle.odb_locks.specs.Represented.Index.{Indexes};

    ghost Value = { model.Locks };

    ghost coded = { locks_code };

    ghost view = { λ a. a.table };

    ghost invariant = { λ a. Indexes a.index a.table };
}

impl Locks {
    /// Makes locks, of which there are none. O(1).
    pub fn new(alloc: Global) -> Locks
        ensures { result ≡ finite.empty }
    {
        Locks {
            alloc,
            table: LockTable::new(alloc),
            index: Index::new(alloc),
        }
    }

    /// Returns whether the session owns the lock of the name: has its first claim. O(log n).
    pub fn owns(&self, session: SessionId, name: &str) -> bool
        ensures { result ≡ model.owns self.now session name.now }
    {
        self.table.is_owned_by(name, session)
    }

    /// Carries out `lock` (RFC 7047, section 4.1.8): the session's claim joins the end, and owns if it's alone.
    /// It notifies nobody. O(log n + c).
    pub fn lock(&mut self, session: SessionId, name: &str) -> Result<LockOutcome, LockFault>
        ensures ok { IfOk result (λ taken. model.lock self.old session name.now
            ≡ Ok (self.new, notices_of taken.notices.items, taken.owns)) }
        ensures out_of_turn { IsErrOf result LockFault.OutOfTurn
            ↔ (model.lock self.old session name.now ≡ Err out_of_turn) }
        ensures too_many { IsErrOf result LockFault.TooMany
            ↔ (model.lock self.old session name.now ≡ Err too_many_names) }
        ensures err { OnErr result (self.new ≡ self.old) }
    {
        self.claim(session, name, false)
    }

    /// Carries out `steal` (RFC 7047, section 4.1.8): the session's claim goes in front, and owns. The owner
    /// before is told `stolen`. If its claim was by `lock` it stands after the thief; if it was by
    /// `steal` it leaves and was robbed: it won't own again by itself, yet has to unlock. O(log n +
    /// c).
    pub fn steal(&mut self, session: SessionId, name: &str) -> Result<LockOutcome, LockFault>
        ensures ok { IfOk result (λ taken. model.steal self.old session name.now
            ≡ Ok (self.new, notices_of taken.notices.items, taken.owns)) }
        ensures out_of_turn { IsErrOf result LockFault.OutOfTurn
            ↔ (model.steal self.old session name.now ≡ Err out_of_turn) }
        ensures too_many { IsErrOf result LockFault.TooMany
            ↔ (model.steal self.old session name.now ≡ Err too_many_names) }
        ensures err { OnErr result (self.new ≡ self.old) }
    {
        self.claim(session, name, true)
    }

    /// Carries out `steal` where it is `stolen`, and else `lock`. O(log n + c).
    pub fn claim(
        &mut self,
        session: SessionId,
        name: &str,
        stolen: bool,
    ) -> Result<LockOutcome, LockFault>
        ensures ok { IfOk result (λ taken. claim_by stolen self.old session name.now
            ≡ Ok (self.new, notices_of taken.notices.items, taken.owns)) }
        ensures out_of_turn { IsErrOf result LockFault.OutOfTurn
            ↔ (claim_by stolen self.old session name.now ≡ Err out_of_turn) }
        ensures too_many { IsErrOf result LockFault.TooMany
            ↔ (claim_by stolen self.old session name.now ≡ Err too_many_names) }
        ensures err { OnErr result (self.new ≡ self.old) }
    {
        let taken = self.preview_claim(session, name, stolen)?;
        self.index.insert(self.alloc, session, name)?;
        let claim = Claim::new(session, stolen);
        match self.table.claim(self.alloc, name, claim) {
            Ok(()) => Ok(taken),
            // The index was first, and goes back.
            Err(refused) => {
                self.index.remove(session, name);
                Err(LockFault::from(refused))
            }
        }
    }

    /// Returns what `claim` would return now. Nothing changes. O(log n + c).
    pub fn preview_claim(
        &self,
        session: SessionId,
        name: &str,
        stolen: bool,
    ) -> Result<LockOutcome, LockFault>
        ensures ok { IfOk result (λ taken. claim_by stolen self.now session name.now
            ≡ Ok (claimed stolen self.now session name.now, notices_of taken.notices.items, taken.owns)) }
        ensures out_of_turn { IsErrOf result LockFault.OutOfTurn
            ↔ (claim_by stolen self.now session name.now ≡ Err out_of_turn) }
        ensures too_many { IsErrOf result LockFault.TooMany
            ↔ (claim_by stolen self.now session name.now ≡ Err too_many_names) }
    {
        if self.table.has_claim(name, session) {
            return Err(LockFault::OutOfTurn);
        }
        if self.table.is_free(name) && self.table.len() >= MAX_NAMES {
            return Err(LockFault::TooMany);
        }
        let owner = self.table.owner(name);
        let mut notices = Vec::new(self.alloc);
        if stolen {
            tell(&mut notices, self.alloc, owner, true, name)?;
        }
        Ok(LockOutcome {
            owns: stolen || owner.is_none(),
            notices,
        })
    }

    /// Carries out `unlock` (RFC 7047, section 4.1.8): the session's claim goes, or its having been robbed. If
    /// it owned and another claim is first now, that one's session is told `locked`. O(log n + c).
    pub fn unlock(&mut self, session: SessionId, name: &str) -> Result<Vec<Notice>, LockFault>
        ensures ok { IfOk result (λ notices. model.unlock self.old session name.now
            ≡ Ok (self.new, notices_of notices.items, false)) }
        ensures out_of_turn { IsErrOf result LockFault.OutOfTurn
            ↔ (model.unlock self.old session name.now ≡ Err out_of_turn) }
        ensures too_many { IsErrOf result LockFault.TooMany
            ↔ (model.unlock self.old session name.now ≡ Err too_many_names) }
        ensures err { OnErr result (self.new ≡ self.old) }
    {
        let notices = self.preview_unlock(session, name)?;
        self.index.remove(session, name);
        self.table.release(name, session);
        Ok(notices)
    }

    /// Returns what `unlock` would return now. Nothing changes. O(log n + c).
    pub fn preview_unlock(&self, session: SessionId, name: &str) -> Result<Vec<Notice>, LockFault>
        ensures ok { IfOk result (λ notices. answer_of (model.unlock self.now session name.now)
            ≡ Ok (notices_of notices.items, false)) }
        ensures out_of_turn { IsErrOf result LockFault.OutOfTurn
            ↔ (model.unlock self.now session name.now ≡ Err out_of_turn) }
        ensures too_many { IsErrOf result LockFault.TooMany
            ↔ (model.unlock self.now session name.now ≡ Err too_many_names) }
    {
        if !self.table.has_claim(name, session) {
            return Err(LockFault::OutOfTurn);
        }
        let mut notices = Vec::new(self.alloc);
        let next = self.table.next_owner(name, session);
        tell(&mut notices, self.alloc, next, false, name)?;
        Ok(notices)
    }

    /// Takes back all of a session's claims, as its end does: an `unlock` of each name that it has
    /// a claim of, by ascending name, with the notices of each. For each of these names O(log n +
    /// c), whatever other names there are.
    pub fn drop_session(&mut self, session: SessionId) -> Result<Vec<Notice>, AllocError>
        ensures ok { IfOk result (λ notices. model.drop_session self.old session
            ≡ (self.new, notices_of notices.items)) }
        ensures err { OnErr result (self.new ≡ self.old) }
    {
        // The notices take memory, so all are made before the first claim goes.
        let notices = self.preview_drop(session)?;
        self.forget_session(session);
        Ok(notices)
    }

    /// Returns the notices of `drop_session`, without doing it. For each name that the session has a claim
    /// of O(log n + c).
    pub fn preview_drop(&self, session: SessionId) -> Result<Vec<Notice>, AllocError>
        ensures { IfOk result (λ notices.
            (model.drop_session self.now session).1 ≡ notices_of notices.items) }
    {
        match self.index.names(session) {
            Some(names) => self.table.notices_of_release(self.alloc, names, session),
            None => Ok(Vec::new(self.alloc)),
        }
    }

    /// Takes back all of a session's claims, as `drop_session` does, and tells nobody. For each
    /// name that it has a claim of O(log n + c).
    pub fn forget_session(&mut self, session: SessionId)
        ensures { self.new ≡ (model.drop_session self.old session).0 }
    {
        let Some(names) = self.index.names(session) else {
            return;
        };
        self.table.release_all(names, session);
        self.index.forget(session);
    }

    /// Returns the names of the locks that the session owns, has the first claim of, by ascending bytes.
    /// For each name that it has a claim of O(log n).
    pub fn owned(&self, alloc: Global, session: SessionId) -> Result<Vec<&str>, AllocError>
        ensures ascending { IfOk result (λ names. map (λ name. name.now) names.items
            ≡ filter (model.owns self.now session) (finite.keys self.now)) }
        ensures owned { IfOk result (λ names. (name : List ℕ)
            → list_any (same_text name) (map (λ n. n.now) names.items)
            ≡ model.owns self.now session name) }
    {
        match self.index.names(session) {
            Some(names) => self.table.owned_among(alloc, names, session),
            None => Ok(Vec::new(alloc)),
        }
    }
}

// Written, and not derived, so that each end of a scope is one call to prove.
impl Drop for Locks {
    fn drop(self) {
        let Locks {
            alloc: _,
            table: _,
            index: _,
        } = self;
    }
}
