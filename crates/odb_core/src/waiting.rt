//! Transactions that are tried, and those that wait (RFC 7047, sections 4.1.3 and 5.2.6). [P 12.1, 12.4]

ghost use Rattle.std.specs.Prelude.{◌≡◌, ◌==◌, option_map, IfErr, IfOk};
ghost use Rattle.odb_core.specs.Represented.Waiting.{is_named, waiting_as};
ghost use Rattle.odb_core.specs.Stuck.{waits_on};

use crate::resting::Resting;
use crate::submitted::Submitted;
use odb_locks::SessionId;
use std::alloc::{AllocError, Global};
use std::marker::Model;
use std::sync::Arc;

/// What a try of a transaction came to.
#[derive(Clone, Copy)]
pub(crate) enum Tried {
    /// It went through or failed, and its reply is queued.
    Ended,
    /// It waits until this moment, in milliseconds, or for ever.
    Waiting { deadline: Option<u64> },
}

/// A transaction that waits. Copies share what was submitted, and the table on which it rests.
#[derive(Drop)]
pub(crate) struct Waiting {
    resting: Arc<Resting>,
    deadline: Option<u64>,
    tried: u64,
}

impl Model for Waiting {
    ghost use Rattle.std.specs.Arc.{arc_value};
    ghost use Rattle.odb_service.specs.World as model;
    ghost use Rattle.odb_service.specs.WorldCode.{waiting_code};
    ghost use Rattle.odb_core.specs.Represented.Waiting.{waiting_as};

    ghost Value = { model.Waiting };

    ghost coded = { waiting_code };

    ghost view = { λ p. waiting_as (arc_value p.resting).submitted p.deadline p.tried };
}

impl Waiting {
    ghost use Rattle.std.specs.Arc.{arc_value};
    ghost use Rattle.odb_service.specs.World.{is_due, is_untried};

    /// Makes a transaction that waits until the deadline, in milliseconds, and was tried at this number of
    /// commits. Where memory is refused it comes back.
    pub(crate) fn new(
        alloc: Global,
        submitted: Submitted,
        deadline: Option<u64>,
        tried: u64,
    ) -> Result<Waiting, (Submitted, AllocError)>
        ensures ok { IfOk result (λ waiting. waiting ≡ waiting_as submitted deadline tried) }
        ensures err { IfErr result (λ back. back.0 ≡ submitted) }
    {
        let resting = Resting::new(alloc, submitted)?;
        match Arc::new(alloc, resting) {
            Ok(resting) => Ok(Waiting {
                resting,
                deadline,
                tried,
            }),
            Err(refused) => Err((refused.value.into_submitted(), AllocError)),
        }
    }

    /// Returns the transaction as it was submitted. O(1).
    pub(crate) fn submitted(&self) -> &Submitted
        ensures { waiting_as result.now self.now.deadline self.now.tried ≡ self.now }
    {
        &self.resting.submitted
    }

    /// Returns the name of the table on which its operations rest, if they rest on one. O(1).
    pub(crate) fn table(&self) -> Option<&str>
        ensures { option_map (λ text. text.now) result ≡ waits_on self.now.operations }
    {
        match &self.resting.table {
            Some(table) => Some(table.as_str()),
            None => None,
        }
    }

    /// Returns the same one, which waits until another deadline and was tried again. O(1).
    pub(crate) fn tried_again(self, deadline: Option<u64>, tried: u64) -> Waiting
        ensures { result ≡ record (self) { deadline = deadline; tried = tried } }
    {
        Waiting {
            resting: self.resting,
            deadline,
            tried,
        }
    }

    /// Returns whether its deadline has come by this moment. O(1).
    pub(crate) fn is_due(&self, now: u64) -> bool
        ensures { result ≡ is_due now self.now.deadline }
    {
        match self.deadline {
            Some(deadline) => deadline <= now,
            None => false,
        }
    }

    /// Returns until when it waits, in milliseconds; `None` is for ever. O(1).
    pub(crate) fn deadline(&self) -> Option<u64>
        ensures { result ≡ self.now.deadline }
    {
        self.deadline
    }

    /// Returns whether there was a commit since it was tried. O(1).
    pub(crate) fn is_untried(&self, commits: u64) -> bool
        ensures { result ≡ is_untried commits self.now }
    {
        self.tried != commits
    }

    /// Returns the session that asked for it. O(1).
    pub(crate) fn session(&self) -> SessionId
        ensures { result ≡ self.now.session }
    {
        self.resting.submitted.session
    }

    /// Returns whether it is the session's. O(1).
    pub(crate) fn belongs_to(&self, session: SessionId) -> bool
        ensures { result ≡ (self.now.session == session) }
    {
        self.resting.submitted.session == session
    }

    /// Returns whether it is the session's, and its request has the id of this text. O(bytes of the id).
    pub(crate) fn has_id_and_session(&self, session: SessionId, id: &[u8]) -> bool
        ensures { result ≡ is_named session id.now self.now }
    {
        self.resting.submitted.session == session && self.resting.submitted.id.as_slice() == id
    }
}

impl Clone for Waiting {
    ghost use Rattle.std.specs.Prelude.{◌≡◌};

    ghost is_clone = { λ x y. y ≡ x };

    /// Shares the same transaction. O(1).
    fn clone(&self) -> Result<Waiting, AllocError> {
        Ok(Waiting {
            resting: self.resting.clone()?,
            deadline: self.deadline,
            tried: self.tried,
        })
    }
}
