//! What a connection has beside its session in the first database. [P 15.3, 15.4]

use odb_core::{Out, SessionId};
use odb_front::{Destination, IdText, Ids, Naming};
use odb_hub::Outbox;
use std::alloc::{AllocError, Global};
use std::collections::VecDeque;

/// How many transactions of a connection may wait in `_Server`, and how many replies it may lack from the second database where
/// that is to learn of a lock: as many as may be owed to a session.
const MOST_WAITING: usize = 256;

/// How the reply of a success begins.
const SUCCESS: &[u8] = b"{\"error\":null,";

/// The ids that a connection named, what it has of `_Server`, and its messages that come from there or from no database, until they
/// are written.
pub(crate) struct FrontSeat {
    /// Its session in `_Server`, from its first request on that goes there.
    pub(crate) session: Option<SessionId>,
    pub(crate) ids: Ids,
    outs: VecDeque<Out>,
}

/// The ids of a request that are to be noted once `_Server` took it.
#[derive(Drop)]
pub(crate) struct RequestIds {
    /// How it names monitors, if it does.
    pub(crate) naming: Option<Naming>,
    /// The id of a transaction, which may wait.
    pub(crate) transaction: Option<IdText>,
    /// The id of the request that it cancels.
    pub(crate) canceled: Option<IdText>,
}

impl FrontSeat {
    pub(crate) fn new(alloc: Global) -> FrontSeat {
        FrontSeat {
            session: None,
            ids: Ids::new(alloc),
            outs: VecDeque::new(alloc),
        }
    }

    /// Returns whether messages are still to be written.
    pub(crate) fn has_outs(&self) -> bool {
        !self.outs.is_empty()
    }

    /// Returns whether transactions wait in `_Server`, and whether as many as may.
    pub(crate) fn waits(&self) -> bool {
        !self.ids.waiting().is_empty()
    }

    pub(crate) fn is_full(&self) -> bool {
        self.ids.waiting().len() >= MOST_WAITING
    }

    /// Returns whether as many replies are lacking from the second database as may be owed.
    pub(crate) fn lacks_replies(&self) -> bool {
        self.ids.unanswered().len() >= MOST_WAITING
    }

    /// Notes the ids of requests of which the first `taken` were submitted to the second database.
    pub(crate) fn ask_second(
        &mut self,
        ids: Vec<Option<IdText>>,
        taken: usize,
    ) -> Result<(), AllocError> {
        let mut asked = ids;
        asked.truncate(taken);
        for id in asked {
            if let Some(id) = id {
                self.ids.ask_second(id)?;
            }
        }
        Ok(())
    }

    /// Adds a message that is to be written.
    pub(crate) fn push(&mut self, out: Out) -> Result<(), AllocError> {
        self.outs.push_back(out)?;
        Ok(())
    }

    /// Takes in what `_Server` gave for a request.
    pub(crate) fn take_in(
        &mut self,
        noted: RequestIds,
        outs: VecDeque<Out>,
    ) -> Result<(), AllocError> {
        let RequestIds {
            naming,
            transaction,
            canceled,
        } = noted;
        self.note_naming(naming, &outs)?;
        if let Some(canceled) = canceled {
            self.ids.end(&canceled);
        }
        if let Some(id) = transaction {
            if outs.is_empty() {
                self.ids.wait(id)?;
            }
        }
        self.take_all(outs)
    }

    fn note_naming(
        &mut self,
        naming: Option<Naming>,
        outs: &VecDeque<Out>,
    ) -> Result<(), AllocError> {
        let Some(naming) = naming else {
            return Ok(());
        };
        for out in outs {
            if out.before.as_slice().starts_with(SUCCESS) {
                return self.ids.record_naming(Destination::Server, naming);
            }
        }
        Ok(())
    }

    /// Takes in what `_Server` gave the session.
    pub(crate) fn take_all(&mut self, outs: VecDeque<Out>) -> Result<(), AllocError> {
        for out in outs {
            self.ids.note_reply(out.before.as_slice());
            self.push(out)?;
        }
        Ok(())
    }

    /// Moves the next message to the outbox, to be written there. False: there is none, or another is in the midst there.
    pub(crate) fn move_to(&mut self, outbox: &mut Outbox) -> bool {
        let Some(out) = self.outs.pop_front() else {
            return false;
        };
        match outbox.put(out) {
            Ok(()) => true,
            Err(back) => {
                // There is room for what was just taken out.
                drop(self.outs.push_front(back));
                false
            }
        }
    }
}

// Written, and not derived, so that each end of a scope is one call to prove.
impl Drop for FrontSeat {
    fn drop(self) {
        let FrontSeat {
            session: _,
            ids: _,
            outs: _,
        } = self;
    }
}
