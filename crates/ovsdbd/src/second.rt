//! The second database that is served, and what a connection has there. [P 15.4]

use crate::connection::{RandomIdentifiers, leave_at_last, leave_once};
use crate::daemon::{Daemon, SubmittedTurn};
use crate::front::identifier;
use crate::tuning::RETRY_PAUSE;
use odb_core::{EventRefusal, Out, SessionId};
use odb_front::{Destination, IdText, Ids, Naming, request_as};
use odb_hub::{Inbox, Mailbox, Outbox, Seat};
use odb_rpc::Printable;
use odb_wire::Request;
use serde_json::Value;
use std::alloc::{AllocError, Global};
use std::sync::ledger::Ledger;
use std::sync::{Mutex, Wait};
use std::thread::{self, Threads};
use std::time::{Clock, Duration};
use uuid::Uuid;

/// The second database, and how it learns of locks, which are those of the server (RFC 7047, 4.1.8).
pub(crate) struct Second<M: Ledger> {
    pub(crate) daemon: Daemon<M>,
    /// Held while both databases learn of a request about a lock, or of the end of a connection: so they do in one order.
    pub(crate) order: Mutex<()>,
    /// The id under which it learns of such requests, and that as it stands in replies: it is random, so no client has it.
    id: String,
    id_text: IdText,
}

impl<M: Ledger> Second<M> {
    /// Makes it, with an id.
    pub(crate) fn new(daemon: Daemon<M>, id: Uuid) -> Result<Second<M>, AllocError> {
        let alloc = daemon.alloc;
        let value = identifier(alloc, id)?;
        let text = value.as_str().unwrap_or("");
        Ok(Second {
            id: String::from_str(alloc, text)?,
            id_text: text_of(alloc, &value)?,
            order: Mutex::new(()),
            daemon,
        })
    }

    /// Makes what it is told in the place of a request about a lock.
    pub(crate) fn request_in_place(
        &self,
        request: &Request,
        identifiers: &mut RandomIdentifiers,
    ) -> Result<Inbox, AllocError> {
        let alloc = self.daemon.alloc;
        let text = request_as(alloc, request, self.id.as_str())?;
        let mut inbox = Inbox::new(alloc, usize::MAX);
        inbox.take_in(text.as_slice(), identifiers)?;
        Ok(inbox)
    }
}

// Written, and not derived, so that each end of a scope is one call to prove.
impl<M: Ledger> Drop for Second<M> {
    fn drop(self) {
        let Second {
            daemon: _,
            order: _,
            id: _,
            id_text: _,
        } = self;
    }
}

fn text_of(alloc: Global, id: &Value) -> Result<IdText, AllocError> {
    match Printable::of(id) {
        Some(id) => IdText::new(alloc, id),
        None => Err(AllocError),
    }
}

/// A request by which a connection names a monitor: its id, and how it does.
#[derive(Drop)]
pub(crate) struct NamingRequest {
    pub(crate) id: IdText,
    pub(crate) naming: Naming,
}

/// What a connection has in the second database, from its first request on that goes there: its session as long as that is open,
/// and its messages until they are written.
pub(crate) struct SecondSeat<'a, M: Ledger> {
    second: &'a Second<M>,
    session: SessionId,
    seat: Option<Seat<M>>,
    pub(crate) mailbox: Mailbox,
    /// The next message, where another was in the midst as it came.
    next: Option<Out>,
    /// The request that named a monitor there and has no reply yet.
    asked: Option<NamingRequest>,
}

impl<'a, M: Ledger> SecondSeat<'a, M> {
    /// Makes that of a session that was just opened.
    pub(crate) fn new(second: &'a Second<M>, seat: Seat<M>, mailbox: Mailbox) -> SecondSeat<'a, M> {
        SecondSeat {
            second,
            session: seat.session(),
            seat: Some(seat),
            mailbox,
            next: None,
            asked: None,
        }
    }

    /// Returns the session's number in the second database.
    pub(crate) fn session(&self) -> SessionId {
        self.session
    }

    /// Submits a turn of so many of the requests, the first. None: the session has ended.
    pub(crate) fn submit<R: Threads + Wait + Clock + Sync>(
        &mut self,
        rt: &R,
        inbox: &mut Inbox,
        most: usize,
    ) -> Option<SubmittedTurn> {
        match &mut self.seat {
            Some(seat) => Some(self.second.daemon.submit_turn(rt, seat, inbox, most)),
            None => None,
        }
    }

    /// Submits a request alone. Where memory is refused, and so nobody is to be told, it tries again. None: it was refused for another
    /// reason, or the session has ended.
    pub(crate) fn submit_at_last<R: Threads + Wait + Clock + Sync>(
        &mut self,
        rt: &R,
        inbox: &mut Inbox,
    ) -> Option<SubmittedTurn> {
        for _ in rt.forever() {
            let Some(turn) = self.submit(rt, inbox, 1) else {
                return None;
            };
            match turn.refusal() {
                None => return Some(turn),
                Some(EventRefusal::Memory) => thread::sleep(rt, Duration::from_millis(RETRY_PAUSE)),
                Some(_) => return None,
            }
        }
        unreachable!()
    }

    /// Has what is held back sent, if there is some. True says that there may be more to write.
    pub(crate) fn refill<R: Threads + Wait + Sync>(&self, rt: &R) -> bool {
        match &self.seat {
            Some(seat) if self.mailbox.bell().is_held_back() => {
                self.second.daemon.refill(rt, seat.session())
            }
            _ => false,
        }
    }

    /// Notes a request that named a monitor and was submitted: what came of it is known by its reply.
    pub(crate) fn ask(&mut self, asked: NamingRequest) {
        self.asked = Some(asked);
    }

    /// Returns whether such a request has no reply yet.
    pub(crate) fn lacks_naming(&self) -> bool {
        self.asked.is_some()
    }

    /// Moves the next message to the outbox, to be written there, and notes which request it answers. False: there is none, or
    /// another is in the midst there.
    pub(crate) fn move_to(
        &mut self,
        outbox: &mut Outbox,
        ids: &mut Ids,
    ) -> Result<bool, AllocError> {
        let Some(out) = self.take(ids)? else {
            return Ok(false);
        };
        match outbox.put(out) {
            Ok(()) => Ok(true),
            Err(back) => {
                self.next = Some(back);
                Ok(false)
            }
        }
    }

    /// Takes the next message out. What comes of locks is dropped: the first database says the same.
    fn take(&mut self, ids: &mut Ids) -> Result<Option<Out>, AllocError> {
        if let Some(out) = self.next.take() {
            return Ok(Some(out));
        }
        for _ in 0..u64::MAX {
            let Some(out) = self.mailbox.next() else {
                return Ok(None);
            };
            if !self.second.id_text.is_of_locks(out.before.as_slice()) {
                self.hear(out.before.as_slice(), ids)?;
                return Ok(Some(out));
            }
        }
        Ok(None)
    }

    /// Notes which requests a message answers, and how one of these named a monitor, unless it was refused.
    fn hear(&mut self, text: &[u8], ids: &mut Ids) -> Result<(), AllocError> {
        ids.hear_second(text);
        let Some(asked) = self.asked.take() else {
            return Ok(());
        };
        if !asked.id.has_answer(text) {
            self.asked = Some(asked);
            return Ok(());
        }
        let NamingRequest { id, naming } = asked;
        if id.is_answered_by(text) {
            return ids.record_naming(Destination::Second, naming);
        }
        drop(naming);
        Ok(())
    }

    /// Ends a connection's sessions in both databases, if these are open: in the second first, so that who is told that a lock is its
    /// own owns it in both. False says that memory was refused, and that both are open still.
    pub(crate) fn leave_both<L: Ledger, R: Wait + Clock>(
        &mut self,
        rt: &R,
        daemon: &Daemon<L>,
        first: &mut Option<Seat<L>>,
    ) -> bool {
        let order = self.second.order.lock(rt);
        let is_over = leave_once(rt, &self.second.daemon, &mut self.seat);
        if is_over && let Some(first) = first.take() {
            leave_at_last(rt, daemon, first);
        }
        drop(order);
        is_over
    }

    /// Ends what is open of a connection's sessions in both databases.
    pub(crate) fn end_both<L: Ledger, R: Wait + Clock>(
        self,
        rt: &R,
        daemon: &Daemon<L>,
        first: Option<Seat<L>>,
    ) {
        let SecondSeat {
            second,
            session: _,
            seat,
            mailbox: _,
            next: _,
            asked: _,
        } = self;
        let order = second.order.lock(rt);
        if let Some(seat) = seat {
            leave_at_last(rt, &second.daemon, seat);
        }
        if let Some(first) = first {
            leave_at_last(rt, daemon, first);
        }
        drop(order);
    }
}
