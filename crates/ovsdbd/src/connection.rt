//! A connection and its sessions, as the thread that serves it has them. [P 15.2, 15.4]

use crate::daemon::{Daemon, Patience, SubmittedTurn};
use crate::front::FrontEnd;
use crate::front_seat::{FrontSeat, RequestIds};
use crate::log::{ConnectionEvent, Reason};
use crate::second::{NamingRequest, Second, SecondSeat};
use crate::server_database::{ServerDatabase, ServerRequest};
use crate::tuning::{LOOKED_AT, REFILLS, RETRY_PAUSE, TAKEN};
use mio::event::Event;
use mio::net::TcpStream;
use odb_core::{EventRefusal, Out, SessionId};
use odb_front::{Destination, IdText, Naming, destination_of, first_id, names_monitor};
use odb_hub::{Bell, Identifiers, Inbox, Mailbox, Outbox, Seat, Wakes};
use odb_rpc::reply_id;
use odb_wire::{Request, WireFault};
use rand::rngs::StdRng;
use std::alloc::{AllocError, Global};
use std::io::{self, ErrorKind, Read};
use std::net::{Shutdown, SocketAddr};
use std::sync::ledger::Ledger;
use std::sync::{Arc, Wait};
use std::thread::Threads;
use std::time::{Clock, Duration};
use std::{mem, thread};
use uuid::Uuid;

/// Random identifiers (RFC 4122, 4.4).
#[derive(Drop)]
pub(crate) struct RandomIdentifiers {
    pub(crate) rng: StdRng,
}

impl Identifiers for RandomIdentifiers {
    fn next(&mut self) -> Uuid {
        Uuid::new_v4(&mut self.rng)
    }
}

/// What a thread that serves connections has for each of them in turn.
pub(crate) struct Tools<'a, L: Ledger, M: Ledger, R> {
    pub(crate) rt: &'a R,
    pub(crate) daemon: &'a Daemon<L>,
    pub(crate) second: Option<&'a Second<M>>,
    /// What there is where there are several databases.
    pub(crate) front: Option<&'a FrontEnd>,
    /// By what the thread is called, and the slot of the connection that has its turn.
    pub(crate) wakes: &'a Arc<Wakes>,
    pub(crate) slot: usize,
    /// Where bytes are read.
    pub(crate) piece: Vec<u8>,
    pub(crate) identifiers: RandomIdentifiers,
    /// The thread's database `_Server`, where that is asked for.
    pub(crate) server: Option<ServerDatabase>,
    /// The milliseconds since the start, where the daemon's patience has an end.
    pub(crate) moment: u64,
}

/// What comes next of a connection.
#[derive(Clone, Copy, PartialEq)]
pub(crate) enum Next {
    /// Nothing, until there is an event, or it is called.
    Rests,
    /// Another turn.
    GoesOn,
    /// It is to be closed.
    Ends,
}

/// How far the messages of a session were written.
#[derive(Clone, Copy, PartialEq)]
enum Written {
    All,
    /// There may be more to write.
    Some,
    /// The peer takes nothing now.
    Blocked,
}

/// A connection, with its session as long as that is open.
pub(crate) struct Connection<'a, L: Ledger, M: Ledger> {
    stream: TcpStream,
    /// Who is at its other end, where that is logged, and the session's number.
    client: Option<SocketAddr>,
    session: SessionId,
    /// Why the connection is to be closed, once that is known.
    reason: Option<Reason>,
    seat: Option<Seat<L>>,
    inbox: Inbox,
    outbox: Outbox,
    /// What it has beside, from its first request on that concerns more than the first database.
    front: Option<Box<FrontSeat>>,
    second: Option<Box<SecondSeat<'a, M>>>,
    /// The turn in the first database of which the others aren't told yet, and that in the second: none but while it submits.
    untold: Option<SubmittedTurn>,
    untold_second: Option<SubmittedTurn>,
    is_readable: bool,
    is_writable: bool,
    /// Whether the peer sends no more than what there is to read.
    is_closed: bool,
    /// Whether the next submission met Busy, and nothing was given to the session since.
    is_busy: bool,
    /// Whether the session ends at once, since writing failed or the daemon's patience is at its end.
    is_cut_off: bool,
    /// Whether the connection is among those that have a turn next.
    pub(crate) is_queued: bool,
    /// Whether its last submission was slow.
    pub(crate) is_slow: bool,
    /// When the peer sent something, and when it took something, in milliseconds since the start.
    heard: u64,
    took: u64,
    /// When the peer was probed, if it was since it was heard, and whether the probe is still to be written.
    probed: Option<u64>,
    is_probe_due: bool,
}

impl<'a, L: Ledger, M: Ledger> Connection<'a, L, M> {
    /// Makes that of a session that was just opened, at this moment.
    pub(crate) fn new(
        daemon: &Daemon<L>,
        stream: TcpStream,
        seat: Seat<L>,
        mailbox: Mailbox,
        moment: u64,
    ) -> Connection<'a, L, M> {
        let alloc = daemon.alloc;
        Connection {
            stream,
            client: None,
            session: seat.session(),
            reason: None,
            seat: Some(seat),
            inbox: Inbox::new(alloc, daemon.max_message),
            outbox: Outbox::new(alloc, mailbox),
            front: None,
            second: None,
            untold: None,
            untold_second: None,
            is_readable: true,
            is_writable: true,
            is_closed: false,
            is_busy: false,
            is_cut_off: false,
            is_queued: false,
            is_slow: false,
            heard: moment,
            took: moment,
            probed: None,
            is_probe_due: false,
        }
    }

    /// Learns what the poll tells of the connection. One whose peer can neither send nor take is cut off. Step: what
    /// the loop learns as it asks the poll, `looks_again` or `sleeps`.
    pub(crate) fn notice(&mut self, event: &Event, moment: u64) {
        if event.is_error() || event.is_write_closed() {
            self.end_for(Reason::Reset);
            self.is_cut_off = true;
            return;
        }
        if event.is_readable() || event.is_read_closed() {
            self.is_readable = true;
            self.hear_peer(moment);
        }
        if event.is_read_closed() {
            self.is_closed = true;
        }
        if event.is_writable() {
            self.is_writable = true;
            self.took = moment;
        }
    }

    /// Learns that something was given to its session.
    pub(crate) fn hear(&mut self) {
        self.is_busy = false;
    }

    /// Has a turn: it writes what it can, and reads and submits a piece of what there is. Where it is cut off, or memory was
    /// refused for too long for what its session is owed, it ends. Steps: those of `serve_once`, or `leaves`.
    pub(crate) fn serve<R: Threads + Wait + Clock + Sync>(
        &mut self,
        tools: &mut Tools<'a, L, M, R>,
    ) -> Next {
        if self.is_given_up() {
            self.end_for(Reason::Memory);
        } else if !self.is_cut_off {
            match self.serve_once(tools) {
                Ok(next) => return next,
                Err(_) => self.end_for(Reason::Unwritten),
            }
            self.is_cut_off = true;
        }
        if self.leave(tools) {
            Next::Ends
        } else {
            Next::GoesOn
        }
    }

    /// Returns whether memory was refused for too long for what one of its sessions is owed.
    fn is_given_up(&self) -> bool {
        let second = match &self.second {
            Some(second) => second.mailbox.bell().is_given_up(),
            None => false,
        };
        second || self.outbox.bell().is_given_up()
    }

    /// Notes why the connection is to be closed, unless that is known.
    fn end_for(&mut self, reason: Reason) {
        if self.reason.is_none() {
            self.reason = Some(reason);
        }
    }

    /// Has the session end at its next turn, and the peer learn it. Step: `cuts_off`.
    pub(crate) fn cut_off(&mut self, reason: Reason) {
        self.end_for(reason);
        self.is_cut_off = true;
        drop(self.stream.shutdown(Shutdown::Both));
    }

    /// Ends its sessions, if these are open. False says that memory was refused: then it pauses, as they are to end once there is
    /// memory, since one that stayed would keep its locks.
    fn leave<R: Wait + Clock>(&mut self, tools: &Tools<'a, L, M, R>) -> bool {
        let is_over = match &mut self.second {
            Some(second) => second.leave_both(tools.rt, tools.daemon, &mut self.seat),
            None => leave_once(tools.rt, tools.daemon, &mut self.seat),
        };
        if !is_over {
            thread::sleep(tools.rt, Duration::from_millis(RETRY_PAUSE));
        }
        is_over
    }

    /// Writes, reads and submits, also where the socket is full. Steps: those of `write`; `checks`; those of `read` and
    /// `submit`, and of `write` again; those of `next`.
    fn serve_once<R: Threads + Wait + Clock + Sync>(
        &mut self,
        tools: &mut Tools<'a, L, M, R>,
    ) -> io::Result<Next> {
        let mut written = self.write(tools)?;
        if self.may_submit() {
            if self.may_read() && self.is_readable {
                self.read(tools);
            }
            if self.inbox.pending() > 0 {
                written = self.submit(tools)?;
            }
        }
        Ok(self.next(tools, written))
    }

    /// Returns whether a request may be submitted: none waits since it met Busy, and the client takes what it was given, so
    /// that the socket isn't full, no message is held back or is still to be written from the front, and it is known which
    /// monitors of the second database there are. Step: `checks`.
    fn may_submit(&self) -> bool {
        !self.is_busy
            && self.is_writable
            && !self.is_held_back()
            && !self.has_front_outs()
            && !self.lacks_naming()
    }

    /// Returns whether a request has no reply yet that named a monitor of the second database.
    fn lacks_naming(&self) -> bool {
        match &self.second {
            Some(second) => second.lacks_naming(),
            None => false,
        }
    }

    /// Returns whether a message of one of its sessions is held back.
    fn is_held_back(&self) -> bool {
        let second = match &self.second {
            Some(second) => second.mailbox.bell().is_held_back(),
            None => false,
        };
        second || self.outbox.bell().is_held_back()
    }

    fn has_front_outs(&self) -> bool {
        match &self.front {
            Some(front) => front.has_outs(),
            None => false,
        }
    }

    /// Returns whether more may be read: all that was read was submitted.
    fn may_read(&self) -> bool {
        self.inbox.is_open() && self.inbox.pending() == 0 && self.may_submit()
    }

    /// Returns whether there are requests to submit, or bytes to read.
    pub(crate) fn has_requests(&self) -> bool {
        self.inbox.pending() > 0 || self.inbox.is_open() && self.is_readable
    }

    /// Notes that the peer sent something, or couldn't.
    fn hear_peer(&mut self, moment: u64) {
        self.heard = moment;
        self.probed = None;
    }

    /// Returns what comes next, after so much was written. Steps: `checks` where a request waits since it met Busy; those of
    /// `end`.
    fn next<R: Wait + Clock>(&mut self, tools: &Tools<'a, L, M, R>, written: Written) -> Next {
        if self.has_read_all() || self.is_left_at_busy() {
            return self.end(tools, written);
        }
        if written == Written::Some || self.has_requests() && self.may_submit() {
            return Next::GoesOn;
        }
        Next::Rests
    }

    /// Returns whether all that is read of it was submitted.
    fn has_read_all(&self) -> bool {
        !self.inbox.is_open() && self.inbox.pending() == 0
    }

    /// Returns whether the peer ended its side while a request waits that met Busy, and nothing was given to the session
    /// since: then it is owed replies to transactions that wait, and to nothing else.
    fn is_left_at_busy(&self) -> bool {
        self.is_closed && self.is_busy && !self.outbox.bell().is_called()
    }

    /// Returns what comes next of a connection of which nothing more is submitted: what the session is given is written,
    /// then the session ends, and what it was given by then is written. Once it ended, it doesn't matter any more whether a
    /// message was held back. Steps: `ends`, `leaves`.
    fn end<R: Wait + Clock>(&mut self, tools: &Tools<'a, L, M, R>, written: Written) -> Next {
        match written {
            Written::All => {}
            Written::Some => return Next::GoesOn,
            Written::Blocked => return Next::Rests,
        }
        if self.seat.is_none() {
            return Next::Ends;
        }
        if self.is_held_back() {
            return Next::Rests;
        }
        self.inbox.stop();
        self.leave(tools);
        Next::GoesOn
    }

    /// Writes what the session is given, as far as the peer takes it. Steps: `writes`, `takes`, `looks`, `refills`.
    fn write<R: Threads + Wait + Sync>(
        &mut self,
        tools: &Tools<'a, L, M, R>,
    ) -> io::Result<Written> {
        if !self.is_writable {
            return Ok(Written::Blocked);
        }
        self.move_front();
        self.move_second()?;
        for _ in 0..REFILLS {
            let mut writer = &self.stream;
            match self.outbox.write_to(&mut writer) {
                Ok(false) => return Ok(Written::Some),
                Ok(true) => if !self.refill(tools)? {
                    return Ok(Written::All);
                },
                Err(error) if error.kind() == ErrorKind::WouldBlock => {
                    self.is_writable = false;
                    self.took = tools.moment;
                    return Ok(Written::Blocked);
                }
                Err(error) => return Err(error),
            }
        }
        Ok(Written::Some)
    }

    /// Moves the next message of the front to where it is written, if one is there and none is in the midst.
    fn move_front(&mut self) -> bool {
        match &mut self.front {
            Some(front) => front.move_to(&mut self.outbox),
            None => false,
        }
    }

    /// Moves messages of the second database to where they are written, as many as there is room for. Then what waits for one of its
    /// replies may be submitted. False: there are none, or another message is in the midst.
    fn move_second(&mut self) -> Result<bool, AllocError> {
        let (Some(second), Some(front)) = (&mut self.second, &mut self.front) else {
            return Ok(false);
        };
        let mut is_moved = false;
        for _ in 0..TAKEN {
            if !second.move_to(&mut self.outbox, &mut front.ids)? {
                break;
            }
            is_moved = true;
            self.is_busy = false;
            self.outbox.fill()?;
        }
        Ok(is_moved)
    }

    /// Has what is held back sent, and the peer probed where that is due, once all else is written. True says that
    /// there may be more to write.
    fn refill<R: Threads + Wait + Sync>(&mut self, tools: &Tools<'a, L, M, R>) -> io::Result<bool> {
        if self.is_probe_due {
            self.is_probe_due = false;
            return Ok(self.outbox.probe()?);
        }
        if self.move_front() || self.move_second()? {
            return Ok(true);
        }
        Ok(self.refill_first(tools) || self.refill_second(tools))
    }

    fn refill_first<R: Threads + Wait + Sync>(&self, tools: &Tools<'a, L, M, R>) -> bool {
        match &self.seat {
            Some(seat) if self.outbox.bell().is_held_back() => {
                tools.daemon.refill(tools.rt, seat.session())
            }
            _ => false,
        }
    }

    fn refill_second<R: Threads + Wait + Sync>(&self, tools: &Tools<'a, L, M, R>) -> bool {
        match &self.second {
            Some(second) => second.refill(tools.rt),
            None => false,
        }
    }

    /// Reads a piece, and finds the requests in it. Nothing more is read where the stream ends or is at a fault, and where
    /// memory is refused. Step: `submits`.
    fn read<R: Wait>(&mut self, tools: &mut Tools<'a, L, M, R>) {
        let mut reader = &self.stream;
        match reader.read(tools.piece.as_mut_slice()) {
            Ok(read) if read > 0 => {
                self.is_readable = read == tools.piece.len() || self.is_closed;
                self.hear_peer(tools.moment);
                self.take_in(tools, read);
            }
            Ok(_) => self.inbox.stop(),
            Err(error) if error.kind() == ErrorKind::WouldBlock => self.is_readable = false,
            Err(error) if error.kind() == ErrorKind::Interrupted => {}
            Err(_) => {
                self.end_for(Reason::Reset);
                self.inbox.stop();
            }
        }
    }

    /// Takes in so many bytes that were read. A fault that comes after the requests in them stops the reading.
    fn take_in<R: Wait>(&mut self, tools: &mut Tools<'a, L, M, R>, read: usize) {
        let Some(bytes) = tools.piece.get(..read) else {
            return;
        };
        if self.inbox.take_in(bytes, &mut tools.identifiers).is_err() {
            self.end_for(Reason::Memory);
            return;
        }
        match self.inbox.fault() {
            Some(WireFault::TooLong) => {
                self.end_for(Reason::TooLong);
                self.note_too_long(tools);
            }
            Some(WireFault::BadStream) => self.end_for(Reason::Malformed),
            None => {}
        }
    }

    /// Has it said that the connection is closed for a message that is too long.
    fn note_too_long<R: Wait>(&self, tools: &Tools<'a, L, M, R>) {
        if let Ok(client) = self.stream.peer_addr() {
            tools.daemon.notices.note_too_long(tools.rt, client);
        }
    }

    /// Submits a turn of the requests, all to the only database or each where it goes, and writes what the session is given. Then the
    /// other sessions are told, so that a reply waits for none of them. Step: `submits`; those of `write`.
    fn submit<R: Threads + Wait + Clock + Sync>(
        &mut self,
        tools: &mut Tools<'a, L, M, R>,
    ) -> io::Result<Written> {
        if tools.front.is_none() {
            self.submit_first(tools, usize::MAX);
        } else if self.submit_each(tools).is_err() {
            self.give_up();
        }
        let written = self.write(tools);
        self.tell_others(tools);
        written
    }

    /// Tells the other sessions of each database of what was submitted there.
    fn tell_others<R: Threads + Wait + Clock + Sync>(&mut self, tools: &Tools<'a, L, M, R>) {
        if let Some(turn) = self.untold.take() {
            tools.daemon.tell(tools.rt, turn);
        }
        let Some(second) = tools.second else {
            return;
        };
        if let Some(turn) = self.untold_second.take() {
            second.daemon.tell(tools.rt, turn);
        }
    }

    /// Ends the session as memory was refused for its requests.
    fn give_up(&mut self) {
        self.end_for(Reason::Memory);
        self.inbox.stop();
    }

    /// Submits a turn of so many of the requests, the first, to the first database.
    fn submit_first<R: Threads + Wait + Clock + Sync>(
        &mut self,
        tools: &Tools<'a, L, M, R>,
        most: usize,
    ) {
        let Some(seat) = &mut self.seat else {
            return;
        };
        let turn = tools
            .daemon
            .submit_turn(tools.rt, seat, &mut self.inbox, most);
        self.note_turn(&turn);
        self.untold = Some(turn);
    }

    /// Notes what became of a turn.
    fn note_turn(&mut self, turn: &SubmittedTurn) {
        self.is_slow = turn.is_slow;
        match turn.refusal() {
            None => {}
            Some(EventRefusal::Busy) => self.is_busy = true,
            Some(_) => self.give_up(),
        }
    }

    /// Submits a turn of so many of the requests, the first, to the second database.
    fn submit_second<R: Threads + Wait + Clock + Sync>(
        &mut self,
        tools: &Tools<'a, L, M, R>,
        most: usize,
    ) -> Result<(), AllocError> {
        self.open_second(tools)?;
        let asked = self.asked(tools.daemon.alloc, most)?;
        let Some(second) = &mut self.second else {
            return Ok(());
        };
        let Some(turn) = second.submit(tools.rt, &mut self.inbox, most) else {
            return Ok(());
        };
        let taken = turn.taken;
        self.note_turn(&turn);
        self.untold_second = Some(turn);
        self.front(tools)?.ask_second(asked, taken)
    }

    /// Returns the ids of so many of the requests, the first; none of a notification.
    fn asked(&self, alloc: Global, most: usize) -> Result<Vec<Option<IdText>>, AllocError> {
        let mut asked = Vec::with_capacity(alloc, most)?;
        for place in 0..most {
            if let Some(request) = self.inbox.request(place) {
                asked.push(asked_id(alloc, request)?)?;
            }
        }
        Ok(asked)
    }

    /// Opens its session in the second database, if that isn't open.
    fn open_second<R: Wait + Clock>(
        &mut self,
        tools: &Tools<'a, L, M, R>,
    ) -> Result<(), AllocError> {
        if self.second.is_some() {
            return Ok(());
        }
        let Some(second) = tools.second else {
            return Err(AllocError);
        };
        self.front(tools)?;
        let bell = Bell::new(Arc::try_clone(tools.wakes)?, tools.slot);
        let opened = second.daemon.hub.enter(tools.rt).open(bell);
        let Ok((seat, mailbox)) = opened else {
            return Err(AllocError);
        };
        self.sit(tools, SecondSeat::new(second, seat, mailbox))
    }

    /// Keeps what it has in the second database. Where memory is refused the session there ends.
    fn sit<R: Wait + Clock>(
        &mut self,
        tools: &Tools<'a, L, M, R>,
        seat: SecondSeat<'a, M>,
    ) -> Result<(), AllocError> {
        let (rt, daemon) = (tools.rt, tools.daemon);
        let session = seat.session();
        match Box::new(daemon.alloc, seat) {
            Ok(seat) => {
                if let Some(other) = mem::replace(&mut self.second, Some(seat)) {
                    Box::into_inner(other).end_both(rt, daemon, None);
                }
                self.log(rt, daemon, ConnectionEvent::OpenedSecond(session));
                Ok(())
            }
            Err(refused) => {
                refused.value.end_both(rt, daemon, None);
                Err(AllocError)
            }
        }
    }

    /// Has both databases learn of the first request, which is about a lock, and of no other connection's in between. It waits
    /// where as many replies are lacking from the second as may be owed, so that the second isn't at Busy.
    fn submit_lock<R: Threads + Wait + Clock + Sync>(
        &mut self,
        tools: &mut Tools<'a, L, M, R>,
    ) -> Result<(), AllocError> {
        self.open_second(tools)?;
        if self.front(tools)?.lacks_replies() {
            self.is_busy = true;
            return Ok(());
        }
        let (Some(request), Some(second)) = (self.inbox.request(0), tools.second) else {
            return Ok(());
        };
        let mut same = second.request_in_place(request, &mut tools.identifiers)?;
        let order = second.order.lock(tools.rt);
        let is_told = self.submit_both(tools, &mut same);
        drop(order);
        if !is_told {
            self.cut_off(Reason::Memory);
        }
        Ok(())
    }

    /// Submits the first request to the first database, and the same to the second before anybody hears what came of it. False: the
    /// second refused it.
    fn submit_both<R: Threads + Wait + Clock + Sync>(
        &mut self,
        tools: &Tools<'a, L, M, R>,
        same: &mut Inbox,
    ) -> bool {
        let (Some(seat), Some(second)) = (&mut self.seat, &mut self.second) else {
            return true;
        };
        let (rt, daemon) = (tools.rt, tools.daemon);
        let mut hub = daemon.hub.enter(rt);
        let turn = daemon.submit_under(rt, &mut *hub, seat, &mut self.inbox, 1);
        let is_taken = turn.refusal().is_none();
        if is_taken {
            self.untold_second = second.submit(rt, same, 1);
        }
        drop(hub);
        if is_taken && same.pending() > 0 {
            self.untold_second = second.submit_at_last(rt, same);
        }
        self.note_turn(&turn);
        self.untold = Some(turn);
        !is_taken || same.pending() == 0
    }

    /// Deals with the requests in their order, up to those of a database that is served, of which it submits a turn, or to one that is
    /// of both.
    fn submit_each<R: Threads + Wait + Clock + Sync>(
        &mut self,
        tools: &mut Tools<'a, L, M, R>,
    ) -> Result<(), AllocError> {
        for _ in 0..LOOKED_AT {
            match self.destination(tools, 0)? {
                None => return Ok(()),
                Some(Destination::First) => return self.submit_run(tools, Destination::First),
                Some(Destination::Second) => return self.submit_run(tools, Destination::Second),
                Some(Destination::Both) => return self.submit_lock(tools),
                Some(Destination::Front) => self.answer(tools)?,
                Some(Destination::Server) => self.ask_server(tools)?,
            }
            if self.is_busy {
                return Ok(());
            }
        }
        Ok(())
    }

    /// Returns where the request at a place among those that are pending goes, if there is one.
    fn destination<R>(
        &self,
        tools: &Tools<'a, L, M, R>,
        place: usize,
    ) -> Result<Option<Destination>, AllocError> {
        let Some(begun) = tools.front else {
            return Ok(None);
        };
        let Some(request) = self.inbox.request(place) else {
            return Ok(None);
        };
        let alloc = tools.daemon.alloc;
        let ids = match &self.front {
            Some(front) => &front.ids,
            None => &begun.nothing,
        };
        let destination = destination_of(alloc, request, &begun.databases, ids)?;
        Ok(Some(destination))
    }

    /// Submits the first requests to the database to which they go, up to the next that goes elsewhere or names a monitor; one that
    /// names a monitor alone.
    fn submit_run<R: Threads + Wait + Clock + Sync>(
        &mut self,
        tools: &Tools<'a, L, M, R>,
        destination: Destination,
    ) -> Result<(), AllocError> {
        if self.names_monitor(0) {
            return self.submit_naming(tools, destination);
        }
        let most = self.run(tools, destination)?;
        self.submit_to(tools, destination, most)
    }

    /// Submits the first request, and notes how it names monitors.
    fn submit_naming<R: Threads + Wait + Clock + Sync>(
        &mut self,
        tools: &Tools<'a, L, M, R>,
        destination: Destination,
    ) -> Result<(), AllocError> {
        let Some(request) = self.inbox.request(0) else {
            return Ok(());
        };
        let alloc = tools.daemon.alloc;
        let asked = NamingRequest {
            id: IdText::new(alloc, reply_id(request))?,
            naming: Naming::of(alloc, request)?,
        };
        let before = self.inbox.pending();
        self.submit_to(tools, destination, 1)?;
        if self.inbox.pending() == before {
            return Ok(());
        }
        self.note_naming(tools, destination, asked)
    }

    /// Notes how a request named monitors that was submitted: of the second database once there is its reply, of the first as
    /// though that had gone through.
    fn note_naming<R>(
        &mut self,
        tools: &Tools<'a, L, M, R>,
        destination: Destination,
        asked: NamingRequest,
    ) -> Result<(), AllocError> {
        if destination != Destination::Second {
            let NamingRequest { id: _, naming } = asked;
            return self.front(tools)?.ids.record_naming(destination, naming);
        }
        if let Some(second) = &mut self.second {
            second.ask(asked);
        }
        Ok(())
    }

    /// Submits a turn of so many of the requests, the first, to the second database or else to the first.
    fn submit_to<R: Threads + Wait + Clock + Sync>(
        &mut self,
        tools: &Tools<'a, L, M, R>,
        destination: Destination,
        most: usize,
    ) -> Result<(), AllocError> {
        if destination == Destination::Second {
            return self.submit_second(tools, most);
        }
        self.submit_first(tools, most);
        Ok(())
    }

    /// Returns how many of the requests, from the first, go to this database and name no monitor: one at least and a turn at most.
    fn run<R>(
        &self,
        tools: &Tools<'a, L, M, R>,
        destination: Destination,
    ) -> Result<usize, AllocError> {
        for next in 1..LOOKED_AT {
            let goes_on = match self.destination(tools, next)? {
                Some(goes) => goes == destination && !self.names_monitor(next),
                None => false,
            };
            if !goes_on {
                return Ok(next);
            }
        }
        Ok(LOOKED_AT)
    }

    /// Returns whether the request at a place among those that are pending names a monitor.
    fn names_monitor(&self, place: usize) -> bool {
        match self.inbox.request(place) {
            Some(request) => names_monitor(request),
            None => false,
        }
    }

    /// Returns what the connection has beside the first database, which begins with this call if it has nothing.
    fn front<R>(&mut self, tools: &Tools<'a, L, M, R>) -> Result<&mut FrontSeat, AllocError> {
        let alloc = tools.daemon.alloc;
        if self.front.is_none() {
            self.front = Some(Box::new(alloc, FrontSeat::new(alloc))?);
        }
        match &mut self.front {
            Some(front) => Ok(&mut **front),
            None => Err(AllocError),
        }
    }

    /// Answers the first request, which goes to no database.
    fn answer<R>(&mut self, tools: &Tools<'a, L, M, R>) -> Result<(), AllocError> {
        let Some(begun) = tools.front else {
            return Ok(());
        };
        let Some(submission) = self.inbox.take() else {
            return Ok(());
        };
        let alloc = tools.daemon.alloc;
        let text = begun.answers.reply_to(alloc, &submission.request)?;
        let session = self.session;
        self.front(tools)?.push(Out {
            session,
            before: text,
            body: None,
            after: Vec::new(alloc),
        })
    }

    /// Submits the first request to `_Server`, unless as many wait there as may.
    fn ask_server<R: Clock>(&mut self, tools: &mut Tools<'a, L, M, R>) -> Result<(), AllocError> {
        let needs_reply = match self.inbox.request(0) {
            Some(request) => !request.is_notification(),
            None => return Ok(()),
        };
        if needs_reply && self.front(tools)?.is_full() {
            self.is_busy = true;
            return Ok(());
        }
        let session = self.server_session(tools)?;
        let Some(submission) = self.inbox.take() else {
            return Ok(());
        };
        let alloc = tools.daemon.alloc;
        let noted = noted_of(alloc, &submission.request)?;
        let asked = ServerRequest::of(alloc, submission, &mut tools.identifiers)?;
        let now = tools.daemon.now(tools.rt);
        let Some(server) = &mut tools.server else {
            return Ok(());
        };
        let outs = server.submit(alloc, session, asked, now)?;
        self.front(tools)?.take_in(noted, outs)
    }

    /// Returns its session in `_Server`, which is opened if there is none.
    fn server_session<R>(
        &mut self,
        tools: &mut Tools<'a, L, M, R>,
    ) -> Result<SessionId, AllocError> {
        if let Some(session) = self.front(tools)?.session {
            return Ok(session);
        }
        let Some(server) = &mut tools.server else {
            return Err(AllocError);
        };
        let Ok(session) = server.core.open() else {
            return Err(AllocError);
        };
        self.front(tools)?.session = Some(session);
        Ok(session)
    }

    /// Takes its session in `_Server` out, if it has one: it is to end.
    pub(crate) fn leave_server(&mut self) -> Option<SessionId> {
        match &mut self.front {
            Some(front) => front.session.take(),
            None => None,
        }
    }

    /// Takes in what its session in `_Server` is owed, where transactions of it wait there. False: nothing of it waits.
    pub(crate) fn hear_server<R>(&mut self, tools: &mut Tools<'a, L, M, R>) -> bool {
        let Some(front) = &mut self.front else {
            return false;
        };
        let (Some(session), Some(server)) = (front.session, &mut tools.server) else {
            return false;
        };
        if !front.waits() {
            return false;
        }
        self.is_busy = false;
        let taken = match server.take(tools.daemon.alloc, session) {
            Ok(outs) => front.take_all(outs),
            Err(refused) => Err(refused),
        };
        if taken.is_err() {
            self.cut_off(Reason::Memory);
        }
        true
    }

    /// Returns why the daemon's patience with the peer is at its end, if it is at this moment. Before that the peer is
    /// probed, which is to be written. A peer that isn't read isn't silent, but where its request waits since it
    /// met Busy: then what arrives is noticed though it isn't read.
    pub(crate) fn has_expired(&mut self, patience: Patience, moment: u64) -> Option<Reason> {
        let Patience { probe, stall } = patience;
        if !self.may_read() && !self.is_busy || self.is_held_back() {
            self.hear_peer(moment);
        }
        let is_silent = match probe {
            Some(probe) => self.is_silent(moment, probe),
            None => false,
        };
        let is_stalled = match stall {
            Some(stall) => !self.is_writable && moment.saturating_sub(self.took) >= stall,
            None => false,
        };
        if is_silent {
            return Some(Reason::Silent);
        }
        if is_stalled {
            return Some(Reason::Stalled);
        }
        None
    }

    /// Has it logged that the session was opened, and remembers who is at the other end.
    pub(crate) fn log_open<R: Wait + Clock>(&mut self, rt: &R, daemon: &Daemon<L>) {
        self.client = self.stream.peer_addr().ok();
        self.log(rt, daemon, ConnectionEvent::Opened(self.session));
    }

    /// Has it logged what happened, where it was logged that the session was opened.
    fn log<R: Wait + Clock>(&self, rt: &R, daemon: &Daemon<L>, happened: ConnectionEvent) {
        if let Some(client) = self.client {
            daemon.log(rt, client, happened);
        }
    }

    /// Has it logged that the connection is closed, and why.
    fn log_close<R: Wait + Clock>(&self, rt: &R, daemon: &Daemon<L>) {
        let reason = self.reason.unwrap_or(Reason::Ended);
        self.log(rt, daemon, ConnectionEvent::Closed(self.session, reason));
    }

    /// Returns whether a peer counts as gone: it said nothing for `probe` milliseconds, was probed, and said nothing for as many
    /// after that. So it has this time also where the process itself was stopped in between.
    fn is_silent(&mut self, moment: u64, probe: u64) -> bool {
        if let Some(probed) = self.probed {
            return moment.saturating_sub(probed) >= probe;
        }
        if moment.saturating_sub(self.heard) >= probe {
            self.probed = Some(moment);
            self.is_probe_due = true;
        }
        false
    }

    /// Closes the connection, and ends its sessions if these are open.
    pub(crate) fn close<R: Wait + Clock>(self, rt: &R, daemon: &Daemon<L>) {
        self.log_close(rt, daemon);
        let Connection {
            stream,
            client: _,
            session: _,
            reason: _,
            seat,
            inbox: _,
            outbox: _,
            front: _,
            second,
            untold: _,
            untold_second: _,
            is_readable: _,
            is_writable: _,
            is_closed: _,
            is_busy: _,
            is_cut_off: _,
            is_queued: _,
            is_slow: _,
            heard: _,
            took: _,
            probed: _,
            is_probe_due: _,
        } = self;
        drop(stream.shutdown(Shutdown::Both));
        match second {
            Some(second) => Box::into_inner(second).end_both(rt, daemon, seat),
            None => if let Some(seat) = seat {
                leave_at_last(rt, daemon, seat);
            },
        }
    }
}

/// Ends a session, if it is open. False says that memory was refused, and that it is open still.
pub(crate) fn leave_once<L: Ledger, R: Wait + Clock>(
    rt: &R,
    daemon: &Daemon<L>,
    seat: &mut Option<Seat<L>>,
) -> bool {
    let Some(own) = seat.take() else {
        return true;
    };
    let Err(back) = daemon.leave(rt, own) else {
        return true;
    };
    if let Some(other) = mem::replace(seat, Some(back)) {
        leave_at_last(rt, daemon, other);
    }
    false
}

/// Ends a session. Where memory is refused it tries again.
pub(crate) fn leave_at_last<L: Ledger, R: Wait + Clock>(rt: &R, daemon: &Daemon<L>, seat: Seat<L>) {
    let mut seat = seat;
    for _ in rt.forever() {
        match daemon.leave(rt, seat) {
            Ok(()) => return,
            Err(back) => seat = back,
        }
        thread::sleep(rt, Duration::from_millis(RETRY_PAUSE));
    }
    unreachable!()
}

/// Returns what is to be noted of a request to `_Server`.
fn noted_of(alloc: Global, request: &Request) -> Result<RequestIds, AllocError> {
    let mut noted = RequestIds {
        naming: None,
        transaction: None,
        canceled: None,
    };
    if request.is_notification() {
        noted.canceled = first_id(alloc, request)?;
    } else if names_monitor(request) {
        noted.naming = Some(Naming::of(alloc, request)?);
    } else {
        noted.transaction = Some(IdText::new(alloc, reply_id(request))?);
    }
    Ok(noted)
}

/// Returns the id of a request, to which there is a reply; none of a notification.
fn asked_id(alloc: Global, request: &Request) -> Result<Option<IdText>, AllocError> {
    if request.is_notification() {
        return Ok(None);
    }
    Ok(Some(IdText::new(alloc, reply_id(request))?))
}
