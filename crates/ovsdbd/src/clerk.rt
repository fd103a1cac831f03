//! A thread that serves connections, by events. [P 15.2]
ghost use Rattle.std.specs.Prelude.{◌≡◌};
ghost use Rattle.odb_waking.specs.Loop as loops;

use crate::connection::{Connection, Next, RandomIdentifiers, Tools};
use crate::daemon::{Daemon, Daemons, has_lasted};
use crate::desk::Desk;
use crate::front::FrontEnd;
use crate::log::ConnectionEvent;
use crate::server_database::ServerDatabase;
use crate::tuning::{BATCH, EVENTS, LOOKS, PIECE, RETRY_PAUSE, TURNS};
use mio::net::TcpStream;
use mio::{Events, Interest, Poll, Token};
use odb_core::{EventRefusal, SessionId};
use odb_hub::{Bell, Wakes};
use odb_waking::LoopStage;
use rand::make_rng;
use std::alloc::{AllocError, Global};
use std::collections::VecDeque;
use std::io::{self, Error, ErrorKind};
use std::random::RandomSource;
use std::sync::ledger::Ledger;
use std::sync::{Arc, Wait};
use std::thread::Threads;
use std::time::{Clock, Duration, Instant};
use std::{mem, thread};

/// The connections of a thread, and those that have a turn next.
pub(crate) struct Clerk<'a, L: Ledger, M: Ledger, R> {
    tools: Tools<'a, L, M, R>,
    desk: &'a Desk,
    poll: Poll,
    /// The connections in their slots, and the slots that are vacant.
    connections: Vec<Option<Connection<'a, L, M>>>,
    vacant: Vec<usize>,
    /// The slots of those that have a turn next: of those that have requests, of those of them whose last submission
    /// was slow, and of the others.
    with_requests: VecDeque<usize>,
    slow: VecDeque<usize>,
    queue: VecDeque<usize>,
    /// Whether the last events added some to those that have requests.
    has_newer: bool,
    /// Whether no connection will come any more.
    is_closed: bool,
    /// When it is looked next whether patience is at its end, in milliseconds since the start.
    looks: u64,
}

/// Serves the connections that come to the desk, until no more will come and all have ended.
pub(crate) fn serve_desk<L: Ledger, M: Ledger, R: Threads + Wait + Clock + RandomSource + Sync>(
    rt: &R,
    daemons: &Daemons<L, M>,
    desk: &Desk,
    poll: Poll,
) -> io::Result<()> {
    let daemon = &daemons.first;
    let mut piece = Vec::new(daemon.alloc);
    piece.resize(PIECE, 0u8)?;
    let mut events = Events::with_capacity(daemon.alloc, EVENTS)?;
    let clerk = Clerk {
        tools: Tools {
            rt,
            daemon,
            second: daemons.second.as_ref(),
            front: daemons.front.as_ref(),
            wakes: &desk.wakes,
            slot: 0,
            piece,
            identifiers: RandomIdentifiers { rng: make_rng(rt)? },
            server: start_server(daemons.front.as_ref())?,
            moment: daemon.now(rt),
        },
        desk,
        poll,
        connections: Vec::new(daemon.alloc),
        vacant: Vec::new(daemon.alloc),
        with_requests: VecDeque::new(daemon.alloc),
        slow: VecDeque::new(daemon.alloc),
        queue: VecDeque::new(daemon.alloc),
        has_newer: false,
        is_closed: false,
        looks: 0,
    };
    clerk.run(&mut events);
    Ok(())
}

impl<'a, L: Ledger, M: Ledger, R: Threads + Wait + Clock + RandomSource + Sync> Clerk<'a, L, M, R> {
    fn run(self, events: &mut Events) {
        let mut clerk = self;
        let mut stage = LoopStage::new();
        for _ in clerk.tools.rt.forever() {
            clerk.poll_once(events, &mut stage);
            if clerk.is_over() {
                break;
            }
        }
        let Clerk {
            tools: Tools {
                rt,
                daemon,
                second: _,
                front: _,
                wakes: _,
                slot: _,
                piece: _,
                identifiers: _,
                server: _,
                moment: _,
            },
            desk: _,
            poll: _,
            connections,
            vacant: _,
            with_requests: _,
            slow: _,
            queue: _,
            has_newer: _,
            is_closed: _,
            looks: _,
        } = clerk;
        close_all(rt, daemon, connections);
    }

    /// Serves some of those that were called or have events, and sleeps where nothing is left to do.
    fn poll_once(&mut self, events: &mut Events, stage: &mut LoopStage)
        requires { stage.old ≡ loops.begins }
        ensures { stage.new ≡ loops.begins }
    {
        self.take_connections();
        self.hear_wakes(stage);
        self.serve_some();
        // What was given just now.
        stage.stays();
        self.hear_wakes(stage);
        self.wait(events, stage);
        self.desk.gets_up(stage);
        self.notice(events);
        self.look_at_all();
        self.look_at_server();
    }
}

/// Makes the thread's database `_Server`, where that is asked for.
fn start_server(front: Option<&FrontEnd>) -> Result<Option<ServerDatabase>, AllocError> {
    match front {
        Some(
            FrontEnd {
                databases: _,
                answers: _,
                nothing: _,
                server: Some(begun),
            },
        ) => Ok(Some(begun.start()?)),
        _ => Ok(None),
    }
}

impl<'a, L: Ledger, M: Ledger, R: Wait + Clock> Clerk<'a, L, M, R> {
    /// Takes the connections that were given to it.
    fn take_connections(&mut self) {
        let Some((streams, is_closed)) = self.desk.take(self.tools.rt) else {
            return;
        };
        self.is_closed = is_closed;
        for stream in streams {
            if self.open(stream).is_err() {
                self.desk.let_go();
            }
        }
    }

    /// Opens a session for a connection; an error says that it is closed, since no session can be opened.
    fn open(&mut self, stream: TcpStream) -> io::Result<()> {
        let mut stream = stream;
        let slot = self.vacate()?;
        let registry = self.poll.registry();
        registry.register(
            &mut stream,
            Token(slot),
            Interest::READABLE | Interest::WRITABLE,
        )?;
        let daemon = self.tools.daemon;
        let bell = Bell::new(Arc::try_clone(&self.desk.wakes)?, slot);
        let opened = daemon.hub.enter(self.tools.rt).open(bell);
        let (seat, mailbox) = match opened {
            Ok(opened) => opened,
            Err(why) => return Err(self.refuse(&stream, why)),
        };
        let mut connection = Connection::new(daemon, stream, seat, mailbox, self.tools.moment);
        if daemon.notices.has_log() {
            connection.log_open(self.tools.rt, daemon);
        }
        drop(self.vacant.pop());
        self.put(slot, connection);
        self.enqueue(slot);
        Ok(())
    }

    /// Returns why a connection is closed for which no session could be opened, and has it said that there are too many.
    fn refuse(&self, stream: &TcpStream, why: EventRefusal) -> Error {
        if matches!(why, EventRefusal::TooMany) {
            self.note_too_many(stream);
        }
        self.log_refused(stream);
        Error::from(ErrorKind::OutOfMemory)
    }

    fn log_refused(&self, stream: &TcpStream) {
        let daemon = self.tools.daemon;
        if !daemon.notices.has_log() {
            return;
        }
        if let Ok(client) = stream.peer_addr() {
            daemon.log(self.tools.rt, client, ConnectionEvent::Refused);
        }
    }

    fn note_too_many(&self, stream: &TcpStream) {
        if let Ok(client) = stream.peer_addr() {
            let daemon = self.tools.daemon;
            daemon.notices.note_too_many(self.tools.rt, client);
        }
    }

    /// Returns the slot that is the last of those that are vacant, of which there is one then. There is room in the
    /// queue for all.
    fn vacate(&mut self) -> io::Result<usize> {
        if let Some(slot) = self.vacant.last() {
            return Ok(*slot);
        }
        let slot = self.connections.len();
        if !Wakes::has_bit(slot) {
            return Err(Error::from(ErrorKind::OutOfMemory));
        }
        self.vacant.reserve(slot.saturating_add(1))?;
        self.with_requests.reserve(slot.saturating_add(1))?;
        self.slow.reserve(slot.saturating_add(1))?;
        self.queue.reserve(slot.saturating_add(1))?;
        self.connections.reserve(1)?;
        self.connections.push_reserved(None);
        self.vacant.push(slot)?;
        Ok(slot)
    }

    fn put(&mut self, slot: usize, connection: Connection<'a, L, M>) {
        let (rt, daemon) = (self.tools.rt, self.tools.daemon);
        match self.connections.get_mut(slot) {
            Some(entry) => if let Some(other) = mem::replace(entry, Some(connection)) {
                other.close(rt, daemon);
            },
            None => connection.close(rt, daemon),
        }
    }

    /// Has a connection served next, if it is there.
    fn enqueue(&mut self, slot: usize) {
        let Some(connection) = at(self.connections.as_mut_slice(), slot) else {
            return;
        };
        if connection.is_queued {
            return;
        }
        // There is room for each connection once.
        connection.is_queued = if !connection.has_requests() {
            self.queue.push_back(slot).is_ok()
        } else if connection.is_slow {
            self.slow.push_back(slot).is_ok()
        } else {
            self.with_requests.push_back(slot).is_ok()
        };
    }

    /// Has those served next to whose sessions something was given.
    fn hear_wakes(&mut self, stage: &mut LoopStage)
        requires { stage.old ≡ loops.begins }
        ensures { stage.new ≡ loops.lies_down }
    {
        if self.desk.wakes.begin(stage) {
            self.hear_words(stage);
            stage.collected();
        }
    }

    fn hear_words(&mut self, stage: &LoopStage)
        requires { stage.now ≡ loops.collects }
    {
        let mut first: usize = 0;
        for word in 0..self.desk.wakes.words() {
            self.hear_word(first, self.desk.wakes.hear(word, stage));
            first = first.saturating_add(u64::BITS as usize);
        }
    }

    /// Hears those of the 64 slots from the first on whose bit is set.
    fn hear_word(&mut self, first: usize, bits: u64) {
        let mut bits = bits;
        for _ in 0..u64::BITS {
            if bits == 0 {
                break;
            }
            self.hear(first.saturating_add(bits.trailing_zeros() as usize));
            bits &= bits - 1;
        }
    }

    fn hear(&mut self, slot: usize) {
        if let Some(connection) = at(self.connections.as_mut_slice(), slot) {
            connection.hear();
        }
        self.enqueue(slot);
    }

    /// Returns whether it has no connection, and none will come.
    fn is_over(&self) -> bool {
        self.is_closed && self.vacant.len() == self.connections.len()
    }

    /// Returns whether some have a turn next.
    fn has_next(&self) -> bool {
        !self.with_requests.is_empty() || !self.slow.is_empty() || !self.queue.is_empty()
    }

    /// Waits for events: not at all where some have a turn next.
    fn wait(&mut self, events: &mut Events, stage: &mut LoopStage)
        requires { stage.old ≡ loops.lies_down }
        ensures { stage.new ≡ loops.rises }
    {
        if self.has_next() || self.is_over() {
            stage.stayed_up();
            return self.poll_now(events);
        }
        if self.desk.lies_down(stage) {
            self.sleep(events, stage);
        } else {
            self.poll_now(events);
        }
    }

    /// Takes the events that are there.
    fn poll_now(&mut self, events: &mut Events) {
        drop(self.poll.poll(events, Some(Duration::ZERO)));
    }

    /// Sleeps until there are events, or it is to look whether the daemon's patience is at its end.
    fn sleep(&mut self, events: &mut Events, stage: &mut LoopStage)
        requires { stage.old ≡ loops.sleeps }
        ensures { stage.new ≡ loops.rises }
    {
        let interval = sooner(self.interval(), self.until_deadline());
        drop(self.poll.poll(events, interval));
        stage.slept();
    }

    /// Returns how long it is until a transaction that waits in `_Server` is due, a millisecond at least.
    fn until_deadline(&self) -> Option<Duration> {
        let Some(server) = &self.tools.server else {
            return None;
        };
        let deadline = server.core.next_deadline()?;
        let left = deadline.saturating_sub(self.tools.daemon.now(self.tools.rt));
        Some(Duration::from_millis(left.max(1)))
    }

    /// Has the transactions tried that wait in `_Server` and are due, and their connections served.
    fn look_at_server(&mut self) {
        if !self.is_due() {
            return;
        }
        for slot in 0..self.connections.len() {
            self.hear_server(slot);
        }
    }

    /// Tries the transactions that are due in `_Server`. False: none is, or memory was refused, and they are tried again.
    fn is_due(&mut self) -> bool {
        let (rt, daemon) = (self.tools.rt, self.tools.daemon);
        let Some(server) = &mut self.tools.server else {
            return false;
        };
        let Some(deadline) = server.core.next_deadline() else {
            return false;
        };
        let now = daemon.now(rt);
        deadline <= now && server.core.tick(now).is_ok()
    }

    fn hear_server(&mut self, slot: usize) {
        let Some(connection) = at(self.connections.as_mut_slice(), slot) else {
            return;
        };
        if connection.hear_server(&mut self.tools) {
            self.enqueue(slot);
        }
    }

    /// Learns what the poll tells.
    fn notice(&mut self, events: &Events) {
        if !self.tools.daemon.patience.is_endless() {
            self.tools.moment = self.tools.daemon.now(self.tools.rt);
        }
        let before = self.with_requests.len();
        for event in events.iter() {
            let slot = event.token().0;
            if let Some(connection) = at(self.connections.as_mut_slice(), slot) {
                connection.notice(event, self.tools.moment);
            }
            self.enqueue(slot);
        }
        self.has_newer = self.with_requests.len() > before;
    }

    /// Returns how often to look whether the daemon's patience is at its end; not at all where it has none.
    fn interval(&self) -> Option<Duration> {
        let patience = &self.tools.daemon.patience;
        let shortest = match (patience.probe, patience.stall) {
            (Some(probe), Some(stall)) => probe.min(stall),
            (Some(probe), None) => probe,
            (None, stall) => stall?,
        };
        Some(Duration::from_millis((shortest / LOOKS).max(1)))
    }

    /// Looks at all connections, where that is due, for those with which the daemon's patience is at its end.
    fn look_at_all(&mut self) {
        let moment = self.tools.moment;
        let Some(interval) = self.interval() else {
            return;
        };
        if moment < self.looks {
            return;
        }
        self.looks = moment.saturating_add(u64::try_from(interval.as_millis()).unwrap_or(1));
        for slot in 0..self.connections.len() {
            self.look_at(slot);
        }
    }

    fn look_at(&mut self, slot: usize) {
        let Some(connection) = at(self.connections.as_mut_slice(), slot) else {
            return;
        };
        let expired = connection.has_expired(self.tools.daemon.patience, self.tools.moment);
        if let Some(reason) = expired {
            connection.cut_off(reason);
        }
        self.enqueue(slot);
    }

    /// Closes a connection.
    fn close(&mut self, slot: usize) {
        let Some(entry) = self.connections.get_mut(slot) else {
            return;
        };
        if let Some(mut connection) = mem::replace(entry, None) {
            if let Some(session) = connection.leave_server() {
                leave_server_at_last(&mut self.tools, session);
            }
            connection.close(self.tools.rt, self.tools.daemon);
            self.desk.let_go();
            // There is room for each slot once.
            drop(self.vacant.push(slot));
        }
    }
}

impl<'a, L: Ledger, M: Ledger, R: Threads + Wait + Clock + Sync> Clerk<'a, L, M, R> {
    /// Gives a turn to some of those that have requests, and to as many of the others, so that neither wait for all of
    /// the others; and then to one that was slow, so that the others wait for one of these at most. The first is the
    /// last that events brought, and after a while it looks for further events: so who asks little waits for a few of
    /// many that came before and ask much, and each of these has its turn.
    fn serve_some(&mut self) {
        let begun = Instant::now(self.tools.rt);
        if self.has_newer
            && let Some(slot) = self.with_requests.pop_back()
        {
            self.has_newer = false;
            self.serve_with_requests(slot);
        }
        for _ in 0..TURNS {
            if self.with_requests.is_empty() && self.queue.is_empty() {
                break;
            }
            if let Some(slot) = self.with_requests.pop_front() {
                self.serve_with_requests(slot);
            }
            self.serve_others(1);
            if has_lasted(self.tools.rt, &begun, BATCH) {
                break;
            }
        }
        if let Some(slot) = self.slow.pop_front() {
            self.serve_with_requests(slot);
        }
    }

    /// Gives a turn to one that has requests. Where that was slow others have theirs before the next is asked for, so
    /// that long replies go out before there are more of them.
    fn serve_with_requests(&mut self, slot: usize) {
        self.serve(slot);
        let is_slow = match at(self.connections.as_mut_slice(), slot) {
            Some(connection) => connection.is_slow,
            None => false,
        };
        if is_slow {
            self.serve_others(TURNS);
        }
    }

    /// Gives a turn to so many of those that have none.
    fn serve_others(&mut self, most: usize) {
        for _ in 0..most {
            let Some(slot) = self.queue.pop_front() else {
                break;
            };
            self.serve(slot);
        }
    }

    fn serve(&mut self, slot: usize) {
        let Some(connection) = at(self.connections.as_mut_slice(), slot) else {
            return;
        };
        connection.is_queued = false;
        self.tools.slot = slot;
        match connection.serve(&mut self.tools) {
            Next::Rests => {}
            Next::GoesOn => self.enqueue(slot),
            Next::Ends => self.close(slot),
        }
    }
}

/// Returns the connection in a slot, if there is one.
fn at<'c, 'a, L: Ledger, M: Ledger>(
    connections: &'c mut [Option<Connection<'a, L, M>>],
    slot: usize,
) -> Option<&'c mut Connection<'a, L, M>> {
    connections.get_mut(slot)?.as_mut()
}

/// Ends a session in `_Server`. Where memory is refused it tries again.
fn leave_server_at_last<L: Ledger, M: Ledger, R: Wait + Clock>(
    tools: &mut Tools<'_, L, M, R>,
    session: SessionId,
) {
    let Some(server) = &mut tools.server else {
        return;
    };
    for _ in tools.rt.forever() {
        if server.close(session) {
            return;
        }
        thread::sleep(tools.rt, Duration::from_millis(RETRY_PAUSE));
    }
    unreachable!()
}

/// Returns the shorter of two times, of which each may be absent.
fn sooner(time: Option<Duration>, other: Option<Duration>) -> Option<Duration> {
    match (time, other) {
        (Some(time), Some(other)) => Some(time.min(other)),
        (Some(time), None) => Some(time),
        (None, other) => other,
    }
}

/// Closes what is left of these connections.
fn close_all<L: Ledger, M: Ledger, R: Wait + Clock>(
    rt: &R,
    daemon: &Daemon<L>,
    connections: Vec<Option<Connection<'_, L, M>>>,
) {
    let mut connections = connections;
    for _ in rt.forever() {
        match connections.pop() {
            Some(Some(connection)) => connection.close(rt, daemon),
            Some(None) => {}
            None => {
                connections.destroy_empty();
                return;
            }
        }
    }
    unreachable!()
}
