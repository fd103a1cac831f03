//! What is said on standard error while the daemon serves. [P 15.2]

use crate::front::Schemas;
use crate::log::{LogBuffer, LogLine};
use crate::tuning::{NOTICE_LOOKS, NOTICE_PAUSE};
use std::alloc::Global;
use std::io::{self, Eprint};
use std::mem;
use std::net::SocketAddr;
use std::sync::atomic::{AtomicU64, Ordering};
use std::sync::{Mutex, Wait};
use std::thread::{self, Parker};
use std::time::{Clock, Duration};

/// Clients whose connections were closed for one reason since the last line about it: how many, and the first of them.
#[derive(Drop)]
struct Closed {
    count: u64,
    first: Option<SocketAddr>,
}

impl Closed {
    fn none() -> Closed {
        Closed {
            count: 0,
            first: None,
        }
    }

    fn add(&mut self, client: SocketAddr) {
        self.count = self.count.saturating_add(1);
        if self.first.is_none() {
            self.first = Some(client);
        }
    }
}

/// What is to be said.
#[derive(Drop)]
struct PendingNotices {
    /// Those of whom a message is too long.
    too_long: Closed,
    /// Those who came when as many sessions were open as may be.
    too_many: Closed,
    /// How many connections couldn't be accepted, and the system's number of the last error.
    unaccepted: u64,
    code: i32,
}

impl PendingNotices {
    fn nothing() -> PendingNotices {
        PendingNotices {
            too_long: Closed::none(),
            too_many: Closed::none(),
            unaccepted: 0,
            code: 0,
        }
    }
}

/// Lines for standard error, which one thread writes, so that whoever has something to say waits for no reader of it. Of each
/// kind at most one line is written in a second: it names the first of what happened, and says how many more there were. Where
/// there is a log, each line of it is written too.
#[derive(Drop)]
pub(crate) struct Notices {
    pending: Mutex<PendingNotices>,
    log: Mutex<LogBuffer>,
    has_log: bool,
    /// The schemas by which it is told why transactions failed, where that is logged.
    schemas: Option<Schemas>,
    writer: Parker,
    ended: AtomicU64,
    /// The most bytes of a message, and the most sessions, which lines name.
    max_message: usize,
    max_sessions: usize,
}

impl Notices {
    /// Makes notices of a daemon with these limits, of which there are none yet.
    pub(crate) fn new(
        alloc: Global,
        max_message: usize,
        max_sessions: usize,
        has_log: bool,
        schemas: Option<Schemas>,
    ) -> Notices {
        Notices {
            pending: Mutex::new(PendingNotices::nothing()),
            log: Mutex::new(LogBuffer::new(alloc)),
            has_log,
            schemas,
            writer: Parker::new(),
            ended: AtomicU64::new(0),
            max_message,
            max_sessions,
        }
    }

    /// Notes that the connection of this client is closed, since a message is longer than a message may be.
    pub(crate) fn note_too_long<R: Wait>(&self, rt: &R, client: SocketAddr) {
        self.pending.lock(rt).too_long.add(client);
        self.writer.unpark();
    }

    /// Notes that the connection of this client is closed, since as many sessions are open as may be.
    pub(crate) fn note_too_many<R: Wait>(&self, rt: &R, client: SocketAddr) {
        self.pending.lock(rt).too_many.add(client);
        self.writer.unpark();
    }

    /// Notes why a connection couldn't be accepted, as where no file descriptor is left.
    pub(crate) fn note_unaccepted<R: Wait>(&self, rt: &R, error: io::Error) {
        let mut pending = self.pending.lock(rt);
        pending.unaccepted = pending.unaccepted.saturating_add(1);
        pending.code = error.raw_os_error().unwrap_or(0);
        drop(pending);
        self.writer.unpark();
    }

    /// Returns whether there is a log.
    pub(crate) fn has_log(&self) -> bool {
        self.has_log
    }

    /// Returns whether transactions that fail are logged.
    pub(crate) fn logs_errors(&self) -> bool {
        self.schemas.is_some()
    }

    /// Adds a line to the log.
    pub(crate) fn add_line<R: Wait>(&self, rt: &R, line: LogLine) {
        self.log.lock(rt).add(line);
        self.writer.unpark();
    }

    /// Ends the thread that writes, once all that was noted is written.
    pub(crate) fn end(&self) {
        self.ended.store(1, Ordering::SeqCst);
        self.writer.unpark();
    }

    /// Writes what is noted, until it is ended.
    pub(crate) fn write_all<R: Eprint + Wait + Clock>(&self, rt: &R) {
        for _ in rt.forever() {
            let is_over = self.is_ended();
            let is_logged = self.write_log(rt);
            let is_noted = self.write_pending(rt);
            if is_over {
                return;
            }
            if is_noted {
                self.pause(rt);
            } else if !is_logged {
                self.writer.park(rt);
            }
        }
    }

    fn is_ended(&self) -> bool {
        self.ended.load(Ordering::SeqCst) != 0
    }

    /// Pauses after a notice, and goes on with the log.
    fn pause<R: Eprint + Wait + Clock>(&self, rt: &R) {
        for _ in 0..NOTICE_LOOKS {
            if self.is_ended() {
                return;
            }
            thread::sleep(rt, Duration::from_millis(NOTICE_PAUSE / NOTICE_LOOKS));
            self.write_log(rt);
        }
    }

    /// Writes the lines of the log that wait, and returns whether there were some.
    fn write_log<R: Eprint + Wait>(&self, rt: &R) -> bool {
        if !self.has_log {
            return false;
        }
        let log = self.log.lock(rt).take();
        log.write(rt, self.schemas.as_ref())
    }

    /// Writes a line for each kind of things of which some happened, and returns whether there was one. Whether it could be
    /// written doesn't matter.
    fn write_pending<R: Eprint + Wait>(&self, rt: &R) -> bool {
        let pending = mem::replace(&mut *self.pending.lock(rt), PendingNotices::nothing());
        let long = self.write_too_long(rt, &pending.too_long);
        let many = self.write_too_many(rt, &pending.too_many);
        let failed = write_unaccepted(rt, pending.unaccepted, pending.code);
        long || many || failed
    }

    fn write_too_long<R: Eprint>(&self, rt: &R, closed: &Closed) -> bool {
        let Some(client) = &closed.first else {
            return false;
        };
        let more = closed.count.saturating_sub(1);
        let most = self.max_message;
        drop(eprintln!(rt;
            "ovsdbd: closed {client} (and {more} more): a message is longer than {most} bytes (--max-message)"
        ));
        true
    }

    fn write_too_many<R: Eprint>(&self, rt: &R, closed: &Closed) -> bool {
        let Some(client) = &closed.first else {
            return false;
        };
        let more = closed.count.saturating_sub(1);
        let most = self.max_sessions;
        drop(eprintln!(rt; "ovsdbd: closed {client} (and {more} more): {most} sessions are open"));
        true
    }
}

fn write_unaccepted<R: Eprint>(rt: &R, count: u64, code: i32) -> bool {
    if count == 0 {
        return false;
    }
    let more = count - 1;
    let error = io::Error::from_raw_os_error(code);
    drop(eprintln!(rt; "ovsdbd: can't accept a connection (and {more} more): {error}"));
    true
}
