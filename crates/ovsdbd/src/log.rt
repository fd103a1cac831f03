//! The log: which connections are opened and closed, and why; and which transactions fail. [P 15.2]

use crate::cause_text::CauseText;
use crate::fault::Which;
use crate::front::Schemas;
use crate::tuning::LOG_LINES;
use odb_core::SessionId;
use odb_hub::TransactionFailure;
use odb_schema::Schema;
use std::alloc::Global;
use std::io::Eprint;
use std::mem;
use std::net::SocketAddr;
use thiserror::Error as ErrorText;

/// Why a connection was closed.
#[derive(Clone, Copy, Debug, ErrorText)]
pub(crate) enum Reason {
    /// The client ended its side, and has what it is owed.
    #[error("the client ended it")]
    Ended,
    /// The system says that it can't be read or written any more, as where it was reset.
    #[error("it was reset")]
    Reset,
    /// What came is no message.
    #[error("what came is no message")]
    Malformed,
    /// A message is longer than a message may be.
    #[error("a message is too long (--max-message)")]
    TooLong,
    /// Memory was refused for what the client sent, or for a second for what it is owed.
    #[error("memory ran out")]
    Memory,
    /// Writing failed.
    #[error("writing failed")]
    Unwritten,
    /// The client said nothing, also when it was asked whether it is there.
    #[error("the client said nothing (--probe)")]
    Silent,
    /// The client took nothing.
    #[error("the client took nothing (--stall)")]
    Stalled,
}

/// What happened to a client's connection.
#[derive(Clone, Copy)]
pub(crate) enum ConnectionEvent {
    /// A session was opened for a connection.
    Opened(SessionId),
    /// A session of the second database was opened for it.
    OpenedSecond(SessionId),
    /// The connection of a session was closed.
    Closed(SessionId, Reason),
    /// A connection was closed for which no session could be opened.
    Refused,
}

/// What a line of the log says.
#[derive(Clone, Copy)]
pub(crate) enum Said {
    /// What happened to this client's connection.
    OfClient(SocketAddr, ConnectionEvent),
    /// That a transaction of a database failed.
    OfTransaction(Which, TransactionFailure),
}

/// A line of the log: what it says, and of which moment, in milliseconds since the start.
#[derive(Clone, Copy)]
pub(crate) struct LogLine {
    pub(crate) moment: u64,
    pub(crate) said: Said,
}

impl LogLine {
    /// Writes it. Whether it could be written doesn't matter. The schemas have the names of what a transaction failed for.
    fn write<R: Eprint>(&self, rt: &R, schemas: Option<&Schemas>) {
        match self.said {
            Said::OfClient(client, happened) => self.write_client(rt, client, happened),
            Said::OfTransaction(which, failure) => self.write_failure(rt, which, failure, schemas),
        }
    }

    /// Writes what happened to a client's connection.
    fn write_client<R: Eprint>(&self, rt: &R, client: SocketAddr, happened: ConnectionEvent) {
        let moment = self.moment;
        match happened {
            ConnectionEvent::Opened(session) => {
                drop(eprintln!(rt; "ovsdbd: {moment} ms: {client}: session {session} is open"));
            }
            ConnectionEvent::OpenedSecond(session) => {
                drop(eprintln!(rt;
                    "ovsdbd: {moment} ms: {client}: session {session} of the second database is open"
                ));
            }
            ConnectionEvent::Closed(session, reason) => {
                drop(eprintln!(rt;
                    "ovsdbd: {moment} ms: {client}: session {session} is closed: {reason}"
                ));
            }
            ConnectionEvent::Refused => {
                drop(eprintln!(rt; "ovsdbd: {moment} ms: {client}: no session can be opened"));
            }
        }
    }

    /// Writes that a transaction failed.
    fn write_failure<R: Eprint>(
        &self,
        rt: &R,
        which: Which,
        failure: TransactionFailure,
        schemas: Option<&Schemas>,
    ) {
        let Some(schemas) = schemas else {
            return;
        };
        match (which, &schemas.second) {
            (Which::First, _) => self.write_first(rt, failure, &schemas.first),
            (Which::Second, Some(schema)) => self.write_second(rt, failure, schema),
            (Which::Second, None) => {}
        }
    }

    fn write_first<R: Eprint>(&self, rt: &R, failure: TransactionFailure, schema: &Schema) {
        let moment = self.moment;
        let session = failure.session;
        let text = CauseText {
            cause: failure.cause,
            schema,
        };
        drop(eprintln!(rt; "ovsdbd: {moment} ms: session {session}: transaction failed: {text}"));
    }

    fn write_second<R: Eprint>(&self, rt: &R, failure: TransactionFailure, schema: &Schema) {
        let moment = self.moment;
        let session = failure.session;
        let text = CauseText {
            cause: failure.cause,
            schema,
        };
        drop(eprintln!(rt;
            "ovsdbd: {moment} ms: session {session} of the second database: transaction failed: {text}"
        ));
    }
}

/// The lines that wait to be written, and how many were left out since some were written.
#[derive(Drop)]
pub(crate) struct LogBuffer {
    alloc: Global,
    lines: Vec<LogLine>,
    left_out: u64,
}

impl LogBuffer {
    /// Makes one without lines.
    pub(crate) fn new(alloc: Global) -> LogBuffer {
        LogBuffer {
            alloc,
            lines: Vec::new(alloc),
            left_out: 0,
        }
    }

    /// Adds a line; it is left out where too many wait, or memory is refused.
    pub(crate) fn add(&mut self, line: LogLine) {
        if self.lines.len() >= LOG_LINES || self.lines.push(line).is_err() {
            self.left_out = self.left_out.saturating_add(1);
        }
    }

    /// Takes out what there is.
    pub(crate) fn take(&mut self) -> LogBuffer {
        let alloc = self.alloc;
        mem::replace(self, LogBuffer::new(alloc))
    }

    /// Writes the lines, and how many were left out, and returns whether there was something.
    pub(crate) fn write<R: Eprint>(&self, rt: &R, schemas: Option<&Schemas>) -> bool {
        for line in &self.lines {
            line.write(rt, schemas);
        }
        let left_out = self.left_out;
        if left_out > 0 {
            drop(eprintln!(rt; "ovsdbd: {left_out} lines of the log are left out"));
        }
        left_out > 0 || !self.lines.is_empty()
    }
}
