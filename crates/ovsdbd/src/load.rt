//! A file of messages, which is submitted before the daemon listens. [P 15.2]

use crate::connection::{RandomIdentifiers, leave_at_last};
use crate::daemon::{Daemon, Daemons};
use crate::fault::{LoadFault, ProgramFault};
use crate::front::FrontEnd;
use crate::second::Second;
use crate::tuning::FILE_PIECE;
use odb_front::{Destination, destination_of};
use odb_hub::{Bell, Outbox, Seat, Submission, Wakes, submission_of};
use odb_script::RunFault;
use odb_wire::{Framer, Message, Request, Response, WireFault};
use rand::make_rng;
use serde_json::Value;
use std::alloc::{AllocError, Global};
use std::fs::File;
use std::io::{self, ErrorKind, Read};
use std::random::RandomSource;
use std::rt::Files;
use std::sync::ledger::Ledger;
use std::sync::{Arc, Wait};
use std::thread::Threads;
use std::time::Clock;

/// A message that makes one whole where the file ended between two, and none where it ended in the midst of one: it has as many
/// braces and quotes of either kind.
const END: &[u8] = b"{\"method\":\"echo\",\"params\":[],\"id\":0}";

/// A session of a database by which messages are submitted: its seat, where its replies come, and what reads these.
struct LoadSession<'a, L: Ledger, R> {
    rt: &'a R,
    daemon: &'a Daemon<L>,
    seat: Seat<L>,
    outbox: Outbox,
    replies: Framer,
}

/// What files are loaded by: a session in each database, and what reads messages.
struct Loader<'a, L: Ledger, M: Ledger, R> {
    first: LoadSession<'a, L, R>,
    second: Option<LoadSession<'a, M, R>>,
    /// The second database, and where messages go, where there are several.
    other: Option<&'a Second<M>>,
    front: Option<&'a FrontEnd>,
    framer: Framer,
    identifiers: RandomIdentifiers,
    /// How many messages were submitted.
    count: u64,
}

/// Submits the messages of a file, one after the other, each to the database to which it goes, as one session's, which ends then,
/// and reads each reply. It stops at the first message that didn't go through; what those before it committed stays. O(bytes of
/// the file), and what the transactions cost.
pub(crate) fn load_file<
    'x,
    L: Ledger,
    M: Ledger,
    R: Files + Threads + Wait + Clock + RandomSource + Sync,
>(rt: &'x R, daemons: &'x Daemons<L, M>, path: &str) -> Result<(), ProgramFault> {
    let mut file = File::open(rt, path).map_err(ProgramFault::LoadUnread)?;
    let rng = make_rng(rt).map_err(|_| memory())?;
    let mut loader = Loader::open(rt, daemons, RandomIdentifiers { rng })?;
    let loaded = loader.load_all(&mut file);
    loader.close();
    loaded
}

/// Opens a session of the second database, if there is one.
fn open_second<'a, M: Ledger, R: Threads + Wait + Clock + Sync>(
    rt: &'a R,
    second: Option<&'a Second<M>>,
) -> Result<Option<LoadSession<'a, M, R>>, ProgramFault> {
    match second {
        Some(second) => Ok(Some(LoadSession::open(rt, &second.daemon)?)),
        None => Ok(None),
    }
}

impl<'a, L: Ledger, R: Threads + Wait + Clock + Sync> LoadSession<'a, L, R> {
    /// Opens a session of a database.
    fn open(rt: &'a R, daemon: &'a Daemon<L>) -> Result<LoadSession<'a, L, R>, ProgramFault> {
        let bell = silent_bell(daemon.alloc)?;
        let opened = daemon.hub.enter(rt).open(bell);
        let Ok((seat, mailbox)) = opened else {
            return Err(memory());
        };
        Ok(LoadSession {
            rt,
            daemon,
            seat,
            outbox: Outbox::new(daemon.alloc, mailbox),
            replies: Framer::new(daemon.alloc, usize::MAX),
        })
    }

    /// Ends the session.
    fn close(self) {
        let LoadSession {
            rt,
            daemon,
            seat,
            outbox: _,
            replies: _,
        } = self;
        leave_at_last(rt, daemon, seat);
    }

    /// Submits what is alone in the batch, and reads its reply. It returns why it didn't go through, if it didn't.
    fn submit(&mut self, batch: Vec<Submission>) -> Result<Option<LoadFault>, AllocError> {
        let mut batch = batch;
        let now = self.daemon.now(self.rt);
        let mut hub = self.daemon.hub.enter(self.rt);
        let submitted = hub.submit_turn(self.rt, &mut self.seat, &mut batch, now);
        drop(hub);
        if submitted.owes.is_err() || submitted.given.is_err() {
            return Err(AllocError);
        }
        self.look_at_reply()
    }

    /// Takes what the session was given, and looks whether a reply without an error is there.
    fn look_at_reply(&mut self) -> Result<Option<LoadFault>, AllocError> {
        let mut is_there = false;
        for message in self.take()? {
            if let Message::Response(response) = message {
                is_there = true;
                if let Some(error) = error_of(self.daemon.alloc, &response)? {
                    return Ok(Some(LoadFault::Refused(error)));
                }
            }
        }
        if is_there {
            Ok(None)
        } else {
            Ok(Some(LoadFault::Waits))
        }
    }

    /// Takes all messages that the session is owed.
    fn take(&mut self) -> Result<Vec<Message>, AllocError> {
        let mut text = Vec::new(self.daemon.alloc);
        for _ in 0..u64::MAX {
            let Ok(is_all) = self.outbox.write_to(&mut text) else {
                return Err(AllocError);
            };
            if is_all && !self.refill() {
                break;
            }
        }
        Ok(self.replies.feed(text.as_slice())?.messages)
    }

    /// Has what is held back sent. False says that there is nothing, or that memory was refused.
    fn refill(&self) -> bool {
        self.outbox.bell().is_held_back() && self.daemon.refill(self.rt, self.seat.session())
    }
}

impl<'a, L: Ledger, M: Ledger, R: Threads + Wait + Clock + Sync> Loader<'a, L, M, R> {
    /// Opens a session in each database.
    fn open(
        rt: &'a R,
        daemons: &'a Daemons<L, M>,
        identifiers: RandomIdentifiers,
    ) -> Result<Loader<'a, L, M, R>, ProgramFault> {
        let daemon = &daemons.first;
        let first = LoadSession::open(rt, daemon)?;
        let second = match open_second(rt, daemons.second.as_ref()) {
            Ok(second) => second,
            Err(fault) => {
                first.close();
                return Err(fault);
            }
        };
        Ok(Loader {
            first,
            second,
            other: daemons.second.as_ref(),
            front: daemons.front.as_ref(),
            framer: Framer::new(daemon.alloc, daemon.max_message),
            identifiers,
            count: 0,
        })
    }

    /// Ends the sessions.
    fn close(self) {
        let Loader {
            first,
            second,
            other: _,
            front: _,
            framer: _,
            identifiers: _,
            count: _,
        } = self;
        if let Some(second) = second {
            second.close();
        }
        first.close();
    }

    /// Submits all messages of the file.
    fn load_all<F: Read>(&mut self, file: &mut F) -> Result<(), ProgramFault> {
        let mut piece = Vec::new(self.first.daemon.alloc);
        piece.resize(FILE_PIECE, 0u8)?;
        for _ in 0..u64::MAX {
            match read_some(file, piece.as_mut_slice()).map_err(ProgramFault::LoadUnread)? {
                [] => return self.end(),
                bytes => self.take_in(bytes)?,
            }
        }
        Err(memory())
    }

    /// Submits the messages that end in these bytes.
    fn take_in(&mut self, bytes: &[u8]) -> Result<(), ProgramFault> {
        let fed = self.framer.feed(bytes)?;
        for message in fed.messages {
            let Message::Request(request) = message else {
                return Err(self.fault(LoadFault::NoRequest));
            };
            self.submit(request)?;
        }
        match fed.fault {
            None => Ok(()),
            Some(WireFault::TooLong) => Err(self.fault(LoadFault::TooLong)),
            Some(WireFault::BadStream) => Err(self.fault(LoadFault::Malformed)),
        }
    }

    /// Tells that the file ends in the middle of a message, if it does.
    fn end(&mut self) -> Result<(), ProgramFault> {
        let fed = self.framer.feed(END)?;
        if fed.fault.is_some() || fed.messages.is_empty() {
            return Err(self.fault(LoadFault::Cut));
        }
        Ok(())
    }

    /// Submits a request where it goes, and reads its reply.
    fn submit(&mut self, request: Request) -> Result<(), ProgramFault> {
        let fault = match self.destination(&request)? {
            Destination::Second => self.submit_second(request)?,
            Destination::Both => self.submit_lock(request)?,
            _ => self.submit_first(request)?,
        };
        if let Some(why) = fault {
            return Err(self.fault(why));
        }
        self.count = self.count.saturating_add(1);
        Ok(())
    }

    /// Returns where a request goes, for a connection that has named nothing.
    fn destination(&self, request: &Request) -> Result<Destination, AllocError> {
        let Some(front) = self.front else {
            return Ok(Destination::First);
        };
        let alloc = self.first.daemon.alloc;
        destination_of(alloc, request, &front.databases, &front.nothing)
    }

    fn submit_first(&mut self, request: Request) -> Result<Option<LoadFault>, AllocError> {
        let alloc = self.first.daemon.alloc;
        let batch = batch_of(alloc, submission_of(alloc, request, &mut self.identifiers)?)?;
        self.first.submit(batch)
    }

    fn submit_second(&mut self, request: Request) -> Result<Option<LoadFault>, AllocError> {
        let Some(second) = &mut self.second else {
            return Err(AllocError);
        };
        let alloc = second.daemon.alloc;
        let batch = batch_of(alloc, submission_of(alloc, request, &mut self.identifiers)?)?;
        second.submit(batch)
    }

    /// Submits a request about a lock to the first database, and the same to the second.
    fn submit_lock(&mut self, request: Request) -> Result<Option<LoadFault>, AllocError> {
        let (Some(target), Some(other)) = (&mut self.second, self.other) else {
            return Err(AllocError);
        };
        let mut same = other.request_in_place(&request, &mut self.identifiers)?;
        if let Some(submission) = same.take() {
            drop(target.submit(batch_of(target.daemon.alloc, submission)?)?);
        }
        self.submit_first(request)
    }

    /// Makes the fault of the message that is submitted next.
    fn fault(&self, why: LoadFault) -> ProgramFault {
        ProgramFault::Load(self.count.saturating_add(1), why)
    }
}

/// Makes a bell that calls nobody: what the session was given is there when a call returns.
fn silent_bell(alloc: Global) -> Result<Bell, AllocError> {
    let wakes = Arc::new(alloc, Wakes::new(alloc)?)?;
    Ok(Bell::new(wakes, 0))
}

/// Returns what is submitted, alone.
fn batch_of(alloc: Global, submission: Submission) -> Result<Vec<Submission>, AllocError> {
    let mut batch = Vec::with_capacity(alloc, 1)?;
    batch.push(submission)?;
    Ok(batch)
}

/// Reads the next bytes: none at the end.
fn read_some<'a, F: Read>(file: &mut F, piece: &'a mut [u8]) -> io::Result<&'a [u8]> {
    for _ in 0..u64::MAX {
        match file.read(piece) {
            Ok(read) => return Ok(piece.get(..read).unwrap_or(&[])),
            Err(error) if error.kind() == ErrorKind::Interrupted => {}
            Err(error) => return Err(error),
        }
    }
    Err(io::Error::from(ErrorKind::Interrupted))
}

/// Returns the text of the error of a reply, or of the first of its results that is one; none where it has none.
fn error_of(alloc: Global, response: &Response) -> Result<Option<String>, AllocError> {
    let message = response.message();
    match message.get("error") {
        Some(error) if !error.is_null() => return Ok(Some(text_of(alloc, error)?)),
        _ => {}
    }
    let Some(results) = message.get("result").and_then(Value::as_array) else {
        return Ok(None);
    };
    for result in results {
        if result.get("error").is_some() {
            return Ok(Some(text_of(alloc, result)?));
        }
    }
    Ok(None)
}

/// Returns an error's text: itself, or its members `error` and `details`.
fn text_of(alloc: Global, error: &Value) -> Result<String, AllocError> {
    if let Some(text) = error.as_str() {
        return String::from_str(alloc, text);
    }
    let name = error
        .get("error")
        .and_then(Value::as_str)
        .unwrap_or("unknown error");
    match error.get("details").and_then(Value::as_str) {
        Some(details) => format!(in alloc; "{name}: {details}"),
        None => String::from_str(alloc, name),
    }
}

fn memory() -> ProgramFault {
    ProgramFault::Run(RunFault::Memory)
}
